//! Runs the command that the arguments of `mtxkit` give, and returns the program's exit status.

ghost use Rattle.std.specs.Prelude.{◌≡◌, ◌≢◌, IfErr, IsTrue, None, List, []};
ghost use Rattle.std.specs.IoError.{error_kind};
ghost use Rattle.std.specs.Process.{exit_status};
ghost use Rattle.file_readings.specs.Readings.{Reading};
ghost use Rattle.mtxkit_arguments.specs.Explained.{HasMessage};
ghost use Rattle.mtxkit_arguments.specs.Given.{argument_fault};
ghost use Rattle.mtxkit_arguments.specs.Words.{IsGiven};
ghost use Rattle.mtxkit_arguments.specs.declared.commands.Command.{Command};
ghost use Rattle.mtxkit_commands.specs.Outcomes.{HasAnswered, HasFlushedAnswer};
ghost use Rattle.mtxkit_commands.specs.Outcomes.{IsAnswered, IsStatus};
ghost use Rattle.mtxkit_commands.specs.Reports.{HasReport, IsReported, Tells};
ghost use Rattle.mtxkit_commands.specs.Savings.{Saving};
ghost use Rattle.mtxkit_commands.specs.Usage.{AppendsHelp, argument_status, IsExplainedAt};
ghost use Rattle.mtxkit_commands.specs.Usage.{WritesMistake};

use crate::cli::{finish, run};
use crate::failure_lines::{report, report_write, write_message};
use crate::inputs::Inputs;
use crate::outputs::{Outputs, Saves};
use crate::unread::report_unread;
use file_readings::Texts;
use mtxkit_arguments::{ArgMatches, Explanation, command_of, given_words, parse};
use mtxkit_texts::{Failure, Screen};
use sparse_io::{Out, Sink, write_all_to};
use std::alloc::Global;
use std::env::Args;
use std::io;
use std::process::ExitCode;
use std::rt::Files;

/// Runs the command that the arguments give, and returns the exit status. The file `-` is read from `stdin`.
///
/// The first argument is the program's name. An argument that is not UTF-8 is wrong usage. The result and help are
/// written to `out`. At status 0 the output was flushed; a failed flush is reported as a failed write. At status 141 the
/// reader of the output has closed it, and nothing was written to `err`. At another status a line was written to `err`,
/// unless a write of it failed. The screen shows the progress of reading large files.
pub fn answer<R, I, W, E, S>(
    rt: &R,
    arguments: io::Result<Args>,
    stdin: I,
    out: &mut Out<W>,
    err: &mut E,
    screen: Screen<S>,
) -> ExitCode
where
    R: Files + AllocGlobal,
    I: io::Read + Drop,
    W: io::Write,
    E: Sink,
    S: io::Write + Drop,
    ensures status { IsStatus (exit_status result) }
    ensures flushed { exit_status result ≡ 0 → IsTrue out.new.flushed }
    ensures answered { exit_status result ≡ 0 → (readings : List Reading)
        × (savings : List Saving) × HasFlushedAnswer [] readings [] savings
        (W.contents out.old.inner) (W.contents out.new.inner) }
    ensures tells { Tells HasReport (exit_status result) (E.accepted err.old) (E.accepted err.new)
        (E.failures err.old) (E.failures err.new) }
    ensures unanswered { exit_status result ≡ 2 → out.new.failures ≡ out.old.failures
        → W.contents out.new.inner ≡ W.contents out.old.inner }
    ensures unread { IfErr arguments
        (λ e. exit_status result ≡ argument_status (argument_fault (error_kind e))) }
{
    let (mut stdin, mut screen) = (stdin, screen);
    let mut texts = Inputs::new(rt, &mut stdin, &mut screen);
    let mut files = Outputs::new(rt);
    exit_code(run_args(rt.alloc(), arguments, &mut texts, &mut files, out, err))
}

// Returns an exit status in the type of the runtime.
fn exit_code(status: u8) -> ExitCode
    ensures { exit_status result ≡ status }
{
    ExitCode::from(status)
}

// Runs the command that the arguments give, reports a failure, and returns the status.
fn run_args<T, F, W, E>(
    alloc: Global,
    arguments: io::Result<Args>,
    texts: &mut T,
    files: &mut F,
    out: &mut Out<W>,
    err: &mut E,
) -> u8
where
    T: Texts,
    F: Saves,
    W: io::Write,
    E: Sink,
    ensures status { IsStatus result }
    ensures flushed { result ≡ 0 → IsTrue out.new.flushed }
    ensures answered { result ≡ 0 → HasFlushedAnswer (T.readings texts.old)
        (T.readings texts.new) (F.savings files.old) (F.savings files.new)
        (W.contents out.old.inner) (W.contents out.new.inner) }
    ensures tells { Tells HasReport result (E.accepted err.old) (E.accepted err.new)
        (E.failures err.old) (E.failures err.new) }
    ensures unanswered { result ≡ 2 → out.new.failures ≡ out.old.failures
        → W.contents out.new.inner ≡ W.contents out.old.inner }
    ensures unread { IfErr arguments
        (λ e. result ≡ argument_status (argument_fault (error_kind e))) }
{
    match given_words(alloc, arguments) {
        Ok(words) => run_flushed(alloc, &words, texts, files, out, err),
        Err(error) => report_unread(error, err),
    }
}

// Runs the command that the arguments give. At status 0 the output was flushed.
fn run_flushed<T, F, W, E>(
    alloc: Global,
    words: &[String],
    texts: &mut T,
    files: &mut F,
    out: &mut Out<W>,
    err: &mut E,
) -> u8
where
    T: Texts,
    F: Saves,
    W: io::Write,
    E: Sink,
    ensures status { IsStatus result }
    ensures flushed { result ≡ 0 → IsTrue out.new.flushed }
    ensures answered { result ≡ 0 → HasFlushedAnswer (T.readings texts.old)
        (T.readings texts.new) (F.savings files.old) (F.savings files.new)
        (W.contents out.old.inner) (W.contents out.new.inner) }
    ensures tells { Tells HasReport result (E.accepted err.old) (E.accepted err.new)
        (E.failures err.old) (E.failures err.new) }
    ensures unanswered { result ≡ 2 → out.new.failures ≡ out.old.failures
        → W.contents out.new.inner ≡ W.contents out.old.inner }
{
    match run_words(alloc, words, texts, files, out, err) {
        0 => finish(alloc, out, err),
        status => status,
    }
}

// Runs the command that the arguments give, without a flush of the output.
fn run_words<T, F, W, E>(
    alloc: Global,
    words: &[String],
    texts: &mut T,
    files: &mut F,
    out: &mut W,
    err: &mut E,
) -> u8
where
    T: Texts,
    F: Saves,
    W: Sink,
    E: Sink,
    ensures status { IsStatus result }
    ensures answered { result ≡ 0 → HasAnswered (T.readings texts.old) (T.readings texts.new)
        (F.savings files.old) (F.savings files.new) (W.accepted out.old) (W.accepted out.new) }
    ensures tells { Tells HasReport result (E.accepted err.old) (E.accepted err.new)
        (E.failures err.old) (E.failures err.new) }
    ensures unanswered { result ≢ 0 → W.failures out.new ≡ W.failures out.old
        → W.accepted out.new ≡ W.accepted out.old }
{
    match parse(alloc, words) {
        Ok(matches) => run_matched(alloc, &matches, texts, files, out, err),
        Err(explanation) => explain(alloc, &explanation, out, err),
    }
}

// Runs the command that `clap` matched, without a flush of the output.
fn run_matched<T, F, W, E>(
    alloc: Global,
    matches: &ArgMatches<'_>,
    texts: &mut T,
    files: &mut F,
    out: &mut W,
    err: &mut E,
) -> u8
where
    T: Texts,
    F: Saves,
    W: Sink,
    E: Sink,
    ensures status { IsStatus result }
    ensures answered { result ≡ 0 → (command : Command) × IsGiven matches.now command
        × IsAnswered command (T.readings texts.old) (T.readings texts.new) (F.savings files.old)
        (F.savings files.new) (W.accepted out.old) (W.accepted out.new) }
    ensures tells { Tells HasReport result (E.accepted err.old) (E.accepted err.new)
        (E.failures err.old) (E.failures err.new) }
    ensures unanswered { result ≢ 0 → W.failures out.new ≡ W.failures out.old
        → W.accepted out.new ≡ W.accepted out.old }
{
    match command_of(matches) {
        Some(command) => run(alloc, command, texts, files, out, err),
        None => report(alloc, None, Failure::Usage, err),
    }
}

// Writes what is said in place of running a command, and returns the exit status: help is written to `out`, with status
// 0, and a mistake in the arguments to `err`, with status 2, each as it is.
fn explain<W: Sink, E: Sink>(
    alloc: Global,
    explanation: &Explanation,
    out: &mut W,
    err: &mut E,
) -> u8
    requires { HasMessage explanation.now }
    ensures status { IsStatus result }
    ensures explained { IsExplainedAt explanation.now result }
    ensures answered { result ≡ 0
        → AppendsHelp explanation.now (W.accepted out.old) (W.accepted out.new) }
    ensures mistaken { result ≡ 2 → WritesMistake explanation.now (E.accepted err.old)
        (E.accepted err.new) (E.failures err.old) (E.failures err.new) }
    ensures tells { Tells (IsReported None) result (E.accepted err.old) (E.accepted err.new)
        (E.failures err.old) (E.failures err.new) }
    ensures unanswered { result ≢ 0 → W.failures out.new ≡ W.failures out.old
        → W.accepted out.new ≡ W.accepted out.old }
{
    match explanation {
        Explanation::Help(text) => match write_all_to(out, text.as_bytes()) {
            Ok(()) => 0,
            Err(kind) => report_write(alloc, kind, err),
        },
        Explanation::Mistake(text) => {
            write_message(text.as_bytes(), err);
            2
        }
        Explanation::OutOfMemory => report(alloc, None, Failure::OutOfMemory, err),
    }
}
