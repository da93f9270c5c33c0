//! Runs the command that the arguments of `mtx` give, and returns the program's exit status.

ghost use Rattle.std.specs.Prelude.{◌≡◌, ◌≢◌, ◌≤◌, ◌⊎◌, IfOk, IfErr, IsTrue, Err, List, [], drop};
ghost use Rattle.std.specs.Prelude.{length, map, string_bytes};
ghost use Rattle.std.specs.IoError.{error_kind};
ghost use Rattle.std.specs.Process.{exit_status};
ghost use Rattle.std.specs.Vec.Iter.{into_iter_items};
ghost use Rattle.nalgebra_sparse.specs.PostfixWords.{texts};
ghost use Rattle.nalgebra_sparse.specs.Run.{effect};
ghost use Rattle.sparse_expr.specs.declared.error.ExprError.TheVariants.{OutOfMemory};
ghost use Rattle.file_readings.specs.Readings.{Reading};
ghost use Rattle.mtx_commands.specs.Commands.{status_of, argument_fault, IsCommand};
ghost use Rattle.mtx_commands.specs.Outcomes.{EndsProgram};
ghost use Rattle.mtx_commands.specs.Reports.{IsReported};
ghost use Rattle.mtx_commands.specs.declared.cli.Failure.TheVariants.{Refused};

use crate::cli::{Failure, command_over, finish};
use crate::error_lines::report;
use crate::inputs::Inputs;
use file_readings::Texts;
use nalgebra_sparse::expr::ExprError;
use nalgebra_sparse::io::{Out, Sink};
use std::alloc::{AllocError, Global};
use std::env::Args;
use std::io;
use std::process::ExitCode;
use std::rt::Files;

/// Runs the command that the arguments give, and returns the exit status. The result is written to `out`, the line of
/// an error to `err`.
///
/// The first argument is the program's name. An argument that is not UTF-8 is wrong usage. At status 0 the result was
/// written and the output flushed; a failed flush is reported as a failed write. At another status nothing or a part of
/// the result was written, and a line to `err`, unless a write of it failed. The status is 2 exactly if the arguments
/// are not a command, unless an allocation failed before they were compared with the commands.
pub fn answer<R, W, E>(
    rt: &R,
    arguments: io::Result<Args>,
    out: &mut Out<W>,
    err: &mut E,
) -> ExitCode
where
    R: Files + AllocGlobal,
    W: io::Write,
    E: Sink,
    ensures status { exit_status result ≤ 2 }
    ensures ended { IfOk arguments (λ words. (after : List Reading)
        × EndsProgram (drop 1 (map string_bytes (into_iter_items words))) [] after
        (effect (W.contents out.old.inner) (W.contents out.new.inner)
        out.old.failures out.new.failures out.new.last)
        (effect (E.accepted err.old) (E.accepted err.new)
        (E.failures err.old) (E.failures err.new) (E.last err.new)) (exit_status result)) }
    ensures usage { IfOk arguments (λ words. exit_status result ≡ 2
        → ¬ IsCommand (drop 1 (map string_bytes (into_iter_items words)))) }
    ensures no_command { IfOk arguments (λ words.
        ¬ IsCommand (drop 1 (map string_bytes (into_iter_items words)))
        → (exit_status result ≡ 2) ⊎ ((exit_status result ≡ 1)
        × IsReported (Refused OutOfMemory) (E.accepted err.old) (E.accepted err.new)
        (E.failures err.old) (E.failures err.new))) }
    ensures flushed { exit_status result ≡ 0 → IsTrue out.new.flushed }
    ensures silent { exit_status result ≡ 0 → E.accepted err.new ≡ E.accepted err.old }
    ensures unanswered { exit_status result ≡ 2
        → W.contents out.new.inner ≡ W.contents out.old.inner }
    ensures unread { IfErr arguments
        (λ e. exit_status result ≡ status_of (argument_fault (error_kind e))) }
    ensures unread_reported { IfErr arguments (λ e. IsReported (argument_fault (error_kind e))
        (E.accepted err.old) (E.accepted err.new) (E.failures err.old) (E.failures err.new)) }
    ensures unread_unanswered { IfErr arguments
        (λ _. W.contents out.new.inner ≡ W.contents out.old.inner) }
{
    let mut inputs = Inputs::new(rt);
    exit_code(run_args(rt.alloc(), &mut inputs, arguments, out, err))
}

// Returns an exit status in the type of the runtime.
fn exit_code(status: u8) -> ExitCode
    ensures { exit_status result ≡ status }
{
    ExitCode::from(status)
}

// Runs the command that the arguments give, reports a failure, and returns the status. At status 0 the output was
// flushed.
fn run_args<T, W, E>(
    alloc: Global,
    inputs: &mut T,
    arguments: io::Result<Args>,
    out: &mut Out<W>,
    err: &mut E,
) -> u8
where
    T: Texts,
    W: io::Write,
    E: Sink,
    ensures status { result ≤ 2 }
    ensures ended { IfOk arguments (λ words.
        EndsProgram (drop 1 (map string_bytes (into_iter_items words)))
        (T.readings inputs.old) (T.readings inputs.new)
        (effect (W.contents out.old.inner) (W.contents out.new.inner)
        out.old.failures out.new.failures out.new.last)
        (effect (E.accepted err.old) (E.accepted err.new)
        (E.failures err.old) (E.failures err.new) (E.last err.new)) result) }
    ensures usage { IfOk arguments (λ words. result ≡ 2
        → ¬ IsCommand (drop 1 (map string_bytes (into_iter_items words)))) }
    ensures no_command { IfOk arguments (λ words.
        ¬ IsCommand (drop 1 (map string_bytes (into_iter_items words)))
        → (result ≡ 2) ⊎ ((result ≡ 1) × IsReported (Refused OutOfMemory) (E.accepted err.old)
        (E.accepted err.new) (E.failures err.old) (E.failures err.new))) }
    ensures flushed { result ≡ 0 → IsTrue out.new.flushed }
    ensures silent { result ≡ 0 → E.accepted err.new ≡ E.accepted err.old }
    ensures unanswered { result ≡ 2 → W.contents out.new.inner ≡ W.contents out.old.inner }
    ensures unread { IfErr arguments (λ e. result ≡ status_of (argument_fault (error_kind e))) }
    ensures unread_reported { IfErr arguments (λ e. IsReported (argument_fault (error_kind e))
        (E.accepted err.old) (E.accepted err.new) (E.failures err.old) (E.failures err.new)) }
    ensures unread_unanswered { IfErr arguments
        (λ _. W.contents out.new.inner ≡ W.contents out.old.inner) }
{
    match given_words(alloc, arguments) {
        Ok(words) => run_words(alloc, inputs, &words, out, err),
        Err(failure) => report(alloc, failure, err),
    }
}

// Runs the command that the arguments give, of which the first is the program's name. At status 0 the output was
// flushed.
fn run_words<T, W, E>(
    alloc: Global,
    inputs: &mut T,
    words: &[String],
    out: &mut Out<W>,
    err: &mut E,
) -> u8
where
    T: Texts,
    W: io::Write,
    E: Sink,
    ensures status { result ≤ 2 }
    ensures ended { EndsProgram (drop 1 (map string_bytes words.now))
        (T.readings inputs.old) (T.readings inputs.new)
        (effect (W.contents out.old.inner) (W.contents out.new.inner)
        out.old.failures out.new.failures out.new.last)
        (effect (E.accepted err.old) (E.accepted err.new)
        (E.failures err.old) (E.failures err.new) (E.last err.new)) result }
    ensures usage { result ≡ 2 → ¬ IsCommand (drop 1 (map string_bytes words.now)) }
    ensures no_command { ¬ IsCommand (drop 1 (map string_bytes words.now))
        → (result ≡ 2) ⊎ ((result ≡ 1) × IsReported (Refused OutOfMemory) (E.accepted err.old)
        (E.accepted err.new) (E.failures err.old) (E.failures err.new)) }
    ensures flushed { result ≡ 0 → IsTrue out.new.flushed }
    ensures silent { result ≡ 0 → E.accepted err.new ≡ E.accepted err.old }
    ensures unanswered { result ≡ 2 → W.contents out.new.inner ≡ W.contents out.old.inner }
{
    let Ok(views) = views_of(alloc, words) else {
        return report(alloc, Failure::Refused(ExprError::OutOfMemory), err);
    };
    match command_over(alloc, inputs, after_name(&views), out, err) {
        0 => finish(alloc, out, err),
        status => status,
    }
}

// Returns the strings as a list of `&str`.
fn views_of(alloc: Global, strings: &[String]) -> Result<Vec<&str>, AllocError>
    ensures one_each { IfOk result (λ views. length views.items ≡ length strings.now) }
    ensures same { IfOk result (λ views. texts views.items ≡ map string_bytes strings.now) }
{
    strings.iter().map(|text| text.as_str()).collect(alloc)
}

// Returns the words after the program's name, which is the first.
fn after_name<'w, 'a>(words: &'w [&'a str]) -> &'w [&'a str]
    ensures { texts result.now ≡ drop 1 (texts words.now) }
{
    match words {
        [_, rest @ ..] => rest,
        [] => words,
    }
}

// Returns the arguments, or why they cannot be read.
fn given_words(alloc: Global, arguments: io::Result<Args>) -> Result<Vec<String>, Failure>
    ensures given { IfOk arguments (λ args. IfOk result
        (λ words. words.items ≡ into_iter_items args)) }
    ensures refused { IfOk arguments (λ _. IfErr result (λ e. e ≡ Refused OutOfMemory)) }
    ensures unread { IfErr arguments (λ e. result ≡ Err (argument_fault (error_kind e))) }
{
    match arguments {
        Ok(arguments) => listed(alloc, arguments),
        Err(error) => Err(unread_arguments(error.kind())),
    }
}

// Returns the arguments in order.
fn listed(alloc: Global, arguments: Args) -> Result<Vec<String>, Failure>
    ensures given { IfOk result (λ words. words.items ≡ into_iter_items arguments) }
    ensures refused { IfErr result (λ e. e ≡ Refused OutOfMemory) }
{
    let mut words = Vec::with_capacity(alloc, arguments.len())?;
    for word in arguments {
        words.push(word)?;
    }
    Ok(words)
}

// Returns the failure for an error in reading the arguments.
fn unread_arguments(kind: io::ErrorKind) -> Failure
    ensures { result ≡ argument_fault kind }
{
    match kind {
        io::ErrorKind::OutOfMemory => Failure::Refused(ExprError::OutOfMemory),
        _ => Failure::Usage,
    }
}
