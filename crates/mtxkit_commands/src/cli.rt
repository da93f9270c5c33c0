//! Runs commands.

ghost use Rattle.std.specs.Prelude.{◌≡◌, ◌≢◌, ◌≤◌, ◌⊎◌, ◌↔◌, ◌∷◌, None, Err, false};
ghost use Rattle.std.specs.Prelude.{OnOk, OnErr, IfOk, IfErr, IsOk, IsTrue};
ghost use Rattle.std.specs.Io.KnownBytes.{Appends, Keeps};
ghost use Rattle.mtxkit_arguments.specs.Files.{is_saved};
ghost use Rattle.mtxkit_arguments.specs.Sizes.{IsSized};
ghost use Rattle.mtxkit_commands.specs.Outcomes.{IsAnswered, IsUnsaved, IsOutputFailure};
ghost use Rattle.mtxkit_commands.specs.Outcomes.{IsStatus, CanFail, error_status};
ghost use Rattle.mtxkit_commands.specs.Reports.{HasReport, IsErrorReported, IsReported, Tells};
ghost use Rattle.mtxkit_commands.specs.declared.command_error.CommandError.{CommandError};
ghost use Rattle.mtxkit_texts.specs.declared.failure.Failure.TheVariants.{Unsaved};

use crate::answers::answer_of;
use crate::command_error::CommandError;
use crate::evaluated::report_unevaluated;
use crate::failure_lines::report_write;
use crate::fault_files::report_failure;
use crate::orders::{order_number, report_misordered};
use crate::outputs::Saves;
use crate::scaled::report_unscaled;
use file_readings::Texts;
use mtxkit_arguments::Command;
use mtxkit_texts::Failure;
use sparse_io::{Out, Sink, write_all_to};
use std::alloc::Global;
use std::io;

/// Runs a command and returns its exit status. The size of a picture must not be 0.
///
/// The result is written to `out`, or to the file that the command names. At the statuses 1 and 2 one line is written
/// to `err`; an error in writing that line is ignored. The status is 141, and nothing is written to `err`, exactly where
/// a write to `out` failed because its reader has closed it. All files are read before anything is written.
pub fn run<T, F, W, E>(
    alloc: Global,
    command: Command<'_>,
    texts: &mut T,
    files: &mut F,
    out: &mut W,
    err: &mut E,
) -> u8
where
    T: Texts,
    F: Saves,
    W: Sink,
    E: Sink,
    requires { IsSized command }
    ensures status { IsStatus result }
    ensures answered { result ≡ 0 → IsAnswered command.entry (T.readings texts.old)
        (T.readings texts.new) (F.savings files.old) (F.savings files.new) (W.accepted out.old)
        (W.accepted out.new) }
    ensures unsaved { is_saved command.entry ≡ false
        → F.savings files.new ≡ F.savings files.old }
    ensures unfailed { result ≡ 0 → W.failures out.new ≡ W.failures out.old }
    ensures failed { result ≢ 0 → (error : CommandError)
        × CanFail command.entry (T.readings texts.old) (T.readings texts.new)
        (W.failures out.old) (W.failures out.new) (W.last out.new) error
        × (result ≡ error_status error)
        × IsErrorReported command.entry error (E.accepted err.old) (E.accepted err.new)
        (E.failures err.old) (E.failures err.new) }
    ensures tells { Tells HasReport result (E.accepted err.old) (E.accepted err.new)
        (E.failures err.old) (E.failures err.new) }
    ensures unanswered { result ≢ 0 → W.failures out.new ≡ W.failures out.old
        → W.accepted out.new ≡ W.accepted out.old }
{
    match try_run(alloc, command, texts, files, out) {
        Ok(()) => 0,
        Err(error) => report_error(alloc, command, error, err),
    }
}

// Writes the line of a command's error, and returns the error's exit status. An error in writing the line is ignored.
fn report_error<E: Sink>(
    alloc: Global,
    command: Command<'_>,
    error: CommandError,
    err: &mut E,
) -> u8
    ensures status { result ≡ error_status error }
    ensures reported { IsErrorReported command.entry error (E.accepted err.old)
        (E.accepted err.new) (E.failures err.old) (E.failures err.new) }
{
    match error {
        CommandError::Failed(failure) => report_failure(alloc, command, failure, err),
        CommandError::Unscaled(error, least) => {
            report_unscaled(alloc, command.first_file(), error, least, err)
        }
        CommandError::Misordered(error) => {
            report_misordered(alloc, command.file(order_number(error)), error, err)
        }
        CommandError::Unevaluated(error) => report_unevaluated(alloc, error, err),
        CommandError::Unwritten(kind) => report_write(alloc, kind, err),
    }
}

// Runs a command, without a report of its error.
fn try_run<T, F, W>(
    alloc: Global,
    command: Command<'_>,
    texts: &mut T,
    files: &mut F,
    out: &mut W,
) -> Result<(), CommandError>
where
    T: Texts,
    F: Saves,
    W: Sink,
    requires { IsSized command }
    ensures failed { IfErr result (CanFail command.entry (T.readings texts.old)
        (T.readings texts.new) (W.failures out.old) (W.failures out.new) (W.last out.new)) }
    ensures answered { OnOk result (IsAnswered command.entry (T.readings texts.old)
        (T.readings texts.new) (F.savings files.old) (F.savings files.new) (W.accepted out.old)
        (W.accepted out.new)) }
    ensures unsaved { is_saved command.entry ≡ false
        → F.savings files.new ≡ F.savings files.old }
    ensures unfailed { OnOk result (W.failures out.new ≡ W.failures out.old) }
    ensures unanswered { OnErr result (W.failures out.new ≡ W.failures out.old
        → W.accepted out.new ≡ W.accepted out.old) }
{
    let answer = answer_of(alloc, command, texts)?;
    match command.path() {
        Some(path) => Ok(save(files, path, &answer)?),
        None => write_text(out, &answer),
    }
}

// Creates or truncates the file, and writes the text to it.
fn save<F: Saves>(files: &mut F, path: &str, text: &[u8]) -> Result<(), Failure>
    ensures handed { F.savings files.new ≡ (path.now, text.now) ∷ F.savings files.old }
    ensures failed { IfErr result IsUnsaved }
{
    saved(files.save(path, text))
}

// Returns the failure for an error in creating or writing the file, if there was one.
fn saved(written: io::Result<()>) -> Result<(), Failure>
    ensures saved { IfOk written (λ _. IsOk result) }
    ensures unsaved { IfErr written (λ error. result ≡ Err (Unsaved error)) }
{
    match written {
        Ok(()) => Ok(()),
        Err(error) => Err(Failure::Unsaved(error)),
    }
}

// Writes the text to the output.
fn write_text<W: Sink>(out: &mut W, text: &[u8]) -> Result<(), CommandError>
    ensures written { OnOk result (Appends (W.accepted out.old) (W.accepted out.new) text.now) }
    ensures unfailed { OnOk result (W.failures out.new ≡ W.failures out.old) }
    ensures failed { OnErr result (W.failures out.new ≢ W.failures out.old) }
    ensures unwritten { IfErr result
        (IsOutputFailure (W.failures out.old) (W.failures out.new) (W.last out.new)) }
{
    match write_all_to(out, text) {
        Ok(()) => Ok(()),
        Err(kind) => Err(CommandError::Unwritten(kind)),
    }
}

/// Flushes the output of a command and returns the exit status. A failed flush is reported as a failed write: at status
/// 141, where the reader of the output has closed it, by no line.
pub fn finish<W, E>(alloc: Global, out: &mut Out<W>, err: &mut E) -> u8
where
    W: io::Write,
    E: Sink,
    ensures status { (result ≤ 1) ⊎ (result ≡ 141) }
    ensures flushed { (result ≡ 0) ↔ IsTrue out.new.flushed }
    ensures unfailed { out.new.failures ≡ out.old.failures }
    ensures kept { Keeps (W.contents out.old.inner) (W.contents out.new.inner) }
    ensures tells { Tells (IsReported None) result (E.accepted err.old) (E.accepted err.new)
        (E.failures err.old) (E.failures err.new) }
{
    match out.flush() {
        Ok(()) => 0,
        Err(kind) => report_write(alloc, kind, err),
    }
}
