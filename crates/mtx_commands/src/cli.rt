//! The commands of `mtx`.

ghost use Rattle.std.specs.Prelude.{◌≡◌, ◌≢◌, ◌≤◌, ◌↔◌, List, [], None, OnOk, OnErr};
ghost use Rattle.std.specs.Prelude.{IfErr, IfSome, IsTrue};
ghost use Rattle.std.specs.Io.KnownBytes.{Keeps};
ghost use Rattle.std.specs.declared.io.ErrorKind.{ErrorKind};
ghost use Rattle.nalgebra_sparse.specs.PostfixWords.{texts};
ghost use Rattle.nalgebra_sparse.specs.Run.{effect};
ghost use Rattle.sparse_expr.specs.declared.calculator.Form.{Form};
ghost use Rattle.sparse_expr.specs.declared.error.ExprError.TheVariants.{OutOfMemory, Write};
ghost use Rattle.sparse_factor.specs.declared.factorization.Triangle.{Triangle};
ghost use Rattle.file_readings.specs.Readings.{Reading};
ghost use Rattle.mtx_commands.specs.Commands.{IsAnswered, IsCommand, name_of};
ghost use Rattle.mtx_commands.specs.Commands.{triangle_name, status_of};
ghost use Rattle.mtx_commands.specs.Failures.{CanFail};
ghost use Rattle.mtx_commands.specs.Outcomes.{EndsCommand, HasFailed};
ghost use Rattle.mtx_commands.specs.Reports.{IsReported};
ghost use Rattle.mtx_commands.specs.Writes.{FailsOnce, HasBegun};
ghost use Rattle.mtx_commands.specs.declared.cli.Failure.TheVariants.{Refused};

use crate::error_lines::report;
use crate::evaluate::evaluate;
use crate::fill::fill;
use crate::inputs::Inputs;
use file_readings::Texts;
use nalgebra_sparse::expr::{ExprError, Form};
use nalgebra_sparse::factorization::Triangle;
use nalgebra_sparse::io::{Out, Sink};
use std::alloc::{AllocError, AllocFailed, Global};
use std::io::Write;
use std::rt::Files;

/// Why a command fails.
#[derive(Clone, Copy, Debug)]
pub enum Failure {
    /// The arguments are not a command.
    Usage,
    /// The matrix to factor is not square.
    NotSquare,
    /// An error of an input, of the expression, of a write or of an allocation.
    Refused(ExprError),
}

impl Failure {
    /// Returns the exit status: 2 for wrong usage, and otherwise 1.
    pub(crate) fn status(self) -> u8
        ensures { result ≡ status_of self }
    {
        match self {
            Failure::Usage => 2,
            Failure::NotSquare => 1,
            Failure::Refused(_) => 1,
        }
    }
}

impl From<ExprError> for Failure {
    ghost from_gives = { λ error failure. failure ≡ Refused error };

    fn from(error: ExprError) -> Failure {
        Failure::Refused(error)
    }
}

impl From<AllocError> for Failure {
    ghost from_gives = { λ _ failure. failure ≡ Refused OutOfMemory };

    fn from(_refused: AllocError) -> Failure {
        Failure::Refused(ExprError::OutOfMemory)
    }
}

impl<T: Drop> From<AllocFailed<T>> for Failure {
    ghost from_gives = { λ _ failure. failure ≡ Refused OutOfMemory };

    fn from(_refused: AllocFailed<T>) -> Failure {
        Failure::Refused(ExprError::OutOfMemory)
    }
}

/// Runs a command over the files of the system, as [`command_over`] does, and returns its exit status.
pub fn command<R, W, E>(rt: &R, words: &[&str], out: &mut W, err: &mut E) -> u8
where
    R: Files + AllocGlobal,
    W: Sink,
    E: Sink,
    ensures status { result ≤ 2 }
    ensures ended { (after : List Reading) × EndsCommand (texts words.now) [] after
        (effect (W.accepted out.old) (W.accepted out.new)
        (W.failures out.old) (W.failures out.new) (W.last out.new))
        (effect (E.accepted err.old) (E.accepted err.new)
        (E.failures err.old) (E.failures err.new) (E.last err.new)) result }
    ensures unfailed { result ≡ 0 → W.failures out.new ≡ W.failures out.old }
    ensures fails_once { result ≢ 0 → FailsOnce (W.failures out.old) (W.failures out.new) }
    ensures silent { result ≡ 0 → E.accepted err.new ≡ E.accepted err.old }
    ensures quiet { result ≡ 0 → E.failures err.new ≡ E.failures err.old }
    ensures unanswered { result ≡ 2 → W.accepted out.new ≡ W.accepted out.old }
    ensures usage { (result ≡ 2) ↔ ¬ IsCommand (texts words.now) }
{
    let mut inputs = Inputs::new(rt);
    command_over(rt.alloc(), &mut inputs, words, out, err)
}

/// Runs a command and returns its exit status.
///
/// The status is 2 exactly if the words are not a command. The result is written to `out`. At a status other than 0 one
/// line is written to `err`, and nothing or a part of the result to `out`; an error in writing that line is ignored. The
/// files are read in order, all before anything is written, and no other file is.
pub fn command_over<T, W, E>(
    alloc: Global,
    inputs: &mut T,
    words: &[&str],
    out: &mut W,
    err: &mut E,
) -> u8
where
    T: Texts,
    W: Sink,
    E: Sink,
    ensures status { result ≤ 2 }
    ensures answered { result ≡ 0 → IsAnswered (texts words.now) (T.readings inputs.old)
        (T.readings inputs.new) (W.accepted out.old) (W.accepted out.new) }
    ensures begun { result ≢ 0 → HasBegun (IsAnswered (texts words.now) (T.readings inputs.old)
        (T.readings inputs.new)) (W.accepted out.old) (W.accepted out.new) }
    ensures failed { result ≢ 0 → HasFailed (CanFail (texts words.now) (T.readings inputs.old)
        (T.readings inputs.new) (effect (W.accepted out.old) (W.accepted out.new)
        (W.failures out.old) (W.failures out.new) (W.last out.new)))
        (effect (E.accepted err.old) (E.accepted err.new)
        (E.failures err.old) (E.failures err.new) (E.last err.new)) result }
    ensures unfailed { result ≡ 0 → W.failures out.new ≡ W.failures out.old }
    ensures fails_once { result ≢ 0 → FailsOnce (W.failures out.old) (W.failures out.new) }
    ensures silent { result ≡ 0 → E.accepted err.new ≡ E.accepted err.old }
    ensures quiet { result ≡ 0 → E.failures err.new ≡ E.failures err.old }
    ensures unanswered { result ≡ 2 → W.accepted out.new ≡ W.accepted out.old }
    ensures usage { (result ≡ 2) ↔ ¬ IsCommand (texts words.now) }
{
    match run(alloc, inputs, words, out) {
        Ok(()) => 0,
        Err(failure) => report(alloc, failure, err),
    }
}

// Runs a command, without a report of its failure.
fn run<T, W>(alloc: Global, inputs: &mut T, words: &[&str], out: &mut W) -> Result<(), Failure>
where
    T: Texts,
    W: Sink,
    ensures answered { OnOk result (IsAnswered (texts words.now) (T.readings inputs.old)
        (T.readings inputs.new) (W.accepted out.old) (W.accepted out.new)) }
    ensures begun { OnErr result (HasBegun (IsAnswered (texts words.now) (T.readings inputs.old)
        (T.readings inputs.new)) (W.accepted out.old) (W.accepted out.new)) }
    ensures unfailed { OnOk result (W.failures out.new ≡ W.failures out.old) }
    ensures failed { IfErr result (CanFail (texts words.now) (T.readings inputs.old)
        (T.readings inputs.new) (effect (W.accepted out.old) (W.accepted out.new)
        (W.failures out.old) (W.failures out.new) (W.last out.new))) }
{
    match words {
        ["fill", path] => fill(alloc, inputs, Triangle::Upper, path, out),
        ["fill", name, path] => match triangle_of(name) {
            Some(triangle) => fill(alloc, inputs, triangle, path, out),
            None => Err(Failure::Usage),
        },
        [order, expression, paths @ ..] if !paths.is_empty() => match form_of(order) {
            Some(form) => evaluate(alloc, inputs, form, expression, paths, out),
            None => Err(Failure::Usage),
        },
        _ => Err(Failure::Usage),
    }
}

// Returns the order of the result, row by row or column by column, that the first word names.
fn form_of(word: &str) -> Option<Form>
    ensures named { IfSome result (λ form. word.now ≡ name_of form) }
    ensures unnamed { result ≡ None → (form : Form) → word.now ≢ name_of form }
{
    match word {
        "rows" => Some(Form::Rows),
        "cols" => Some(Form::Cols),
        _ => None,
    }
}

// Returns the triangle that the word before the file names.
fn triangle_of(word: &str) -> Option<Triangle>
    ensures named { IfSome result (λ triangle. word.now ≡ triangle_name triangle) }
    ensures unnamed { result ≡ None → (triangle : Triangle) → word.now ≢ triangle_name triangle }
{
    match word {
        "upper" => Some(Triangle::Upper),
        "lower" => Some(Triangle::Lower),
        "both" => Some(Triangle::Both),
        _ => None,
    }
}

/// Flushes the output of a command and returns the exit status. A failed flush is reported as a failed write.
pub fn finish<W, E>(alloc: Global, out: &mut Out<W>, err: &mut E) -> u8
where
    W: Write,
    E: Sink,
    ensures status { result ≤ 1 }
    ensures flushed { (result ≡ 0) ↔ IsTrue out.new.flushed }
    ensures kept { Keeps (W.contents out.old.inner) (W.contents out.new.inner) }
    ensures unfailed { out.new.failures ≡ out.old.failures }
    ensures silent { result ≡ 0 → E.accepted err.new ≡ E.accepted err.old }
    ensures reported { result ≢ 0 → (kind : ErrorKind) × IsReported (Refused (Write kind))
        (E.accepted err.old) (E.accepted err.new) (E.failures err.old) (E.failures err.new) }
{
    match out.flush() {
        Ok(()) => 0,
        Err(kind) => report(alloc, Failure::Refused(ExprError::Write(kind)), err),
    }
}
