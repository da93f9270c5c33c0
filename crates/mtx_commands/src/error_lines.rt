//! Writes the lines of errors.

ghost use Rattle.std.specs.Prelude.{◌≡◌, IfOk, string_bytes};
ghost use Rattle.sparse_expr.specs.declared.error.ExprError.TheVariants.{Input};
ghost use Rattle.mtx_commands.specs.Commands.{status_of};
ghost use Rattle.mtx_commands.specs.Reports.{line_of, IsReported, IsWritten};
ghost use Rattle.mtx_commands.specs.declared.cli.Failure.TheVariants.{Refused};

use crate::cli::Failure;
use nalgebra_sparse::expr::ExprError;
use nalgebra_sparse::io::{MatrixMarketErrorKind, Sink, write_all_to};
use std::alloc::{AllocError, Global};

const USAGE: &str =
    "usage: mtx rows EXPR FILE.. | mtx cols EXPR FILE.. | mtx fill [upper|lower|both] FILE\n";

const OUT_OF_MEMORY: &str = "mtx: out of memory\n";

/// Writes the line of a failure, and returns the failure's exit status. An error in writing the line is ignored.
pub(crate) fn report<E: Sink>(alloc: Global, failure: Failure, err: &mut E) -> u8
    ensures status { result ≡ status_of failure }
    ensures reported { IsReported failure (E.accepted err.old) (E.accepted err.new)
        (E.failures err.old) (E.failures err.new) }
{
    write_line(alloc, failure, err);
    failure.status()
}

// Writes the line of a failure.
fn write_line<E: Sink>(alloc: Global, failure: Failure, err: &mut E)
    ensures { IsReported failure (E.accepted err.old) (E.accepted err.new) (E.failures err.old)
        (E.failures err.new) }
{
    match failure {
        Failure::Usage => write_message(USAGE, err),
        Failure::NotSquare => write_message("mtx: not square\n", err),
        Failure::Refused(error) => write_error(alloc, error, err),
    }
}

// Writes the line of an error: the program's name and the error's message.
fn write_error<E: Sink>(alloc: Global, error: ExprError, err: &mut E)
    ensures { IsReported (Refused error) (E.accepted err.old) (E.accepted err.new)
        (E.failures err.old) (E.failures err.new) }
{
    match error {
        ExprError::BadWord => write_message("mtx: expression: unknown word\n", err),
        ExprError::MissingOperand => write_message("mtx: expression: operand missing\n", err),
        ExprError::LeftOver => write_message("mtx: expression: operands left over\n", err),
        ExprError::NoSuchInput => write_message("mtx: expression: no such input\n", err),
        ExprError::Shape => write_message("mtx: expression: shapes do not fit\n", err),
        ExprError::Input(number, kind) => write_input(alloc, number, kind, err),
        ExprError::Write(_) => write_message("mtx: write failed\n", err),
        ExprError::OutOfMemory => write_message(OUT_OF_MEMORY, err),
    }
}

// Writes the line of an input's error, or one that says that an allocation failed if there is no memory for it.
fn write_input<E: Sink>(alloc: Global, number: usize, kind: MatrixMarketErrorKind, err: &mut E)
    ensures { IsReported (Refused (Input number kind)) (E.accepted err.old) (E.accepted err.new)
        (E.failures err.old) (E.failures err.new) }
{
    match input_line(alloc, number, kind) {
        Ok(line) => write_message(line.as_str(), err),
        Err(_) => write_message(OUT_OF_MEMORY, err),
    }
}

// Returns the line of an input's error.
fn input_line(
    alloc: Global,
    number: usize,
    kind: MatrixMarketErrorKind,
) -> Result<String, AllocError>
    ensures { IfOk result (λ line. string_bytes line ≡ line_of (Refused (Input number kind))) }
{
    let mut line = String::from_str(alloc, "mtx: input ")?;
    let digits = format!(in alloc; "{number}")?;
    line.push_str(digits.as_str())?;
    line.push_str(": ")?;
    line.push_str(kind.name())?;
    line.push_str("\n")?;
    Ok(line)
}

// Writes a line. An error in writing it is ignored.
fn write_message<E: Sink>(text: &str, err: &mut E)
    ensures { IsWritten text.now (E.accepted err.old) (E.accepted err.new) (E.failures err.old)
        (E.failures err.new) }
{
    match write_all_to(err, text.as_bytes()) {
        Ok(()) => {}
        Err(_) => {}
    }
}
