//! Why an expression has no value that can be written.

ghost use Rattle.std.specs.Prelude.{◌≡◌};
ghost use Rattle.mtxkit_eval.specs.Errors.{expression_fault};

use mtxkit_texts::Failure;
use sparse_expr::ExprError;
use std::alloc::AllocError;
use std::fmt::{self, Debug, Display, Formatter, Write};

/// Why an expression has no value that can be written.
#[derive(Clone, Copy)]
pub enum EvalError {
    /// A text has an error, the program is not built for the modulus, or an allocation failed.
    Failed(Failure),
    /// The words are not an expression, or it has no value for these inputs.
    Expression(ExprError),
    /// The value at this row and this column, both counted from 0, does not fit in 64 bits.
    Wide(usize, usize),
    /// A value of the result, or of an intermediate one, may not fit in 128 bits.
    Unbounded,
}

/// Writes the error that is the cause, if there is one, and otherwise the message. Rows and columns count from 1.
impl Display for EvalError {
    fn fmt<W: Write>(&self, f: &mut Formatter<W>) -> fmt::Result {
        match self {
            EvalError::Failed(failure) => Display::fmt(failure, f),
            EvalError::Expression(error) => Display::fmt(error, f),
            EvalError::Wide(row, col) => {
                let (row, col) = (*row as u128 + 1, *col as u128 + 1);
                write!(
                    f,
                    "row {row}, column {col}: the value does not fit in 64 bits"
                )
            }
            EvalError::Unbounded => f.write_str("a value may not fit in 128 bits"),
        }
    }
}

impl Debug for EvalError {
    fn fmt<W: Write>(&self, f: &mut Formatter<W>) -> fmt::Result {
        Display::fmt(self, f)
    }
}

impl From<AllocError> for EvalError {
    ghost use Rattle.std.specs.Prelude.{◌≡◌};
    ghost use Rattle.mtxkit_eval.specs.declared.error.EvalError.TheVariants.{Failed};
    ghost use Rattle.mtxkit_texts.specs.declared.failure.Failure.TheVariants.{OutOfMemory};

    ghost from_gives = { λ _ e. e ≡ Failed OutOfMemory };

    fn from(_refused: AllocError) -> EvalError {
        EvalError::Failed(Failure::OutOfMemory)
    }
}

impl From<Failure> for EvalError {
    ghost use Rattle.std.specs.Prelude.{◌≡◌};
    ghost use Rattle.mtxkit_eval.specs.declared.error.EvalError.TheVariants.{Failed};

    ghost from_gives = { λ failure e. e ≡ Failed failure };

    fn from(failure: Failure) -> EvalError {
        EvalError::Failed(failure)
    }
}

// Returns the error for one of parsing or evaluating an expression.
pub(crate) fn expression_fault(error: ExprError) -> EvalError
    ensures { result ≡ expression_fault error }
{
    match error {
        ExprError::OutOfMemory => EvalError::Failed(Failure::OutOfMemory),
        error => EvalError::Expression(error),
    }
}
