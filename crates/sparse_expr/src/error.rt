//! Errors of expressions and of runs.

use sparse_io::MatrixMarketErrorKind;
use std::alloc::{AllocError, AllocFailed};
use std::io;
use thiserror::Error;

/// An error of parsing words, of evaluating an expression, or of a run.
#[derive(Debug, Clone, Copy, PartialEq, Eq, Error)]
pub enum ExprError {
    /// A word is neither the number of an input nor an operator.
    #[error("expression: unknown word")]
    BadWord,
    /// An operator has too few operands, or there are no words.
    #[error("expression: operand missing")]
    MissingOperand,
    /// More than one operand is left at the end.
    #[error("expression: operands left over")]
    LeftOver,
    /// No input has this number.
    #[error("expression: no such input")]
    NoSuchInput,
    /// The shapes of the operands do not fit.
    #[error("expression: shapes do not fit")]
    Shape,
    /// The text with this number, counted from 1, has an error.
    #[error("input {}: {}", .0, .1.name())]
    Input(usize, MatrixMarketErrorKind),
    /// A write failed.
    #[error("write failed")]
    Write(io::ErrorKind),
    /// An allocation failed.
    #[error("out of memory")]
    OutOfMemory,
}

impl From<AllocError> for ExprError {
    ghost use Rattle.std.specs.Prelude.{◌≡◌};
    ghost use Rattle.sparse_expr.specs.declared.error.ExprError.TheVariants.{OutOfMemory};

    ghost from_gives = { λ _ e. e ≡ OutOfMemory };

    fn from(_refused: AllocError) -> ExprError {
        ExprError::OutOfMemory
    }
}

impl<T: Drop> From<AllocFailed<T>> for ExprError {
    ghost use Rattle.std.specs.Prelude.{◌≡◌};
    ghost use Rattle.sparse_expr.specs.declared.error.ExprError.TheVariants.{OutOfMemory};

    ghost from_gives = { λ _ e. e ≡ OutOfMemory };

    fn from(_refused: AllocFailed<T>) -> ExprError {
        ExprError::OutOfMemory
    }
}
