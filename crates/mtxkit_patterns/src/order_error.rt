//! Why a command about orders fails.

use mtxkit_texts::Failure;
use std::alloc::{AllocError, AllocFailed};
use std::error::Error;
use std::fmt::{self, Debug, Display, Formatter, Write};

/// Why a command about orders fails. Files are given by their numbers in the command, counted from 1; `Display` does not
/// write these.
#[derive(Clone, Copy)]
pub enum OrderError {
    /// A failure that other commands have, too.
    Failed(Failure),
    /// The matrix of the text with this number is not square.
    NotSquare(usize),
    /// The text with this number is not an array of one column.
    NotColumn(usize),
    /// In the order of the text with this number, the number at this place, counted from 0, is not from 1 to its length.
    OutOfRange(usize, usize),
    /// In the order of the text with this number, the number at this place, counted from 0, occurs before.
    Repeated(usize, usize),
    /// The order of the text with this number has another length than the matrix has rows.
    OtherLength(usize),
}

/// Writes the message, without the name of the file.
impl Display for OrderError {
    fn fmt<W: Write>(&self, f: &mut Formatter<W>) -> fmt::Result {
        match self {
            OrderError::Failed(failure) => Display::fmt(failure, f),
            OrderError::NotSquare(_) => f.write_str("not square"),
            OrderError::NotColumn(_) => f.write_str("an order is an array of one column"),
            OrderError::OutOfRange(_, at) => {
                let place = *at as u128 + 1;
                write!(f, "number {place} of the order is not from 1 to its length")
            }
            OrderError::Repeated(_, at) => {
                let place = *at as u128 + 1;
                write!(f, "number {place} of the order occurs before")
            }
            OrderError::OtherLength(_) => f.write_str(
                "the order has another length than the matrix",
            ),
        }
    }
}

impl Debug for OrderError {
    fn fmt<W: Write>(&self, f: &mut Formatter<W>) -> fmt::Result {
        Display::fmt(self, f)
    }
}

impl Error for OrderError {}

impl From<Failure> for OrderError {
    ghost use Rattle.std.specs.Prelude.{◌≡◌};
    ghost use Rattle.mtxkit_patterns.specs.declared.order_error.OrderError.TheVariants.{Failed};

    ghost from_gives = { λ failure e. e ≡ Failed failure };

    fn from(failure: Failure) -> OrderError {
        OrderError::Failed(failure)
    }
}

impl From<AllocError> for OrderError {
    ghost use Rattle.std.specs.Prelude.{◌≡◌};
    ghost use Rattle.mtxkit_patterns.specs.declared.order_error.OrderError.TheVariants.{Failed};
    ghost use Rattle.mtxkit_texts.specs.declared.failure.Failure.TheVariants.{OutOfMemory};

    ghost from_gives = { λ _ e. e ≡ Failed OutOfMemory };

    fn from(_refused: AllocError) -> OrderError {
        OrderError::Failed(Failure::OutOfMemory)
    }
}
