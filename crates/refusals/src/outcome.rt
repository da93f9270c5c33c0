//! What comes of a call.

use nalgebra_sparse::expr::ExprError;
use nalgebra_sparse::io::{MatrixMarketError, MatrixMarketErrorKind};
use std::alloc::AllocError;

/// What came of a scenario.
#[derive(Clone, Copy)]
pub enum Outcome {
    /// An answer with this checksum.
    Answered(u64),
    /// An allocation failure. Lists and sinks are as they must be.
    Refused,
    /// An allocation failure, and a list or a sink is not as it must be.
    Changed,
    /// Another error.
    Failed,
    /// The operands could not be made.
    Unready,
    /// No scenario has this name.
    Unknown,
}

impl Outcome {
    /// Returns the words for an outcome, without a checksum.
    pub fn text(self) -> &'static str {
        match self {
            Outcome::Answered(_) => "answered",
            Outcome::Refused => "out of memory",
            Outcome::Changed => "out of memory, and something changed",
            Outcome::Failed => "another error",
            Outcome::Unready => "no operands",
            Outcome::Unknown => "no such scenario",
        }
    }

    /// Returns the outcome, given whether what a refusal must leave was left.
    pub fn leaving(self, is_left: bool) -> Outcome {
        match self {
            Outcome::Refused if !is_left => Outcome::Changed,
            other => other,
        }
    }
}

/// An error that can report an allocation failure.
pub trait Failure {
    /// Returns whether it does.
    fn is_memory(&self) -> bool;
}

impl Failure for AllocError {
    fn is_memory(&self) -> bool {
        true
    }
}

impl Failure for MatrixMarketError {
    fn is_memory(&self) -> bool {
        self.kind() == MatrixMarketErrorKind::OutOfMemory
    }
}

impl Failure for ExprError {
    fn is_memory(&self) -> bool {
        *self == ExprError::OutOfMemory
    }
}

/// Returns the outcome of an error.
pub fn of_error<E: Failure>(error: &E) -> Outcome {
    if error.is_memory() {
        Outcome::Refused
    } else {
        Outcome::Failed
    }
}

/// Returns the checksum of numbers.
pub fn checksum_of(numbers: &[u64]) -> u64 {
    let mut sum = 0;
    for number in numbers {
        sum = mixed(sum, *number);
    }
    sum
}

/// Returns the checksum of bytes.
pub fn checksum_of_bytes(bytes: &[u8]) -> u64 {
    let mut sum = 0;
    for byte in bytes {
        sum = mixed(sum, u64::from(*byte));
    }
    sum
}

// The checksum of what `sum` is of, followed by a number.
fn mixed(sum: u64, number: u64) -> u64 {
    let spread = (sum ^ number)
        .wrapping_add(1)
        .wrapping_mul(0x9E37_79B9_7F4A_7C15);
    spread ^ (spread >> 29)
}
