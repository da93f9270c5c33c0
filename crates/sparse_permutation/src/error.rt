//! Errors of permutations and of operations with them.

ghost use Rattle.std.specs.Prelude.{◌≡◌};

use std::alloc::AllocError;
use thiserror::Error;

/// The error returned when a list is not a permutation of the numbers below its length.
#[derive(Debug, Clone, Copy, PartialEq, Eq, Error)]
pub enum PermutationError {
    /// An index is not less than the length of the list.
    #[error("The index at {at} is out of bounds.")]
    IndexOutOfBounds {
        /// Where the index is in the list.
        at: usize,
    },
    /// An index occurs a second time.
    #[error("The index at {at} is a duplicate.")]
    RepeatedIndex {
        /// Where the index occurs the second time in the list.
        at: usize,
    },
    /// An allocation failed.
    #[error("Out of memory.")]
    OutOfMemory,
}

/// The error returned when a permutation cannot be applied.
#[derive(Debug, Clone, Copy, PartialEq, Eq, Error)]
pub enum PermuteError {
    /// The number of rows is not the number of columns.
    #[error("The matrix is not square.")]
    NotSquare,
    /// The length of the permutation is not the number of what it permutes.
    #[error("The length of the permutation does not match.")]
    LengthMismatch,
    /// An allocation failed.
    #[error("Out of memory.")]
    OutOfMemory,
}

impl From<AllocError> for PermutationError {
    ghost use Rattle.sparse_permutation.specs.declared.error.PermutationError.TheVariants.{OutOfMemory};

    ghost from_gives = { λ _ e. e ≡ OutOfMemory };

    fn from(_refused: AllocError) -> PermutationError {
        PermutationError::OutOfMemory
    }
}

impl From<AllocError> for PermuteError {
    ghost use Rattle.sparse_permutation.specs.declared.error.PermuteError.TheVariants.{OutOfMemory};

    ghost from_gives = { λ _ e. e ≡ OutOfMemory };

    fn from(_refused: AllocError) -> PermuteError {
        PermuteError::OutOfMemory
    }
}
