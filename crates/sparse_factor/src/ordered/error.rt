//! The error of a factorisation in a given order.

ghost use Rattle.std.specs.Prelude.{◌≡◌, ◌≢◌, ◌↔◌, ◌⊎◌};
ghost use Rattle.sparse_algebra.specs.declared.error.OperationErrorKind.TheVariants.{OutOfMemory};
ghost use Rattle.sparse_algebra.specs.declared.error.OperationErrorKind.TheVariants.{Singular};

use sparse_algebra::error::{OperationError, OperationErrorKind};
use thiserror::Error;

/// The error returned when a matrix has no factors in a given order.
#[derive(Debug, Clone, Copy, PartialEq, Eq, Error)]
pub enum OrderedFactorError {
    /// The length of the permutation is not the number of rows.
    #[error("The length of the permutation does not match.")]
    LengthMismatch,
    /// A pivot has no inverse.
    #[error("A pivot has no inverse in this order.")]
    Singular,
    /// An allocation failed.
    #[error("Out of memory.")]
    OutOfMemory,
}

impl OrderedFactorError {
    // Returns the error of a factorisation, whose kind is `Singular` or `OutOfMemory`.
    pub(crate) fn of_factors(error: OperationError) -> OrderedFactorError
        requires { (error ≡ Singular) ⊎ (error ≡ OutOfMemory) }
        ensures singular { (result ≡ OrderedFactorError.Singular) ↔ (error ≡ Singular) }
        ensures matched { result ≢ OrderedFactorError.LengthMismatch }
    {
        match error.kind() {
            OperationErrorKind::Singular => OrderedFactorError::Singular,
            _ => OrderedFactorError::OutOfMemory,
        }
    }
}
