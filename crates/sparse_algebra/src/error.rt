//! Errors of operations.

ghost use Rattle.std.specs.Prelude.{◌≡◌};
ghost use Rattle.sparse_algebra.specs.declared.error.OperationErrorKind.TheVariants.{InvalidPattern};
ghost use Rattle.sparse_algebra.specs.declared.error.OperationErrorKind.TheVariants.{Singular};
ghost use Rattle.sparse_algebra.specs.declared.error.OperationErrorKind.TheVariants.{OutOfMemory};

use std::alloc::AllocError;
use std::marker::Model;
use thiserror::Error;

/// The kind of an [`OperationError`].
#[derive(Debug, Clone, Copy, PartialEq, Eq)]
pub enum OperationErrorKind {
    /// The result has an entry at a row and column where the output matrix stores none.
    InvalidPattern,
    /// A value that must have an inverse has none.
    Singular,
    /// An allocation failed.
    OutOfMemory,
}

/// The error of an operation on matrices. It has a kind and a message; in contracts its value is the kind.
#[derive(Debug, Drop, Error)]
#[error("Sparse matrix operation error: {kind:?} Message: {message}")]
pub struct OperationError {
    kind: OperationErrorKind,
    message: &'static str,
}

impl Model for OperationError {
    ghost use Rattle.sparse_algebra.specs.declared.error.OperationErrorKind.{OperationErrorKind};

    ghost Value = { OperationErrorKind };

    ghost view = { λ e. e.kind };
}

impl OperationError {
    /// Returns the error of a sum into a matrix `c` that does not store every entry of `op(a)`.
    pub fn of_sum_pattern() -> Self
        ensures { result ≡ InvalidPattern }
    {
        OperationError {
            kind: OperationErrorKind::InvalidPattern,
            message: "Found entry in `op(a)` that is not present in `c`.",
        }
    }

    /// Returns the error of a product into a matrix `c` that does not store every entry of the product.
    pub fn of_product_pattern() -> Self
        ensures { result ≡ InvalidPattern }
    {
        OperationError {
            kind: OperationErrorKind::InvalidPattern,
            message: "Found unexpected entry that is not present in `c`.",
        }
    }

    /// Returns the error of a matrix with a diagonal entry that is not stored or has no inverse.
    pub fn of_singular_diagonal() -> Self
        ensures { result ≡ Singular }
    {
        OperationError {
            kind: OperationErrorKind::Singular,
            message: "Matrix contains at least one diagonal entry that is zero.",
        }
    }

    /// Returns the error of a division by a scalar without an inverse.
    pub fn of_singular_scalar() -> Self
        ensures { result ≡ Singular }
    {
        OperationError {
            kind: OperationErrorKind::Singular,
            message: "Scalar has no inverse.",
        }
    }

    /// Returns the kind of the error.
    pub fn kind(&self) -> &OperationErrorKind
        ensures { result.now ≡ self.now }
    {
        &self.kind
    }

    /// Returns the text of the error.
    pub fn message(&self) -> &str {
        self.message
    }
}

impl From<AllocError> for OperationError {
    ghost from_gives = { λ _ e. e ≡ OutOfMemory };

    fn from(_refused: AllocError) -> OperationError {
        OperationError {
            kind: OperationErrorKind::OutOfMemory,
            message: "Out of memory.",
        }
    }
}
