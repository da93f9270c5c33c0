//! Why a call has no answer.

use nalgebra_sparse::expr::ExprError;
use nalgebra_sparse::io::{MatrixMarketError, MatrixMarketErrorKind};
use nalgebra_sparse::ops::serial::OperationError;
use nalgebra_sparse::ordered::error::OrderedFactorError;
use nalgebra_sparse::ordering::{PermutationError, PermuteError};
use nalgebra_sparse::pattern::SparsityPatternFormatError;
use nalgebra_sparse::{SparseFormatError, SparseFormatErrorKind};
use std::alloc::{AllocError, AllocFailed, Global};

/// Why a call has no answer.
#[derive(Drop)]
pub enum Failure {
    /// The row is not written by the rules, or the program found a fault that no row may expect.
    Unreadable(&'static str),
    /// The operands have sizes that the call does not take.
    Misfit,
    /// An allocation failed.
    Memory,
    /// The error of a pattern's arrays.
    Pattern(SparsityPatternFormatError),
    /// The error of a matrix's arrays.
    Format(SparseFormatError),
    /// The error of an operation.
    Operation(OperationError),
    /// The error of a list that is not a permutation.
    Order(PermutationError),
    /// The error of an operation with a permutation.
    Permuting(PermuteError),
    /// The error of a factorisation in a given order.
    Factoring(OrderedFactorError),
    /// The error of a Matrix Market text.
    Reading(MatrixMarketError),
    /// The error of an expression.
    Expression(ExprError),
    /// The JSON reading refused a text.
    Json,
}

impl Failure {
    /// Returns the kind of the error, and after a colon its message.
    pub fn text(&self, alloc: Global) -> Result<String, AllocError> {
        match self {
            Failure::Unreadable(why) => format!(in alloc; "unreadable: {why}"),
            Failure::Misfit => String::from_str(alloc, "the sizes do not fit"),
            Failure::Memory => String::from_str(alloc, "out of memory"),
            Failure::Pattern(error) => format!(in alloc; "{error:?}: {error}"),
            Failure::Format(error) => {
                let kind = error.kind();
                format!(in alloc; "{kind:?}: {error}")
            }
            Failure::Operation(error) => {
                let (kind, message) = (error.kind(), error.message());
                format!(in alloc; "{kind:?}: {message}")
            }
            Failure::Order(error) => {
                let kind = order_kind(error);
                format!(in alloc; "{kind}: {error}")
            }
            Failure::Permuting(error) => format!(in alloc; "{error:?}: {error}"),
            Failure::Factoring(error) => format!(in alloc; "{error:?}: {error}"),
            Failure::Reading(error) => {
                let (kind, message) = (error.kind(), error.message());
                format!(in alloc; "{kind:?}: {message}")
            }
            Failure::Expression(error) => format!(in alloc; "{error:?}: {error}"),
            Failure::Json => String::from_str(alloc, "Json"),
        }
    }
}

// The name of the kind, without its index, which the message has.
fn order_kind(error: &PermutationError) -> &'static str {
    match error {
        PermutationError::IndexOutOfBounds { .. } => "IndexOutOfBounds",
        PermutationError::RepeatedIndex { .. } => "RepeatedIndex",
        PermutationError::OutOfMemory => "OutOfMemory",
    }
}

impl From<AllocError> for Failure {
    fn from(_refused: AllocError) -> Failure {
        Failure::Memory
    }
}

impl<T: Drop> From<AllocFailed<T>> for Failure {
    fn from(_refused: AllocFailed<T>) -> Failure {
        Failure::Memory
    }
}

impl From<SparsityPatternFormatError> for Failure {
    fn from(error: SparsityPatternFormatError) -> Failure {
        Failure::Pattern(error)
    }
}

impl From<SparseFormatError> for Failure {
    fn from(error: SparseFormatError) -> Failure {
        match error.kind() {
            SparseFormatErrorKind::OutOfMemory => Failure::Memory,
            _ => Failure::Format(error),
        }
    }
}

impl From<OperationError> for Failure {
    fn from(error: OperationError) -> Failure {
        Failure::Operation(error)
    }
}

impl From<PermutationError> for Failure {
    fn from(error: PermutationError) -> Failure {
        match error {
            PermutationError::OutOfMemory => Failure::Memory,
            error => Failure::Order(error),
        }
    }
}

impl From<PermuteError> for Failure {
    fn from(error: PermuteError) -> Failure {
        match error {
            PermuteError::OutOfMemory => Failure::Memory,
            error => Failure::Permuting(error),
        }
    }
}

impl From<OrderedFactorError> for Failure {
    fn from(error: OrderedFactorError) -> Failure {
        match error {
            OrderedFactorError::OutOfMemory => Failure::Memory,
            error => Failure::Factoring(error),
        }
    }
}

impl From<MatrixMarketError> for Failure {
    fn from(error: MatrixMarketError) -> Failure {
        match error.kind() {
            MatrixMarketErrorKind::OutOfMemory => Failure::Memory,
            _ => Failure::Reading(error),
        }
    }
}

impl From<ExprError> for Failure {
    fn from(error: ExprError) -> Failure {
        match error {
            ExprError::OutOfMemory => Failure::Memory,
            error => Failure::Expression(error),
        }
    }
}
