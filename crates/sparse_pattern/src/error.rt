//! Errors in the data of a sparse matrix.

ghost use Rattle.std.specs.Prelude.{◌≡◌};
ghost use Rattle.sparse_pattern.specs.PatternFaults.{kind_of};
ghost use Rattle.sparse_pattern.specs.declared.error.SparseFormatErrorKind.TheVariants.{OutOfMemory};

use crate::pattern::SparsityPatternFormatError;
use std::alloc::AllocError;
use std::marker::Model;
use thiserror::Error;

/// The kind of a [`SparseFormatError`].
#[derive(Debug, Clone, Copy, PartialEq, Eq)]
pub enum SparseFormatErrorKind {
    /// A row or a column index is out of bounds.
    IndexOutOfBounds,
    /// The same row and column occur more than once.
    DuplicateEntry,
    /// The arrays have lengths, offsets or an order that the format does not allow.
    InvalidStructure,
    /// An allocation failed.
    OutOfMemory,
}

/// The error returned when data does not describe a sparse matrix. It has a kind and a message; in contracts its value
/// is the kind.
#[derive(Debug, Drop, Error)]
#[error("{message}")]
pub struct SparseFormatError {
    kind: SparseFormatErrorKind,
    message: &'static str,
}

impl Model for SparseFormatError {
    ghost use Rattle.sparse_pattern.specs.declared.error.SparseFormatErrorKind.{SparseFormatErrorKind};

    ghost Value = { SparseFormatErrorKind };

    ghost view = { λ e. e.kind };
}

impl SparseFormatError {
    /// Returns an error of this kind. `message` is the text that it displays.
    pub fn new(kind: SparseFormatErrorKind, message: &'static str) -> Self
        ensures { result ≡ kind }
    {
        SparseFormatError { kind, message }
    }

    /// Returns the kind of the error.
    pub fn kind(&self) -> &SparseFormatErrorKind
        ensures { result.now ≡ self.now }
    {
        &self.kind
    }

    /// Returns the message of the error.
    pub fn message(&self) -> &'static str {
        self.message
    }
}

impl From<SparsityPatternFormatError> for SparseFormatError {
    ghost from_gives = { λ fault e. e ≡ kind_of fault };

    fn from(fault: SparsityPatternFormatError) -> SparseFormatError {
        SparseFormatError::new(fault.kind(), fault.message())
    }
}

impl From<AllocError> for SparseFormatError {
    ghost from_gives = { λ _ e. e ≡ OutOfMemory };

    fn from(_refused: AllocError) -> SparseFormatError {
        SparseFormatError::new(SparseFormatErrorKind::OutOfMemory, "Out of memory.")
    }
}
