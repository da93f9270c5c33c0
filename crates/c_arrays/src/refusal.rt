//! The errors of calls from C, and the status of each.

ghost use Rattle.std.specs.Prelude.{◌≡◌};
ghost use Rattle.sparse_pattern.specs.PatternFaults.{kind_of};
ghost use Rattle.c_arrays.specs.Statuses.{number_of, refusal_of, refusal_of_operation};
ghost use Rattle.c_arrays.specs.Statuses.{kind_of_text, refusal_of_text};
ghost use Rattle.c_arrays.specs.declared.refusal.Refusal.TheVariants.{OutOfMemory};

use sparse_algebra::error::{OperationError, OperationErrorKind};
use sparse_parser::error::{MatrixMarketError, MatrixMarketErrorKind};
use sparse_pattern::error::{SparseFormatError, SparseFormatErrorKind};
use sparse_pattern::pattern::SparsityPatternFormatError;
use std::alloc::AllocError;

/// The error of a call. Each one has a status, an integer that the header lists.
#[derive(Clone, Copy, Debug, PartialEq, Eq)]
pub enum Refusal {
    /// An allocation failed.
    OutOfMemory,
    /// The lengths, the offsets or the order of the arrays violate a rule of the format.
    InvalidStructure,
    /// A row or a column index is out of bounds.
    IndexOutOfBounds,
    /// Two entries have the same row and column.
    DuplicateEntry,
    /// An array for the result is too small.
    TooSmall,
    /// A value that must have a multiplicative inverse has none.
    Singular,
    /// An argument that selects a case has an unknown value.
    UnknownChoice,
    /// A text does not match the grammar, or a number in it is out of range.
    InvalidText,
    /// The header of a text has a combination of format, field and symmetry that is not allowed.
    InvalidHeader,
    /// The number of entries of a text is not that of its size line.
    EntryMismatch,
    /// A text has an entry that is not a 64-bit integer.
    TypeMismatch,
    /// A row or column index of a text is zero.
    ZeroIndex,
    /// A skew-symmetric matrix has an entry on its diagonal.
    DiagonalEntry,
    /// A symmetric or skew-symmetric matrix has an entry above the diagonal.
    NotLowerTriangle,
    /// A symmetric or skew-symmetric matrix is not square.
    NonSquare,
    /// The bytes of a text are not UTF-8.
    Unreadable,
    /// A handle has no matrix.
    EmptyHandle,
    /// The shapes of the matrices behind handles do not match.
    ShapeMismatch,
    /// The matrices behind handles have different moduli.
    RingMismatch,
}

impl Refusal {
    /// Returns the status of the error, which is not 0.
    pub fn status(self) -> i32
        ensures { result ≡ number_of self }
    {
        match self {
            Refusal::OutOfMemory => 1,
            Refusal::InvalidStructure => 2,
            Refusal::IndexOutOfBounds => 3,
            Refusal::DuplicateEntry => 4,
            Refusal::TooSmall => 5,
            Refusal::Singular => 6,
            Refusal::UnknownChoice => 7,
            Refusal::InvalidText => 8,
            Refusal::InvalidHeader => 9,
            Refusal::EntryMismatch => 10,
            Refusal::TypeMismatch => 11,
            Refusal::ZeroIndex => 12,
            Refusal::DiagonalEntry => 13,
            Refusal::NotLowerTriangle => 14,
            Refusal::NonSquare => 15,
            Refusal::Unreadable => 16,
            Refusal::EmptyHandle => 17,
            Refusal::ShapeMismatch => 18,
            Refusal::RingMismatch => 19,
        }
    }

    /// Returns the error of a call whose arrays have a fault of this kind.
    pub fn of_format(kind: SparseFormatErrorKind) -> Refusal
        ensures { result ≡ refusal_of kind }
    {
        match kind {
            SparseFormatErrorKind::IndexOutOfBounds => Refusal::IndexOutOfBounds,
            SparseFormatErrorKind::DuplicateEntry => Refusal::DuplicateEntry,
            SparseFormatErrorKind::InvalidStructure => Refusal::InvalidStructure,
            SparseFormatErrorKind::OutOfMemory => Refusal::OutOfMemory,
        }
    }

    /// Returns the error of a call whose operation fails with an error of this kind.
    pub fn of_operation(kind: OperationErrorKind) -> Refusal
        ensures { result ≡ refusal_of_operation kind }
    {
        match kind {
            OperationErrorKind::Singular => Refusal::Singular,
            OperationErrorKind::InvalidPattern => Refusal::InvalidStructure,
            OperationErrorKind::OutOfMemory => Refusal::OutOfMemory,
        }
    }

    /// Returns the error of a call whose text has an error of this kind.
    pub fn of_text(kind: MatrixMarketErrorKind) -> Refusal
        ensures { result ≡ refusal_of_text kind }
    {
        match kind {
            MatrixMarketErrorKind::ParsingError => Refusal::InvalidText,
            MatrixMarketErrorKind::InvalidHeader => Refusal::InvalidHeader,
            MatrixMarketErrorKind::EntryMismatch => Refusal::EntryMismatch,
            MatrixMarketErrorKind::TypeMismatch => Refusal::TypeMismatch,
            MatrixMarketErrorKind::ZeroError => Refusal::ZeroIndex,
            MatrixMarketErrorKind::SparseFormatError(kind) => Refusal::of_format(kind),
            MatrixMarketErrorKind::DiagonalError => Refusal::DiagonalEntry,
            MatrixMarketErrorKind::IOError(_) => Refusal::Unreadable,
            MatrixMarketErrorKind::NotLowerTriangle => Refusal::NotLowerTriangle,
            MatrixMarketErrorKind::NonSquare => Refusal::NonSquare,
            MatrixMarketErrorKind::OutOfMemory => Refusal::OutOfMemory,
        }
    }
}

impl From<AllocError> for Refusal {
    ghost from_gives = { λ _ refusal. refusal ≡ OutOfMemory };

    fn from(_refused: AllocError) -> Refusal {
        Refusal::OutOfMemory
    }
}

impl From<SparsityPatternFormatError> for Refusal {
    ghost from_gives = { λ error refusal. refusal ≡ refusal_of (kind_of error) };

    fn from(error: SparsityPatternFormatError) -> Refusal {
        let error = SparseFormatError::from(error);
        Refusal::of_format(*error.kind())
    }
}

impl From<SparseFormatError> for Refusal {
    ghost from_gives = { λ kind refusal. refusal ≡ refusal_of kind };

    fn from(error: SparseFormatError) -> Refusal {
        Refusal::of_format(*error.kind())
    }
}

impl From<OperationError> for Refusal {
    ghost from_gives = { λ kind refusal. refusal ≡ refusal_of_operation kind };

    fn from(error: OperationError) -> Refusal {
        Refusal::of_operation(*error.kind())
    }
}

impl From<MatrixMarketError> for Refusal {
    ghost from_gives = { λ error refusal. refusal ≡ refusal_of_text (kind_of_text error) };

    fn from(error: MatrixMarketError) -> Refusal {
        Refusal::of_text(error.kind())
    }
}
