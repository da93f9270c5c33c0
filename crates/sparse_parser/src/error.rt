//! Errors of reading and writing Matrix Market texts.

ghost use Rattle.std.specs.Prelude.{◌≡◌};
ghost use Rattle.std.specs.IoError.{error_kind};
ghost use Rattle.sparse_parser.specs.declared.error.MatrixMarketErrorKind.TheVariants.{ParsingError};
ghost use Rattle.sparse_parser.specs.declared.error.MatrixMarketErrorKind.TheVariants.{TypeMismatch};
ghost use Rattle.sparse_parser.specs.declared.error.MatrixMarketErrorKind.TheVariants.{SparseFormatError};
ghost use Rattle.sparse_parser.specs.declared.error.MatrixMarketErrorKind.TheVariants.{IOError};
ghost use Rattle.sparse_parser.specs.declared.error.MatrixMarketErrorKind.TheVariants.{OutOfMemory};
ghost use Rattle.sparse_parser.specs.Errors.{cause_of, kind_of, kind_of_cause};
ghost use Rattle.sparse_parser.specs.ErrorTexts.{kind_name, cause_message, message_of};

use sparse_pattern::error::{SparseFormatError, SparseFormatErrorKind};
use std::alloc::{AllocError, AllocFailed};
use std::num::{ParseIntError, TryFromIntError};
use std::{fmt, io};
use thiserror::Error;

/// The kind of an error in reading or writing a Matrix Market text.
#[derive(Clone, Copy, Debug, PartialEq, Eq)]
pub enum MatrixMarketErrorKind {
    /// The text does not match the grammar, a line does not fit the header, or a number is out of range.
    ParsingError,
    /// The header has a format, a field and a symmetry that exclude each other.
    InvalidHeader,
    /// The number of entries is not the one given by the size line.
    EntryMismatch,
    /// A value of the text, or that of a mirrored entry, is not a value of the scalar type.
    TypeMismatch,
    /// An index is zero; indices count from 1.
    ZeroError,
    /// The entries do not form a matrix of the given shape.
    SparseFormatError(SparseFormatErrorKind),
    /// A skew-symmetric matrix has an entry on its diagonal.
    DiagonalError,
    /// The reader or writer failed.
    IOError(io::ErrorKind),
    /// A symmetric, skew-symmetric or hermitian matrix has an entry above the diagonal.
    NotLowerTriangle,
    /// A symmetric, skew-symmetric or hermitian matrix is not square.
    NonSquare,
    /// An allocation failed.
    OutOfMemory,
}

impl MatrixMarketErrorKind {
    /// Returns the name of the variant, without its payload.
    pub fn name(self) -> &'static str
        ensures { result.now ≡ kind_name self }
    {
        match self {
            MatrixMarketErrorKind::ParsingError => "ParsingError",
            MatrixMarketErrorKind::InvalidHeader => "InvalidHeader",
            MatrixMarketErrorKind::EntryMismatch => "EntryMismatch",
            MatrixMarketErrorKind::TypeMismatch => "TypeMismatch",
            MatrixMarketErrorKind::ZeroError => "ZeroError",
            MatrixMarketErrorKind::SparseFormatError(_) => "SparseFormatError",
            MatrixMarketErrorKind::DiagonalError => "DiagonalError",
            MatrixMarketErrorKind::IOError(_) => "IOError",
            MatrixMarketErrorKind::NotLowerTriangle => "NotLowerTriangle",
            MatrixMarketErrorKind::NonSquare => "NonSquare",
            MatrixMarketErrorKind::OutOfMemory => "OutOfMemory",
        }
    }
}

/// The cause of an error. It determines the kind and the message.
#[derive(Clone, Copy)]
pub enum Cause {
    Grammar,
    RealHermitian,
    IntegerHermitian,
    PatternHermitian,
    PatternSkewSymmetric,
    PatternArray,
    SizeCount,
    SizeTooLarge,
    NotSquare,
    EntryCount,
    EntryShape,
    IndexTooLarge,
    ZeroIndex,
    NotAnI128,
    ValueOutOfRange,
    RealEntry,
    ComplexEntry,
    NothingAsInteger,
    IntegerAsNothing,
    IntegerConjugate,
    PatternConjugate,
    PatternNegative,
    AboveDiagonal,
    OnDiagonal,
    Format(SparseFormatErrorKind, &'static str),
    Io(io::ErrorKind),
    Memory,
}

impl Cause {
    fn kind(self) -> MatrixMarketErrorKind
        ensures { result ≡ kind_of_cause self }
    {
        match self {
            Cause::Grammar
            | Cause::SizeCount
            | Cause::SizeTooLarge
            | Cause::EntryShape
            | Cause::IndexTooLarge
            | Cause::NotAnI128 => MatrixMarketErrorKind::ParsingError,
            Cause::RealHermitian
            | Cause::IntegerHermitian
            | Cause::PatternHermitian
            | Cause::PatternSkewSymmetric
            | Cause::PatternArray => MatrixMarketErrorKind::InvalidHeader,
            Cause::NotSquare => MatrixMarketErrorKind::NonSquare,
            Cause::EntryCount => MatrixMarketErrorKind::EntryMismatch,
            Cause::ZeroIndex => MatrixMarketErrorKind::ZeroError,
            Cause::ValueOutOfRange
            | Cause::RealEntry
            | Cause::ComplexEntry
            | Cause::NothingAsInteger
            | Cause::IntegerAsNothing
            | Cause::IntegerConjugate
            | Cause::PatternConjugate
            | Cause::PatternNegative => MatrixMarketErrorKind::TypeMismatch,
            Cause::AboveDiagonal => MatrixMarketErrorKind::NotLowerTriangle,
            Cause::OnDiagonal => MatrixMarketErrorKind::DiagonalError,
            Cause::Format(kind, _) => MatrixMarketErrorKind::SparseFormatError(kind),
            Cause::Io(kind) => MatrixMarketErrorKind::IOError(kind),
            Cause::Memory => MatrixMarketErrorKind::OutOfMemory,
        }
    }

    fn message(self) -> &'static str
        ensures { result.now ≡ cause_message self }
    {
        match self {
            Cause::Grammar => "Can't parse the data.",
            Cause::RealHermitian => "Real matrix can't be hermitian.",
            Cause::IntegerHermitian => "Integer matrix can't be hermitian.",
            Cause::PatternHermitian => "Pattern matrix can't be hermitian.",
            Cause::PatternSkewSymmetric => "Pattern matrix can't be skew-symmetric.",
            Cause::PatternArray => "Dense matrix can't be pattern matrix.",
            Cause::SizeCount => "Shape line doesn't fit the header.",
            Cause::SizeTooLarge => "A size is too large.",
            Cause::NotSquare => "(Skew-)Symmetric or hermitian matrix should be square matrix.",
            Cause::EntryCount => "The number of entries doesn't match the shape line.",
            Cause::EntryShape => "Entry line doesn't fit the header.",
            Cause::IndexTooLarge => "An index is too large.",
            Cause::ZeroIndex => "The data has to be one-indexed",
            Cause::NotAnI128 => "Can't parse data as i128.",
            Cause::ValueOutOfRange => "Please consider using a larger integer type.",
            Cause::RealEntry => "Real entries are not carried.",
            Cause::ComplexEntry => "Complex entries are not carried.",
            Cause::NothingAsInteger => "Int type can't be parsed from ()",
            Cause::IntegerAsNothing => "Pattern type can't be parsed from i128",
            Cause::IntegerConjugate => "Int type has no conjugate",
            Cause::PatternConjugate => "Pattern type has no conjugate",
            Cause::PatternNegative => "Pattern type has no negative",
            Cause::AboveDiagonal => "Entry should be put into lower triangle.",
            Cause::OnDiagonal => "There is a diagonal element in skew matrix.",
            Cause::Format(_, text) => text,
            Cause::Io(_) => "The reader or writer failed.",
            Cause::Memory => "Out of memory.",
        }
    }
}

/// An error in reading or writing a Matrix Market text.
#[derive(Drop, Error)]
#[error("Matrix Market error: {}, message: {}", .cause.kind().name(), .cause.message())]
pub struct MatrixMarketError {
    cause: Cause,
}

impl MatrixMarketError {
    /// Returns an error with this cause.
    pub fn new(cause: Cause) -> MatrixMarketError
        ensures { cause_of result ≡ cause }
    {
        MatrixMarketError { cause }
    }

    /// Returns the kind of the error.
    pub fn kind(&self) -> MatrixMarketErrorKind
        ensures { result ≡ kind_of self.now }
    {
        self.cause.kind()
    }

    /// Returns the message of the error.
    pub fn message(&self) -> &str
        ensures { result.now ≡ message_of self.now }
    {
        self.cause.message()
    }
}

impl fmt::Debug for MatrixMarketError {
    fn fmt<W: fmt::Write>(&self, f: &mut fmt::Formatter<W>) -> fmt::Result {
        f.debug_struct("MatrixMarketError")
            .field("error_kind", &self.kind())
            .field("message", &self.message())
            .finish()
    }
}

impl From<Cause> for MatrixMarketError {
    ghost from_gives = { λ cause e. cause_of e ≡ cause };

    fn from(cause: Cause) -> MatrixMarketError {
        MatrixMarketError::new(cause)
    }
}

impl From<AllocError> for MatrixMarketError {
    ghost from_gives = { λ _ e. kind_of e ≡ OutOfMemory };

    fn from(_refused: AllocError) -> MatrixMarketError {
        MatrixMarketError::new(Cause::Memory)
    }
}

impl<T: Drop> From<AllocFailed<T>> for MatrixMarketError {
    ghost from_gives = { λ _ e. kind_of e ≡ OutOfMemory };

    fn from(_refused: AllocFailed<T>) -> MatrixMarketError {
        MatrixMarketError::new(Cause::Memory)
    }
}

impl From<ParseIntError> for MatrixMarketError {
    ghost from_gives = { λ _ e. kind_of e ≡ ParsingError };

    fn from(_fault: ParseIntError) -> MatrixMarketError {
        MatrixMarketError::new(Cause::NotAnI128)
    }
}

impl From<TryFromIntError> for MatrixMarketError {
    ghost from_gives = { λ _ e. kind_of e ≡ TypeMismatch };

    fn from(_fault: TryFromIntError) -> MatrixMarketError {
        MatrixMarketError::new(Cause::ValueOutOfRange)
    }
}

impl From<SparseFormatError> for MatrixMarketError {
    ghost from_gives = { λ fault e. kind_of e ≡ SparseFormatError fault };

    fn from(fault: SparseFormatError) -> MatrixMarketError {
        MatrixMarketError::new(Cause::Format(*fault.kind(), fault.message()))
    }
}

impl From<io::ErrorKind> for MatrixMarketError {
    ghost from_gives = { λ kind e. kind_of e ≡ IOError kind };

    fn from(kind: io::ErrorKind) -> MatrixMarketError {
        MatrixMarketError::new(Cause::Io(kind))
    }
}

impl From<io::Error> for MatrixMarketError {
    ghost from_gives = { λ error e. kind_of e ≡ IOError (error_kind error) };

    fn from(error: io::Error) -> MatrixMarketError {
        MatrixMarketError::new(Cause::Io(error.kind()))
    }
}
