//! The faults of a line of a text, and their messages.

ghost use Rattle.sparse_parser.specs.Errors.{kind_of_cause};
ghost use Rattle.sparse_faults.specs.LineFaults.{IsFaultOfKind};

use crate::quote::Quote;
use sparse_parser::error::Cause;
use std::fmt::{self, Debug, Display, Formatter, Write};

/// A fault of a line of a Matrix Market text. `Display` writes its message.
#[derive(Clone, Copy)]
pub enum LineFault {
    /// The first line is not a header.
    Header,
    /// The field is not `complex`, and the symmetry is `hermitian`.
    Hermitian,
    /// The field is `pattern`, and the format or the symmetry is one that a pattern cannot have.
    Pattern,
    /// There is no size line.
    Size,
    /// The size line has the wrong number of numbers.
    SizeCount,
    /// A size is too large.
    SizeTooLarge,
    /// A matrix with a symmetry is not square.
    NotSquare,
    /// The number of entries of an array does not fit in 64 bits.
    TooMany,
    /// The number of entries differs: the one that the size line gives, and the one that was found.
    Count(usize, usize),
    /// A line is not an entry.
    Entry,
    /// An entry of a pattern is not a row and a column.
    PlaceWords,
    /// An entry is not a row, a column and a value of the field.
    EntryWords,
    /// An entry of an array is not one value of the field.
    ValueWords,
    /// A row index is 0.
    ZeroRow,
    /// A column index is 0.
    ZeroColumn,
    /// A row index exceeds the number of rows: both.
    Row(usize, usize),
    /// A column index exceeds the number of columns: both.
    Column(usize, usize),
    /// An index does not fit in 64 bits.
    IndexTooLarge,
    /// A value is not an integer of 128 bits.
    Value,
    /// A value is not an integer of 64 bits.
    NarrowValue,
    /// A pattern is read as a matrix of integers.
    NoValue,
    /// The negative of the value, which the symmetry implies, does not fit in 128 bits.
    Negative,
    /// An entry lies above the diagonal of a matrix with a symmetry: its row and its column.
    Above(usize, usize),
    /// An entry lies on the diagonal of a skew-symmetric matrix.
    OnDiagonal,
}

impl LineFault {
    /// Returns the fault of the header or the size line that causes this error.
    pub fn of_size(cause: Cause) -> LineFault
        ensures { IsFaultOfKind (kind_of_cause cause) result }
    {
        match cause {
            Cause::RealHermitian | Cause::IntegerHermitian | Cause::PatternHermitian => {
                LineFault::Hermitian
            }
            Cause::PatternSkewSymmetric | Cause::PatternArray => LineFault::Pattern,
            Cause::SizeCount => LineFault::SizeCount,
            Cause::NotSquare => LineFault::NotSquare,
            _ => LineFault::SizeTooLarge,
        }
    }

    /// Returns the message, without the numbers of the fault.
    pub fn words(self) -> &'static str {
        match self {
            LineFault::Header =>
                "no header; expected %%MatrixMarket matrix and a format, a field and a symmetry",
            LineFault::Hermitian => "only complex matrices are hermitian",
            LineFault::Pattern => "a pattern has the format coordinate and is general or symmetric",
            LineFault::Size =>
                "no size line; expected rows, columns and, in the format coordinate, entries",
            LineFault::SizeCount =>
                "expected rows, columns and entries; rows and columns in the format array",
            LineFault::SizeTooLarge => "a size does not fit in 64 bits",
            LineFault::NotSquare => "a matrix with a symmetry is square",
            LineFault::TooMany => "the number of entries does not fit in 64 bits",
            LineFault::Count(_, _) => "another number of entries",
            LineFault::Entry => "no entry; expected numbers",
            LineFault::PlaceWords => "expected a row and a column",
            LineFault::EntryWords => "expected a row, a column and a value of the header's field",
            LineFault::ValueWords => "expected one value of the header's field",
            LineFault::ZeroRow => "row index 0; indices count from 1",
            LineFault::ZeroColumn => "column index 0; indices count from 1",
            LineFault::Row(_, _) => "a row index outside the matrix",
            LineFault::Column(_, _) => "a column index outside the matrix",
            LineFault::IndexTooLarge => "an index does not fit in 64 bits",
            LineFault::Value => "the value is no integer of 128 bits",
            LineFault::NarrowValue => "the value is no integer of 64 bits",
            LineFault::NoValue => "a pattern has no values; mtxkit field integer gives it ones",
            LineFault::Negative => "the negative of the value does not fit in 128 bits",
            LineFault::Above(_, _) =>
                "an entry above the diagonal; a symmetry takes the lower triangle",
            LineFault::OnDiagonal => "a skew-symmetric matrix has no entries on the diagonal",
        }
    }
}

impl LineFault {
    // Writes the message with the word that has the fault.
    pub(crate) fn quote<W: Write>(self, word: Quote, f: &mut Formatter<W>) -> fmt::Result {
        match self {
            LineFault::Header => quote_header(self, word, f),
            LineFault::Size => write!(
                f,
                "{word} is no size; expected rows, columns and, in the format coordinate, entries"
            ),
            LineFault::Entry => write!(f, "{word} is no number"),
            LineFault::IndexTooLarge => write!(f, "the index {word} does not fit in 64 bits"),
            LineFault::Value => write!(f, "{word} is no integer of 128 bits"),
            LineFault::NarrowValue => write!(f, "{word} is no integer of 64 bits"),
            _ => Display::fmt(&self, f),
        }
    }
}

// Writes the message about a word of a header.
fn quote_header<W: Write>(fault: LineFault, word: Quote, f: &mut Formatter<W>) -> fmt::Result {
    match word.position() {
        1 => write!(f, "no object is named {word}; expected matrix"),
        2 => write!(f, "no format is named {word}; expected coordinate or array"),
        3 => write!(
            f,
            "no field is named {word}; expected real, complex, integer or pattern"
        ),
        4 => write!(
            f,
            "no symmetry is named {word}; expected general, symmetric, skew-symmetric or hermitian"
        ),
        5 => write!(f, "the header has a sixth word, {word}"),
        _ => Display::fmt(&fault, f),
    }
}

impl Display for LineFault {
    fn fmt<W: Write>(&self, f: &mut Formatter<W>) -> fmt::Result {
        match *self {
            LineFault::Count(wanted, found) => write!(
                f,
                "{wanted} entries expected, {found} found"
            ),
            LineFault::Row(row, rows) => write!(f, "row index {row}; the matrix has {rows} rows"),
            LineFault::Column(col, cols) => {
                write!(f, "column index {col}; the matrix has {cols} columns")
            }
            LineFault::Above(row, col) => write!(
                f,
                "row {row} and column {col} lie above the diagonal; a symmetry takes the lower triangle"
            ),
            fault => f.write_str(fault.words()),
        }
    }
}

impl Debug for LineFault {
    fn fmt<W: Write>(&self, f: &mut Formatter<W>) -> fmt::Result {
        Display::fmt(self, f)
    }
}
