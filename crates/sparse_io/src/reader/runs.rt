//! Runs of data lines of one kind, which are read by loops of their own.
//!
//! The loop is compiled for each kind of line and each symmetry, so that it is small and its variables stay in
//! registers.

ghost use Rattle.std.specs.Prelude.{◌≡◌, ◌≤◌, ◌+◌, true, length};
ghost use Rattle.sparse_parser.specs.InnerBytes.{BeginsLine};
ghost use Rattle.sparse_parser.specs.Meaning.{values_of};
ghost use Rattle.sparse_io.specs.InnerEntries.{numbered_symmetry, IsReadOn, reading};
ghost use Rattle.sparse_io.specs.InnerPlaces.{places_left};

use crate::reader::kinds::{IntegerLines, LineKind, PatternLines, ValueLines};
use crate::reader::places::Places;
use crate::reader::pushes::{append_all, are_inside};
use sparse_coo_dense::CooAppender;
use sparse_coo_dense::coo::CooMatrix;
use sparse_market_scalar::MatrixMarketScalar;
use sparse_parser::header::{Field, Format, Header, Symmetry};

/// Reads lines of integers, of rows and columns, or of values while the fast path applies, their triplets lie within
/// the shape and there is memory for them. Returns the matrix, the number of data lines read and the rest of the text.
pub fn common_lines<'a, T: MatrixMarketScalar>(
    header: Header,
    matrix: CooMatrix<T>,
    places: &mut Places,
    read: usize,
    inside: bool,
    text: &'a [u8],
) -> (CooMatrix<T>, usize, &'a [u8])
    requires begins { BeginsLine text.now }
    requires room { read + length text.now ≤ usize.MAX }
    ensures { IsReadOn T.scalar header
        (reading read inside (places_left places.old) (values_of T.value matrix) text.now)
        (reading result.1 inside (places_left places.new) (values_of T.value result.0)
        result.2.now) }
{
    if !inside {
        return (matrix, read, text);
    }
    match (header.format, header.field) {
        (Format::Coordinate, Field::Integer) => {
            lines_of::<T, IntegerLines>(header, matrix, places, read, text)
        }
        (Format::Coordinate, Field::Pattern) => {
            lines_of::<T, PatternLines>(header, matrix, places, read, text)
        }
        (Format::Array, Field::Integer) => {
            lines_of::<T, ValueLines>(header, matrix, places, read, text)
        }
        _ => (matrix, read, text),
    }
}

// Reads lines of one kind, by the loop for the symmetry of the header.
fn lines_of<'a, T: MatrixMarketScalar, K: LineKind<T>>(
    header: Header,
    matrix: CooMatrix<T>,
    places: &mut Places,
    read: usize,
    text: &'a [u8],
) -> (CooMatrix<T>, usize, &'a [u8])
    requires kind { K.is_for header }
    requires begins { BeginsLine text.now }
    requires room { read + length text.now ≤ usize.MAX }
    ensures { IsReadOn T.scalar header
        (reading read true (places_left places.old) (values_of T.value matrix) text.now)
        (reading result.1 true (places_left places.new) (values_of T.value result.0)
        result.2.now) }
{
    match header.symmetry {
        Symmetry::General => run::<T, K, GENERAL>(header, matrix, places, read, text),
        Symmetry::Symmetric => run::<T, K, SYMMETRIC>(header, matrix, places, read, text),
        Symmetry::SkewSymmetric => run::<T, K, SKEW_SYMMETRIC>(header, matrix, places, read, text),
        // A hermitian matrix is complex, and has no such lines.
        Symmetry::Hermitian => (matrix, read, text),
    }
}

// The symmetries as numbers, since a const parameter cannot be an enumeration.
const GENERAL: u8 = 0;

const SYMMETRIC: u8 = 1;

const SKEW_SYMMETRIC: u8 = 2;

// Reads lines of one kind while the fast path applies, their triplets lie within the shape and there is room for two
// more.
//
// The matrix is passed by value, so that its pointers stay in registers. No test for the end of the text is needed: an
// empty text has no line of any kind.
#[inline(never)]
fn run<'a, T: MatrixMarketScalar, K: LineKind<T>, const SYMMETRY: u8>(
    header: Header,
    matrix: CooMatrix<T>,
    places: &mut Places,
    mut read: usize,
    text: &'a [u8],
) -> (CooMatrix<T>, usize, &'a [u8])
    requires kind { K.is_for header }
    requires symmetry { numbered_symmetry SYMMETRY ≡ header.symmetry }
    requires begins { BeginsLine text.now }
    requires room { read + length text.now ≤ usize.MAX }
    ensures { IsReadOn T.scalar header
        (reading read true (places_left places.old) (values_of T.value matrix) text.now)
        (reading result.1 true (places_left places.new) (values_of T.value result.0) result.2.now) }
{
    let header = with_symmetry::<SYMMETRY>(header);
    let mut list = CooAppender::new(matrix);
    let mut left = *places;
    let mut at = 0;
    'lines: while list.room() > 1 {
        let Some((found, next)) = K::line(header, &left, text, at) else {
            break;
        };
        if !are_inside(list.nrows(), list.ncols(), found) {
            break;
        }
        append_all(&mut list, found);
        at = next;
        read += 1;
        left.remove_first();
    }
    *places = left;
    let (_, rest) = text.split_at(at);
    (list.into_matrix(), read, rest)
}

// The header, with its symmetry known at compile time.
#[inline(always)]
fn with_symmetry<const SYMMETRY: u8>(header: Header) -> Header
    requires { numbered_symmetry SYMMETRY ≡ header.symmetry }
    ensures { result ≡ header }
{
    Header {
        format: header.format,
        field: header.field,
        symmetry: numbered_symmetry(SYMMETRY),
    }
}

#[inline(always)]
fn numbered_symmetry(number: u8) -> Symmetry
    ensures { result ≡ numbered_symmetry number }
{
    match number {
        0 => Symmetry::General,
        1 => Symmetry::Symmetric,
        _ => Symmetry::SkewSymmetric,
    }
}
