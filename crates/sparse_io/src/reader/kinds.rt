//! The kinds of data lines for which the reader has loops of their own.

ghost use Rattle.std.specs.Prelude.{◌≤◌, MatchOption, Ok, length, drop, map, slice_get};
ghost use Rattle.sparse_parser.specs.InnerBytes.{BeginsLine};
ghost use Rattle.sparse_parser.specs.Meaning.{value_triplet};
ghost use Rattle.sparse_io.specs.InnerEntries.{both_of, IsLineRead};
ghost use Rattle.sparse_io.specs.InnerPlaces.{places_left};

use crate::reader::entry::{Triplets, integer_triplets, pattern_triplets, value_triplets};
use crate::reader::places::Places;
use sparse_market_scalar::MatrixMarketScalar;
use sparse_parser::header::Header;
use sparse_parser::integer_lines::{integer_line, pattern_line, value_line};
use sparse_parser::lines::next_line_at;

/// A kind of data line.
pub trait LineKind<T: MatrixMarketScalar> {
    ghost use Rattle.sparse_parser.specs.declared.header.Header.{Header};

    // The headers of the texts that have such lines.
    ghost is_for: { Header → Type 0 };

    /// Reads the line at an offset. Returns its triplets and the offset of the next line, or `None` if the fast path
    /// does not apply or the line has an error.
    fn line(
        header: Header,
        places: &Places,
        text: &[u8],
        from: usize,
    ) -> Option<(Triplets<T>, usize)>
        requires kind { is_for header }
        requires inside { from ≤ length text.now }
        requires begins { BeginsLine (drop from text.now) }
        ensures inside { MatchOption result (Unit {0}) (λ x. x.1 ≤ length text.now) }
        ensures read { MatchOption result (Unit {0}) (λ x. IsLineRead T.scalar header
            (slice_get (places_left places.now) 0) (drop from text.now)
            (Ok (map (λ t. value_triplet T.value t) (both_of x.0))) (drop x.1 text.now)) };
}

/// Lines of two indices and an integer.
pub struct IntegerLines;

/// Lines of two indices.
pub struct PatternLines;

/// Lines of an integer: the data lines of arrays.
pub struct ValueLines;

impl<T: MatrixMarketScalar> LineKind<T> for IntegerLines {
    ghost use Rattle.sparse_io.specs.InnerEntries.{HasIntegers};

    ghost is_for = { HasIntegers };

    #[inline(always)]
    fn line(
        header: Header,
        _places: &Places,
        text: &[u8],
        from: usize,
    ) -> Option<(Triplets<T>, usize)> {
        let (row, col, value, end) = integer_line(text, from)?;
        match integer_triplets(header.symmetry, row, col, i128::from(value)) {
            Ok(found) => Some((found, next_line_at(text, end))),
            Err(_) => None,
        }
    }
}

impl<T: MatrixMarketScalar> LineKind<T> for PatternLines {
    ghost use Rattle.sparse_io.specs.InnerEntries.{HasIndices};

    ghost is_for = { HasIndices };

    #[inline(always)]
    fn line(
        header: Header,
        _places: &Places,
        text: &[u8],
        from: usize,
    ) -> Option<(Triplets<T>, usize)> {
        let (row, col, end) = pattern_line(text, from)?;
        match pattern_triplets(header.symmetry, row, col) {
            Ok(found) => Some((found, next_line_at(text, end))),
            Err(_) => None,
        }
    }
}

impl<T: MatrixMarketScalar> LineKind<T> for ValueLines {
    ghost use Rattle.sparse_io.specs.InnerEntries.{HasValues};

    ghost is_for = { HasValues };

    #[inline(always)]
    fn line(
        header: Header,
        places: &Places,
        text: &[u8],
        from: usize,
    ) -> Option<(Triplets<T>, usize)> {
        if places.is_empty() {
            return None;
        }
        let (value, end) = value_line(text, from)?;
        match value_triplets(header.symmetry, places.first(), i128::from(value)) {
            Ok(found) => Some((found, next_line_at(text, end))),
            Err(_) => None,
        }
    }
}
