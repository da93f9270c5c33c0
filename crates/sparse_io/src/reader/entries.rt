//! The loop over the data lines.

ghost use Rattle.std.specs.Prelude.{◌≡◌, false, MatchOption, map};
ghost use Rattle.sparse_parser.specs.Grammar.{is_entry};
ghost use Rattle.sparse_parser.specs.Reads.{read_as};
ghost use Rattle.sparse_parser.specs.Meaning.{is_count, listed_of, values_of, value_triplet};
ghost use Rattle.sparse_parser.specs.InnerReading.{Gives, line_words, contents_of, among_entries};
ghost use Rattle.sparse_io.specs.InnerEntries.{both_of, ended_of, IsMeant};

use crate::reader::entry::{Triplets, triplets};
use crate::reader::places::Places;
use crate::reader::pushes::{Bounds, add_all};
use crate::reader::runs::common_lines;
use crate::reader::settled;
use sparse_coo_dense::coo::CooMatrix;
use sparse_market_scalar::MatrixMarketScalar;
use sparse_parser::data_lines::data_line;
use sparse_parser::error::{Cause, MatrixMarketError};
use sparse_parser::header::{Field, Format, Header, Symmetry};
use sparse_parser::lines::next_line;
use sparse_parser::size::Size;
use sparse_pattern::error::{SparseFormatError, SparseFormatErrorKind};
use std::alloc::Global;

/// Reads the data lines below a size line into a matrix.
#[inline(never)]
pub fn read_entries<T: MatrixMarketScalar>(
    alloc: Global,
    header: Header,
    size: Size,
    text: &[u8],
) -> Result<CooMatrix<T>, MatrixMarketError>
    ensures { Gives T.scalar T.value result (among_entries (contents_of text.now)
        (listed_of T.scalar header (size.rows, size.cols, size.count) (contents_of text.now))) }
{
    let mut matrix = CooMatrix::new(alloc, size.rows, size.cols);
    matrix.reserve(room(header, size.count, text.len()))?;
    let mut places = Places::new(header.format, header.symmetry, size.rows, size.cols);
    let mut rest = next_line(text);
    let mut read = 0;
    let mut bounds = Bounds {
        inside: true,
        rows: true,
    };
    while !rest.is_empty() {
        let at = places.take_first();
        let Some((found, after)) = general_triplets(header, at, rest) else {
            return Err(MatrixMarketError::new(Cause::Grammar));
        };
        read += 1;
        match found {
            Err(fault) => return Err(settled(fault, read, size.count, after)),
            Ok(found) => bounds = add_all(&mut matrix, bounds, found)?,
        }
        let next = next_line(after);
        let others = common_lines(header, matrix, &mut places, read, bounds.inside, next);
        (matrix, read, rest) = others;
    }
    finished(matrix, is_count(size.count, read), bounds)
}

// Reads the first line of a text. Returns its triplets and the text from the line's end on, or `None` if it is not a
// data line.
#[inline(never)]
fn general_triplets<T: MatrixMarketScalar>(
    header: Header,
    at: Option<(usize, usize)>,
    text: &[u8],
) -> Option<(Result<Triplets<T>, MatrixMarketError>, &[u8])>
    ensures { MatchOption result (is_entry (line_words text.now) ≡ false)
        (λ x. IsMeant T.scalar header at text.now
        (read_as (λ t. map (λ t. value_triplet T.value t) (both_of t)) x.0) x.1.now) }
{
    let (line, after) = data_line(text)?;
    Some((triplets(header, at, line), after))
}

// Returns the matrix if the number of its data lines is right and its triplets lie within the shape.
fn finished<T: MatrixMarketScalar>(
    matrix: CooMatrix<T>,
    complete: bool,
    bounds: Bounds,
) -> Result<CooMatrix<T>, MatrixMarketError>
    ensures { read_as (λ m. values_of T.value m) result
        ≡ ended_of complete bounds.inside (values_of T.value matrix) }
{
    if !complete {
        return Err(MatrixMarketError::new(Cause::EntryCount));
    }
    if bounds.inside {
        return Ok(matrix);
    }
    let text = if bounds.rows {
        "Col index out of bounds."
    } else {
        "Row index out of bounds."
    };
    Err(SparseFormatError::new(SparseFormatErrorKind::IndexOutOfBounds, text).into())
}

// Whether the number of data lines is the one that the size line gives.
fn is_count(count: Option<usize>, lines: usize) -> bool
    ensures { result ≡ is_count count lines }
{
    match count {
        Some(count) => lines == count,
        None => false,
    }
}

// The number of triplets to reserve: twice the number of entries if the matrix has a symmetry, and none for real and
// complex entries, which are errors. The number of entries in the size line counts only if the text is long enough for
// half of them.
fn room(header: Header, count: Option<usize>, len: usize) -> usize {
    let shortest = match (header.format, header.field) {
        (Format::Array, _) => 2,
        (Format::Coordinate, Field::Pattern) => 4,
        (Format::Coordinate, _) => 6,
    };
    let lines = match count {
        Some(count) if count / 2 <= len / shortest => count,
        _ => 0,
    };
    match (header.field, header.symmetry) {
        (Field::Real | Field::Complex, _) => 0,
        (_, Symmetry::General) => lines,
        _ => lines.saturating_mul(2),
    }
}
