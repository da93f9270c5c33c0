//! Parsing the size line.

ghost use Rattle.std.specs.Prelude.{◌≡◌, [], ◌∷◌, ◌<◌, IsTrue, MatchOption, None, Some, false};
ghost use Rattle.std.specs.Prelude.{true};
ghost use Rattle.std.specs.Option.{option_map};
ghost use Rattle.sparse_parser.specs.declared.header.Format.TheVariants.{Coordinate, Array};
ghost use Rattle.sparse_parser.specs.declared.header.Symmetry.TheVariants.{General};
ghost use Rattle.sparse_parser.specs.Grammar.{is_index, is_size};
ghost use Rattle.sparse_parser.specs.ArrayPlaces.{array_count};
ghost use Rattle.sparse_parser.specs.Meaning.{number_of, numbers_of_size, sizes_of, is_fitting};
ghost use Rattle.sparse_parser.specs.Meaning.{within_usize};
ghost use Rattle.sparse_parser.specs.InnerReading.{found, words_of, size_numbers, size_at};
ghost use Rattle.sparse_parser.specs.InnerSize.{size_words, AreIndices};

use crate::error::Cause;
use crate::header::{Format, Header, Symmetry};
use crate::lines::next_word;
use crate::numbers::{index, is_index};

/// The numbers of a size line.
#[derive(Clone, Copy)]
pub struct Size {
    pub rows: usize,
    pub cols: usize,
    /// The number of data lines, if it fits in a `usize`.
    pub count: Option<usize>,
}

/// The words of a size line: rows, columns and, in the coordinate format, the number of entries.
#[derive(Clone, Copy)]
pub struct SizeWords<'a> {
    rows: &'a [u8],
    cols: &'a [u8],
    count: Option<&'a [u8]>,
}

impl Size {
    /// Parses the size line below a header. Returns `None` if the line does not match the grammar, and the cause of the
    /// error if the header or the size line is invalid.
    #[tactic(auto, unfolding(crate::specs::InnerReading::size_at))]
    pub fn from_line(header: Header, line: &[u8]) -> Option<Result<Size, Cause>>
        ensures { option_map (λ r. size_numbers r) result ≡ size_at header (words_of line.now) }
    {
        let words = size_words(line)?;
        Some(Size::checked(header, words))
    }

    // Checks the header, then the numbers, then that a matrix with a symmetry is square.
    #[tactic(auto, unfolding(crate::specs::Meaning::sizes_of))]
    fn checked(header: Header, words: SizeWords<'_>) -> Result<Size, Cause>
        requires { AreIndices words }
        ensures { size_numbers result ≡ sizes_of header (size_words words.entry) }
    {
        if let Some(cause) = header.fault() {
            return Err(cause);
        }
        let size = Size::numbers(header.format, header.symmetry, words)?;
        if !fits(header.symmetry, size.rows, size.cols) {
            return Err(Cause::NotSquare);
        }
        Ok(size)
    }

    // The numbers of a size line, if they are as many as the format needs and fit in `usize`.
    #[tactic(auto, unfolding(crate::specs::Meaning::numbers_of_size))]
    fn numbers(format: Format, symmetry: Symmetry, words: SizeWords<'_>) -> Result<Size, Cause>
        requires { AreIndices words }
        ensures { size_numbers result ≡ numbers_of_size format symmetry (size_words words.entry) }
    {
        match (format, words.count) {
            (Format::Coordinate, Some(count)) => Size::coordinate(words.rows, words.cols, count),
            (Format::Array, None) => Size::array(symmetry, words.rows, words.cols),
            (Format::Coordinate, None) | (Format::Array, Some(_)) => Err(Cause::SizeCount),
        }
    }

    // The numbers of a size line in the coordinate format, if they fit in `usize`.
    #[tactic(auto, unfolding(crate::specs::Meaning::numbers_of_size))]
    fn coordinate(rows: &[u8], cols: &[u8], count: &[u8]) -> Result<Size, Cause>
        requires rows { IsTrue (is_index rows.now) }
        requires cols { IsTrue (is_index cols.now) }
        requires count { IsTrue (is_index count.now) }
        ensures { size_numbers result
            ≡ numbers_of_size Coordinate General (rows.now ∷ cols.now ∷ count.now ∷ []) }
    {
        match (number(rows), number(cols), number(count)) {
            (Ok(rows), Ok(cols), Ok(count)) => Ok(Size {
                rows,
                cols,
                count: Some(count),
            }),
            (Err(cause), _, _) | (_, Err(cause), _) | (_, _, Err(cause)) => Err(cause),
        }
    }

    // The numbers of a size line in the array format, if they fit in `usize`.
    #[tactic(auto, unfolding(crate::specs::Meaning::numbers_of_size))]
    fn array(symmetry: Symmetry, rows: &[u8], cols: &[u8]) -> Result<Size, Cause>
        requires rows { IsTrue (is_index rows.now) }
        requires cols { IsTrue (is_index cols.now) }
        ensures { size_numbers result ≡ numbers_of_size Array symmetry (rows.now ∷ cols.now ∷ []) }
    {
        match (number(rows), number(cols)) {
            (Ok(rows), Ok(cols)) => Ok(Size {
                rows,
                cols,
                count: array_count(symmetry, rows, cols),
            }),
            (Err(cause), _) | (_, Err(cause)) => Err(cause),
        }
    }
}

// Splits a size line into two or three indices.
#[tactic(auto, unfolding(crate::specs::Grammar::is_size))]
fn size_words(line: &[u8]) -> Option<SizeWords<'_>>
    ensures { MatchOption result (is_size (words_of line.now) ≡ false)
        (λ w. (is_size (words_of line.now) ≡ true) × (words_of line.now ≡ size_words w)
        × AreIndices w) }
{
    let (rows, rest) = next_word(line)?;
    let (cols, rest) = next_word(rest)?;
    if !is_index(rows) || !is_index(cols) {
        return None;
    }
    let Some((count, rest)) = next_word(rest) else {
        return Some(SizeWords {
            rows,
            cols,
            count: None,
        });
    };
    if !is_index(count) || next_word(rest).is_some() {
        return None;
    }
    Some(SizeWords {
        rows,
        cols,
        count: Some(count),
    })
}

fn number(word: &[u8]) -> Result<usize, Cause>
    requires { IsTrue (is_index word.now) }
    ensures { found result ≡ number_of word.now }
{
    index(word).ok_or(Cause::SizeTooLarge)
}

// Whether the matrix is square, if the symmetry requires that.
fn fits(symmetry: Symmetry, rows: usize, cols: usize) -> bool
    ensures { result ≡ is_fitting symmetry rows cols }
{
    match symmetry {
        Symmetry::General => true,
        Symmetry::Symmetric | Symmetry::SkewSymmetric | Symmetry::Hermitian => rows == cols,
    }
}

// The number of data lines of an array, if it fits in a `usize`.
#[tactic(auto, unfolding(crate::specs::ArrayPlaces::array_count, crate::specs::Meaning::within_usize))]
fn array_count(symmetry: Symmetry, rows: usize, cols: usize) -> Option<usize>
    ensures { result ≡ within_usize (array_count symmetry rows cols) }
{
    let wide = u128::from(rows as u64);
    let count = match symmetry {
        Symmetry::General => wide * u128::from(cols as u64),
        Symmetry::Symmetric | Symmetry::Hermitian => wide * (wide + 1) / 2,
        Symmetry::SkewSymmetric => wide * wide.saturating_sub(1) / 2,
    };
    usize::try_from(count).ok()
}
