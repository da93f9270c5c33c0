//! What a size line says.
//!
//! It repeats `size.rt` of `sparse_parser` on purpose: tests compare the parser with this reference model, which
//! shares types with the parser and no code.

ghost use Rattle.std.specs.Prelude.{◌≡◌, true, [], ◌∷◌};
ghost use Rattle.sparse_parser.specs.Grammar.{is_index, is_size};
ghost use Rattle.sparse_parser.specs.declared.header.Format.TheVariants.{Coordinate, Array};
ghost use Rattle.sparse_parser.specs.declared.header.Symmetry.{Symmetry};
ghost use Rattle.sparse_parser.specs.ArrayPlaces.{array_count};
ghost use Rattle.sparse_parser.specs.Meaning.{sizes_of, numbers_of_size, is_fitting, within_usize};
ghost use Rattle.reference_models.specs.InnerTexts.{texts};

use crate::texts::header::is_allowed;
use crate::texts::lines::first_word;
use crate::texts::numbers::number;
use sparse_parser::error::MatrixMarketErrorKind;
use sparse_parser::header::{Format, Header, Symmetry};

/// The numbers of rows and of columns, and the number of data lines if it fits in `usize`.
pub type Sizes = (usize, usize, Option<usize>);

/// Returns what a size line says after a header: tests first the header's rules, then the numbers, then whether they
/// fit the symmetry.
#[tactic(auto, unfolding(sparse_parser::specs::Meaning::sizes_of))]
pub fn read_sizes(header: Header, words: &[&[u8]]) -> Result<Sizes, MatrixMarketErrorKind>
    requires { is_size (texts words.now) ≡ true }
    ensures { result ≡ sizes_of header (texts words.now) }
{
    if !is_allowed(header) {
        return Err(MatrixMarketErrorKind::InvalidHeader);
    }
    let (rows, cols, count) = numbers(header.format, header.symmetry, words)?;
    if !is_fitting(header.symmetry, rows, cols) {
        return Err(MatrixMarketErrorKind::NonSquare);
    }
    Ok((rows, cols, count))
}

// The numbers, as many as the format requires.
#[tactic(auto, unfolding(sparse_parser::specs::Meaning::numbers_of_size, sparse_parser::specs::Grammar::is_size))]
fn numbers(
    format: Format,
    symmetry: Symmetry,
    words: &[&[u8]],
) -> Result<Sizes, MatrixMarketErrorKind>
    requires { is_size (texts words.now) ≡ true }
    ensures { result ≡ numbers_of_size format symmetry (texts words.now) }
{
    let Some((rows, others)) = first_word(words) else {
        return Err(MatrixMarketErrorKind::ParsingError);
    };
    let Some((cols, others)) = first_word(others) else {
        return Err(MatrixMarketErrorKind::ParsingError);
    };
    match first_word(others) {
        Some((count, _)) => match format {
            Format::Coordinate => coordinate_sizes(rows, cols, count),
            Format::Array => Err(MatrixMarketErrorKind::ParsingError),
        },
        None => match format {
            Format::Coordinate => Err(MatrixMarketErrorKind::ParsingError),
            Format::Array => array_sizes(symmetry, rows, cols),
        },
    }
}

#[tactic(auto, unfolding(sparse_parser::specs::Meaning::numbers_of_size))]
fn coordinate_sizes(rows: &[u8], cols: &[u8], count: &[u8]) -> Result<Sizes, MatrixMarketErrorKind>
    requires rows { is_index rows.now ≡ true }
    requires cols { is_index cols.now ≡ true }
    requires count { is_index count.now ≡ true }
    ensures { (s : Symmetry) → result
        ≡ numbers_of_size Coordinate s (rows.now ∷ cols.now ∷ count.now ∷ []) }
{
    let rows = number(rows)?;
    let cols = number(cols)?;
    let count = number(count)?;
    Ok((rows, cols, Some(count)))
}

#[tactic(auto, unfolding(sparse_parser::specs::Meaning::numbers_of_size))]
fn array_sizes(symmetry: Symmetry, rows: &[u8], cols: &[u8]) -> Result<Sizes, MatrixMarketErrorKind>
    requires rows { is_index rows.now ≡ true }
    requires cols { is_index cols.now ≡ true }
    ensures { result ≡ numbers_of_size Array symmetry (rows.now ∷ cols.now ∷ []) }
{
    let rows = number(rows)?;
    let cols = number(cols)?;
    Ok((rows, cols, array_count(symmetry, rows, cols)))
}

fn is_fitting(symmetry: Symmetry, rows: usize, cols: usize) -> bool
    ensures { result ≡ is_fitting symmetry rows cols }
{
    match symmetry {
        Symmetry::General => true,
        Symmetry::Symmetric | Symmetry::SkewSymmetric | Symmetry::Hermitian => rows == cols,
    }
}

// The number of data lines of an array, if it fits in `usize`.
#[tactic(auto, unfolding(sparse_parser::specs::ArrayPlaces::array_count, sparse_parser::specs::Meaning::within_usize))]
fn array_count(symmetry: Symmetry, rows: usize, cols: usize) -> Option<usize>
    ensures { result ≡ within_usize (array_count symmetry rows cols) }
{
    let wide = u128::from(rows as u64);
    let count = match symmetry {
        Symmetry::General => wide * u128::from(cols as u64),
        Symmetry::Symmetric | Symmetry::Hermitian => wide * (wide + 1) / 2,
        Symmetry::SkewSymmetric => wide * wide.saturating_sub(1) / 2,
    };
    usize::try_from(count).ok()
}
