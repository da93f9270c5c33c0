//! The meaning of a data line.

ghost use Rattle.std.specs.Prelude.{◌≡◌, ℕ, true, IsTrue, Option, map};
ghost use Rattle.sparse_parser.specs.Grammar.{is_index};
ghost use Rattle.sparse_parser.specs.declared.header.Format.TheVariants.{Coordinate, Array};
ghost use Rattle.sparse_parser.specs.Reads.{read_as};
ghost use Rattle.sparse_parser.specs.Meaning.{field_value, entry_of, place_of, number_of};
ghost use Rattle.sparse_parser.specs.Meaning.{is_of_field};
ghost use Rattle.sparse_parser.specs.Meaning.{mirrored, triplets_of, value_triplet};
ghost use Rattle.reference_models.specs.Texts.{seen};
ghost use Rattle.reference_models.specs.InnerTexts.{texts, both_of};

use crate::texts::lines::first_word;
use crate::texts::numbers::{integer, is_index, number};
use sparse_io::MatrixMarketScalar;
use sparse_parser::error::{MatrixMarketError, MatrixMarketErrorKind};
use sparse_parser::header::{Field, Format, Header, Symmetry};

/// A row and a column, counted from 0, and a value.
pub type Triplet<T> = (usize, usize, T);

/// Returns the triplets of a data line. An entry of an array has the given row and column.
#[tactic(auto, unfolding(sparse_parser::specs::Meaning::triplets_of))]
pub fn triplets<T: MatrixMarketScalar>(
    header: Header,
    at: Option<(usize, usize)>,
    words: &[&[u8]],
) -> Result<(Triplet<T>, Option<Triplet<T>>), MatrixMarketErrorKind>
    ensures { seen (λ t. map (value_triplet T.value) (both_of t)) result
        ≡ triplets_of T.scalar header at (texts words.now) }
{
    let entry = match header.format {
        Format::Coordinate => coordinate_entry(header.field, words)?,
        Format::Array => array_entry(header.field, at, words)?,
    };
    with_mirrored(header.symmetry, entry)
}

// The entry of a coordinate line: two indices and a value.
#[tactic(auto, unfolding(sparse_parser::specs::Meaning::entry_of))]
fn coordinate_entry<T: MatrixMarketScalar>(
    field: Field,
    words: &[&[u8]],
) -> Result<Triplet<T>, MatrixMarketErrorKind>
    ensures { (at : Option (ℕ × ℕ)) → seen (λ t. value_triplet T.value t) result
        ≡ entry_of T.scalar Coordinate field at (texts words.now) }
{
    let Some((row, others)) = first_word(words) else {
        return Err(MatrixMarketErrorKind::ParsingError);
    };
    let Some((col, value)) = first_word(others) else {
        return Err(MatrixMarketErrorKind::ParsingError);
    };
    if !is_index(row) || !is_index(col) || !is_of_field(field, value) {
        return Err(MatrixMarketErrorKind::ParsingError);
    }
    let (row, col) = place(row, col)?;
    Ok((row, col, field_value(field, value)?))
}

// The entry of an array, at its row and column.
#[tactic(auto, unfolding(sparse_parser::specs::Meaning::entry_of))]
fn array_entry<T: MatrixMarketScalar>(
    field: Field,
    at: Option<(usize, usize)>,
    words: &[&[u8]],
) -> Result<Triplet<T>, MatrixMarketErrorKind>
    ensures { seen (λ t. value_triplet T.value t) result
        ≡ entry_of T.scalar Array field at (texts words.now) }
{
    match at {
        Some((row, col)) if is_of_field(field, words) => Ok((row, col, field_value(field, words)?)),
        _ => Err(MatrixMarketErrorKind::ParsingError),
    }
}

// Whether a value of the field has this number of words.
fn is_of_field(field: Field, words: &[&[u8]]) -> bool
    ensures { result ≡ is_of_field field (texts words.now) }
{
    let count = match field {
        Field::Integer | Field::Real => 1,
        Field::Complex => 2,
        Field::Pattern => 0,
    };
    words.len() == count
}

// The row and the column, counted from 0, of two numbers counted from 1.
#[tactic(auto, unfolding(sparse_parser::specs::Meaning::place_of))]
fn place(row: &[u8], col: &[u8]) -> Result<(usize, usize), MatrixMarketErrorKind>
    requires row { IsTrue (is_index row.now) }
    requires col { IsTrue (is_index col.now) }
    ensures { result ≡ place_of (number_of row.now) (number_of col.now) }
{
    let row = number(row)?;
    let col = number(col)?;
    if row == 0 || col == 0 {
        return Err(MatrixMarketErrorKind::ZeroError);
    }
    Ok((row - 1, col - 1))
}

// The value that words of its field write.
#[tactic(auto, unfolding(sparse_parser::specs::Meaning::field_value))]
fn field_value<T: MatrixMarketScalar>(
    field: Field,
    words: &[&[u8]],
) -> Result<T, MatrixMarketErrorKind>
    requires { is_of_field field (texts words.now) ≡ true }
    ensures { seen T.value result ≡ field_value T.scalar field (texts words.now) }
{
    match (field, words) {
        (Field::Integer, [word, ..]) => kind_of(T::from_i128(integer(word)?)),
        (Field::Pattern, _) => kind_of(T::from_pattern(())),
        _ => Err(MatrixMarketErrorKind::TypeMismatch),
    }
}

// An answer, with an error replaced by its kind.
fn kind_of<T: MatrixMarketScalar>(
    answer: Result<T, MatrixMarketError>,
) -> Result<T, MatrixMarketErrorKind>
    ensures { seen T.value result ≡ read_as T.value answer }
{
    match answer {
        Ok(value) => Ok(value),
        Err(error) => Err(error.kind()),
    }
}

// An entry with the one that the symmetry implies.
#[tactic(auto, unfolding(sparse_parser::specs::Meaning::mirrored))]
fn with_mirrored<T: MatrixMarketScalar>(
    symmetry: Symmetry,
    entry: Triplet<T>,
) -> Result<(Triplet<T>, Option<Triplet<T>>), MatrixMarketErrorKind>
    ensures { seen (λ t. map (value_triplet T.value) (both_of t)) result
        ≡ mirrored T.scalar symmetry (value_triplet T.value entry) }
{
    let (row, col, value) = entry;
    match symmetry {
        Symmetry::General => Ok((entry, None)),
        Symmetry::SkewSymmetric => {
            if row < col {
                return Err(MatrixMarketErrorKind::NotLowerTriangle);
            }
            if row == col {
                return Err(MatrixMarketErrorKind::DiagonalError);
            }
            Ok((entry, Some((col, row, kind_of(value.negative())?))))
        }
        Symmetry::Symmetric | Symmetry::Hermitian => {
            if row < col {
                return Err(MatrixMarketErrorKind::NotLowerTriangle);
            }
            if row == col {
                return Ok((entry, None));
            }
            Ok((entry, Some((col, row, value))))
        }
    }
}
