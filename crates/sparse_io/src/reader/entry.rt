//! The triplets of a data line.

ghost use Rattle.std.specs.Prelude.{◌≡◌, [], ◌∷◌, ℕ, Option, None, true, map, Ok, Err};
ghost use Rattle.sparse_parser.specs.declared.header.Format.TheVariants.{Coordinate, Array};
ghost use Rattle.sparse_parser.specs.declared.header.Field.TheVariants.{Integer};
ghost use Rattle.sparse_parser.specs.Errors.{kind_of_cause};
ghost use Rattle.sparse_parser.specs.Reads.{read_as};
ghost use Rattle.sparse_parser.specs.Meaning.{number_of, place_of, field_value, placed, entry_of};
ghost use Rattle.sparse_parser.specs.Meaning.{mirrored, triplets_of, value_triplet};
ghost use Rattle.sparse_parser.specs.InnerReading.{found};
ghost use Rattle.sparse_parser.specs.InnerLines.{is_plain, IsNumber, AreNumbers, words_in};
ghost use Rattle.sparse_io.specs.InnerEntries.{both_of, triplets_at};

use sparse_market_scalar::MatrixMarketScalar;
use sparse_parser::data_lines::{Line, Number};
use sparse_parser::error::{Cause, MatrixMarketError};
use sparse_parser::header::{Field, Format, Header, Symmetry};

/// A row and a column, counted from 0, and a value.
pub type Triplet<T> = (usize, usize, T);

/// An entry, and the value of the mirrored one if the symmetry implies one.
pub type Triplets<T> = (Triplet<T>, Option<T>);

/// Returns the triplets of a data line. `at` is the row and the column of an array's entry.
#[tactic(auto, unfolding(sparse_parser::specs::Meaning::triplets_of))]
pub fn triplets<T: MatrixMarketScalar>(
    header: Header,
    at: Option<(usize, usize)>,
    line: Line<'_>,
) -> Result<Triplets<T>, MatrixMarketError>
    requires { AreNumbers line }
    ensures { read_as (λ t. map (λ t. value_triplet T.value t) (both_of t)) result
        ≡ triplets_of T.scalar header at (words_in line.entry) }
{
    let entry = match header.format {
        Format::Coordinate => coordinate_entry(header.field, line)?,
        Format::Array => array_entry(header.field, at, line)?,
    };
    with_mirrored(header.symmetry, entry)
}

/// Returns the triplets of an integer entry, whose row and column count from 1.
#[inline(always)]
pub fn integer_triplets<T: MatrixMarketScalar>(
    symmetry: Symmetry,
    row: usize,
    col: usize,
    value: i128,
) -> Result<Triplets<T>, MatrixMarketError>
    ensures { read_as (λ t. map (λ t. value_triplet T.value t) (both_of t)) result
        ≡ triplets_at T.scalar symmetry (place_of (Ok row) (Ok col)) (T.scalar.from_number value) }
{
    let (row, col) = place(row, col)?;
    let value = T::from_i128(value)?;
    with_mirrored(symmetry, (row, col, value))
}

/// Returns the triplets of a pattern entry, whose row and column count from 1.
#[inline(always)]
pub fn pattern_triplets<T: MatrixMarketScalar>(
    symmetry: Symmetry,
    row: usize,
    col: usize,
) -> Result<Triplets<T>, MatrixMarketError>
    ensures { read_as (λ t. map (λ t. value_triplet T.value t) (both_of t)) result
        ≡ triplets_at T.scalar symmetry (place_of (Ok row) (Ok col)) T.scalar.from_pattern }
{
    let (row, col) = place(row, col)?;
    let value = T::from_pattern(())?;
    with_mirrored(symmetry, (row, col, value))
}

/// Returns the triplets of an integer entry of an array, at the given row and column.
#[inline(always)]
pub fn value_triplets<T: MatrixMarketScalar>(
    symmetry: Symmetry,
    at: (usize, usize),
    value: i128,
) -> Result<Triplets<T>, MatrixMarketError>
    ensures { read_as (λ t. map (λ t. value_triplet T.value t) (both_of t)) result
        ≡ triplets_at T.scalar symmetry (Ok at) (T.scalar.from_number value) }
{
    let value = T::from_i128(value)?;
    with_mirrored(symmetry, (at.0, at.1, value))
}

// The entry of a data line in the coordinate format.
#[tactic(auto, unfolding(sparse_parser::specs::Meaning::entry_of, sparse_parser::specs::Meaning::field_value))]
fn coordinate_entry<T: MatrixMarketScalar>(
    field: Field,
    line: Line<'_>,
) -> Result<Triplet<T>, MatrixMarketError>
    requires { AreNumbers line }
    ensures { (at : Option (ℕ × ℕ)) → read_as (λ t. value_triplet T.value t) result
        ≡ entry_of T.scalar Coordinate field at (words_in line.entry) }
{
    match (field, line) {
        (Field::Pattern, Line::Two(row, col)) if row.is_index() && col.is_index() => {
            pattern_entry(row, col)
        }
        (Field::Integer, Line::Three(row, col, value)) => integer_entry(row, col, value),
        (Field::Real, Line::Three(row, col, _)) => refused_entry(row, col, Cause::RealEntry),
        (Field::Complex, Line::Four(row, col, _, _)) => refused_entry(
            row,
            col,
            Cause::ComplexEntry,
        ),
        _ => Err(MatrixMarketError::new(Cause::EntryShape)),
    }
}

// The entry of a data line with a row and a column.
#[inline(always)]
fn pattern_entry<T: MatrixMarketScalar>(
    row: Number<'_>,
    col: Number<'_>,
) -> Result<Triplet<T>, MatrixMarketError>
    requires row_is { IsNumber row }
    requires col_is { IsNumber col }
    requires row_index { is_plain row.kind ≡ true }
    requires col_index { is_plain col.kind ≡ true }
    ensures { read_as (λ t. value_triplet T.value t) result
        ≡ placed T.scalar (place_of (number_of row.entry.word.now) (number_of col.entry.word.now))
        T.scalar.from_pattern }
{
    let (row, col) = index_place(row, col)?;
    Ok((row, col, T::from_pattern(())?))
}

// The entry of a data line with a row, a column and an integer.
#[inline(always)]
fn integer_entry<T: MatrixMarketScalar>(
    row: Number<'_>,
    col: Number<'_>,
    value: Number<'_>,
) -> Result<Triplet<T>, MatrixMarketError>
    requires row_is { IsNumber row }
    requires col_is { IsNumber col }
    requires value_is { IsNumber value }
    requires row_index { is_plain row.kind ≡ true }
    requires col_index { is_plain col.kind ≡ true }
    ensures { read_as (λ t. value_triplet T.value t) result
        ≡ placed T.scalar (place_of (number_of row.entry.word.now) (number_of col.entry.word.now))
        (field_value T.scalar Integer (value.entry.word.now ∷ [])) }
{
    integer_at(index_place(row, col)?, value)
}

// The error of a real or complex entry: that of its row and column, or else the given one.
#[inline(always)]
fn refused_entry<T: MatrixMarketScalar>(
    row: Number<'_>,
    col: Number<'_>,
    cause: Cause,
) -> Result<Triplet<T>, MatrixMarketError>
    requires row_is { IsNumber row }
    requires col_is { IsNumber col }
    requires row_index { is_plain row.kind ≡ true }
    requires col_index { is_plain col.kind ≡ true }
    ensures { read_as (λ t. value_triplet T.value t) result
        ≡ placed T.scalar (place_of (number_of row.entry.word.now) (number_of col.entry.word.now))
        (Err (kind_of_cause cause)) }
{
    index_place(row, col)?;
    Err(MatrixMarketError::new(cause))
}

// The entry of a data line in the array format, at the given row and column.
#[tactic(auto, unfolding(sparse_parser::specs::Meaning::entry_of, sparse_parser::specs::Meaning::field_value))]
fn array_entry<T: MatrixMarketScalar>(
    field: Field,
    at: Option<(usize, usize)>,
    line: Line<'_>,
) -> Result<Triplet<T>, MatrixMarketError>
    requires { AreNumbers line }
    ensures { read_as (λ t. value_triplet T.value t) result
        ≡ entry_of T.scalar Array field at (words_in line.entry) }
{
    let Some(place) = at else {
        return Err(MatrixMarketError::new(Cause::EntryShape));
    };
    match (field, line) {
        (Field::Integer, Line::One(value)) => integer_at(place, value),
        (Field::Real, Line::One(_)) => Err(MatrixMarketError::new(Cause::RealEntry)),
        (Field::Complex, Line::Two(_, _)) => Err(MatrixMarketError::new(Cause::ComplexEntry)),
        _ => Err(MatrixMarketError::new(Cause::EntryShape)),
    }
}

// The entry of an integer at a row and a column.
#[inline(always)]
fn integer_at<T: MatrixMarketScalar>(
    place: (usize, usize),
    number: Number<'_>,
) -> Result<Triplet<T>, MatrixMarketError>
    requires { IsNumber number }
    ensures { read_as (λ t. value_triplet T.value t) result
        ≡ placed T.scalar (Ok place) (field_value T.scalar Integer (number.entry.word.now ∷ [])) }
{
    Ok((place.0, place.1, integer_value(number)?))
}

// The row and the column counted from 0, given as numbers that count from 1.
#[tactic(auto, unfolding(sparse_parser::specs::Meaning::place_of))]
fn index_place(row: Number<'_>, col: Number<'_>) -> Result<(usize, usize), Cause>
    requires row_is { IsNumber row }
    requires col_is { IsNumber col }
    requires row_index { is_plain row.kind ≡ true }
    requires col_index { is_plain col.kind ≡ true }
    ensures { found result
        ≡ place_of (number_of row.entry.word.now) (number_of col.entry.word.now) }
{
    let row = row.index()?;
    let col = col.index()?;
    place(row, col)
}

// The row and the column counted from 0, given counted from 1.
#[tactic(auto, unfolding(sparse_parser::specs::Meaning::place_of))]
#[inline(always)]
fn place(row: usize, col: usize) -> Result<(usize, usize), Cause>
    ensures { found result ≡ place_of (Ok row) (Ok col) }
{
    if row == 0 || col == 0 {
        return Err(Cause::ZeroIndex);
    }
    Ok((row - 1, col - 1))
}

// The value of an integer entry.
#[tactic(auto, unfolding(sparse_parser::specs::Meaning::field_value))]
fn integer_value<T: MatrixMarketScalar>(number: Number<'_>) -> Result<T, MatrixMarketError>
    requires { IsNumber number }
    ensures { read_as (λ x. T.value x) result
        ≡ field_value T.scalar Integer (number.entry.word.now ∷ []) }
{
    T::from_i128(number.integer()?)
}

// An entry, with the mirrored one if the symmetry implies one.
#[tactic(auto, unfolding(sparse_parser::specs::Meaning::mirrored))]
#[inline(always)]
fn with_mirrored<T: MatrixMarketScalar>(
    symmetry: Symmetry,
    entry: Triplet<T>,
) -> Result<Triplets<T>, MatrixMarketError>
    ensures { read_as (λ t. map (λ t. value_triplet T.value t) (both_of t)) result
        ≡ mirrored T.scalar symmetry (value_triplet T.value entry) }
{
    let (row, col, value) = entry;
    if let Symmetry::General = symmetry {
        return Ok((entry, None));
    }
    if row < col {
        return Err(MatrixMarketError::new(Cause::AboveDiagonal));
    }
    match symmetry {
        Symmetry::SkewSymmetric if row == col => Err(MatrixMarketError::new(Cause::OnDiagonal)),
        Symmetry::SkewSymmetric => Ok((entry, Some(value.negative()?))),
        _ if row == col => Ok((entry, None)),
        _ => Ok((entry, Some(value))),
    }
}
