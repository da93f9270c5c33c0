//! Finds the fault of a data line of a text, if it has one.

ghost use Rattle.std.specs.Prelude.{◌≡◌, ◌&&◌, ◌<◌, ◌-◌, true};
ghost use Rattle.std.specs.Option.{is_none};
ghost use Rattle.sparse_parser.specs.declared.header.Format.TheVariants.{Coordinate, Array};
ghost use Rattle.sparse_parser.specs.Grammar.{IsOneLine, is_entry};
ghost use Rattle.sparse_parser.specs.Header.{is_allowed};
ghost use Rattle.sparse_parser.specs.InnerLines.{AreNumbers, IsNumber, is_plain, words_in};
ghost use Rattle.sparse_parser.specs.InnerReading.{words_of};
ghost use Rattle.sparse_parser.specs.Meaning.{integer_of, number_of, place_of};
ghost use Rattle.sparse_faults.specs.InnerFirstFaults.{IsAllowed, has_integer, has_negative};
ghost use Rattle.sparse_faults.specs.InnerFirstFaults.{has_triplets, is_lower, is_nothing};
ghost use Rattle.sparse_faults.specs.InnerFirstFaults.{is_ok_and, is_value, passes};

use crate::bounds::{bounds_fault, indices};
use crate::fault::LineFault;
use crate::value_type::ValueType;
use sparse_parser::data_lines::{Line, Number, data_line};
use sparse_parser::header::{Field, Format, Header, Symmetry};
use sparse_parser::size::Size;

/// The faults that lines below the size line are searched for.
#[derive(Clone, Copy)]
pub(crate) enum Search {
    /// Lines that are no data lines.
    Grammar,
    /// Faults of entries below this header, whatever the sizes are, whose values are read as this type. An entry of a
    /// pattern that is read as an integer has a fault, since it has no value.
    Entries(Header, ValueType),
    /// Rows and columns that exceed these sizes.
    Bounds(Size),
}

/// Returns the fault of a line that is neither blank nor a comment, if the search finds one.
pub(crate) fn line_fault(search: Search, line: &[u8]) -> Option<LineFault>
    requires line { IsOneLine line.now }
    requires allowed { IsAllowed search }
    ensures { is_none result ≡ (is_entry (words_of line.now) && passes search (words_of line.now)) }
{
    match data_line(line) {
        Some((numbers, _)) => fault_in(search, numbers),
        None => Some(LineFault::Entry),
    }
}

// Returns the fault of a data line, if the search finds one.
#[tactic(auto, unfolding(crate::specs::InnerFirstFaults::passes))]
fn fault_in(search: Search, line: Line<'_>) -> Option<LineFault>
    requires numbers { AreNumbers line }
    requires allowed { IsAllowed search }
    ensures { is_none result ≡ passes search (words_in line.entry) }
{
    match search {
        Search::Grammar => None,
        Search::Entries(header, values) => match header.format {
            Format::Coordinate => coordinate_fault(header, values, line),
            Format::Array => array_fault(header, values, line),
        },
        Search::Bounds(size) => bounds_fault(size, line),
    }
}

// Returns the fault of a data line in coordinate format below this header, if it has one.
#[tactic(auto, unfolding(crate::specs::InnerFirstFaults::has_triplets, sparse_parser::specs::Meaning::triplets_of, sparse_parser::specs::Meaning::entry_of, sparse_parser::specs::Meaning::field_value))]
fn coordinate_fault(header: Header, values: ValueType, line: Line<'_>) -> Option<LineFault>
    requires numbers { AreNumbers line }
    requires allowed { is_allowed header ≡ true }
    requires format { header.format ≡ Coordinate }
    ensures { is_none result ≡ has_triplets values header (words_in line.entry) }
{
    match (header.field, line) {
        (Field::Pattern, Line::Two(row, col)) => { place_fault(header.symmetry, values, row, col) }
        (Field::Integer, Line::Three(row, col, value)) => {
            entry_fault(header.symmetry, values, row, col, value)
        }
        (Field::Real, Line::Three(row, col, _)) => Some(unread_fault(values, row, col)),
        (Field::Complex, Line::Four(row, col, _, _)) => Some(unread_fault(values, row, col)),
        (Field::Pattern, _) => Some(LineFault::PlaceWords),
        _ => Some(LineFault::EntryWords),
    }
}

// Returns the fault of a data line in array format below this header, if it has one.
#[tactic(auto, unfolding(crate::specs::InnerFirstFaults::has_triplets, sparse_parser::specs::Meaning::triplets_of, sparse_parser::specs::Meaning::entry_of, sparse_parser::specs::Meaning::field_value))]
fn array_fault(header: Header, values: ValueType, line: Line<'_>) -> Option<LineFault>
    requires numbers { AreNumbers line }
    requires format { header.format ≡ Array }
    ensures { is_none result ≡ has_triplets values header (words_in line.entry) }
{
    match (header.field, line) {
        (Field::Integer, Line::One(value)) => number_fault(header.symmetry, values, value),
        (Field::Real, Line::One(_)) | (Field::Complex, Line::Two(_, _)) => Some(no_value(values)),
        _ => Some(LineFault::ValueWords),
    }
}

// Returns the fault of an entry of a pattern, if it has one: it is two indices.
fn place_fault(
    symmetry: Symmetry,
    values: ValueType,
    row: Number<'_>,
    col: Number<'_>,
) -> Option<LineFault>
    requires row_is { IsNumber row }
    requires col_is { IsNumber col }
    ensures { is_none result ≡ ((is_plain row.entry.kind && is_plain col.entry.kind)
        && (is_ok_and (is_lower symmetry)
        (place_of (number_of row.entry.word.now) (number_of col.entry.word.now))
        && is_nothing values)) }
{
    if !row.is_index() || !col.is_index() {
        return Some(LineFault::PlaceWords);
    }
    match (indices_fault(symmetry, row, col), values) {
        (None, ValueType::Wide | ValueType::Wrapping) => Some(LineFault::NoValue),
        (fault, _) => fault,
    }
}

// Returns the fault of an entry with an integer value, if it has one.
fn entry_fault(
    symmetry: Symmetry,
    values: ValueType,
    row: Number<'_>,
    col: Number<'_>,
    value: Number<'_>,
) -> Option<LineFault>
    requires row_is { IsNumber row }
    requires col_is { IsNumber col }
    requires value_is { IsNumber value }
    requires row_index { is_plain row.kind ≡ true }
    requires col_index { is_plain col.kind ≡ true }
    ensures { is_none result ≡ (is_ok_and (is_lower symmetry)
        (place_of (number_of row.entry.word.now) (number_of col.entry.word.now))
        && is_ok_and (is_value values symmetry) (integer_of value.entry.word.now)) }
{
    match value.integer() {
        Ok(value) if has_integer(values, value) => match indices_fault(symmetry, row, col) {
            None => negative_fault(values, symmetry, value),
            fault => fault,
        },
        _ => Some(unread_fault(values, row, col)),
    }
}

// Returns the fault of an entry whose value is not read: that of its row and column, or else that of the value.
fn unread_fault(values: ValueType, row: Number<'_>, col: Number<'_>) -> LineFault
    requires row_is { IsNumber row }
    requires col_is { IsNumber col }
    requires row_index { is_plain row.kind ≡ true }
    requires col_index { is_plain col.kind ≡ true }
{
    match indices(row, col) {
        Ok(_) => no_value(values),
        Err(fault) => fault,
    }
}

// Returns the fault of a number that is not a value of this type.
fn no_value(values: ValueType) -> LineFault {
    match values {
        ValueType::Wrapping => LineFault::NarrowValue,
        ValueType::Wide | ValueType::Nothing => LineFault::Value,
    }
}

// Returns the fault of an integer of an array, if it has one.
fn number_fault(symmetry: Symmetry, values: ValueType, value: Number<'_>) -> Option<LineFault>
    requires { IsNumber value }
    ensures { is_none result
        ≡ is_ok_and (is_value values symmetry) (integer_of value.entry.word.now) }
{
    match value.integer() {
        Ok(value) if has_integer(values, value) => negative_fault(values, symmetry, value),
        _ => Some(no_value(values)),
    }
}

// Returns the fault of the row and the column of an entry, if they have one.
fn indices_fault(symmetry: Symmetry, row: Number<'_>, col: Number<'_>) -> Option<LineFault>
    requires row_is { IsNumber row }
    requires col_is { IsNumber col }
    requires row_index { is_plain row.kind ≡ true }
    requires col_index { is_plain col.kind ≡ true }
    ensures { is_none result ≡ is_ok_and (is_lower symmetry)
        (place_of (number_of row.entry.word.now) (number_of col.entry.word.now)) }
{
    match indices(row, col) {
        Ok((row, col)) => triangle_fault(symmetry, row, col),
        Err(fault) => Some(fault),
    }
}

// Returns the fault of an entry that a text with this symmetry does not list, since it follows from another one.
fn triangle_fault(symmetry: Symmetry, row: usize, col: usize) -> Option<LineFault>
    requires row { 0 < row }
    requires col { 0 < col }
    ensures { is_none result ≡ is_lower symmetry (row - 1, col - 1) }
{
    match symmetry {
        Symmetry::General => None,
        _ if row < col => Some(LineFault::Above(row, col)),
        Symmetry::SkewSymmetric if row == col => Some(LineFault::OnDiagonal),
        _ => None,
    }
}

// Returns whether a type has this integer.
fn has_integer(values: ValueType, value: i128) -> bool
    ensures { result ≡ has_integer values value }
{
    match values {
        ValueType::Wide => true,
        ValueType::Wrapping => i64::try_from(value).is_ok(),
        ValueType::Nothing => false,
    }
}

// Returns the fault of a value whose negative, which skew symmetry implies, the type does not have: -2^127 in 128 bits.
fn negative_fault(values: ValueType, symmetry: Symmetry, value: i128) -> Option<LineFault>
    ensures { is_none result ≡ has_negative values symmetry value }
{
    match (values, symmetry) {
        (ValueType::Wide, Symmetry::SkewSymmetric) if value == i128::MIN => {
            Some(LineFault::Negative)
        }
        _ => None,
    }
}
