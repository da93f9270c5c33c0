//! Finds the fault of a row and a column: an index that is 0 or too large, or one outside the shape.

ghost use Rattle.std.specs.Prelude.{◌≡◌, ◌&&◌, ◌<◌, ◌-◌, true, nat_lt, if◌then◌else◌, Ok};
ghost use Rattle.std.specs.Option.{is_none};
ghost use Rattle.sparse_parser.specs.InnerLines.{AreNumbers, IsNumber, is_plain, words_in};
ghost use Rattle.sparse_parser.specs.Meaning.{number_of, place_of};
ghost use Rattle.sparse_faults.specs.InnerFirstFaults.{IsPlaceOf, is_err_or, is_within};

use crate::fault::LineFault;
use sparse_parser::data_lines::{Line, Number};
use sparse_parser::size::Size;

/// Returns the fault of a data line whose row or column exceeds this size, if one does.
#[tactic(auto, unfolding(crate::specs::InnerFirstFaults::is_within))]
pub(crate) fn bounds_fault(size: Size, line: Line<'_>) -> Option<LineFault>
    requires { AreNumbers line }
    ensures { is_none result ≡ is_within size.rows size.cols (words_in line.entry) }
{
    match line {
        Line::One(_) => None,
        Line::Two(row, col) => beyond_pair(size, row, col),
        Line::Three(row, col, _) => beyond(size, row, col),
        Line::Four(row, col, _, _) => beyond(size, row, col),
    }
}

// Returns the fault of two numbers if they are a row and a column of which one exceeds this size.
fn beyond_pair(size: Size, row: Number<'_>, col: Number<'_>) -> Option<LineFault>
    requires row_is { IsNumber row }
    requires col_is { IsNumber col }
    ensures { is_none result ≡ (if is_plain row.entry.kind && is_plain col.entry.kind
        then is_err_or (λ p. nat_lt p.0 size.rows && nat_lt p.1 size.cols)
        (place_of (number_of row.entry.word.now) (number_of col.entry.word.now)) else true) }
{
    if row.is_index() && col.is_index() {
        beyond(size, row, col)
    } else {
        None
    }
}

// Returns the fault of a row or a column that exceeds this size, if one does.
fn beyond(size: Size, row: Number<'_>, col: Number<'_>) -> Option<LineFault>
    requires row_is { IsNumber row }
    requires col_is { IsNumber col }
    requires row_index { is_plain row.kind ≡ true }
    requires col_index { is_plain col.kind ≡ true }
    ensures { is_none result ≡ is_err_or (λ p. nat_lt p.0 size.rows && nat_lt p.1 size.cols)
        (place_of (number_of row.entry.word.now) (number_of col.entry.word.now)) }
{
    match indices(row, col) {
        Ok((row, col)) => size_fault(size, row, col),
        Err(_) => None,
    }
}

fn size_fault(size: Size, row: usize, col: usize) -> Option<LineFault>
    requires row { 0 < row }
    requires col { 0 < col }
    ensures { is_none result ≡ (nat_lt (row - 1) size.rows && nat_lt (col - 1) size.cols) }
{
    if row > size.rows {
        return Some(LineFault::Row(row, size.rows));
    }
    if col > size.cols {
        return Some(LineFault::Column(col, size.cols));
    }
    None
}

/// Returns the row and the column of an entry, counted from 1, or their fault.
#[tactic(auto, unfolding(sparse_parser::specs::Meaning::place_of))]
pub(crate) fn indices(row: Number<'_>, col: Number<'_>) -> Result<(usize, usize), LineFault>
    requires row_is { IsNumber row }
    requires col_is { IsNumber col }
    requires row_index { is_plain row.kind ≡ true }
    requires col_index { is_plain col.kind ≡ true }
    ensures { IsPlaceOf (place_of (number_of row.entry.word.now) (number_of col.entry.word.now))
        result }
{
    match (row.index(), col.index()) {
        (Ok(row), Ok(col)) => nonzero(row, col),
        _ => Err(LineFault::IndexTooLarge),
    }
}

// Returns the row and the column, or a fault if one is zero.
#[tactic(auto, unfolding(sparse_parser::specs::Meaning::place_of))]
fn nonzero(row: usize, col: usize) -> Result<(usize, usize), LineFault>
    ensures { IsPlaceOf (place_of (Ok row) (Ok col)) result }
{
    if row == 0 {
        return Err(LineFault::ZeroRow);
    }
    if col == 0 {
        return Err(LineFault::ZeroColumn);
    }
    Ok((row, col))
}
