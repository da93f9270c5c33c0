//! The entries of compressed matrices, read and written.

use case_matrices::compressed::{Compressed, matrix_of, shown};
use case_words::drawing::draw_number;
use case_words::failure::Failure;
use case_words::scalar::{Scalar, scalar_from};
use case_words::templates::Operands;
use case_words::turn::Turn;
use case_words::words::place_of;
use nalgebra_sparse::csc::CscColMut;
use nalgebra_sparse::csr::CsrRowMut;
use nalgebra_sparse::ops::Op;
use nalgebra_sparse::{CscMatrix, CsrMatrix, SparseEntry, SparseEntryMut};
use std::alloc::{AllocError, Global};

/// What a matrix has at a row and a column: `None` out of bounds, else the value, and whether it is stored.
type Entry<T> = Option<(T, bool)>;

/// A way to an entry.
#[derive(Clone, Copy)]
pub enum Way {
    /// By `get_entry`.
    Get,
    /// By `index_entry`.
    Index,
    /// By `row` or `col`.
    Lane,
    /// By `get_row` or `get_col`.
    GetLane,
    /// By the indices and the values of a lane.
    Slices,
}

const WAYS: &[Way] = &[Way::Get, Way::Index, Way::Lane, Way::GetLane, Way::Slices];

/// The entries of a format.
pub trait Entries<T: Scalar> {
    /// Returns an entry.
    fn entry(&self, way: Way, place: (usize, usize)) -> Entry<T>;

    /// Returns an entry that could be written, or one of a lane that could.
    fn entry_mut(&mut self, way: Way, place: (usize, usize)) -> Entry<T>;

    /// Returns an entry, and replaces its value if it is stored.
    fn replace(&mut self, way: Way, place: (usize, usize), value: T) -> Entry<T>;
}

/// By rows.
impl<T: Scalar> Entries<T> for CsrMatrix<T> {
    fn entry(&self, way: Way, (row, col): (usize, usize)) -> Entry<T> {
        match way {
            Way::Index if row < self.nrows() && col < self.ncols() => {
                read(Some(self.index_entry(row, col)))
            }
            Way::Lane if row < self.nrows() => read(self.row(row).get_entry(col)),
            Way::GetLane => read(self.get_row(row)?.get_entry(col)),
            _ => read(self.get_entry(row, col)),
        }
    }

    fn entry_mut(&mut self, way: Way, (row, col): (usize, usize)) -> Entry<T> {
        match way {
            Way::Index if row < self.nrows() && col < self.ncols() => {
                read_mut(self.index_entry_mut(row, col))
            }
            Way::Lane if row < self.nrows() => read(self.row_mut(row).get_entry(col)),
            _ => read_mut(self.get_entry_mut(row, col)?),
        }
    }

    fn replace(&mut self, way: Way, (row, col): (usize, usize), value: T) -> Entry<T> {
        match way {
            Way::Index if row < self.nrows() && col < self.ncols() => {
                replaced(self.index_entry_mut(row, col), value)
            }
            Way::Lane | Way::Slices if row < self.nrows() => {
                replaced_in_row(self.row_mut(row), way, col, value)
            }
            Way::GetLane => replaced_in_row(self.get_row_mut(row)?, way, col, value),
            _ => replaced(self.get_entry_mut(row, col)?, value),
        }
    }
}

/// By columns.
impl<T: Scalar> Entries<T> for CscMatrix<T> {
    fn entry(&self, way: Way, (row, col): (usize, usize)) -> Entry<T> {
        match way {
            Way::Index if row < self.nrows() && col < self.ncols() => {
                read(Some(self.index_entry(row, col)))
            }
            Way::Lane if col < self.ncols() => read(self.col(col).get_entry(row)),
            Way::GetLane => read(self.get_col(col)?.get_entry(row)),
            _ => read(self.get_entry(row, col)),
        }
    }

    fn entry_mut(&mut self, way: Way, (row, col): (usize, usize)) -> Entry<T> {
        match way {
            Way::Index if row < self.nrows() && col < self.ncols() => {
                read_mut(self.index_entry_mut(row, col))
            }
            Way::Lane if col < self.ncols() => read(self.col_mut(col).get_entry(row)),
            _ => read_mut(self.get_entry_mut(row, col)?),
        }
    }

    fn replace(&mut self, way: Way, (row, col): (usize, usize), value: T) -> Entry<T> {
        match way {
            Way::Index if row < self.nrows() && col < self.ncols() => {
                replaced(self.index_entry_mut(row, col), value)
            }
            Way::Lane | Way::Slices if col < self.ncols() => {
                replaced_in_col(self.col_mut(col), way, row, value)
            }
            Way::GetLane => replaced_in_col(self.get_col_mut(col)?, way, row, value),
            _ => replaced(self.get_entry_mut(row, col)?, value),
        }
    }
}

fn read<T: Scalar>(entry: Option<SparseEntry<'_, T>>) -> Entry<T> {
    let entry = entry?;
    let stored = matches!(&entry, SparseEntry::NonZero(_));
    Some((entry.into_value(), stored))
}

fn read_mut<T: Scalar>(entry: SparseEntryMut<'_, T>) -> Entry<T> {
    let stored = matches!(&entry, SparseEntryMut::NonZero(_));
    Some((entry.into_value(), stored))
}

fn replaced<T: Scalar>(entry: SparseEntryMut<'_, T>, value: T) -> Entry<T> {
    match entry {
        SparseEntryMut::NonZero(borrowed) => {
            let old = *borrowed;
            *borrowed = value;
            Some((old, true))
        }
        SparseEntryMut::Zero => Some((T::zero(), false)),
    }
}

fn replaced_in_row<T: Scalar>(
    mut row: CsrRowMut<'_, T>,
    way: Way,
    col: usize,
    value: T,
) -> Entry<T> {
    match way {
        Way::Slices if col < row.ncols() => {
            let (indices, values) = row.cols_and_values_mut();
            replaced_at(indices, values, col, value)
        }
        _ => replaced(row.get_entry_mut(col)?, value),
    }
}

fn replaced_in_col<T: Scalar>(
    mut col: CscColMut<'_, T>,
    way: Way,
    row: usize,
    value: T,
) -> Entry<T> {
    match way {
        Way::Slices if row < col.nrows() => {
            let (indices, values) = col.rows_and_values_mut();
            replaced_at(indices, values, row, value)
        }
        _ => replaced(col.get_entry_mut(row)?, value),
    }
}

// The entry of a lane at an index in bounds, replaced in the slice of its values.
fn replaced_at<T: Scalar>(indices: &[usize], values: &mut [T], index: usize, value: T) -> Entry<T> {
    match indices.binary_search(&index) {
        Ok(offset) if offset < values.len() => {
            let old = values[offset];
            values[offset] = value;
            Some((old, true))
        }
        _ => Some((T::zero(), false)),
    }
}

/// A call on an entry.
#[derive(Clone, Copy)]
pub enum EntryCall {
    Read,
    Set,
}

pub const ENTRIES: &[(&str, EntryCall)] = &[
    ("entry w A", EntryCall::Read),
    ("set w k A", EntryCall::Set),
];

/// Returns the answer of one of these calls, each in all ways that the library has.
pub fn entry_call<T: Scalar, F: Compressed<T> + Entries<T>>(
    turn: &mut Turn,
    call: EntryCall,
    given: Operands<'_>,
) -> Result<String, Failure> {
    let place = place_of(given.w)?;
    match call {
        EntryCall::Read => entry_text::<T, F>(turn.alloc(), place, given.a),
        EntryCall::Set => set::<T, F>(turn.alloc(), place, scalar_from(given.k)?, given.a),
    }
}

// The entry at a row and a column. All ways must find the same.
fn entry_text<T: Scalar, F: Compressed<T> + Entries<T>>(
    alloc: Global,
    place: (usize, usize),
    a: Op<&str>,
) -> Result<String, Failure> {
    let mut matrix: F = matrix_of(alloc, a)?;
    let text = text_of(alloc, matrix.entry(Way::Get, place))?;
    for way in WAYS {
        let read = text_of(alloc, matrix.entry(*way, place))?;
        let written = text_of(alloc, matrix.entry_mut(*way, place))?;
        if read.as_str() != text.as_str() || written.as_str() != text.as_str() {
            return Err(Failure::Unreadable("two ways find different entries"));
        }
    }
    Ok(text)
}

fn text_of<T: Scalar>(alloc: Global, entry: Entry<T>) -> Result<String, AllocError> {
    let mut out = String::new(alloc);
    match entry {
        Some((value, true)) => draw_number(value, &mut out)?,
        Some((value, false)) if value == T::zero() => out.push_str(".")?,
        Some((_, false)) => out.push_str("an entry that is not stored is not zero")?,
        None => out.push_str("none")?,
    }
    Ok(out)
}

// The matrix after another value was written at a row and a column. All ways must find the old entry, and leave the
// same matrix.
fn set<T: Scalar, F: Compressed<T> + Entries<T>>(
    alloc: Global,
    place: (usize, usize),
    value: T,
    a: Op<&str>,
) -> Result<String, Failure> {
    let matrix: F = matrix_of(alloc, a)?;
    let found = text_of(alloc, matrix.entry(Way::Get, place))?;
    let after = set_in(alloc, &matrix, Way::Get, place, value)?.1;
    for way in WAYS {
        let (old, other) = set_in(alloc, &matrix, *way, place, value)?;
        if old.as_str() != found.as_str() || other.as_str() != after.as_str() {
            return Err(Failure::Unreadable("two ways to write an entry differ"));
        }
    }
    Ok(after)
}

// The old entry, and the matrix after a write in one way.
fn set_in<T: Scalar, F: Compressed<T> + Entries<T>>(
    alloc: Global,
    matrix: &F,
    way: Way,
    place: (usize, usize),
    value: T,
) -> Result<(String, String), Failure> {
    let mut copy = matrix.copied(alloc)?;
    let old = text_of(alloc, copy.replace(way, place, value))?;
    Ok((old, shown(alloc, &copy)?))
}
