//! Matrices over plain integers, which are not a ring: entries are found and written, parts selected and lanes sorted as
//! over the rings of the rows of `cases`.

use crate::fixtures::{
    Arrays, BY_COLUMNS, BY_ROWS, are_equal, csc, csr, unsorted_csc, unsorted_csr,
};
use sparse_csr_csc::csc::{CscColMut, CscMatrix};
use sparse_csr_csc::csr::{CsrMatrix, CsrRowMut};
use sparse_pattern::entry::{SparseEntry, SparseEntryMut};
use std::alloc::{AllocError, Global};

// Whether a matrix by rows was made, with these offsets, columns and values.
fn is_by_rows(made: Option<CsrMatrix<i32>>, arrays: Arrays<'_, i32>) -> bool {
    match made {
        Some(matrix) => {
            are_equal(matrix.row_offsets(), arrays.2)
                && are_equal(matrix.col_indices(), arrays.3)
                && are_equal(matrix.values(), arrays.4)
        }
        None => false,
    }
}

// Whether a matrix by columns was made, with these offsets, rows and values.
fn is_by_columns(made: Option<CscMatrix<i32>>, arrays: Arrays<'_, i32>) -> bool {
    match made {
        Some(matrix) => {
            are_equal(matrix.col_offsets(), arrays.2)
                && are_equal(matrix.row_indices(), arrays.3)
                && are_equal(matrix.values(), arrays.4)
        }
        None => false,
    }
}

// A row, a column, and what the rows 1 . 0 and . 4 . have there: a value, `NOT_STORED`, or `OUTSIDE`.
const ENTRIES: [(usize, usize, i32); 6] = [
    (0, 0, 1),
    (0, 2, 0),
    (0, 1, NOT_STORED),
    (1, 2, NOT_STORED),
    (2, 0, OUTSIDE),
    (0, 3, OUTSIDE),
];

const NOT_STORED: i32 = -1;

const OUTSIDE: i32 = -2;

fn found(entry: Option<SparseEntry<'_, i32>>) -> i32 {
    match entry {
        Some(SparseEntry::NonZero(value)) => *value,
        Some(SparseEntry::Zero) => NOT_STORED,
        None => OUTSIDE,
    }
}

fn has_entries_by_rows(matrix: &CsrMatrix<i32>) -> bool {
    for &(row, col, want) in &ENTRIES {
        if found(matrix.get_entry(row, col)) != want {
            return false;
        }
    }
    true
}

fn has_entries_by_columns(matrix: &CscMatrix<i32>) -> bool {
    for &(row, col, want) in &ENTRIES {
        if found(matrix.get_entry(row, col)) != want {
            return false;
        }
    }
    true
}

#[test]
fn entries_of_integers(rt: HostRuntime) {
    assert!(rt; csr(rt.alloc(), BY_ROWS).is_ok_and(|matrix| has_entries_by_rows(&matrix)));
    assert!(rt; csc(rt.alloc(), BY_COLUMNS).is_ok_and(|matrix| has_entries_by_columns(&matrix)));
}

fn write_nine(entry: SparseEntryMut<'_, i32>) {
    match entry {
        SparseEntryMut::NonZero(value) => *value = 9,
        SparseEntryMut::Zero => {}
    }
}

fn write_in_row(mut row: CsrRowMut<'_, i32>) -> Option<()> {
    write_nine(row.get_entry_mut(1)?);
    Some(())
}

fn write_in_column(mut col: CscColMut<'_, i32>) -> Option<()> {
    write_nine(col.get_entry_mut(1)?);
    Some(())
}

fn with_nine_by_rows(mut matrix: CsrMatrix<i32>) -> CsrMatrix<i32> {
    if 1 < matrix.nrows() {
        write_in_row(matrix.row_mut(1));
    }
    matrix
}

fn with_nine_by_columns(mut matrix: CscMatrix<i32>) -> CscMatrix<i32> {
    if 1 < matrix.ncols() {
        write_in_column(matrix.col_mut(1));
    }
    matrix
}

fn doubled_by_rows(mut matrix: CsrMatrix<i32>) -> CsrMatrix<i32> {
    for (_, _, value) in matrix.triplet_iter_mut() {
        *value = value.wrapping_mul(2);
    }
    matrix
}

fn doubled_by_columns(mut matrix: CscMatrix<i32>) -> CscMatrix<i32> {
    for (_, _, value) in matrix.triplet_iter_mut() {
        *value = value.wrapping_mul(2);
    }
    matrix
}

const NINE_BY_ROWS: Arrays<'static, i32> = (2, 3, &[0, 2, 3], &[0, 2, 1], &[1, 0, 9]);

const NINE_BY_COLUMNS: Arrays<'static, i32> = (3, 2, &[0, 1, 2, 3], &[0, 1, 0], &[1, 9, 0]);

const DOUBLED_BY_ROWS: Arrays<'static, i32> = (2, 3, &[0, 2, 3], &[0, 2, 1], &[2, 0, 8]);

const DOUBLED_BY_COLUMNS: Arrays<'static, i32> = (3, 2, &[0, 1, 2, 3], &[0, 1, 0], &[2, 8, 0]);

#[test]
fn written_integers(rt: HostRuntime) {
    let alloc = rt.alloc();
    let nine = csr(alloc, BY_ROWS).ok().map(with_nine_by_rows);
    assert!(rt; is_by_rows(nine, NINE_BY_ROWS));
    let nine = csc(alloc, BY_COLUMNS).ok().map(with_nine_by_columns);
    assert!(rt; is_by_columns(nine, NINE_BY_COLUMNS));
    let doubled = csr(alloc, BY_ROWS).ok().map(doubled_by_rows);
    assert!(rt; is_by_rows(doubled, DOUBLED_BY_ROWS));
    let doubled = csc(alloc, BY_COLUMNS).ok().map(doubled_by_columns);
    assert!(rt; is_by_columns(doubled, DOUBLED_BY_COLUMNS));
}

const LOWER_BY_ROWS: Arrays<'static, i32> = (2, 3, &[0, 1, 2], &[0, 1], &[1, 4]);

const CORNER_BY_ROWS: Arrays<'static, i32> = (2, 3, &[0, 1, 1], &[2], &[0]);

const LOWER_BY_COLUMNS: Arrays<'static, i32> = (3, 2, &[0, 1, 2, 2], &[0, 1], &[1, 4]);

const CORNER_BY_COLUMNS: Arrays<'static, i32> = (3, 2, &[0, 0, 0, 1], &[0], &[0]);

fn corner_by_rows(alloc: Global, matrix: &CsrMatrix<i32>) -> Result<CsrMatrix<i32>, AllocError> {
    matrix.filter(alloc, |row, col, _| row == 0 && col == 2)
}

fn corner_by_columns(alloc: Global, matrix: &CscMatrix<i32>) -> Result<CscMatrix<i32>, AllocError> {
    matrix.filter(alloc, |row, col, _| row == 0 && col == 2)
}

fn has_parts_by_rows(alloc: Global, matrix: &CsrMatrix<i32>) -> bool {
    is_by_rows(matrix.upper_triangle(alloc).ok(), BY_ROWS)
        && is_by_rows(matrix.lower_triangle(alloc).ok(), LOWER_BY_ROWS)
        && is_by_rows(matrix.diagonal_as_csr(alloc).ok(), LOWER_BY_ROWS)
        && is_by_rows(corner_by_rows(alloc, matrix).ok(), CORNER_BY_ROWS)
}

fn has_parts_by_columns(alloc: Global, matrix: &CscMatrix<i32>) -> bool {
    is_by_columns(matrix.upper_triangle(alloc).ok(), BY_COLUMNS)
        && is_by_columns(matrix.lower_triangle(alloc).ok(), LOWER_BY_COLUMNS)
        && is_by_columns(matrix.diagonal_as_csc(alloc).ok(), LOWER_BY_COLUMNS)
        && is_by_columns(corner_by_columns(alloc, matrix).ok(), CORNER_BY_COLUMNS)
}

#[test]
fn parts_of_integers(rt: HostRuntime) {
    let alloc = rt.alloc();
    assert!(rt; csr(alloc, BY_ROWS).is_ok_and(|matrix| has_parts_by_rows(alloc, &matrix)));
    assert!(rt; csc(alloc, BY_COLUMNS).is_ok_and(|matrix| has_parts_by_columns(alloc, &matrix)));
}

// The arrays of a row of length 4 and of two columns of length 4, and the same sorted.
const ROW: Arrays<'static, i32> = (1, 4, &[0, 3], &[2, 0, 3], &[7, 8, 9]);

const SORTED_ROW: Arrays<'static, i32> = (1, 4, &[0, 3], &[0, 2, 3], &[8, 7, 9]);

const COLUMNS: Arrays<'static, i32> = (2, 4, &[0, 2, 3], &[3, 1, 0], &[5, 6, 7]);

const SORTED_COLUMNS: Arrays<'static, i32> = (2, 4, &[0, 2, 3], &[1, 3, 0], &[6, 5, 7]);

#[test]
fn sorted_integers(rt: HostRuntime) {
    assert!(rt; is_by_rows(unsorted_csr(rt.alloc(), ROW).ok(), SORTED_ROW));
    assert!(rt; is_by_columns(unsorted_csc(rt.alloc(), COLUMNS).ok(), SORTED_COLUMNS));
}
