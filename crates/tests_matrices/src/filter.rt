//! A predicate is asked once for each stored entry. No clause says how often.

use crate::fixtures::{BY_COLUMNS, BY_ROWS, csc, csr};
use sparse_csr_csc::csc::CscMatrix;
use sparse_csr_csc::csr::CsrMatrix;
use std::alloc::{AllocError, Global};
use std::cell::Cell;

// How often a predicate that keeps every entry is asked by rows.
fn asked_by_rows(alloc: Global, matrix: &CsrMatrix<i32>) -> Result<u32, AllocError> {
    let asked = Cell::new(0u32);
    matrix.filter(alloc, |_, _, _| {
        asked.set(asked.get().saturating_add(1));
        true
    })?;
    Ok(asked.get())
}

// How often one is asked by columns that keeps none.
fn asked_by_columns(alloc: Global, matrix: &CscMatrix<i32>) -> Result<u32, AllocError> {
    let asked = Cell::new(0u32);
    matrix.filter(alloc, |_, _, _| {
        asked.set(asked.get().saturating_add(1));
        false
    })?;
    Ok(asked.get())
}

fn is_asked_three_times_by_rows(alloc: Global) -> bool {
    match csr(alloc, BY_ROWS) {
        Ok(matrix) => matches!(asked_by_rows(alloc, &matrix), Ok(3)),
        Err(_error) => false,
    }
}

fn is_asked_three_times_by_columns(alloc: Global) -> bool {
    match csc(alloc, BY_COLUMNS) {
        Ok(matrix) => matches!(asked_by_columns(alloc, &matrix), Ok(3)),
        Err(_error) => false,
    }
}

#[test]
fn a_predicate_is_asked_once_a_place(rt: HostRuntime) {
    assert!(rt; is_asked_three_times_by_rows(rt.alloc()));
    assert!(rt; is_asked_three_times_by_columns(rt.alloc()));
}
