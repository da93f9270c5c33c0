//! Pictures of matrices, read.
//!
//! `1 . / 0 2` has the rows `1 .` and `0 2`, where `.` is an entry that is not stored, and `0` a stored zero. A picture
//! may also be a size and a list of triplets, as `2x3 (1,0)=5 (0,1)=6`, in the order in which they are pushed. There a
//! row or a column may be `*`, `even` or `odd`: `(*,0)=1` is a triplet in each row.

use crate::failure::Failure;
use crate::scalar::{Scalar, scalar_of};
use crate::words::{index_of, inside, size_of};
use nalgebra_sparse::CooMatrix;
use std::alloc::Global;

/// Returns the list of the triplets in a picture.
pub fn list_of<T: Scalar>(alloc: Global, picture: &str) -> Result<CooMatrix<T>, Failure> {
    let picture = picture.trim();
    let (first, rest) = picture.split_once(' ').unwrap_or((picture, ""));
    if is_size(first) {
        return list_of_triplets(alloc, size_of(first)?, rest);
    }
    list_of_rows(alloc, picture)
}

// Whether a word is a size, and not the `x` of a stored one.
fn is_size(word: &str) -> bool {
    match word.split_once('x') {
        Some((rows, _)) => !rows.is_empty(),
        None => false,
    }
}

fn list_of_triplets<T: Scalar>(
    alloc: Global,
    (nrows, ncols): (usize, usize),
    words: &str,
) -> Result<CooMatrix<T>, Failure> {
    let mut list = CooMatrix::new(alloc, nrows, ncols);
    for word in words.split_whitespace() {
        push_triplet(&mut list, word)?;
    }
    Ok(list)
}

/// Pushes the triplet that a word `(1,2)=3` writes, or those of a word such as `(*,2)=3`.
pub fn push_triplet<T: Scalar>(list: &mut CooMatrix<T>, word: &str) -> Result<(), Failure> {
    match parts_of(word) {
        Some((row, col, value)) => {
            let (nrows, ncols) = (list.nrows(), list.ncols());
            let (rows, cols) = (Span::of(row, nrows)?, Span::of(col, ncols)?);
            push_places(list, rows, cols, scalar_of(value)?)
        }
        None => Err(Failure::Unreadable("a word is not a triplet")),
    }
}

// The row, the column and the value in a word `(1,2)=3`.
fn parts_of(word: &str) -> Option<(&str, &str, &str)> {
    let (place, value) = word.split_once('=')?;
    let (row, col) = inside(place)?.split_once(',')?;
    Some((row, col, value))
}

// Indices: those from `first` on, below `end`, in steps.
#[derive(Clone, Copy)]
struct Span {
    first: usize,
    step: usize,
    end: usize,
}

impl Span {
    // The indices below `count` that a word writes.
    fn of(word: &str, count: usize) -> Result<Span, Failure> {
        let (first, step, end) = match word {
            "*" => (0, 1, count),
            "even" => (0, 2, count),
            "odd" => (1, 2, count),
            index => (index_of(index)?, 1, index_of(index)?.saturating_add(1)),
        };
        Ok(Span { first, step, end })
    }

    fn has(self, index: usize) -> bool {
        self.step < 2 || index % 2 == self.first % 2
    }
}

fn push_places<T: Scalar>(
    list: &mut CooMatrix<T>,
    rows: Span,
    cols: Span,
    value: T,
) -> Result<(), Failure> {
    for row in rows.first..rows.end {
        if rows.has(row) {
            push_places_of_row(list, row, cols, value)?;
        }
    }
    Ok(())
}

fn push_places_of_row<T: Scalar>(
    list: &mut CooMatrix<T>,
    row: usize,
    cols: Span,
    value: T,
) -> Result<(), Failure> {
    for col in cols.first..cols.end {
        if cols.has(col) {
            push(list, (row, col), value)?;
        }
    }
    Ok(())
}

fn list_of_rows<T: Scalar>(alloc: Global, picture: &str) -> Result<CooMatrix<T>, Failure> {
    let (first, _) = picture.split_once('/').unwrap_or((picture, ""));
    let ncols = first.split_whitespace().count();
    let mut list = CooMatrix::new(alloc, picture.split('/').count(), ncols);
    for (row, words) in picture.split('/').enumerate() {
        if words.split_whitespace().count() != ncols {
            return Err(Failure::Unreadable("the rows differ in length"));
        }
        push_row(&mut list, row, words)?;
    }
    Ok(list)
}

fn push_row<T: Scalar>(list: &mut CooMatrix<T>, row: usize, words: &str) -> Result<(), Failure> {
    for (col, word) in words.split_whitespace().enumerate() {
        if word != "." {
            push(list, (row, col), scalar_of(word)?)?;
        }
    }
    Ok(())
}

fn push<T: Scalar>(
    list: &mut CooMatrix<T>,
    (row, col): (usize, usize),
    value: T,
) -> Result<(), Failure> {
    if row < list.nrows() && col < list.ncols() {
        list.push(row, col, value)?;
        return Ok(());
    }
    Err(Failure::Unreadable("a place is outside the matrix"))
}
