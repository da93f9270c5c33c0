//! Dense matrices: how they are made, copied, compared, read and written.

use case_matrices::compressed::{dense_of, made_picture};
use case_matrices::conversions::truth;
use case_words::drawing::{draw_number, draw_values, or_none, picture};
use case_words::failure::Failure;
use case_words::scalar::{Scalar, scalar_from, scalars_from};
use case_words::templates::Operands;
use case_words::turn::Turn;
use case_words::words::{index_from, place_of, size_of};
use nalgebra_sparse::dense::DMatrix;
use nalgebra_sparse::ops::Op;
use std::alloc::{AllocError, Global};

/// A call of a dense matrix.
#[derive(Clone, Copy)]
pub enum DenseCall {
    Zeros,
    Repeat,
    Rows,
    Columns,
    Get,
    Set,
    Column,
    Values,
    Copy,
    Equal,
}

pub const DENSE: &[(&str, DenseCall)] = &[
    ("dense zeros w ..", DenseCall::Zeros),
    ("dense repeat w ..", DenseCall::Repeat),
    ("dense rows w ..", DenseCall::Rows),
    ("dense columns w ..", DenseCall::Columns),
    ("dense get w A", DenseCall::Get),
    ("dense set w k A", DenseCall::Set),
    ("dense column k A", DenseCall::Column),
    ("dense values A", DenseCall::Values),
    ("dense copy A", DenseCall::Copy),
    ("dense equal A B", DenseCall::Equal),
];

/// Returns the answer of one of these calls.
pub fn dense_call<T: Scalar>(
    turn: &mut Turn,
    call: DenseCall,
    given: Operands<'_>,
) -> Result<String, Failure> {
    match call {
        DenseCall::Zeros | DenseCall::Repeat | DenseCall::Rows | DenseCall::Columns => {
            made::<T>(turn, call, given)
        }
        _ => of_matrix::<T>(turn, call, given),
    }
}

fn of_matrix<T: Scalar>(
    turn: &mut Turn,
    call: DenseCall,
    given: Operands<'_>,
) -> Result<String, Failure> {
    let matrix: DMatrix<T> = dense_of(turn.alloc(), given.a)?;
    match call {
        DenseCall::Get => get(turn.alloc(), &matrix, given.w),
        DenseCall::Set => set(turn.alloc(), &matrix, given),
        DenseCall::Column => column(turn.alloc(), &matrix, given.k),
        DenseCall::Values => values(turn.alloc(), &matrix),
        DenseCall::Equal => equal(turn.alloc(), &matrix, given.b),
        _ => copy(turn, &matrix),
    }
}

// The matrix that a constructor makes of a size and values.
fn made<T: Scalar>(
    turn: &mut Turn,
    call: DenseCall,
    given: Operands<'_>,
) -> Result<String, Failure> {
    let size = size_of(given.w)?;
    let values: Vec<T> = scalars_from(turn.alloc(), given.rest)?;
    turn.begin();
    let made = turn.end(made_of(turn.alloc(), call, size, &values))?;
    made_picture(turn.alloc(), Ok(made))
}

fn made_of<T: Scalar>(
    alloc: Global,
    call: DenseCall,
    (nrows, ncols): (usize, usize),
    values: &[T],
) -> Result<DMatrix<T>, Failure> {
    match (call, values) {
        (DenseCall::Zeros, []) => Ok(DMatrix::zeros(alloc, nrows, ncols)?),
        (DenseCall::Repeat, [value]) => Ok(DMatrix::repeat(alloc, nrows, ncols, *value)?),
        _ => of_values(alloc, call, (nrows, ncols), values),
    }
}

fn of_values<T: Scalar>(
    alloc: Global,
    call: DenseCall,
    (nrows, ncols): (usize, usize),
    values: &[T],
) -> Result<DMatrix<T>, Failure> {
    if nrows.checked_mul(ncols) != Some(values.len()) {
        return Err(Failure::Misfit);
    }
    match call {
        DenseCall::Rows => Ok(DMatrix::from_row_slice(alloc, nrows, ncols, values)?),
        DenseCall::Columns => Ok(DMatrix::from_column_slice(alloc, nrows, ncols, values)?),
        _ => Err(Failure::Unreadable("no dense matrix is made so")),
    }
}

fn copy<T: Scalar>(turn: &mut Turn, matrix: &DMatrix<T>) -> Result<String, Failure> {
    turn.begin();
    let copy = turn.end(matrix.clone(turn.alloc()));
    made_picture(turn.alloc(), copy)
}

fn equal<T: Scalar>(alloc: Global, left: &DMatrix<T>, b: Op<&str>) -> Result<String, Failure> {
    let right = dense_of(alloc, b)?;
    truth(alloc, *left == right)
}

// All values, column by column.
fn values<T: Scalar>(alloc: Global, matrix: &DMatrix<T>) -> Result<String, Failure> {
    let mut out = String::new(alloc);
    draw_values(matrix.as_slice(), &mut out)?;
    Ok(or_none(alloc, out.as_str())?)
}

// The values of a column.
fn column<T: Scalar>(alloc: Global, matrix: &DMatrix<T>, index: i128) -> Result<String, Failure> {
    let index = index_from(index)?;
    if matrix.ncols() <= index {
        return Err(Failure::Misfit);
    }
    let mut out = String::new(alloc);
    draw_values(matrix.column(index), &mut out)?;
    Ok(or_none(alloc, out.as_str())?)
}

fn get<T: Scalar>(alloc: Global, matrix: &DMatrix<T>, place: &str) -> Result<String, Failure> {
    let (row, col) = place_of(place)?;
    if matrix.nrows() <= row || matrix.ncols() <= col {
        return Err(Failure::Misfit);
    }
    let mut out = String::new(alloc);
    draw_number(matrix.get(row, col), &mut out)?;
    Ok(out)
}

/// A way to write one value.
#[derive(Clone, Copy)]
enum Way {
    Set,
    Column,
    Columns,
    Slice,
}

// The matrix after a value was written in all ways, each on a copy, which must leave the same matrix.
fn set<T: Scalar>(
    alloc: Global,
    matrix: &DMatrix<T>,
    given: Operands<'_>,
) -> Result<String, Failure> {
    let (place, value) = (place_of(given.w)?, scalar_from(given.k)?);
    if matrix.nrows() <= place.0 || matrix.ncols() <= place.1 {
        return Err(Failure::Misfit);
    }
    let after = set_in(alloc, matrix, Way::Set, place, value)?;
    for way in &[Way::Column, Way::Columns, Way::Slice] {
        let other = set_in(alloc, matrix, *way, place, value)?;
        if other.as_str() != after.as_str() {
            return Err(Failure::Unreadable("two ways to write a value differ"));
        }
    }
    Ok(after)
}

fn set_in<T: Scalar>(
    alloc: Global,
    matrix: &DMatrix<T>,
    way: Way,
    place: (usize, usize),
    value: T,
) -> Result<String, AllocError> {
    let mut copy = matrix.clone(alloc)?;
    write(&mut copy, way, place, value);
    picture(alloc, &copy)
}

// Writes a value at a row and a column, if it is in bounds.
fn write<T: Scalar>(matrix: &mut DMatrix<T>, way: Way, (row, col): (usize, usize), value: T) {
    let (nrows, ncols) = (matrix.nrows(), matrix.ncols());
    if nrows <= row || ncols <= col {
        return;
    }
    match way {
        Way::Set => matrix.set(row, col, value),
        Way::Column => put(matrix.column_mut(col), row, value),
        Way::Columns => put(matrix.columns_mut(col, ncols - col), row, value),
        Way::Slice => match offset(nrows, row, col) {
            Some(offset) => put(matrix.as_mut_slice(), offset, value),
            None => {}
        },
    }
}

// The offset of an entry among all values.
fn offset(nrows: usize, row: usize, col: usize) -> Option<usize> {
    col.checked_mul(nrows)?.checked_add(row)
}

fn put<T: Scalar>(values: &mut [T], offset: usize, value: T) {
    if offset < values.len() {
        values[offset] = value;
    }
}
