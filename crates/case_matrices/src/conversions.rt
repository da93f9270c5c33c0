//! Conversions between formats, lists and dense matrices, the arrays of a matrix, and whether two are equal.

use crate::compressed::{
    Compressed, made, made_list, made_picture, matrix_of, plain_dense_of, plain_list_of,
};
use case_words::drawing::{draw_indices, draw_values};
use case_words::failure::Failure;
use case_words::scalar::Scalar;
use case_words::templates::Operands;
use case_words::turn::Turn;
use nalgebra_sparse::convert::serial::{
    convert_coo_dense, convert_csc_csr, convert_csc_dense, convert_csr_csc, convert_csr_dense,
    convert_dense_coo, convert_dense_csc, convert_dense_csr,
};
use nalgebra_sparse::dense::DMatrix;
use nalgebra_sparse::ops::Op;
use nalgebra_sparse::{CooMatrix, CscMatrix, CsrMatrix};
use std::alloc::{AllocError, Global};

/// A call that converts or compares.
#[derive(Clone, Copy)]
pub enum Conversion {
    List,
    Dense,
    Arrays,
    Turn,
    Sparse,
    ListOfDense,
    DenseOfList,
    Equal,
    EqualLists,
}

pub const CONVERSIONS: &[(&str, Conversion)] = &[
    ("list A", Conversion::List),
    ("dense A", Conversion::Dense),
    ("arrays A", Conversion::Arrays),
    ("turn A", Conversion::Turn),
    ("sparse A", Conversion::Sparse),
    ("list dense A", Conversion::ListOfDense),
    ("dense triplets A", Conversion::DenseOfList),
    ("A == B", Conversion::Equal),
    ("triplets A == B", Conversion::EqualLists),
];

/// The conversions of a format.
pub trait Conversions<T: Scalar> {
    /// Returns a dense matrix, compressed.
    fn from_dense(alloc: Global, matrix: &DMatrix<T>) -> Result<Self, Failure>;

    /// Returns the matrix, dense.
    fn to_dense(&self, alloc: Global) -> Result<DMatrix<T>, AllocError>;

    /// Returns the picture of the matrix in the other format.
    fn turned(&self, turn: &mut Turn) -> Result<String, Failure>;

    /// Returns the offsets, the indices and the values.
    fn arrays(&self) -> (&[usize], &[usize], &[T]);

    /// Returns whether two matrices have the same size, entries and values.
    fn equals(&self, other: &Self) -> bool;
}

/// By rows.
impl<T: Scalar> Conversions<T> for CsrMatrix<T> {
    fn from_dense(alloc: Global, matrix: &DMatrix<T>) -> Result<Self, Failure> {
        Ok(convert_dense_csr(alloc, matrix)?)
    }

    fn to_dense(&self, alloc: Global) -> Result<DMatrix<T>, AllocError> {
        convert_csr_dense(alloc, self)
    }

    fn turned(&self, turn: &mut Turn) -> Result<String, Failure> {
        turn.begin();
        let columns = turn.end(convert_csr_csc(turn.alloc(), self))?;
        made(turn.alloc(), Ok(columns))
    }

    fn arrays(&self) -> (&[usize], &[usize], &[T]) {
        self.csr_data()
    }

    fn equals(&self, other: &Self) -> bool {
        *self == *other
    }
}

/// By columns.
impl<T: Scalar> Conversions<T> for CscMatrix<T> {
    fn from_dense(alloc: Global, matrix: &DMatrix<T>) -> Result<Self, Failure> {
        Ok(convert_dense_csc(alloc, matrix)?)
    }

    fn to_dense(&self, alloc: Global) -> Result<DMatrix<T>, AllocError> {
        convert_csc_dense(alloc, self)
    }

    fn turned(&self, turn: &mut Turn) -> Result<String, Failure> {
        turn.begin();
        let rows = turn.end(convert_csc_csr(turn.alloc(), self))?;
        made(turn.alloc(), Ok(rows))
    }

    fn arrays(&self) -> (&[usize], &[usize], &[T]) {
        self.csc_data()
    }

    fn equals(&self, other: &Self) -> bool {
        *self == *other
    }
}

/// Returns the answer of one of these calls.
pub fn converted<T: Scalar, F: Compressed<T> + Conversions<T>>(
    turn: &mut Turn,
    call: Conversion,
    given: Operands<'_>,
) -> Result<String, Failure> {
    match call {
        Conversion::Sparse => sparse::<T, F>(turn, given.a),
        Conversion::ListOfDense => list_of_dense::<T>(turn, given.a),
        Conversion::DenseOfList => dense_of_list::<T>(turn, given.a),
        Conversion::Equal => are_equal::<T, F>(turn.alloc(), given.a, given.b),
        Conversion::EqualLists => are_equal_lists::<T>(turn.alloc(), given.a, given.b),
        _ => of_matrix::<T, F>(turn, call, given.a),
    }
}

fn of_matrix<T: Scalar, F: Compressed<T> + Conversions<T>>(
    turn: &mut Turn,
    call: Conversion,
    a: Op<&str>,
) -> Result<String, Failure> {
    let matrix: F = matrix_of(turn.alloc(), a)?;
    match call {
        Conversion::List => listed::<T, F>(turn, &matrix),
        Conversion::Dense => made_dense::<T, F>(turn, &matrix),
        Conversion::Arrays => arrays_text(turn.alloc(), matrix.arrays()),
        _ => matrix.turned(turn),
    }
}

fn listed<T: Scalar, F: Compressed<T>>(turn: &mut Turn, matrix: &F) -> Result<String, Failure> {
    turn.begin();
    let list = turn.end(matrix.to_list(turn.alloc()));
    made_list(turn.alloc(), list)
}

fn made_dense<T: Scalar, F: Conversions<T>>(
    turn: &mut Turn,
    matrix: &F,
) -> Result<String, Failure> {
    turn.begin();
    let dense = turn.end(matrix.to_dense(turn.alloc()));
    made_picture(turn.alloc(), dense)
}

// The dense matrix, compressed.
fn sparse<T: Scalar, F: Compressed<T> + Conversions<T>>(
    turn: &mut Turn,
    a: Op<&str>,
) -> Result<String, Failure> {
    let dense: DMatrix<T> = plain_dense_of(turn.alloc(), a)?;
    turn.begin();
    let matrix: Result<F, Failure> = turn.end(F::from_dense(turn.alloc(), &dense));
    made(turn.alloc(), matrix)
}

// The list of the dense matrix.
fn list_of_dense<T: Scalar>(turn: &mut Turn, a: Op<&str>) -> Result<String, Failure> {
    let dense: DMatrix<T> = plain_dense_of(turn.alloc(), a)?;
    turn.begin();
    let list = turn.end(convert_dense_coo(turn.alloc(), &dense));
    made_list(turn.alloc(), list)
}

// The dense matrix of the list.
fn dense_of_list<T: Scalar>(turn: &mut Turn, a: Op<&str>) -> Result<String, Failure> {
    let list: CooMatrix<T> = plain_list_of(turn.alloc(), a)?;
    turn.begin();
    let dense = turn.end(convert_coo_dense(turn.alloc(), &list));
    made_picture(turn.alloc(), dense)
}

fn are_equal<T: Scalar, F: Compressed<T> + Conversions<T>>(
    alloc: Global,
    a: Op<&str>,
    b: Op<&str>,
) -> Result<String, Failure> {
    let left: F = matrix_of(alloc, a)?;
    let right: F = matrix_of(alloc, b)?;
    truth(alloc, left.equals(&right))
}

// Whether the lists have the same triplets in the same order.
fn are_equal_lists<T: Scalar>(alloc: Global, a: Op<&str>, b: Op<&str>) -> Result<String, Failure> {
    let left: CooMatrix<T> = plain_list_of(alloc, a)?;
    let right: CooMatrix<T> = plain_list_of(alloc, b)?;
    truth(alloc, left == right)
}

/// Returns `true` or `false`.
pub fn truth(alloc: Global, holds: bool) -> Result<String, Failure> {
    let text = if holds { "true" } else { "false" };
    Ok(String::from_str(alloc, text)?)
}

/// Returns the text of offsets, indices and values.
pub fn arrays_text<T: Scalar>(
    alloc: Global,
    (offsets, indices, values): (&[usize], &[usize], &[T]),
) -> Result<String, Failure> {
    let mut out = String::from_str(alloc, "offsets")?;
    draw_indices(offsets, &mut out)?;
    out.push_str(" indices")?;
    draw_indices(indices, &mut out)?;
    out.push_str(" values")?;
    draw_values(values, &mut out)?;
    Ok(out)
}
