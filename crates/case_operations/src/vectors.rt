//! A row or a column and a dense vector, and sparse vectors.

ghost use Rattle.std.specs.Prelude.{◌≡◌};

use case_matrices::compressed::{Compressed, matrix_of, plain_dense_of};
use case_words::drawing::{draw_number, picture};
use case_words::failure::Failure;
use case_words::picture::list_of;
use case_words::scalar::{Scalar, scalar_from};
use case_words::templates::Operands;
use case_words::turn::Turn;
use case_words::words::index_from;
use nalgebra_sparse::dense::DMatrix;
use nalgebra_sparse::ops::Op;
use nalgebra_sparse::ops::serial::{
    axpy_csc_col, axpy_csr_row, dot_csc_col, dot_csr_row, usaxpy, usdot,
};
use nalgebra_sparse::{CooMatrix, CscMatrix, CsrMatrix};
use std::alloc::Global;

/// A call on vectors.
#[derive(Clone, Copy)]
pub enum VectorCall {
    /// The dot product of row k, or of column k by columns, and a vector.
    Dot,
    /// The vector after l times row k, or column k by columns, is added.
    Axpy,
    SparseDot,
    SparseAxpy,
}

pub const VECTORS: &[(&str, VectorCall)] = &[
    ("dot k A B", VectorCall::Dot),
    ("axpy l k A B", VectorCall::Axpy),
    ("usdot A B", VectorCall::SparseDot),
    ("usaxpy l A B", VectorCall::SparseAxpy),
];

/// The lanes of a format with dense vectors: its rows, or its columns.
pub trait Vectors<T: Scalar> {
    /// Returns the dot product of a lane and a vector.
    fn dot(&self, lane: usize, x: &[T]) -> Result<T, Failure>;

    /// Adds a multiple of a lane to a vector.
    fn axpy(&self, alpha: T, lane: usize, y: &mut [T]) -> Result<(), Failure>;
}

/// By rows.
impl<T: Scalar> Vectors<T> for CsrMatrix<T> {
    fn dot(&self, lane: usize, x: &[T]) -> Result<T, Failure> {
        if lane < self.nrows() && x.len() == self.ncols() {
            return Ok(dot_csr_row(self, lane, x));
        }
        Err(Failure::Misfit)
    }

    fn axpy(&self, alpha: T, lane: usize, y: &mut [T]) -> Result<(), Failure> {
        if lane < self.nrows() && y.len() == self.ncols() {
            axpy_csr_row(alpha, self, lane, y);
            return Ok(());
        }
        Err(Failure::Misfit)
    }
}

/// By columns.
impl<T: Scalar> Vectors<T> for CscMatrix<T> {
    fn dot(&self, lane: usize, x: &[T]) -> Result<T, Failure> {
        if lane < self.ncols() && x.len() == self.nrows() {
            return Ok(dot_csc_col(self, lane, x));
        }
        Err(Failure::Misfit)
    }

    fn axpy(&self, alpha: T, lane: usize, y: &mut [T]) -> Result<(), Failure> {
        if lane < self.ncols() && y.len() == self.nrows() {
            axpy_csc_col(alpha, self, lane, y);
            return Ok(());
        }
        Err(Failure::Misfit)
    }
}

/// Returns the answer of one of these calls. The first vector of a sparse call has the columns of a list as its
/// indices, in the order of the list.
pub fn with_vector<T: Scalar, F: Compressed<T> + Vectors<T>>(
    turn: &mut Turn,
    call: VectorCall,
    given: Operands<'_>,
) -> Result<String, Failure> {
    let mut y: DMatrix<T> = plain_dense_of(turn.alloc(), given.b)?;
    match call {
        VectorCall::Dot => dot::<T, F>(turn.alloc(), given, y.as_slice()),
        VectorCall::SparseDot => sparse_dot(turn.alloc(), given.a, y.as_slice()),
        VectorCall::Axpy => {
            axpy::<T, F>(turn.alloc(), given, y.as_mut_slice())?;
            drawn(turn.alloc(), &y)
        }
        VectorCall::SparseAxpy => {
            sparse_axpy(turn.alloc(), given, y.as_mut_slice())?;
            drawn(turn.alloc(), &y)
        }
    }
}

fn drawn<T: Scalar>(alloc: Global, y: &DMatrix<T>) -> Result<String, Failure> {
    Ok(picture(alloc, y)?)
}

fn dot<T: Scalar, F: Compressed<T> + Vectors<T>>(
    alloc: Global,
    given: Operands<'_>,
    x: &[T],
) -> Result<String, Failure> {
    let lane = index_from(given.k)?;
    let matrix: F = matrix_of(alloc, given.a)?;
    number_text(alloc, matrix.dot(lane, x)?)
}

fn axpy<T: Scalar, F: Compressed<T> + Vectors<T>>(
    alloc: Global,
    given: Operands<'_>,
    y: &mut [T],
) -> Result<(), Failure> {
    let (alpha, lane): (T, usize) = (scalar_from(given.l)?, index_from(given.k)?);
    let matrix: F = matrix_of(alloc, given.a)?;
    matrix.axpy(alpha, lane, y)
}

fn sparse_dot<T: Scalar>(alloc: Global, x: Op<&str>, y: &[T]) -> Result<String, Failure> {
    let x = list_of::<T>(alloc, x.into_inner())?;
    number_text(alloc, dot_of_list(&x, y)?)
}

fn dot_of_list<T: Scalar>(x: &CooMatrix<T>, y: &[T]) -> Result<T, Failure> {
    if x.ncols() != y.len() {
        return Err(Failure::Misfit);
    }
    Ok(usdot(x.values(), x.col_indices(), y))
}

fn sparse_axpy<T: Scalar>(alloc: Global, given: Operands<'_>, y: &mut [T]) -> Result<(), Failure> {
    let alpha: T = scalar_from(given.l)?;
    let x = list_of::<T>(alloc, given.a.into_inner())?;
    add_list(alpha, &x, y)
}

fn add_list<T: Scalar>(alpha: T, x: &CooMatrix<T>, y: &mut [T]) -> Result<(), Failure> {
    if x.ncols() != y.len() {
        return Err(Failure::Misfit);
    }
    usaxpy(alpha, x.values(), x.col_indices(), y);
    Ok(())
}

/// Returns the text of a scalar.
pub fn number_text<T: Scalar>(alloc: Global, value: T) -> Result<String, Failure> {
    let mut out = String::new(alloc);
    draw_number(value, &mut out)?;
    Ok(out)
}
