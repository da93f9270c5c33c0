//! Triangular systems.

use case_matrices::compressed::{inner_of, operand, plain_dense_of, updated};
use case_words::drawing::picture;
use case_words::failure::Failure;
use case_words::scalar::Scalar;
use nalgebra_sparse::CscMatrix;
use nalgebra_sparse::dense::DMatrix;
use nalgebra_sparse::ops::Op;
use nalgebra_sparse::ops::serial::spsolve_csc_lower_triangular;
use std::alloc::Global;

/// Returns the answer of `L \ B`: the solution of a lower triangular system, or of its transpose.
pub fn solution<T: Scalar>(alloc: Global, a: Op<&str>, b: Op<&str>) -> Result<String, Failure> {
    let l: CscMatrix<T> = inner_of(alloc, a)?;
    let x: DMatrix<T> = plain_dense_of(alloc, b)?;
    solved(alloc, operand(a, &l), x)
}

fn solved<T: Scalar>(
    alloc: Global,
    l: Op<&CscMatrix<T>>,
    mut x: DMatrix<T>,
) -> Result<String, Failure> {
    let before = drawn(alloc, &x)?;
    let answer = solve(l, &mut x);
    updated(answer, before, drawn(alloc, &x))
}

fn drawn<T: Scalar>(alloc: Global, x: &DMatrix<T>) -> Result<String, Failure> {
    Ok(picture(alloc, x)?)
}

// Replaces the right sides by the solution, where the sizes fit.
fn solve<T: Scalar>(l: Op<&CscMatrix<T>>, x: &mut DMatrix<T>) -> Result<(), Failure> {
    let matrix = l.into_inner();
    if matrix.nrows() != matrix.ncols() || x.nrows() != matrix.ncols() {
        return Err(Failure::Misfit);
    }
    Ok(spsolve_csc_lower_triangular(l, x)?)
}
