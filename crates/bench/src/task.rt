//! What is timed: each task, with what it works on.

use crate::dense::dense_matrix;
use crate::input::{columns_of, rows_of};
use crate::measure::{Best, best_of, best_of_copies};
use crate::symmetric::with_odd_pivots;
use nalgebra_sparse::convert::serial::convert_coo_csr;
use nalgebra_sparse::dense::DMatrix;
use nalgebra_sparse::factorization::CscSymbolicCholesky;
use nalgebra_sparse::io::load_coo_from_matrix_market_str;
use nalgebra_sparse::ldl::Ldl;
use nalgebra_sparse::ops::Op;
use nalgebra_sparse::ops::serial::{
    add_csc, add_csr, mul_csr, spmm_csr_dense, spsolve_csc_lower_triangular,
};
use nalgebra_sparse::ordered::OrderedLdl;
use nalgebra_sparse::ordering::{Permutation, minimum_degree};
use nalgebra_sparse::pattern::SparsityPattern;
use nalgebra_sparse::scalar::W64;
use nalgebra_sparse::{CooMatrix, CscMatrix, CsrMatrix};
use std::alloc::Global;
use std::test::Fail;

// How many columns are solved for at once.
const SOLVED_COLUMNS: usize = 4;

// How many columns a dense operand has.
const DENSE_COLUMNS: usize = 8;

const MISFIT: &str = "the matrix is not square";

/// Times the compression of a list by rows.
pub fn compress(rt: &HostRuntime, list: CooMatrix<W64>, reps: usize) -> Result<Best, Fail> {
    best_of(rt, reps, |alloc| Ok(convert_coo_csr(alloc, &list)?))
}

/// Times the transpose of a matrix by rows.
pub fn transpose(rt: &HostRuntime, list: CooMatrix<W64>, reps: usize) -> Result<Best, Fail> {
    let matrix = rows_of(rt.alloc(), list)?;
    best_of(rt, reps, |alloc| Ok(matrix.transpose(alloc)?))
}

/// Times the product of a square matrix with itself.
pub fn square(rt: &HostRuntime, list: CooMatrix<W64>, reps: usize) -> Result<Best, Fail> {
    let matrix = rows_of(rt.alloc(), list)?;
    best_of(rt, reps, |alloc| product(alloc, &matrix, &matrix))
}

fn product(alloc: Global, a: &CsrMatrix<W64>, b: &CsrMatrix<W64>) -> Result<CsrMatrix<W64>, Fail> {
    if a.ncols() != b.nrows() {
        return Err(Fail::from(MISFIT));
    }
    Ok(mul_csr(alloc, a, b)?)
}

/// Times the sum of a square matrix and its transpose.
pub fn add(rt: &HostRuntime, list: CooMatrix<W64>, reps: usize) -> Result<Best, Fail> {
    let matrix = rows_of(rt.alloc(), list)?;
    let transposed = matrix.transpose(rt.alloc())?;
    best_of(rt, reps, |alloc| sum_of_rows(alloc, &matrix, &transposed))
}

fn sum_of_rows(
    alloc: Global,
    a: &CsrMatrix<W64>,
    b: &CsrMatrix<W64>,
) -> Result<CsrMatrix<W64>, Fail> {
    if a.nrows() != b.nrows() || a.ncols() != b.ncols() {
        return Err(Fail::from(MISFIT));
    }
    Ok(add_csr(alloc, a, b)?)
}

/// Times the product of a matrix and a dense one, written over a matrix of ones.
pub fn multiply(rt: &HostRuntime, list: CooMatrix<W64>, reps: usize) -> Result<Best, Fail> {
    let matrix = rows_of(rt.alloc(), list)?;
    let dense = dense_matrix(rt.alloc(), matrix.ncols(), DENSE_COLUMNS)?;
    best_of_copies(
        rt,
        reps,
        |alloc| Ok(DMatrix::repeat(alloc, matrix.nrows(), dense.ncols(), W64::new(1))?),
        |_, product| dense_product(product, &matrix, &dense),
    )
}

fn dense_product(
    mut product: DMatrix<W64>,
    a: &CsrMatrix<W64>,
    b: &DMatrix<W64>,
) -> Result<DMatrix<W64>, Fail> {
    if a.ncols() != b.nrows() || product.nrows() != a.nrows() || product.ncols() != b.ncols() {
        return Err(Fail::from(MISFIT));
    }
    spmm_csr_dense(
        W64::new(0),
        &mut product,
        W64::new(1),
        Op::NoOp(a),
        Op::NoOp(b),
    );
    Ok(product)
}

/// Times the solve with the lower triangle of a square matrix, which has ones on its diagonal, for four columns.
pub fn solve(rt: &HostRuntime, list: CooMatrix<W64>, reps: usize) -> Result<Best, Fail> {
    let right_sides = dense_matrix(rt.alloc(), list.nrows(), SOLVED_COLUMNS)?;
    let lower = unit_lower(rt.alloc(), columns_of(rt.alloc(), list)?)?;
    best_of_copies(
        rt,
        reps,
        |alloc| Ok(right_sides.clone(alloc)?),
        |_, right_sides| solution(&lower, right_sides),
    )
}

// The entries of a square matrix below the diagonal, and ones on it.
fn unit_lower(alloc: Global, matrix: CscMatrix<W64>) -> Result<CscMatrix<W64>, Fail> {
    let below = matrix.filter(alloc, |i, j, _value| i > j)?;
    let ones: CscMatrix<W64> = CscMatrix::identity(alloc, below.nrows())?;
    sum_of_columns(alloc, &below, &ones)
}

fn sum_of_columns(
    alloc: Global,
    a: &CscMatrix<W64>,
    b: &CscMatrix<W64>,
) -> Result<CscMatrix<W64>, Fail> {
    if a.nrows() != b.nrows() || a.ncols() != b.ncols() {
        return Err(Fail::from(MISFIT));
    }
    Ok(add_csc(alloc, a, b)?)
}

fn solution(lower: &CscMatrix<W64>, mut x: DMatrix<W64>) -> Result<DMatrix<W64>, Fail> {
    if lower.nrows() != lower.ncols() || x.nrows() != lower.ncols() {
        return Err(Fail::from(MISFIT));
    }
    spsolve_csc_lower_triangular(Op::NoOp(lower), &mut x)?;
    Ok(x)
}

/// Times the pattern of the Cholesky factor.
pub fn fill(rt: &HostRuntime, list: CooMatrix<W64>, reps: usize) -> Result<Best, Fail> {
    let matrix = columns_of(rt.alloc(), list)?;
    best_of_copies(
        rt,
        reps,
        |alloc| Ok(matrix.pattern().clone(alloc)?),
        |alloc, pattern| symbolic_factor(alloc, pattern),
    )
}

fn symbolic_factor(alloc: Global, pattern: SparsityPattern) -> Result<CscSymbolicCholesky, Fail> {
    if pattern.major_dim() != pattern.minor_dim() {
        return Err(Fail::from(MISFIT));
    }
    Ok(CscSymbolicCholesky::factor(alloc, pattern)?)
}

/// Times the exact factors of a symmetric matrix, with their pattern.
pub fn factor(rt: &HostRuntime, list: CooMatrix<W64>, reps: usize) -> Result<Best, Fail> {
    let matrix = with_odd_pivots(columns_of(rt.alloc(), list)?);
    best_of(rt, reps, |alloc| factors(alloc, &matrix))
}

fn factors(alloc: Global, matrix: &CscMatrix<W64>) -> Result<Ldl<W64>, Fail> {
    if matrix.nrows() != matrix.ncols() {
        return Err(Fail::from(MISFIT));
    }
    Ok(Ldl::factor(alloc, matrix)?)
}

/// Times the order of least fill for a symmetric pattern.
pub fn order(rt: &HostRuntime, list: CooMatrix<W64>, reps: usize) -> Result<Best, Fail> {
    let matrix = columns_of(rt.alloc(), list)?;
    best_of(rt, reps, |alloc| minimum_degree_of(alloc, matrix.pattern()))
}

fn minimum_degree_of(alloc: Global, pattern: &SparsityPattern) -> Result<Permutation, Fail> {
    if pattern.major_dim() != pattern.minor_dim() {
        return Err(Fail::from(MISFIT));
    }
    Ok(minimum_degree(alloc, pattern)?)
}

/// Times the exact factors of a symmetric matrix in an order of little fill, with the order and their pattern.
pub fn factor_ordered(rt: &HostRuntime, list: CooMatrix<W64>, reps: usize) -> Result<Best, Fail> {
    let matrix = with_odd_pivots(columns_of(rt.alloc(), list)?);
    best_of(rt, reps, |alloc| ordered_factors(alloc, &matrix))
}

fn ordered_factors(alloc: Global, matrix: &CscMatrix<W64>) -> Result<OrderedLdl<W64>, Fail> {
    if matrix.nrows() != matrix.ncols() {
        return Err(Fail::from(MISFIT));
    }
    Ok(Ldl::factor_ordered(alloc, matrix)?)
}

/// Times the reading of a pattern's text.
pub fn read_pattern(rt: &HostRuntime, text: &str, reps: usize) -> Result<Best, Fail> {
    best_of(rt, reps, |alloc| {
        let list: CooMatrix<()> = load_coo_from_matrix_market_str(alloc, text)?;
        Ok(list)
    })
}

/// Times the reading of a text of integers.
pub fn read_integers(rt: &HostRuntime, text: &str, reps: usize) -> Result<Best, Fail> {
    best_of(rt, reps, |alloc| {
        let list: CooMatrix<W64> = load_coo_from_matrix_market_str(alloc, text)?;
        Ok(list)
    })
}
