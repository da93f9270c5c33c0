//! Products of a sparse and a dense matrix.

ghost use Rattle.std.specs.Prelude.{◌≡◌};
ghost use Rattle.nalgebra_sparse.specs.DenseOperands.{op_dense};

use crate::sums::{size_by_columns, size_by_rows};
use case_matrices::compressed::{
    Compressed, dense_of, inner_of, matrix_of, operand, plain_dense_of,
};
use case_words::drawing::picture;
use case_words::failure::Failure;
use case_words::scalar::Scalar;
use case_words::templates::Operands;
use case_words::turn::Turn;
use nalgebra_sparse::dense::DMatrix;
use nalgebra_sparse::ops::Op;
use nalgebra_sparse::ops::serial::{mul_csc_dense, mul_csr_dense, spmm_csc_dense, spmm_csr_dense};
use nalgebra_sparse::{CscMatrix, CsrMatrix};
use std::alloc::Global;

/// The products of a format with dense matrices.
pub trait DenseProducts<T: Scalar> {
    fn dense_product(&self, alloc: Global, b: &DMatrix<T>) -> Result<DMatrix<T>, Failure>;

    /// Updates a dense matrix to `beta C + alpha A B`.
    fn add_dense_product(
        scalars: (T, T),
        c: &mut DMatrix<T>,
        a: Op<&Self>,
        b: Op<&DMatrix<T>>,
    ) -> Result<(), Failure>;
}

/// By rows.
impl<T: Scalar> DenseProducts<T> for CsrMatrix<T> {
    fn dense_product(&self, alloc: Global, b: &DMatrix<T>) -> Result<DMatrix<T>, Failure> {
        if self.ncols() != b.nrows() {
            return Err(Failure::Misfit);
        }
        Ok(mul_csr_dense(alloc, self, b)?)
    }

    fn add_dense_product(
        (beta, alpha): (T, T),
        c: &mut DMatrix<T>,
        a: Op<&Self>,
        b: Op<&DMatrix<T>>,
    ) -> Result<(), Failure> {
        let (left, right) = (size_by_rows(a), size_of_dense(b));
        if left.1 != right.0 || left.0 != c.nrows() || right.1 != c.ncols() {
            return Err(Failure::Misfit);
        }
        spmm_csr_dense(beta, c, alpha, a, b);
        Ok(())
    }
}

/// By columns.
impl<T: Scalar> DenseProducts<T> for CscMatrix<T> {
    fn dense_product(&self, alloc: Global, b: &DMatrix<T>) -> Result<DMatrix<T>, Failure> {
        if self.ncols() != b.nrows() {
            return Err(Failure::Misfit);
        }
        Ok(mul_csc_dense(alloc, self, b)?)
    }

    fn add_dense_product(
        (beta, alpha): (T, T),
        c: &mut DMatrix<T>,
        a: Op<&Self>,
        b: Op<&DMatrix<T>>,
    ) -> Result<(), Failure> {
        let (left, right) = (size_by_columns(a), size_of_dense(b));
        if left.1 != right.0 || left.0 != c.nrows() || right.1 != c.ncols() {
            return Err(Failure::Misfit);
        }
        spmm_csc_dense(beta, c, alpha, a, b);
        Ok(())
    }
}

// The numbers of rows and columns of a dense operand.
fn size_of_dense<T: Scalar>(b: Op<&DMatrix<T>>) -> (usize, usize)
    ensures rows { result.0 ≡ (op_dense T.ring T.value b.entry).rows }
    ensures cols { result.1 ≡ (op_dense T.ring T.value b.entry).cols }
{
    match b {
        Op::NoOp(b) => (b.nrows(), b.ncols()),
        Op::Transpose(b) => (b.ncols(), b.nrows()),
    }
}

/// Returns the answer of `A * B`, where B is dense.
pub fn dense_product<T: Scalar, F: Compressed<T> + DenseProducts<T>>(
    turn: &mut Turn,
    given: Operands<'_>,
) -> Result<String, Failure> {
    let a: F = matrix_of(turn.alloc(), given.a)?;
    let b: DMatrix<T> = plain_dense_of(turn.alloc(), given.b)?;
    turn.begin();
    let made = turn.end(a.dense_product(turn.alloc(), &b));
    drawn(turn.alloc(), made)
}

fn drawn<T: Scalar>(alloc: Global, made: Result<DMatrix<T>, Failure>) -> Result<String, Failure> {
    Ok(picture(alloc, &made?)?)
}

/// Returns the dense target after `beta C += alpha A * B`, where B is dense.
pub fn dense_product_into<T: Scalar, F: Compressed<T> + DenseProducts<T>>(
    alloc: Global,
    scalars: (T, T),
    given: Operands<'_>,
) -> Result<String, Failure> {
    let a: F = inner_of(alloc, given.a)?;
    let b: DMatrix<T> = dense_of(alloc, given.b)?;
    let c: DMatrix<T> = plain_dense_of(alloc, given.c)?;
    added(
        alloc,
        scalars,
        c,
        operand(given.a, &a),
        operand(given.b, &b),
    )
}

fn added<T: Scalar, F: DenseProducts<T>>(
    alloc: Global,
    scalars: (T, T),
    mut c: DMatrix<T>,
    a: Op<&F>,
    b: Op<&DMatrix<T>>,
) -> Result<String, Failure> {
    F::add_dense_product(scalars, &mut c, a, b)?;
    Ok(picture(alloc, &c)?)
}
