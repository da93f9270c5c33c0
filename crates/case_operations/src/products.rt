//! Products into a given matrix.

use crate::sums::{size_by_columns, size_by_rows};
use case_matrices::compressed::{Compressed, inner_of, matrix_of, operand, shown, updated};
use case_words::failure::Failure;
use case_words::scalar::Scalar;
use case_words::templates::Operands;
use case_words::turn::Turn;
use nalgebra_sparse::ops::Op;
use nalgebra_sparse::ops::serial::{spmm_csc_prealloc, spmm_csr_prealloc};
use nalgebra_sparse::{CscMatrix, CsrMatrix};
use std::alloc::Global;

/// The products of a format into a given matrix.
pub trait Products<T: Scalar> {
    /// Updates this to `beta C + alpha A B`.
    fn add_product(
        &mut self,
        alloc: Global,
        scalars: (T, T),
        a: Op<&Self>,
        b: Op<&Self>,
    ) -> Result<(), Failure>;
}

/// By rows.
impl<T: Scalar> Products<T> for CsrMatrix<T> {
    fn add_product(
        &mut self,
        alloc: Global,
        (beta, alpha): (T, T),
        a: Op<&Self>,
        b: Op<&Self>,
    ) -> Result<(), Failure> {
        let (left, right) = (size_by_rows(a), size_by_rows(b));
        if left.1 != right.0 || left.0 != self.nrows() || right.1 != self.ncols() {
            return Err(Failure::Misfit);
        }
        Ok(spmm_csr_prealloc(alloc, beta, self, alpha, a, b)?)
    }
}

/// By columns.
impl<T: Scalar> Products<T> for CscMatrix<T> {
    fn add_product(
        &mut self,
        alloc: Global,
        (beta, alpha): (T, T),
        a: Op<&Self>,
        b: Op<&Self>,
    ) -> Result<(), Failure> {
        let (left, right) = (size_by_columns(a), size_by_columns(b));
        if left.1 != right.0 || left.0 != self.nrows() || right.1 != self.ncols() {
            return Err(Failure::Misfit);
        }
        Ok(spmm_csc_prealloc(alloc, beta, self, alpha, a, b)?)
    }
}

/// Returns the target after `beta C += alpha A B`, which is `beta C + alpha A B` on the entries of C.
pub fn product_into<T: Scalar, F: Compressed<T> + Products<T>>(
    turn: &mut Turn,
    scalars: (T, T),
    given: Operands<'_>,
) -> Result<String, Failure> {
    let a: F = inner_of(turn.alloc(), given.a)?;
    let b: F = inner_of(turn.alloc(), given.b)?;
    let mut c: F = matrix_of(turn.alloc(), given.c)?;
    let (a, b) = (operand(given.a, &a), operand(given.b, &b));
    added(turn, scalars, &mut c, a, b)
}

fn added<T: Scalar, F: Compressed<T> + Products<T>>(
    turn: &mut Turn,
    scalars: (T, T),
    c: &mut F,
    a: Op<&F>,
    b: Op<&F>,
) -> Result<String, Failure> {
    let before = shown(turn.alloc(), c)?;
    turn.begin();
    let answer = turn.end(c.add_product(turn.alloc(), scalars, a, b));
    updated(answer, before, shown(turn.alloc(), c))
}
