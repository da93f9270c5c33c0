//! The library beside the slow program that solves the equations column by column.

use reference_models::ldl::{DenseFactors, factors_by_columns};
use sparse_algebra::error::{OperationError, OperationErrorKind};
use sparse_algebra::scalar::Units;
use sparse_convert::serial::{convert_csc_dense, convert_dense_csc};
use sparse_coo_dense::dense::DMatrix;
use sparse_csr_csc::csc::CscMatrix;
use sparse_factor::ldl::Ldl;
use std::alloc::{AllocError, Global};

// The library's answer, if the matrix is square.
fn factor<T: Units>(alloc: Global, a: &CscMatrix<T>) -> Option<Result<Ldl<T>, OperationError>> {
    if a.nrows() != a.ncols() {
        return None;
    }
    Some(Ldl::factor(alloc, a))
}

// The slow program's answer, if the matrix is square and there is memory for it.
fn slow_factors<T: Units>(alloc: Global, a: &DMatrix<T>) -> Option<Option<DenseFactors<T>>> {
    if a.nrows() != a.ncols() {
        return None;
    }
    factors_by_columns(alloc, a).ok()
}

// Whether the columns have the values of a dense matrix.
fn has_values<T: Units>(alloc: Global, l: &CscMatrix<T>, want: &DMatrix<T>) -> bool {
    match convert_csc_dense(alloc, l) {
        Ok(dense) => dense == *want,
        Err(_) => false,
    }
}

/// Whether these are the values of the factors.
pub fn has_factors<T: Units>(alloc: Global, ldl: &Ldl<T>, l: &DMatrix<T>, d: &[T]) -> bool {
    has_values(alloc, ldl.l(), l) && ldl.d() == d
}

// Whether the refusal is that there are no factors.
fn is_singular(error: &OperationError) -> bool {
    *error.kind() == OperationErrorKind::Singular
}

/// The library's factors, if there are any.
pub fn factored<T: Units>(alloc: Global, a: &CscMatrix<T>) -> Option<Ldl<T>> {
    factor(alloc, a)?.ok()
}

// Whether the slow program has found these factors.
fn are_found<T: Units>(alloc: Global, ldl: &Ldl<T>, slow: Option<DenseFactors<T>>) -> bool {
    match slow {
        Some(want) => has_factors(alloc, ldl, &want.l, &want.d),
        None => false,
    }
}

// Whether the library answers as the slow program does.
fn is_same<T: Units>(alloc: Global, a: &CscMatrix<T>, slow: Option<DenseFactors<T>>) -> bool {
    let Some(answer) = factor(alloc, a) else {
        return false;
    };
    match answer {
        Ok(ldl) => are_found(alloc, &ldl, slow),
        Err(error) => slow.is_none() && is_singular(&error),
    }
}

/// Whether both programs have one answer for a matrix whose zeros are not stored.
pub fn agree<T: Units>(alloc: Global, made: Result<DMatrix<T>, AllocError>) -> bool {
    let Ok(dense) = made else {
        return false;
    };
    let Ok(a) = convert_dense_csc(alloc, &dense) else {
        return false;
    };
    match slow_factors(alloc, &dense) {
        Some(slow) => is_same(alloc, &a, slow),
        None => false,
    }
}
