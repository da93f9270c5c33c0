//! Matrices and patterns whose rows and columns are permuted alike, and dense matrices whose rows are permuted.

use crate::orders::permutation_of;
use case_matrices::compressed::{Compressed, made, matrix_of, plain_dense_of};
use case_words::drawing::{PatternByRows, picture};
use case_words::failure::Failure;
use case_words::scalar::Scalar;
use case_words::templates::Operands;
use case_words::turn::Turn;
use nalgebra_sparse::ordering::{
    Permutation, PermuteError, permute_rows, permute_symmetric_csc, permute_symmetric_csr,
    permute_symmetric_pattern,
};
use nalgebra_sparse::{CscMatrix, CsrMatrix};
use std::alloc::Global;

/// A call that permutes.
#[derive(Clone, Copy)]
pub enum PermutedCall {
    Matrix,
    Pattern,
    Rows,
}

pub const PERMUTED_CALLS: &[(&str, PermutedCall)] = &[
    ("permute A by ..", PermutedCall::Matrix),
    ("permute pattern A by ..", PermutedCall::Pattern),
    ("permute rows A by ..", PermutedCall::Rows),
];

/// The calls on a format.
pub trait Permuted<T: Scalar>: Compressed<T> {
    fn permuted(&self, alloc: Global, permutation: &Permutation) -> Result<Self, PermuteError>;
}

impl<T: Scalar> Permuted<T> for CsrMatrix<T> {
    fn permuted(&self, alloc: Global, permutation: &Permutation) -> Result<Self, PermuteError> {
        permute_symmetric_csr(alloc, self, permutation)
    }
}

impl<T: Scalar> Permuted<T> for CscMatrix<T> {
    fn permuted(&self, alloc: Global, permutation: &Permutation) -> Result<Self, PermuteError> {
        permute_symmetric_csc(alloc, self, permutation)
    }
}

/// Returns the answer of one of these calls.
pub fn permuted_call<T: Scalar, F: Permuted<T>>(
    turn: &mut Turn,
    call: PermutedCall,
    given: Operands<'_>,
) -> Result<String, Failure> {
    let permutation = permutation_of(turn.alloc(), given.rest)?;
    match call {
        PermutedCall::Matrix => {
            let matrix: F = matrix_of(turn.alloc(), given.a)?;
            permuted_matrix(turn, &matrix, &permutation)
        }
        PermutedCall::Pattern => {
            let matrix: CsrMatrix<T> = matrix_of(turn.alloc(), given.a)?;
            permuted_pattern(turn, &matrix, &permutation)
        }
        PermutedCall::Rows => permuted_rows::<T>(turn, given, &permutation),
    }
}

fn permuted_matrix<T: Scalar, F: Permuted<T>>(
    turn: &mut Turn,
    matrix: &F,
    permutation: &Permutation,
) -> Result<String, Failure> {
    turn.begin();
    let permuted = turn.end(matrix.permuted(turn.alloc(), permutation))?;
    made(turn.alloc(), Ok(permuted))
}

fn permuted_pattern<T: Scalar>(
    turn: &mut Turn,
    matrix: &CsrMatrix<T>,
    permutation: &Permutation,
) -> Result<String, Failure> {
    let alloc = turn.alloc();
    turn.begin();
    let permuted = turn.end(permute_symmetric_pattern(alloc, matrix.pattern(), permutation))?;
    Ok(picture(alloc, &PatternByRows(permuted))?)
}

fn permuted_rows<T: Scalar>(
    turn: &mut Turn,
    given: Operands<'_>,
    permutation: &Permutation,
) -> Result<String, Failure> {
    let dense = plain_dense_of::<T>(turn.alloc(), given.a)?;
    turn.begin();
    let permuted = turn.end(permute_rows(turn.alloc(), &dense, permutation))?;
    Ok(picture(turn.alloc(), &permuted)?)
}
