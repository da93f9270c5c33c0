//! Orders of a pattern that reduce the fill of its factor, or its bandwidth.

use case_matrices::compressed::matrix_of;
use case_words::failure::Failure;
use case_words::templates::Operands;
use case_words::turn::Turn;
use nalgebra_sparse::CsrMatrix;
use nalgebra_sparse::factorization::CscSymbolicCholesky;
use nalgebra_sparse::ordering::{
    Permutation, minimum_degree, permute_symmetric_pattern, reverse_cuthill_mckee,
};
use nalgebra_sparse::pattern::SparsityPattern;
use nalgebra_sparse::scalar::W64;
use std::alloc::Global;

/// A call that orders a pattern, and asks what the pattern is in this order.
#[derive(Clone, Copy)]
pub enum ReducedCall {
    Fill,
    Bandwidth,
}

pub const REDUCED_CALLS: &[(&str, ReducedCall)] = &[
    ("entries of factor minimum-degree A", ReducedCall::Fill),
    ("bandwidth cuthill-mckee A", ReducedCall::Bandwidth),
];

/// Returns the answer of one of these calls.
pub fn reduced_call(
    turn: &mut Turn,
    call: ReducedCall,
    given: Operands<'_>,
) -> Result<String, Failure> {
    let matrix: CsrMatrix<W64> = matrix_of(turn.alloc(), given.a)?;
    let pattern = matrix.pattern();
    if pattern.major_dim() != pattern.minor_dim() {
        return Err(Failure::Misfit);
    }
    turn.begin();
    match call {
        ReducedCall::Fill => {
            let order = turn.end(minimum_degree(turn.alloc(), pattern))?;
            entries_of_factor(turn.alloc(), pattern, &order)
        }
        ReducedCall::Bandwidth => {
            let order = turn.end(reverse_cuthill_mckee(turn.alloc(), pattern))?;
            bandwidth(turn.alloc(), pattern, &order)
        }
    }
}

// The number of entries of the factor of the permuted pattern.
fn entries_of_factor(
    alloc: Global,
    pattern: &SparsityPattern,
    order: &Permutation,
) -> Result<String, Failure> {
    let permuted = permute_symmetric_pattern(alloc, pattern, order)?;
    if permuted.major_dim() != permuted.minor_dim() {
        return Err(Failure::Misfit);
    }
    let factor = CscSymbolicCholesky::factor(alloc, permuted)?;
    Ok(format!(in alloc; "{}", factor.l_pattern().nnz())?)
}

// The greatest distance of an entry of the permuted pattern from the diagonal.
fn bandwidth(
    alloc: Global,
    pattern: &SparsityPattern,
    order: &Permutation,
) -> Result<String, Failure> {
    let permuted = permute_symmetric_pattern(alloc, pattern, order)?;
    let mut greatest = 0;
    for (row, col) in permuted.entries() {
        greatest = greatest.max(row.abs_diff(col));
    }
    Ok(format!(in alloc; "{greatest}")?)
}
