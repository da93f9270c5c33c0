//! The symmetric matrices that are factored.

use nalgebra_sparse::CscMatrix;
use nalgebra_sparse::scalar::W64;

/// Gives each entry of a matrix the value that all measured programs take: 1001 on the diagonal and an even number off
/// it, so that every pivot is odd and has an inverse.
pub fn with_odd_pivots(mut matrix: CscMatrix<W64>) -> CscMatrix<W64> {
    for (row, col, value) in matrix.triplet_iter_mut() {
        *value = value_at(row, col);
    }
    matrix
}

// The value at a row and a column: 1001, or 2 ((7 l + 3 h) mod 19 + 1) for the lesser index l and the greater index h.
fn value_at(row: usize, col: usize) -> W64 {
    if row == col {
        return W64::new(1001);
    }
    let (low, high) = (row.min(col), row.max(col));
    let sum = (low % 19) * 7 + (high % 19) * 3;
    W64::new(2 * ((sum % 19) as i64 + 1))
}
