//! The dense matrices that tasks take and make.

use nalgebra_sparse::dense::DMatrix;
use nalgebra_sparse::scalar::W64;
use std::alloc::{AllocError, Global};

/// Returns the matrix with (7 i + 3 j) mod 19 - 9 at (i, j), which all measured programs take.
pub fn dense_matrix(alloc: Global, nrows: usize, ncols: usize) -> Result<DMatrix<W64>, AllocError> {
    let mut dense: DMatrix<W64> = DMatrix::zeros(alloc, nrows, ncols)?;
    for j in 0..ncols {
        // Always true: the test replaces a loop invariant of the proof.
        if j < dense.ncols() {
            fill_column(dense.column_mut(j), j);
        }
    }
    Ok(dense)
}

// Fills column j.
fn fill_column(column: &mut [W64], j: usize) {
    for i in 0..column.len() {
        let sum = (i % 19) * 7 + (j % 19) * 3;
        column[i] = W64::new((sum % 19) as i64 - 9);
    }
}
