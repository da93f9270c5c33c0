//! Lists of triplets for tests.

use sparse_algebra::scalar::W64;
use sparse_coo_dense::coo::CooMatrix;
use sparse_io::MatrixMarketScalar;
use std::alloc::{AllocError, Global};

// The row, the column and the value of a triplet, as a matrix gives them.
fn parts<T>(triplet: &(usize, usize, T)) -> (usize, usize, &T) {
    (triplet.0, triplet.1, &triplet.2)
}

/// Whether a matrix has this shape and triplets.
pub fn is_listed<T: MatrixMarketScalar + PartialEq>(
    matrix: &CooMatrix<T>,
    sizes: (usize, usize),
    triplets: &[(usize, usize, T)],
) -> bool {
    (matrix.nrows(), matrix.ncols()) == sizes
        && matrix.nnz() == triplets.len()
        && matrix.triplet_iter().eq(triplets.iter().map(parts))
}

/// The list of these triplets; those outside the shape are left out.
pub fn list(
    alloc: Global,
    nrows: usize,
    ncols: usize,
    triplets: &[(usize, usize, i64)],
) -> Result<CooMatrix<W64>, AllocError> {
    let mut matrix = CooMatrix::new(alloc, nrows, ncols);
    for (row, col, value) in triplets {
        if *row < matrix.nrows() && *col < matrix.ncols() {
            matrix.push(*row, *col, W64::new(*value))?;
        }
    }
    Ok(matrix)
}

/// The square list with -7 on its antidiagonal.
pub fn antidiagonal(alloc: Global, order: usize) -> Result<CooMatrix<W64>, AllocError> {
    let mut triplets = Vec::new(alloc);
    for k in 0..order {
        triplets.push((k, order - 1 - k, -7))?;
    }
    list(alloc, order, order, &triplets)
}
