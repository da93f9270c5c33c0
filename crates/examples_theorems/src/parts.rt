//! Parts of a matrix that is assembled. The definitions of `specs` speak of them.

use nalgebra_sparse::dense::DMatrix;

/// A dense block, whose first value is at this row and column of a larger matrix.
#[derive(Drop)]
pub struct Block<T> {
    pub row: usize,
    pub col: usize,
    pub matrix: DMatrix<T>,
}

/// The matrix of an element: row k belongs to row `rows[k]` of the larger matrix, and column l to column `cols[l]`.
#[derive(Drop)]
pub struct Element<T> {
    pub rows: Vec<usize>,
    pub cols: Vec<usize>,
    pub matrix: DMatrix<T>,
}
