//! Coordinates of values, and numbers of rows and columns.

ghost use Rattle.std.specs.Prelude.{◌≡◌};
ghost use Rattle.mtxkit_matrices.specs.Coordinates.{dimensions_of};

use sparse_coo_dense::coo::CooMatrix;
use std::fmt::{self, Display, Formatter, Write};

/// A row and a column of a matrix, both counted from 0.
#[derive(Clone, Copy, Debug)]
pub struct Coordinates {
    /// The row.
    pub row: usize,
    /// The column.
    pub col: usize,
}

/// Writes the numbers of the row and of the column, counted from 1.
impl Display for Coordinates {
    fn fmt<W: Write>(&self, f: &mut Formatter<W>) -> fmt::Result {
        let (row, col) = (self.row as u128 + 1, self.col as u128 + 1);
        write!(f, "row {row}, column {col}")
    }
}

/// The numbers of rows and columns of a matrix.
#[derive(Clone, Copy, Debug)]
pub struct Dimensions {
    /// The number of rows.
    pub rows: usize,
    /// The number of columns.
    pub cols: usize,
}

impl Dimensions {
    /// Returns the numbers of rows and columns of a list of triplets.
    pub fn of<T>(list: &CooMatrix<T>) -> Dimensions
        ensures { result ≡ dimensions_of list.now }
    {
        Dimensions {
            rows: list.nrows(),
            cols: list.ncols(),
        }
    }
}

/// Writes the numbers, as in `3 by 2`.
impl Display for Dimensions {
    fn fmt<W: Write>(&self, f: &mut Formatter<W>) -> fmt::Result {
        write!(f, "{} by {}", self.rows, self.cols)
    }
}
