//! The data struct of a CSC matrix.

use serde::{Deserialize, Serialize};

/// The shape and the arrays of a `CscMatrix`, unchecked.
#[derive(Debug, Drop, PartialEq, Eq, Serialize, Deserialize)]
#[serde(deny_unknown_fields)]
pub struct CscData<T> {
    /// The number of rows.
    pub nrows: usize,
    /// The number of columns.
    pub ncols: usize,
    /// The offset of the first entry of each column, followed by the number of entries.
    pub col_offsets: Vec<usize>,
    /// The row of each entry, column by column.
    pub row_indices: Vec<usize>,
    /// The value of each entry, column by column.
    pub values: Vec<T>,
}
