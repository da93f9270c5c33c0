//! The data struct of a CSR matrix.

use serde::{Deserialize, Serialize};

/// The shape and the arrays of a `CsrMatrix`, unchecked.
#[derive(Debug, Drop, PartialEq, Eq, Serialize, Deserialize)]
#[serde(deny_unknown_fields)]
pub struct CsrData<T> {
    /// The number of rows.
    pub nrows: usize,
    /// The number of columns.
    pub ncols: usize,
    /// The offset of the first entry of each row, followed by the number of entries.
    pub row_offsets: Vec<usize>,
    /// The column of each entry, row by row.
    pub col_indices: Vec<usize>,
    /// The value of each entry, row by row.
    pub values: Vec<T>,
}
