//! The data struct of a triplet list.

use serde::{Deserialize, Serialize};

/// The shape and the arrays of a `CooMatrix`, unchecked.
#[derive(Debug, Drop, PartialEq, Eq, Serialize, Deserialize)]
#[serde(deny_unknown_fields)]
pub struct CooData<T> {
    /// The number of rows.
    pub nrows: usize,
    /// The number of columns.
    pub ncols: usize,
    /// The row of each triplet.
    pub row_indices: Vec<usize>,
    /// The column of each triplet.
    pub col_indices: Vec<usize>,
    /// The value of each triplet.
    pub values: Vec<T>,
}
