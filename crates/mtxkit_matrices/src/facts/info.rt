//! The facts that `mtxkit info` writes about a matrix.

ghost use Rattle.std.specs.Prelude.{IfOk};
ghost use Rattle.mtxkit_matrices.specs.Facts.{AreFacts};

use crate::facts::lanes::{Histogram, count_lanes, counted_lanes};
use crate::facts::shape::{bandwidth, is_symmetric};
use crate::values::{count_zeros, has_symmetric_values};
use sparse_algebra::scalar::Ring;
use sparse_csr_csc::csr::CsrMatrix;
use std::alloc::{AllocError, Global};

/// Facts about a matrix.
#[derive(Debug, Drop)]
pub struct Info {
    /// The number of entries.
    pub places: usize,
    /// The number of entries whose value is zero.
    pub stored_zeros: usize,
    /// The number of rows without entries.
    pub empty_rows: usize,
    /// The number of columns without entries.
    pub empty_cols: usize,
    /// The largest |i - j| over the entries (i, j).
    pub bandwidth: usize,
    /// Whether the pattern is square and has the entry (j, i) for each entry (i, j).
    pub has_symmetric_pattern: bool,
    /// Whether the matrix is square and has the same value at (i, j) and (j, i).
    pub has_symmetric_values: bool,
    /// The histogram of the rows by their numbers of entries.
    pub rows: Histogram,
}

/// Returns the facts about a matrix.
///
/// Linear in the numbers of entries, rows and columns. Fails only if an allocation fails.
pub fn info_of<T: Ring>(alloc: Global, matrix: &CsrMatrix<T>) -> Result<Info, AllocError>
    ensures { IfOk result (AreFacts T.ring T.value (λ v. T.eq v T.zero_value) matrix.now) }
{
    let pattern = matrix.pattern();
    let transposed = pattern.transpose(alloc)?;
    Ok(Info {
        places: pattern.nnz(),
        stored_zeros: count_zeros(matrix.values()),
        empty_rows: count_lanes(pattern, 0, 1),
        empty_cols: count_lanes(&transposed, 0, 1),
        bandwidth: bandwidth(pattern),
        has_symmetric_pattern: is_symmetric(alloc, pattern)?,
        has_symmetric_values: has_symmetric_values(alloc, matrix)?,
        rows: counted_lanes(alloc, pattern)?,
    })
}
