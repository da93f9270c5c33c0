//! The first fault of triplets in three lists.

ghost use Rattle.std.specs.Prelude.{◌≡◌, ◌<◌, ◌≤◌, length, All, Any, MatchBool, IfSome, IsNone};
ghost use Rattle.sparse_pattern.specs.FirstFault.{IsFirst};
ghost use Rattle.sparse_coo_dense.specs.TripletFaults.{HasTripletFault, triplet_rank, triplet_kind};
ghost use Rattle.sparse_coo_dense.specs.InnerTripletFaults.{rule_of};

use sparse_pattern::error::{SparseFormatError, SparseFormatErrorKind};

// A fault of triplets in three lists.
#[derive(Clone, Copy)]
pub(super) enum TripletFault {
    ColCount,
    ValueCount,
    RowBounds,
    ColBounds,
}

impl TripletFault {
    // Returns the error that reports the fault.
    pub(super) fn error(self) -> SparseFormatError
        ensures { result ≡ triplet_kind (rule_of self) }
    {
        let (kind, message) = match self {
            TripletFault::ColCount => (
                SparseFormatErrorKind::InvalidStructure,
                "Number of row and col indices must be the same.",
            ),
            TripletFault::ValueCount => (
                SparseFormatErrorKind::InvalidStructure,
                "Number of col indices and values must be the same.",
            ),
            TripletFault::RowBounds => (
                SparseFormatErrorKind::IndexOutOfBounds,
                "Row index out of bounds.",
            ),
            TripletFault::ColBounds => (
                SparseFormatErrorKind::IndexOutOfBounds,
                "Col index out of bounds.",
            ),
        };
        SparseFormatError::new(kind, message)
    }
}

// Returns the first fault of the rows, the columns and the number of values, or `None` if they describe a matrix.
pub(super) fn first_fault(
    nrows: usize,
    ncols: usize,
    rows: &[usize],
    cols: &[usize],
    count: usize,
) -> Option<TripletFault>
    ensures fault { IfSome result (λ fault. IsFirst triplet_rank
        (HasTripletFault nrows ncols rows.now cols.now count) (rule_of fault)) }
    ensures counts { IsNone result
        → (length rows.now ≡ length cols.now) × (length cols.now ≡ count) }
    ensures bounds { IsNone result → All (λ i. i < nrows) rows.now × All (λ j. j < ncols) cols.now }
{
    if rows.len() != cols.len() {
        return Some(TripletFault::ColCount);
    }
    if cols.len() != count {
        return Some(TripletFault::ValueCount);
    }
    if !all_below(rows, nrows) {
        return Some(TripletFault::RowBounds);
    }
    if !all_below(cols, ncols) {
        return Some(TripletFault::ColBounds);
    }
    None
}

// Returns whether each index is less than the bound.
fn all_below(indices: &[usize], bound: usize) -> bool
    ensures { MatchBool result (All (λ i. i < bound) indices.now)
        (Any (λ i. bound ≤ i) indices.now) }
{
    indices.iter().all(|&index| index < bound)
}
