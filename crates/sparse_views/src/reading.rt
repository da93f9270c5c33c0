//! Reading the borrowed arrays that CSR and CSC views wrap. A lane is a row in CSR and a column in CSC.

ghost use Rattle.std.specs.Prelude.{◌≡◌, ◌<◌, ◌↔◌, length, IfOk, IfSome, IsSome};
ghost use Rattle.sparse_algebra.specs.Sums.{sum_below};
ghost use Rattle.sparse_compressed.specs.Compressed.{IsSound};
ghost use Rattle.sparse_compressed.specs.Lanes.{lane_at};
ghost use Rattle.sparse_compressed.specs.PlainOfLanes.{plain_of_rows};
ghost use Rattle.sparse_compressed.specs.StoredEntries.{IsEntryAt, IsEntryOf, IsInBounds};
ghost use Rattle.sparse_dense_ops.specs.SparseVectors.{elements};

use sparse_algebra::recall;
use sparse_algebra::scalar::Ring;
use sparse_compressed::{CsLane, CsMatrix, CsView, LaneIndices};
use sparse_dense_ops::usdot;
use sparse_pattern::entry::SparseEntry;
use sparse_pattern::pattern::SparsityPattern;
use std::alloc::{AllocError, Global};

// Returns a lane. `i` must be less than the number of lanes.
pub(crate) fn lane<'a, T>(arrays: &CsView<'a, T>, i: usize) -> CsLane<'a, T>
    requires { i < arrays.now.pattern.major_dim }
    ensures lane { result ≡ lane_at arrays.now i }
    ensures sound { IsSound arrays.now }
{
    let (indices, values) = arrays.lane(i);
    CsLane::new(arrays.minor_dim(), LaneIndices::new(indices), values)
}

// Returns a lane, or `None` if `i` is out of bounds.
pub(crate) fn get_lane<'a, T>(arrays: &CsView<'a, T>, i: usize) -> Option<CsLane<'a, T>>
    ensures bounds { IsSome result ↔ (i < arrays.now.pattern.major_dim) }
    ensures lane { IfSome result (λ lane. lane ≡ lane_at arrays.now i) }
    ensures sound { IsSound arrays.now }
{
    recall(arrays.values());
    if i < arrays.major_dim() {
        Some(lane(arrays, i))
    } else {
        None
    }
}

// Returns the entry at a pair of indices, or `Zero` if none is stored. Both indices must be within bounds. Binary
// search in the lane.
pub(crate) fn index_entry<'a, T>(arrays: &CsView<'a, T>, i: usize, j: usize) -> SparseEntry<'a, T>
    requires { IsInBounds arrays.now.pattern i j }
    ensures entry { IsEntryAt arrays.now i j result }
    ensures sound { IsSound arrays.now }
{
    lane(arrays, i).index_entry(j)
}

// Returns the entry at a pair of indices, `Zero` if none is stored, or `None` if an index is out of bounds. Binary
// search in the lane.
pub(crate) fn get_entry<'a, T>(
    arrays: &CsView<'a, T>,
    i: usize,
    j: usize,
) -> Option<SparseEntry<'a, T>>
    ensures entry { IsEntryOf arrays.now i j result }
    ensures sound { IsSound arrays.now }
{
    recall(arrays.values());
    if i < arrays.major_dim() && j < arrays.minor_dim() {
        Some(index_entry(arrays, i, j))
    } else {
        None
    }
}

// Returns a matrix with copies of the arrays. The copies are not checked again.
pub(crate) fn to_matrix<T: Copy>(
    arrays: &CsView<'_, T>,
    alloc: Global,
) -> Result<CsMatrix<T>, AllocError>
    ensures { IfOk result (λ m. m ≡ arrays.now) }
{
    let offsets = Vec::from_slice(alloc, arrays.offsets())?;
    let indices = Vec::from_slice(alloc, arrays.indices())?;
    let values = Vec::from_slice(alloc, arrays.values())?;
    let pattern = SparsityPattern::from_offset_and_indices_unchecked(
        arrays.major_dim(),
        arrays.minor_dim(),
        offsets,
        indices,
    );
    Ok(CsMatrix::from_pattern_and_values(pattern, values))
}

// Returns the dot product of a lane and a dense vector.
pub(crate) fn dot_lane<T: Ring>(arrays: &CsView<'_, T>, i: usize, x: &[T]) -> T
    requires lane { i < arrays.now.pattern.major_dim }
    requires fits { length x.now ≡ arrays.now.pattern.minor_dim }
    ensures product { T.value result ≡ sum_below T.ring arrays.now.pattern.minor_dim
        (λ k. T.ring.mul ((plain_of_rows T.ring T.value arrays.now).value i k)
        (elements T.ring T.value T.zero_value x.now k)) }
    ensures sound { IsSound arrays.now }
{
    let (indices, values) = arrays.lane(i);
    usdot(values, indices, x)
}
