//! Compressed matrices of sorted lanes, where entries with the same index are added.

ghost use Rattle.std.specs.Prelude.{◌≡◌, ℕ, ◌+◌, ◌-◌, ◌<◌, ◌≤◌, List, [], ◌∷◌, ◌++◌, All, IfOk};
ghost use Rattle.std.specs.Prelude.{true, length, slice_index, vec_len, vec_capacity};
ghost use Rattle.std.specs.Bool.{OnTrue};
ghost use Rattle.std.specs.List.Sorted.{IsNonDecreasingBy};
ghost use Rattle.sparse_convert.specs.InnerTripletLanes.{AreOffsets, entries_of_lane};
ghost use Rattle.sparse_convert.specs.InnerTripletLanes.{plain_of_lanes, Represents};
ghost use Rattle.sparse_convert.specs.InnerMerged.{AreMerged, KeepsFirst};

use sparse_algebra::scalar::Ring;
use sparse_compressed::CsMatrix;
use sparse_pattern::pattern::SparsityPattern;
use std::alloc::{AllocError, Global};

/// Appends an entry to the lane that begins at `start`, or adds its value to the last entry if the indices are the
/// same. Returns false if the index is smaller than that of the last entry.
#[inline]
pub(crate) fn push_entry<T: Ring>(
    start: usize,
    index: usize,
    value: T,
    indices: &mut Vec<usize>,
    values: &mut Vec<T>,
) -> bool
    requires start { start ≤ vec_len indices.old }
    requires sizes { vec_len values.old ≡ vec_len indices.old }
    requires index_room { vec_len indices.old < vec_capacity indices.old }
    requires value_room { vec_len values.old < vec_capacity values.old }
    ensures accepted { (start < vec_len indices.old
        → slice_index indices.old.items (vec_len indices.old - 1) ≤ index) → result ≡ true }
    ensures merged { OnTrue result ((lane : List (ℕ × T))
        → AreMerged T.ring T.value T.zero_value lane indices.old.items values.old.items start
        (length indices.old.items)
        → AreMerged T.ring T.value T.zero_value (lane ++ (index, value) ∷ []) indices.new.items
        values.new.items start (length indices.new.items)) }
    ensures longer { vec_len indices.old ≤ vec_len indices.new }
    ensures grown { vec_len indices.new ≤ vec_len indices.old + 1 }
    ensures sizes { vec_len values.new ≡ vec_len indices.new }
    ensures kept_indices { KeepsFirst 0 start indices.old.items indices.new.items }
    ensures kept_values { KeepsFirst T.zero_value start values.old.items values.new.items }
    ensures index_room { vec_capacity indices.new ≡ vec_capacity indices.old }
    ensures value_room { vec_capacity values.new ≡ vec_capacity values.old }
{
    let end = indices.len();
    if start < end {
        let last = indices[end - 1];
        if index < last {
            return false;
        }
        if index == last {
            values[end - 1] = values[end - 1].add(value);
            return true;
        }
    }
    indices.push_reserved(index);
    values.push_reserved(value);
    true
}

// Appends a sorted lane to the arrays, whose capacity suffices. Entries with the same index are added.
fn merge_lane<T: Ring>(lane: &[(usize, T)], indices: &mut Vec<usize>, values: &mut Vec<T>)
    requires sorted { IsNonDecreasingBy (λ e. e.0) lane.now }
    requires sizes { vec_len values.old ≡ vec_len indices.old }
    requires index_room { vec_len indices.old + length lane.now ≤ vec_capacity indices.old }
    requires value_room { vec_len values.old + length lane.now ≤ vec_capacity values.old }
    ensures merged { AreMerged T.ring T.value T.zero_value lane.now indices.new.items
        values.new.items (length indices.old.items) (length indices.new.items) }
    ensures grown { (vec_len indices.old ≤ vec_len indices.new)
        × (vec_len indices.new ≤ vec_len indices.old + length lane.now) }
    ensures sizes { vec_len values.new ≡ vec_len indices.new }
    ensures kept_indices { KeepsFirst 0 (vec_len indices.old) indices.old.items indices.new.items }
    ensures kept_values { KeepsFirst T.zero_value (vec_len indices.old) values.old.items
        values.new.items }
    ensures capacities { (vec_capacity indices.new ≡ vec_capacity indices.old)
        × (vec_capacity values.new ≡ vec_capacity values.old) }
{
    let start = indices.len();
    for &(index, value) in lane {
        // Always true: the lane is sorted.
        push_entry(start, index, value, indices, values);
    }
}

/// Returns the matrix of lanes of entries that are sorted by index. Entries with the same index are added.
#[tactic(auto, using(sparse_algebra::proofs::EarlyReturns::early_return))]
pub(crate) fn merge_lanes<T: Ring>(
    alloc: Global,
    minor_dim: usize,
    offsets: &[usize],
    entries: &[(usize, T)],
) -> Result<CsMatrix<T>, AllocError>
    requires offsets { AreOffsets (length offsets.now - 1) (length entries.now) offsets.now }
    requires sorted { (i : ℕ)
        → IsNonDecreasingBy (λ e. e.0) (entries_of_lane offsets.now entries.now i) }
    requires below { (i : ℕ)
        → All (λ e. e.0 < minor_dim) (entries_of_lane offsets.now entries.now i) }
    ensures { IfOk result (Represents T.ring T.value (plain_of_lanes T.ring T.value
        (length offsets.now - 1) minor_dim offsets.now entries.now)) }
{
    let major_dim = offsets.len() - 1;
    let mut starts = Vec::with_capacity(alloc, offsets.len())?;
    let mut indices = Vec::with_capacity(alloc, entries.len())?;
    let mut values = Vec::with_capacity(alloc, entries.len())?;
    starts.push_reserved(0);
    for lane in 0..major_dim {
        let (start, end) = (offsets[lane], offsets[lane + 1]);
        merge_lane(&entries[start..end], &mut indices, &mut values);
        starts.push_reserved(indices.len());
    }
    let pattern = SparsityPattern::from_offset_and_indices_unchecked(
        major_dim, minor_dim, starts, indices,
    );
    Ok(CsMatrix::from_pattern_and_values(pattern, values))
}
