//! Mutable borrows of the values: all of them, or the value of one entry.

ghost use Rattle.std.specs.Prelude.{◌≡◌, ◌<◌, length, slice_index_or};
ghost use Rattle.std.specs.Borrow.{sem};
ghost use Rattle.sparse_compressed.specs.StoredEntries.{IsInBounds};
ghost use Rattle.sparse_compressed.specs.Lanes.{lane_parts};
ghost use Rattle.sparse_compressed.specs.Writing.{LendsValues, LendsFound};
ghost use Rattle.sparse_compressed.specs.Writing.{LendsIndexed, LendsElement};
ghost use Rattle.sparse_compressed.specs.Writing.{IsFoundAt, IsEntryMutAt, IsMutLaneEntryOf};

use crate::CsMatrix;
use crate::lane::{LaneIndices, offset_of};
use sparse_pattern::entry::{Found, Missing, SparseEntry, SparseEntryMut};
use sparse_pattern::pattern::SparsityPattern;

impl<T> CsMatrix<T> {
    /// Returns the values, borrowed mutably.
    pub fn values_mut(&mut self) -> &mut [T]
        ensures* writes_back { sem 𝓛 (LendsValues T.row self.entry result) }
        ensures values { result.now ≡ self.old.values }
    {
        &mut self.values[..]
    }

    /// Returns the pattern, and the values borrowed mutably.
    pub fn pattern_and_values_mut(&mut self) -> (&SparsityPattern, &mut [T])
        ensures* writes_back { sem 𝓛 (LendsValues T.row self.entry result.1) }
        ensures pattern { result.0.now ≡ self.old.pattern }
        ensures values { result.1.now ≡ self.old.values }
    {
        (&self.sparsity_pattern, &mut self.values[..])
    }

    /// Returns the offsets, the indices, and the values borrowed mutably.
    pub fn cs_data_mut(&mut self) -> (&[usize], &[usize], &mut [T])
        ensures* writes_back { sem 𝓛 (LendsValues T.row self.entry result.2) }
        ensures offsets { result.0.now ≡ self.old.pattern.offsets }
        ensures indices { result.1.now ≡ self.old.pattern.indices }
        ensures values { result.2.now ≡ self.old.values }
    {
        let pattern = &self.sparsity_pattern;
        (
            pattern.major_offsets(),
            pattern.minor_indices(),
            &mut self.values[..],
        )
    }

    /// Returns the value stored at a pair of indices, borrowed mutably, or why there is none. Binary search in the
    /// lane.
    pub fn find_mut(&mut self, major_index: usize, minor_index: usize) -> Found<'_, T>
        ensures* writes_back { sem 𝓛 (LendsFound T.row self.entry major_index minor_index result) }
        ensures found { IsFoundAt self.old major_index minor_index result }
    {
        if major_index >= self.sparsity_pattern.major_dim()
            || minor_index >= self.sparsity_pattern.minor_dim()
        {
            return Found::Nothing(Missing::OutOfBounds);
        }
        match offset_of(&self.sparsity_pattern, major_index, minor_index) {
            Some(p) => Found::Value(&mut self.values[p]),
            None => Found::Nothing(Missing::NotStored),
        }
    }

    /// Returns the entry at a pair of indices, borrowed mutably, or `Zero` if none is stored. Both indices must be
    /// within bounds. Binary search in the lane.
    pub fn index_entry_mut(
        &mut self,
        major_index: usize,
        minor_index: usize,
    ) -> SparseEntryMut<'_, T>
        requires { IsInBounds self.old.pattern major_index minor_index }
        ensures* writes_back { sem 𝓛
            (LendsIndexed T.row self.entry major_index minor_index result) }
        ensures entry { IsEntryMutAt self.old major_index minor_index result }
    {
        match offset_of(&self.sparsity_pattern, major_index, minor_index) {
            Some(p) => SparseEntryMut::NonZero(&mut self.values[p]),
            None => SparseEntryMut::Zero,
        }
    }
}

/// Returns an element of a slice, borrowed mutably. `offset` must be less than the length of the slice.
pub fn element_mut<'a, T>(values: &'a mut [T], offset: usize) -> &'a mut T
    requires { offset < length values.old }
    ensures* writes_back { sem 𝓛 (LendsElement T.row values.entry offset result) }
    ensures value { result.now ≡ slice_index_or values.old offset result.now }
{
    &mut values[offset]
}

/// Returns the entry at an index of the lane with these indices and values, `Zero` if none is stored, or `None` if the
/// index is out of bounds. Binary search.
pub fn entry_in<'a, T>(
    minor_dim: usize,
    indices: &LaneIndices<'_>,
    values: &'a [T],
    minor_index: usize,
) -> Option<SparseEntry<'a, T>>
    ensures { IsMutLaneEntryOf (lane_parts minor_dim indices.now values.now) minor_index result }
{
    if minor_index >= minor_dim {
        return None;
    }
    match indices.offset_of(minor_index) {
        Some(offset) => {
            if offset < values.len() {
                Some(SparseEntry::NonZero(&values[offset]))
            } else {
                Some(SparseEntry::Zero)
            }
        }
        None => Some(SparseEntry::Zero),
    }
}
