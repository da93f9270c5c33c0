//! Lanes and entries of a compressed matrix.

ghost use Rattle.std.specs.Prelude.{◌≡◌, ◌<◌, ◌↔◌, IfSome, IsSome};
ghost use Rattle.sparse_compressed.specs.Compressed.{IsSound};
ghost use Rattle.sparse_compressed.specs.StoredEntries.{IsEntryAt, IsEntryOf, IsInBounds};
ghost use Rattle.sparse_compressed.specs.Lanes.{lane_at};

use crate::CsMatrix;
use crate::lane::{CsLane, LaneIndices};
use sparse_pattern::entry::SparseEntry;

impl<T> CsMatrix<T> {
    /// Returns the offsets, the indices and the values.
    pub fn cs_data(&self) -> (&[usize], &[usize], &[T])
        ensures offsets { result.0.now ≡ self.now.pattern.offsets }
        ensures indices { result.1.now ≡ self.now.pattern.indices }
        ensures values { result.2.now ≡ self.now.values }
        ensures sound { IsSound self.now }
    {
        let pattern = self.pattern();
        (
            pattern.major_offsets(),
            pattern.minor_indices(),
            self.values(),
        )
    }

    /// Returns a lane. `major_index` must be less than the number of lanes.
    pub fn lane(&self, major_index: usize) -> CsLane<'_, T>
        requires { major_index < self.now.pattern.major_dim }
        ensures { result ≡ lane_at self.now major_index }
    {
        let pattern = self.pattern();
        let (begin, end) = pattern.lane_bounds(major_index);
        CsLane::new(
            pattern.minor_dim(),
            LaneIndices::of_lane(pattern, major_index),
            &self.values()[begin..end],
        )
    }

    /// Returns a lane, or `None` if `major_index` is out of bounds.
    pub fn get_lane(&self, major_index: usize) -> Option<CsLane<'_, T>>
        ensures bounds { IsSome result ↔ (major_index < self.now.pattern.major_dim) }
        ensures lane { IfSome result (λ lane. lane ≡ lane_at self.now major_index) }
    {
        if major_index < self.pattern().major_dim() {
            Some(self.lane(major_index))
        } else {
            None
        }
    }

    /// Returns the entry at a pair of indices, or `Zero` if none is stored. Both indices must be within bounds. Binary
    /// search in the lane.
    pub fn index_entry(&self, major_index: usize, minor_index: usize) -> SparseEntry<'_, T>
        requires { IsInBounds self.now.pattern major_index minor_index }
        ensures { IsEntryAt self.now major_index minor_index result }
    {
        self.lane(major_index).index_entry(minor_index)
    }

    /// Returns the entry at a pair of indices, `Zero` if none is stored, or `None` if an index is out of bounds. Binary
    /// search in the lane.
    pub fn get_entry(&self, major_index: usize, minor_index: usize) -> Option<SparseEntry<'_, T>>
        ensures { IsEntryOf self.now major_index minor_index result }
    {
        let pattern = self.pattern();
        if major_index < pattern.major_dim() && minor_index < pattern.minor_dim() {
            Some(self.index_entry(major_index, minor_index))
        } else {
            None
        }
    }
}
