//! One lane of a compressed matrix.

ghost use Rattle.std.specs.Prelude.{◌≡◌, ◌<◌, ◌==◌, ⊤, length, position, IfSome};
ghost use Rattle.std.specs.List.Sorted.{IsStrictlyIncreasing};
ghost use Rattle.sparse_pattern.specs.Raw.{lane_of};
ghost use Rattle.sparse_compressed.specs.StoredEntries.{find_offset};
ghost use Rattle.sparse_compressed.specs.Lanes.{IsLaneEntryAt, IsLaneEntryOf};
ghost use Rattle.sparse_compressed.specs.Lanes.{IsSoundLane, lane_parts};

use sparse_algebra::recall;
use sparse_pattern::entry::SparseEntry;
use sparse_pattern::pattern::SparsityPattern;
use std::alloc::AllocError;
use std::fmt::{self, Debug, Formatter, Write};
use std::marker::Model;

/// The minor indices of a lane, strictly increasing.
#[derive(Drop)]
pub struct LaneIndices<'a> {
    indices: &'a [usize],
}

impl<'a> Model for LaneIndices<'a> {
    ghost use Rattle.std.specs.Prelude.{ℕ, List};
    ghost use Rattle.std.specs.List.Sorted.{IsStrictlyIncreasing};

    ghost Value = { List ℕ };

    ghost view = { λ lane. lane.indices.now };

    ghost invariant = { λ lane. IsStrictlyIncreasing lane.indices.now };
}

impl<'a> LaneIndices<'a> {
    /// Returns the indices as those of a lane. They must be strictly increasing.
    pub fn new(indices: &'a [usize]) -> Self
        requires { IsStrictlyIncreasing indices.now }
        ensures { result ≡ indices.now }
    {
        LaneIndices { indices }
    }

    /// Returns the minor indices of a lane of a pattern. `major_index` must be within bounds.
    pub fn of_lane(pattern: &'a SparsityPattern, major_index: usize) -> Self
        requires { major_index < pattern.now.major_dim }
        ensures { result ≡ lane_of pattern.now major_index }
    {
        recall(pattern.major_offsets());
        LaneIndices::new(pattern.lane(major_index))
    }

    /// Returns the indices as a slice.
    pub fn as_slice(&self) -> &'a [usize]
        ensures indices { result.now ≡ self.now }
        ensures rising { IsStrictlyIncreasing self.now }
    {
        self.indices
    }

    /// Returns the number of indices.
    pub fn len(&self) -> usize
        ensures { result ≡ length self.now }
    {
        self.indices.len()
    }

    /// Returns the offset of `minor_index` from the start of the lane, or `None` if it is not stored. Binary search.
    pub fn offset_of(&self, minor_index: usize) -> Option<usize>
        ensures offset { result ≡ position (λ x. x == minor_index) self.now }
        ensures within { IfSome result (λ at. at < length self.now) }
    {
        self.indices.binary_search(&minor_index).ok()
    }
}

/// Returns the offset of the entry at (lane, index) in the arrays of a pattern, or `None` if it is not stored. Binary
/// search in the lane.
///
/// `lane` must be within bounds.
pub fn offset_of(pattern: &SparsityPattern, lane: usize, index: usize) -> Option<usize>
    requires { lane < pattern.now.major_dim }
    ensures offset { result ≡ find_offset pattern.now lane index }
    ensures within { IfSome result (λ p. p < length pattern.now.indices) }
{
    let (start, _) = pattern.lane_bounds(lane);
    match LaneIndices::of_lane(pattern, lane).offset_of(index) {
        Some(at) => Some(start + at),
        None => None,
    }
}

impl<'a> Clone for LaneIndices<'a> {
    ghost is_clone = { λ s t. t ≡ s };

    ghost is_infallible = { λ _. ⊤ };

    fn clone(&self) -> Result<LaneIndices<'a>, AllocError> {
        Ok(LaneIndices {
            indices: self.indices,
        })
    }
}

impl<'a> Debug for LaneIndices<'a> {
    fn fmt<W: Write>(&self, f: &mut Formatter<W>) -> fmt::Result {
        Debug::fmt(&self.indices, f)
    }
}

/// One lane of a compressed matrix: the indices of its entries, and their values.
#[derive(Debug, Drop)]
pub struct CsLane<'a, T> {
    minor_dim: usize,
    minor_indices: LaneIndices<'a>,
    values: &'a [T],
}

impl<'a, T> Model for CsLane<'a, T> {
    ghost use Rattle.sparse_compressed.specs.Lanes.{Lane, lane_code, lane_parts, IsSoundLane};

    ghost Value = { Lane T };

    ghost coded = { lane_code T.code };

    ghost view = { λ lane. lane_parts lane.minor_dim lane.minor_indices lane.values.now };

    ghost invariant = { λ lane. IsSoundLane
        (lane_parts lane.minor_dim lane.minor_indices lane.values.now) };
}

impl<'a, T> CsLane<'a, T> {
    /// Returns the lane with these indices and values. There must be one value for each index, and each index must be
    /// less than `minor_dim`.
    pub fn new(minor_dim: usize, minor_indices: LaneIndices<'a>, values: &'a [T]) -> Self
        requires { IsSoundLane (lane_parts minor_dim minor_indices values.now) }
        ensures { result ≡ lane_parts minor_dim minor_indices.entry values.now }
    {
        CsLane {
            minor_dim,
            minor_indices,
            values,
        }
    }

    /// Returns the number of possible minor indices.
    pub fn minor_dim(&self) -> usize
        ensures { result ≡ self.now.minor_dim }
    {
        self.minor_dim
    }

    /// Returns the number of entries, including those whose value is zero.
    pub fn nnz(&self) -> usize
        ensures { result ≡ length self.now.indices }
    {
        self.minor_indices.len()
    }

    /// Returns the indices of the entries, strictly increasing.
    pub fn minor_indices(&self) -> &'a [usize]
        ensures indices { result.now ≡ self.now.indices }
        ensures sound { IsSoundLane self.now }
    {
        self.minor_indices.as_slice()
    }

    /// Returns the values of the entries, in the order of their indices.
    pub fn values(&self) -> &'a [T]
        ensures values { result.now ≡ self.now.values }
        ensures sound { IsSoundLane self.now }
    {
        self.values
    }

    /// Returns the entry at an index, `Zero` if none is stored, or `None` if the index is out of bounds. Binary search.
    pub fn get_entry(&self, minor_index: usize) -> Option<SparseEntry<'a, T>>
        ensures { IsLaneEntryOf self.now minor_index result }
    {
        if minor_index < self.minor_dim {
            Some(self.index_entry(minor_index))
        } else {
            None
        }
    }

    /// Returns the entry at an index, or `Zero` if none is stored. The index must be within bounds. Binary search.
    pub fn index_entry(&self, minor_index: usize) -> SparseEntry<'a, T>
        requires { minor_index < self.now.minor_dim }
        ensures { IsLaneEntryAt self.now minor_index result }
    {
        match self.minor_indices.offset_of(minor_index) {
            Some(at) => SparseEntry::NonZero(&self.values[at]),
            None => SparseEntry::Zero,
        }
    }
}

impl<'a, T> Clone for CsLane<'a, T> {
    ghost is_clone = { λ s t. t ≡ s };

    ghost is_infallible = { λ _. ⊤ };

    fn clone(&self) -> Result<CsLane<'a, T>, AllocError> {
        Ok(CsLane {
            minor_dim: self.minor_dim,
            minor_indices: self.minor_indices.clone()?,
            values: self.values,
        })
    }
}

impl<'a, T: PartialEq> PartialEq for CsLane<'a, T> {
    ghost use Rattle.sparse_compressed.specs.Lanes.{lane_eq};
    ghost use Rattle.sparse_compressed.specs.LaneEquality.{lane_eq-laws};

    ghost eq = { lane_eq T.eq };

    ghost laws = { lane_eq-laws T.laws };

    fn eq(&self, other: &Self) -> bool {
        self.minor_dim == other.minor_dim
            && self.minor_indices() == other.minor_indices()
            && self.values == other.values
    }
}

impl<'a, T: Eq> Eq for CsLane<'a, T> {
    ghost use Rattle.sparse_compressed.specs.LaneEquality.{lane_eq-equiv};

    ghost laws = { lane_eq-equiv T.Eq.laws };
}
