//! Lanes with values borrowed mutably, and the iterator over them.

ghost use Rattle.std.specs.Prelude.{◌≡◌, ◌<◌, take, drop};
ghost use Rattle.std.specs.Borrow.{sem};
ghost use Rattle.std.specs.Iterator.{YieldsFirstBy, item_count};
ghost use Rattle.sparse_compressed.specs.Compressed.{IsSound};
ghost use Rattle.sparse_compressed.specs.Lanes.{lane_at, lanes_of};
ghost use Rattle.sparse_compressed.specs.MutIterators.{lane_of_mut, lanes_left, lane_values};
ghost use Rattle.sparse_compressed.specs.Writing.{LendsLane, LendsValues};

use crate::CsMatrix;
use crate::lane::LaneIndices;
use sparse_pattern::pattern::SparsityPattern;
use std::mem;

/// One lane of a compressed matrix, with its values borrowed mutably.
#[derive(Drop)]
pub struct CsLaneMut<'a, T> {
    pub minor_dim: usize,
    pub indices: LaneIndices<'a>,
    pub values: &'a mut [T],
}

impl<T> CsMatrix<T> {
    /// Returns a lane with its values borrowed mutably. `major_index` must be less than the number of lanes.
    pub fn lane_mut(&mut self, major_index: usize) -> CsLaneMut<'_, T>
        requires { major_index < self.old.pattern.major_dim }
        ensures* writes_back { sem 𝓛 (LendsLane T.row self.entry major_index result.values) }
        ensures lane { lane_of_mut result ≡ lane_at self.old major_index }
        ensures sound { IsSound self.old }
    {
        let (start, end) = self.sparsity_pattern.lane_bounds(major_index);
        CsLaneMut {
            minor_dim: self.sparsity_pattern.minor_dim(),
            indices: LaneIndices::of_lane(&self.sparsity_pattern, major_index),
            values: self.values.slice_mut(start..end),
        }
    }

    /// Returns an iterator over the lanes, including those without entries, that borrows their values mutably.
    pub fn lane_iter_mut(&mut self) -> CsLaneIterMut<'_, T>
        ensures* writes_back { sem 𝓛 (LendsValues T.row self.entry (lane_values result)) }
        ensures all { lanes_left result ≡ lanes_of self.old }
        ensures sound { IsSound self.old }
    {
        CsLaneIterMut {
            pattern: &self.sparsity_pattern,
            current_lane: 0,
            values: &mut self.values,
        }
    }
}

/// An iterator over the lanes of a [`CsMatrix`], including those without entries, that borrows their values mutably.
#[derive(Drop)]
pub struct CsLaneIterMut<'a, T> {
    pattern: &'a SparsityPattern,
    current_lane: usize,
    values: &'a mut [T],
}

impl<'a, T> Iterator for CsLaneIterMut<'a, T> {
    type Item = CsLaneMut<'a, T>;

    ghost next_gives = { YieldsFirstBy lane_of_mut lanes_left };

    ghost remaining = { item_count lanes_left };

    #[tactic(auto, using(crate::proofs::MutIteratorLanes::lanes_with_next, crate::proofs::MutIteratorLanes::lanes_with_end))]
    fn next(&mut self) -> Option<CsLaneMut<'a, T>> {
        let pattern = self.pattern;
        if self.current_lane >= pattern.major_dim() {
            return None;
        }
        let indices = LaneIndices::of_lane(pattern, self.current_lane);
        let (prefix, rest) = split_prefix(mem::take(&mut self.values), indices.len());
        self.current_lane += 1;
        self.values = rest;
        Some(CsLaneMut {
            minor_dim: pattern.minor_dim(),
            indices,
            values: prefix,
        })
    }
}

// Returns the first `count` values, or all if there are fewer, and the rest.
#[tactic(auto, using(std::proofs::lemmas::List::take_min, std::proofs::lemmas::List::drop_min))]
fn split_prefix<'a, T>(values: &'a mut [T], count: usize) -> (&'a mut [T], &'a mut [T])
    ensures prefix { result.0.now ≡ take count values.old }
    ensures rest { result.1.now ≡ drop count values.old }
{
    let within = count.min(values.len());
    values.split_at_mut(within)
}
