//! The iterator over the entries of a pattern.

ghost use Rattle.std.specs.Prelude.{◌≡◌, ℕ, ◌↔◌, ⊤, length, Contains, AllPairs};
ghost use Rattle.std.specs.Iterator.{YieldsFirst, item_count};
ghost use Rattle.sparse_pattern.specs.Raw.{IsEntry, Precedes, entries_of};

use super::SparsityPattern;
use std::alloc::AllocError;
use std::marker::Model;

impl SparsityPattern {
    /// Returns an iterator over the entries (lane, minor index), lane by lane, minor indices increasing.
    pub fn entries(&self) -> SparsityPatternIter<'_>
        ensures all { result ≡ entries_of self.now }
        ensures count { length result ≡ length self.now.indices }
        ensures entries { (i j : ℕ) → Contains result (i, j) ↔ IsEntry self.now i j }
        ensures rising { AllPairs Precedes result }
    {
        let remaining: &[usize] = if self.major_offsets.len() > 1 {
            &self.minor_indices[self.major_offsets[0]..self.major_offsets[1]]
        } else {
            &[]
        };
        SparsityPatternIter {
            major_offsets: &self.major_offsets,
            minor_indices: &self.minor_indices,
            current_lane: 0,
            remaining,
        }
    }
}

/// An iterator over the entries of a [`SparsityPattern`], lane by lane, minor indices increasing.
#[derive(Drop)]
pub struct SparsityPatternIter<'a> {
    major_offsets: &'a [usize],
    minor_indices: &'a [usize],
    current_lane: usize,
    remaining: &'a [usize],
}

impl<'a> Model for SparsityPatternIter<'a> {
    ghost use Rattle.std.specs.Prelude.{ℕ, List};
    ghost use Rattle.sparse_pattern.specs.Rest.{rest_of, IsOrderedOffsets};

    ghost Value = { List (ℕ × ℕ) };

    ghost view = { λ it. rest_of it.major_offsets.now it.minor_indices.now it.current_lane
        it.remaining.now };

    ghost invariant = { λ it. IsOrderedOffsets it.major_offsets.now it.minor_indices.now };
}

impl<'a> Iterator for SparsityPatternIter<'a> {
    type Item = (usize, usize);

    ghost next_gives = { YieldsFirst (λ rest. rest) };

    ghost remaining = { item_count (λ rest. rest) };

    fn next(&mut self) -> Option<(usize, usize)> {
        let (offsets, indices) = (self.major_offsets, self.minor_indices);
        let mut lane = self.current_lane;
        let mut left = self.remaining;
        while left.is_empty() && offsets.len().saturating_sub(lane) > 2 {
            lane += 1;
            left = &indices[offsets[lane]..offsets[lane + 1]];
        }
        self.current_lane = lane;
        match left.split_first() {
            Some((first, others)) => {
                self.remaining = others;
                Some((lane, *first))
            }
            None => {
                self.remaining = left;
                None
            }
        }
    }
}

impl<'a> Clone for SparsityPatternIter<'a> {
    ghost is_clone = { λ s t. t ≡ s };

    ghost is_infallible = { λ _. ⊤ };

    fn clone(&self) -> Result<SparsityPatternIter<'a>, AllocError> {
        Ok(SparsityPatternIter {
            major_offsets: self.major_offsets,
            minor_indices: self.minor_indices,
            current_lane: self.current_lane,
            remaining: self.remaining,
        })
    }
}
