//! The iterator over the lanes of a compressed matrix.

ghost use Rattle.std.specs.Prelude.{◌≡◌, ⊤};
ghost use Rattle.std.specs.Iterator.{YieldsFirst, item_count};
ghost use Rattle.sparse_compressed.specs.Compressed.{IsSound};
ghost use Rattle.sparse_compressed.specs.Lanes.{lanes_of};

use crate::CsMatrix;
use crate::lane::CsLane;
use std::alloc::AllocError;
use std::marker::Model;

impl<T> CsMatrix<T> {
    /// Returns an iterator over the lanes, including those without entries.
    pub fn lane_iter(&self) -> CsLaneIter<'_, T>
        ensures all { result ≡ lanes_of self.now }
        ensures sound { IsSound self.now }
    {
        // Reads a field, which tells the prover that the matrix is sound.
        let _ = &self.values;
        CsLaneIter {
            matrix: self,
            current_lane: 0,
        }
    }
}

/// An iterator over the lanes of a [`CsMatrix`], including those without entries.
#[derive(Drop)]
pub struct CsLaneIter<'a, T> {
    matrix: &'a CsMatrix<T>,
    current_lane: usize,
}

impl<'a, T> Model for CsLaneIter<'a, T> {
    ghost use Rattle.std.specs.Prelude.{◌-◌, List};
    ghost use Rattle.std.specs.Coded.{coded_list};
    ghost use Rattle.sparse_compressed.specs.Lanes.{Lane, lane_code, lanes_from};

    ghost Value = { List (Lane T) };

    ghost coded = { coded_list (lane_code T.code) };

    ghost view = { λ it. lanes_from it.matrix.now it.current_lane
        (it.matrix.now.pattern.major_dim - it.current_lane) };
}

impl<'a, T> Iterator for CsLaneIter<'a, T> {
    type Item = CsLane<'a, T>;

    ghost next_gives = { YieldsFirst (λ rest. rest) };

    ghost remaining = { item_count (λ rest. rest) };

    #[tactic(auto, using(crate::proofs::NextLane::next_lane, crate::proofs::NextLane::no_lane))]
    fn next(&mut self) -> Option<CsLane<'a, T>> {
        let matrix = self.matrix;
        if self.current_lane >= matrix.pattern().major_dim() {
            return None;
        }
        let lane = matrix.lane(self.current_lane);
        self.current_lane += 1;
        Some(lane)
    }
}

impl<'a, T> Clone for CsLaneIter<'a, T> {
    ghost is_clone = { λ s t. t ≡ s };

    ghost is_infallible = { λ _. ⊤ };

    fn clone(&self) -> Result<CsLaneIter<'a, T>, AllocError> {
        Ok(CsLaneIter {
            matrix: self.matrix,
            current_lane: self.current_lane,
        })
    }
}
