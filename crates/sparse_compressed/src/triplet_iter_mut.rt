//! The iterator over triplets that borrows values mutably.

ghost use Rattle.std.specs.Prelude.{◌≡◌};
ghost use Rattle.std.specs.Borrow.{sem};
ghost use Rattle.std.specs.Iterator.{YieldsFirstBy, item_count};
ghost use Rattle.sparse_compressed.specs.Compressed.{IsSound, lane_triplets};
ghost use Rattle.sparse_compressed.specs.MutIterators.{triplets_left, triplet_values};
ghost use Rattle.sparse_compressed.specs.Writing.{LendsValues};

use crate::CsMatrix;
use sparse_pattern::pattern::SparsityPatternIter;
use std::mem;

impl<T> CsMatrix<T> {
    /// Returns an iterator over the triplets (lane, index, value), lane by lane, indices increasing, that borrows each
    /// value mutably.
    pub fn triplet_iter_mut(&mut self) -> CsTripletIterMut<'_, T>
        ensures* writes_back { sem 𝓛 (LendsValues T.row self.entry (triplet_values result)) }
        ensures all { triplets_left result ≡ lane_triplets self.old }
        ensures sound { IsSound self.old }
    {
        CsTripletIterMut {
            entries: self.sparsity_pattern.entries(),
            values: &mut self.values,
        }
    }
}

/// An iterator over the triplets (lane, index, value) of a [`CsMatrix`] that borrows each value mutably.
#[derive(Drop)]
pub struct CsTripletIterMut<'a, T> {
    entries: SparsityPatternIter<'a>,
    values: &'a mut [T],
}

impl<'a, T> Iterator for CsTripletIterMut<'a, T> {
    type Item = (usize, usize, &'a mut T);

    ghost next_gives = { YieldsFirstBy (λ x. (x.0, x.1, x.2.now)) triplets_left };

    ghost remaining = { item_count triplets_left };

    #[tactic(auto, using(crate::proofs::MutIteratorLanes::zip_values_none))]
    fn next(&mut self) -> Option<(usize, usize, &'a mut T)> {
        let (lane, index) = self.entries.next()?;
        let (value, values) = mem::take(&mut self.values).split_first_mut()?;
        self.values = values;
        Some((lane, index, value))
    }
}
