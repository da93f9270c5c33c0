//! Copies of the iterators over triplets, and the iterator over triplets with copied values.

ghost use Rattle.std.specs.Prelude.{◌≡◌, ⊤};
ghost use Rattle.std.specs.Iterator.{YieldsFirst, item_count};

use crate::CsTripletIter;
use std::alloc::AllocError;
use std::marker::Model;

impl<'a, T> Clone for CsTripletIter<'a, T> {
    ghost is_clone = { λ s t. t ≡ s };

    ghost is_infallible = { λ _. ⊤ };

    fn clone(&self) -> Result<CsTripletIter<'a, T>, AllocError> {
        Ok(CsTripletIter {
            entries: self.entries.clone()?,
            values: self.values,
        })
    }
}

impl<'a, T: Copy> CsTripletIter<'a, T> {
    /// Returns an iterator over the remaining triplets that yields copies of their values.
    pub fn cloned_values(self) -> CsTripletValues<'a, T>
        ensures { result ≡ self.entry }
    {
        CsTripletValues { triplets: self }
    }
}

/// An iterator over the triplets (lane, index, value) of a [`CsMatrix`] that yields copies of the values.
#[derive(Drop)]
pub struct CsTripletValues<'a, T> {
    triplets: CsTripletIter<'a, T>,
}

impl<'a, T> Model for CsTripletValues<'a, T> {
    ghost use Rattle.std.specs.Prelude.{ℕ, List};

    ghost Value = { List (ℕ × ℕ × T) };

    ghost view = { λ it. it.triplets };
}

impl<'a, T: Copy> Iterator for CsTripletValues<'a, T> {
    type Item = (usize, usize, T);

    ghost next_gives = { YieldsFirst (λ rest. rest) };

    ghost remaining = { item_count (λ rest. rest) };

    fn next(&mut self) -> Option<(usize, usize, T)> {
        let (lane, index, value) = self.triplets.next()?;
        Some((lane, index, *value))
    }
}

impl<'a, T> Clone for CsTripletValues<'a, T> {
    ghost is_clone = { λ s t. t ≡ s };

    ghost is_infallible = { λ _. ⊤ };

    fn clone(&self) -> Result<CsTripletValues<'a, T>, AllocError> {
        Ok(CsTripletValues {
            triplets: self.triplets.clone()?,
        })
    }
}
