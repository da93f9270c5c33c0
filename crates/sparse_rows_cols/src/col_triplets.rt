//! Iterators over the triplets of a CSC matrix.

ghost use Rattle.std.specs.Prelude.{◌≡◌, ⊤, map};
ghost use Rattle.std.specs.Iterator.{YieldsFirst, YieldsFirstBy, item_count};
ghost use Rattle.sparse_compressed.specs.Compressed.{transposed};
ghost use Rattle.sparse_compressed.specs.MutIterators.{triplets_left, triplet_values};
ghost use Rattle.sparse_rows_cols.specs.ColWriting.{csc_triplets_left, csc_triplet_values};

use sparse_compressed::{CsTripletIter, CsTripletIterMut, CsTripletValues};
use std::alloc::AllocError;
use std::marker::Model;

/// An iterator over the triplets (row, column, value) of a CSC matrix, column by column, rows increasing.
#[derive(Drop)]
pub struct CscTripletIter<'a, T> {
    lanes: CsTripletIter<'a, T>,
}

impl<'a, T> Model for CscTripletIter<'a, T> {
    ghost use Rattle.std.specs.Prelude.{ℕ, List, map};
    ghost use Rattle.sparse_compressed.specs.Compressed.{transposed};

    ghost Value = { List (ℕ × ℕ × T) };

    ghost view = { λ it. map transposed it.lanes };
}

impl<'a, T> CscTripletIter<'a, T> {
    /// Returns an iterator over the remaining triplets (lane, index, value), each as (row, column, value).
    ///
    /// For the crates of this library.
    #[doc(hidden)]
    pub fn from_triplets(triplets: CsTripletIter<'a, T>) -> Self
        ensures { result ≡ map transposed triplets.entry }
    {
        CscTripletIter { lanes: triplets }
    }
}

impl<'a, T> Iterator for CscTripletIter<'a, T> {
    type Item = (usize, usize, &'a T);

    ghost next_gives = { YieldsFirstBy (λ x. (x.0, x.1, x.2.now)) (λ rest. rest) };

    ghost remaining = { item_count (λ rest. rest) };

    fn next(&mut self) -> Option<(usize, usize, &'a T)> {
        match self.lanes.next() {
            Some((column, row, value)) => Some((row, column, value)),
            None => None,
        }
    }
}

impl<'a, T> Clone for CscTripletIter<'a, T> {
    ghost is_clone = { λ s t. t ≡ s };

    ghost is_infallible = { λ _. ⊤ };

    fn clone(&self) -> Result<CscTripletIter<'a, T>, AllocError> {
        Ok(CscTripletIter {
            lanes: self.lanes.clone()?,
        })
    }
}

impl<'a, T: Copy> CscTripletIter<'a, T> {
    /// Returns an iterator over the remaining triplets that yields copies of their values.
    pub fn cloned_values(self) -> CscTripletValues<'a, T>
        ensures { result ≡ self.entry }
    {
        CscTripletValues {
            lanes: self.lanes.cloned_values(),
        }
    }
}

/// An iterator over the triplets (row, column, value) of a CSC matrix that yields copies of the values.
#[derive(Drop)]
pub struct CscTripletValues<'a, T> {
    lanes: CsTripletValues<'a, T>,
}

impl<'a, T> Model for CscTripletValues<'a, T> {
    ghost use Rattle.std.specs.Prelude.{ℕ, List, map};
    ghost use Rattle.sparse_compressed.specs.Compressed.{transposed};

    ghost Value = { List (ℕ × ℕ × T) };

    ghost view = { λ it. map transposed it.lanes };
}

impl<'a, T: Copy> Iterator for CscTripletValues<'a, T> {
    type Item = (usize, usize, T);

    ghost next_gives = { YieldsFirst (λ rest. rest) };

    ghost remaining = { item_count (λ rest. rest) };

    fn next(&mut self) -> Option<(usize, usize, T)> {
        match self.lanes.next() {
            Some((column, row, value)) => Some((row, column, value)),
            None => None,
        }
    }
}

impl<'a, T> Clone for CscTripletValues<'a, T> {
    ghost is_clone = { λ s t. t ≡ s };

    ghost is_infallible = { λ _. ⊤ };

    fn clone(&self) -> Result<CscTripletValues<'a, T>, AllocError> {
        Ok(CscTripletValues {
            lanes: self.lanes.clone()?,
        })
    }
}

/// An iterator over the triplets (row, column, value) of a CSC matrix that borrows each value mutably.
#[derive(Drop)]
pub struct CscTripletIterMut<'a, T> {
    lanes: CsTripletIterMut<'a, T>,
}

impl<'a, T> CscTripletIterMut<'a, T> {
    /// Returns an iterator over the remaining triplets (lane, index, value), each as (row, column, value).
    ///
    /// For the crates of this library.
    #[doc(hidden)]
    pub fn from_triplets(triplets: CsTripletIterMut<'a, T>) -> Self
        ensures same_values { csc_triplet_values result ≡ triplet_values triplets.entry }
        ensures all { csc_triplets_left result ≡ map transposed (triplets_left triplets.entry) }
    {
        CscTripletIterMut { lanes: triplets }
    }
}

impl<'a, T> Iterator for CscTripletIterMut<'a, T> {
    type Item = (usize, usize, &'a mut T);

    ghost next_gives = { YieldsFirstBy (λ x. (x.0, x.1, x.2.now)) csc_triplets_left };

    ghost remaining = { item_count csc_triplets_left };

    fn next(&mut self) -> Option<(usize, usize, &'a mut T)> {
        let (column, row, value) = self.lanes.next()?;
        Some((row, column, value))
    }
}
