//! Iterators over the triplets of a CSR matrix.

ghost use Rattle.std.specs.Prelude.{◌≡◌, ⊤};
ghost use Rattle.std.specs.Iterator.{YieldsFirst, YieldsFirstBy, item_count};
ghost use Rattle.sparse_compressed.specs.MutIterators.{triplets_left, triplet_values};
ghost use Rattle.sparse_rows_cols.specs.RowWriting.{csr_triplets_left, csr_triplet_values};

use sparse_compressed::{CsTripletIter, CsTripletIterMut, CsTripletValues};
use std::alloc::AllocError;
use std::marker::Model;

/// An iterator over the triplets (row, column, value) of a CSR matrix, row by row, columns increasing.
#[derive(Drop)]
pub struct CsrTripletIter<'a, T> {
    lanes: CsTripletIter<'a, T>,
}

impl<'a, T> Model for CsrTripletIter<'a, T> {
    ghost use Rattle.std.specs.Prelude.{ℕ, List};

    ghost Value = { List (ℕ × ℕ × T) };

    ghost view = { λ it. it.lanes };
}

impl<'a, T> CsrTripletIter<'a, T> {
    /// Returns an iterator over the remaining triplets (lane, index, value), each as (row, column, value).
    ///
    /// For the crates of this library.
    #[doc(hidden)]
    pub fn from_triplets(triplets: CsTripletIter<'a, T>) -> Self
        ensures { result ≡ triplets.entry }
    {
        CsrTripletIter { lanes: triplets }
    }
}

impl<'a, T> Iterator for CsrTripletIter<'a, T> {
    type Item = (usize, usize, &'a T);

    ghost next_gives = { YieldsFirstBy (λ x. (x.0, x.1, x.2.now)) (λ rest. rest) };

    ghost remaining = { item_count (λ rest. rest) };

    fn next(&mut self) -> Option<(usize, usize, &'a T)> {
        self.lanes.next()
    }
}

impl<'a, T> Clone for CsrTripletIter<'a, T> {
    ghost is_clone = { λ s t. t ≡ s };

    ghost is_infallible = { λ _. ⊤ };

    fn clone(&self) -> Result<CsrTripletIter<'a, T>, AllocError> {
        Ok(CsrTripletIter {
            lanes: self.lanes.clone()?,
        })
    }
}

impl<'a, T: Copy> CsrTripletIter<'a, T> {
    /// Returns an iterator over the remaining triplets that yields copies of their values.
    pub fn cloned_values(self) -> CsrTripletValues<'a, T>
        ensures { result ≡ self.entry }
    {
        CsrTripletValues {
            lanes: self.lanes.cloned_values(),
        }
    }
}

/// An iterator over the triplets (row, column, value) of a CSR matrix that yields copies of the values.
#[derive(Drop)]
pub struct CsrTripletValues<'a, T> {
    lanes: CsTripletValues<'a, T>,
}

impl<'a, T> Model for CsrTripletValues<'a, T> {
    ghost use Rattle.std.specs.Prelude.{ℕ, List};

    ghost Value = { List (ℕ × ℕ × T) };

    ghost view = { λ it. it.lanes };
}

impl<'a, T: Copy> Iterator for CsrTripletValues<'a, T> {
    type Item = (usize, usize, T);

    ghost next_gives = { YieldsFirst (λ rest. rest) };

    ghost remaining = { item_count (λ rest. rest) };

    fn next(&mut self) -> Option<(usize, usize, T)> {
        self.lanes.next()
    }
}

impl<'a, T> Clone for CsrTripletValues<'a, T> {
    ghost is_clone = { λ s t. t ≡ s };

    ghost is_infallible = { λ _. ⊤ };

    fn clone(&self) -> Result<CsrTripletValues<'a, T>, AllocError> {
        Ok(CsrTripletValues {
            lanes: self.lanes.clone()?,
        })
    }
}

/// An iterator over the triplets (row, column, value) of a CSR matrix that borrows each value mutably.
#[derive(Drop)]
pub struct CsrTripletIterMut<'a, T> {
    lanes: CsTripletIterMut<'a, T>,
}

impl<'a, T> CsrTripletIterMut<'a, T> {
    /// Returns an iterator over the remaining triplets (lane, index, value), each as (row, column, value).
    ///
    /// For the crates of this library.
    #[doc(hidden)]
    pub fn from_triplets(triplets: CsTripletIterMut<'a, T>) -> Self
        ensures same_values { csr_triplet_values result ≡ triplet_values triplets.entry }
        ensures all { csr_triplets_left result ≡ triplets_left triplets.entry }
    {
        CsrTripletIterMut { lanes: triplets }
    }
}

impl<'a, T> Iterator for CsrTripletIterMut<'a, T> {
    type Item = (usize, usize, &'a mut T);

    ghost next_gives = { YieldsFirstBy (λ x. (x.0, x.1, x.2.now)) csr_triplets_left };

    ghost remaining = { item_count csr_triplets_left };

    fn next(&mut self) -> Option<(usize, usize, &'a mut T)> {
        self.lanes.next()
    }
}
