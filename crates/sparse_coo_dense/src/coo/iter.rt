//! Iterators over triplets.

ghost use Rattle.std.specs.Prelude.{◌≡◌, ⊤};
ghost use Rattle.std.specs.Borrow.{sem};
ghost use Rattle.std.specs.Iterator.{YieldsFirstBy, item_count};
ghost use Rattle.sparse_coo_dense.specs.Coo.{IsInside};
ghost use Rattle.sparse_coo_dense.specs.CooLending.{remaining_triplets, borrowed_values, LendsTriplets};

use super::CooMatrix;
use std::alloc::AllocError;
use std::marker::Model;
use std::mem;

impl<T> CooMatrix<T> {
    /// Returns an iterator over the triplets, in the order in which they were added.
    pub fn triplet_iter(&self) -> CooTripletIter<'_, T>
        ensures all { result ≡ self.now.triplets }
        ensures inside { IsInside self.now }
    {
        CooTripletIter {
            rows: &self.row_indices,
            cols: &self.col_indices,
            values: &self.values,
        }
    }

    /// Returns an iterator over the triplets that borrows each value mutably, in the order in which they were added.
    ///
    /// Writing through the references changes the values only; shape, rows and columns are unchanged.
    ///
    /// # Examples
    ///
    /// ```rust
    /// fn values_are_doubled(alloc: Global) -> Result<bool, Fail> {
    ///     let mut matrix = CooMatrix::new(alloc, 2, 2);
    ///     matrix.push(0, 1, W64::new(5))?;
    ///     for (_, _, value) in matrix.triplet_iter_mut() {
    ///         *value = value.add(*value);
    ///     }
    ///     Ok(matrix.values() == [W64::new(10)].as_slice())
    /// }
    /// ```
    pub fn triplet_iter_mut(&mut self) -> CooTripletIterMut<'_, T>
        ensures* writes_back { sem 𝓛 (LendsTriplets T.row self.entry (borrowed_values result)) }
        ensures all { remaining_triplets result ≡ self.old.triplets }
        ensures inside { IsInside self.old }
    {
        CooTripletIterMut {
            rows: &self.row_indices,
            cols: &self.col_indices,
            values: &mut self.values,
        }
    }
}

/// An iterator over the triplets of a [`CooMatrix`], in the order in which they were added.
#[derive(Drop)]
pub struct CooTripletIter<'a, T> {
    rows: &'a [usize],
    cols: &'a [usize],
    values: &'a [T],
}

impl<'a, T> Model for CooTripletIter<'a, T> {
    ghost use Rattle.std.specs.Prelude.{◌≡◌, ℕ, List, length};
    ghost use Rattle.sparse_coo_dense.specs.Coo.{zip_triplets};

    ghost Value = { List (ℕ × ℕ × T) };

    ghost view = { λ it. zip_triplets it.rows.now it.cols.now it.values.now };

    ghost invariant = { λ it. (length it.rows.now ≡ length it.values.now)
        × (length it.cols.now ≡ length it.values.now) };
}

impl<'a, T> Iterator for CooTripletIter<'a, T> {
    type Item = (usize, usize, &'a T);

    ghost next_gives = { YieldsFirstBy (λ x. (x.0, x.1, x.2.now)) (λ rest. rest) };

    ghost remaining = { item_count (λ rest. rest) };

    fn next(&mut self) -> Option<(usize, usize, &'a T)> {
        match (
            self.rows.split_first(),
            self.cols.split_first(),
            self.values.split_first(),
        ) {
            (Some((row, rows)), Some((col, cols)), Some((value, values))) => {
                self.rows = rows;
                self.cols = cols;
                self.values = values;
                Some((*row, *col, value))
            }
            _ => None,
        }
    }
}

impl<'a, T> Clone for CooTripletIter<'a, T> {
    ghost is_clone = { λ s t. t ≡ s };

    ghost is_infallible = { λ _. ⊤ };

    fn clone(&self) -> Result<CooTripletIter<'a, T>, AllocError> {
        Ok(CooTripletIter {
            rows: self.rows,
            cols: self.cols,
            values: self.values,
        })
    }
}

/// An iterator over the triplets of a [`CooMatrix`] that borrows each value mutably, in the order in which they were
/// added.
#[derive(Drop)]
pub struct CooTripletIterMut<'a, T> {
    rows: &'a [usize],
    cols: &'a [usize],
    values: &'a mut [T],
}

impl<'a, T> Iterator for CooTripletIterMut<'a, T> {
    type Item = (usize, usize, &'a mut T);

    ghost next_gives = { YieldsFirstBy (λ x. (x.0, x.1, x.2.now)) remaining_triplets };

    ghost remaining = { item_count remaining_triplets };

    fn next(&mut self) -> Option<(usize, usize, &'a mut T)> {
        let (row, rows) = self.rows.split_first()?;
        let (col, cols) = self.cols.split_first()?;
        let (lent, values) = mem::take(&mut self.values).split_first_mut()?;
        self.rows = rows;
        self.cols = cols;
        self.values = values;
        Some((*row, *col, lent))
    }
}
