//! The storage shared by CSR and CSC matrices.
#![tactic(auto)]

ghost use Rattle.std.specs.Prelude.{◌≡◌, IfOk, length};
ghost use Rattle.std.specs.Iterator.{YieldsFirstBy, item_count};
ghost use Rattle.sparse_compressed.specs.Compressed.{compressed_of, IsSound, lane_triplets};

mod entries;
mod filter;
mod lane;
mod lane_iter;
mod lane_iter_mut;
pub mod laws;
pub mod scaling;
mod sorted;
mod transpose;
mod triplet_iter_mut;
mod triplets;
mod unsorted;
mod view;
pub mod writing;
mod zeros_identity;

pub use lane::{CsLane, LaneIndices, offset_of};
pub use lane_iter::CsLaneIter;
pub use lane_iter_mut::{CsLaneIterMut, CsLaneMut};
pub use sorted::SortedFault;
use sparse_algebra::recall;
use sparse_pattern::pattern::{SparsityPattern, SparsityPatternIter};
use std::alloc::{AllocError, Global};
use std::marker::Model;
pub use triplet_iter_mut::CsTripletIterMut;
pub use triplets::CsTripletValues;
pub use view::CsView;

/// A compressed matrix: a sparsity pattern, and one value for each of its entries. The lanes are the rows of a CSR
/// matrix or the columns of a CSC matrix.
#[derive(Debug, Drop)]
pub struct CsMatrix<T> {
    sparsity_pattern: SparsityPattern,
    values: Vec<T>,
}

impl<T> Model for CsMatrix<T> {
    ghost use Rattle.sparse_compressed.specs.Compressed.{Compressed, compressed_code};
    ghost use Rattle.sparse_compressed.specs.Compressed.{compressed_of};

    ghost Value = { Compressed T };

    ghost coded = { compressed_code T.code };

    ghost use Rattle.sparse_compressed.specs.Compressed.{IsSound};

    ghost view = { λ m. compressed_of m.sparsity_pattern m.values.items };

    ghost invariant = { λ m. IsSound (compressed_of m.sparsity_pattern m.values.items) };
}

impl<T> CsMatrix<T> {
    /// Returns the matrix of a pattern and its values. There must be one value for each entry of the pattern.
    pub fn from_pattern_and_values(pattern: SparsityPattern, values: Vec<T>) -> Self
        requires { length values.items ≡ length pattern.indices }
        ensures is { result ≡ compressed_of pattern values.items }
        ensures sound { IsSound result }
    {
        recall(pattern.major_offsets());
        CsMatrix {
            sparsity_pattern: pattern,
            values,
        }
    }

    /// Returns the offsets, the indices and the values, and consumes the matrix.
    pub fn disassemble(self) -> (Vec<usize>, Vec<usize>, Vec<T>)
        ensures offsets { result.0.items ≡ self.pattern.offsets }
        ensures indices { result.1.items ≡ self.pattern.indices }
        ensures values { result.2.items ≡ self.values }
        ensures sound { IsSound self }
    {
        let (pattern, values) = self.into_pattern_and_values();
        let (major_offsets, minor_indices) = pattern.disassemble();
        (major_offsets, minor_indices, values)
    }

    /// Returns the pattern and the values, and consumes the matrix.
    pub fn into_pattern_and_values(self) -> (SparsityPattern, Vec<T>)
        ensures pattern { result.0 ≡ self.pattern }
        ensures values { result.1.items ≡ self.values }
        ensures sound { IsSound self }
    {
        let CsMatrix {
            sparsity_pattern,
            values,
        } = self;
        (sparsity_pattern, values)
    }

    /// Returns the pattern.
    pub fn pattern(&self) -> &SparsityPattern
        ensures pattern { result.now ≡ self.now.pattern }
        ensures sound { IsSound self.now }
    {
        &self.sparsity_pattern
    }

    /// Returns the values, lane by lane.
    pub fn values(&self) -> &[T]
        ensures values { result.now ≡ self.now.values }
        ensures sound { IsSound self.now }
    {
        &self.values
    }

    /// Returns an iterator over the triplets (lane, index, value), lane by lane, indices increasing.
    pub fn triplet_iter(&self) -> CsTripletIter<'_, T>
        ensures all { result ≡ lane_triplets self.now }
        ensures sound { IsSound self.now }
    {
        CsTripletIter {
            entries: self.sparsity_pattern.entries(),
            values: &self.values,
        }
    }
}

impl<T: Copy> CsMatrix<T> {
    /// Returns a copy. Fails only if an allocation fails.
    pub fn clone(&self, alloc: Global) -> Result<Self, AllocError>
        ensures { IfOk result (λ m. m ≡ self.now) }
    {
        Ok(CsMatrix {
            sparsity_pattern: self.sparsity_pattern.clone(alloc)?,
            values: Vec::from_slice(alloc, &self.values)?,
        })
    }
}

impl<T: PartialEq> PartialEq for CsMatrix<T> {
    ghost use Rattle.sparse_compressed.specs.Compressed.{compressed_eq};
    ghost use Rattle.sparse_compressed.specs.Laws.{compressed_eq-laws};

    ghost eq = { compressed_eq T.eq };

    ghost laws = { compressed_eq-laws T.laws };

    fn eq(&self, other: &Self) -> bool {
        self.sparsity_pattern == other.sparsity_pattern && self.values == other.values
    }
}

impl<T: Eq> Eq for CsMatrix<T> {
    ghost use Rattle.sparse_compressed.specs.Laws.{compressed_eq-equiv};

    ghost laws = { compressed_eq-equiv T.Eq.laws };
}

/// An iterator over the triplets (lane, index, value) of a [`CsMatrix`], lane by lane, indices increasing.
#[derive(Drop)]
pub struct CsTripletIter<'a, T> {
    entries: SparsityPatternIter<'a>,
    values: &'a [T],
}

impl<'a, T> Model for CsTripletIter<'a, T> {
    ghost use Rattle.std.specs.Prelude.{◌≡◌, ℕ, List, length};
    ghost use Rattle.sparse_compressed.specs.Compressed.{zip_values};

    ghost Value = { List (ℕ × ℕ × T) };

    ghost view = { λ it. zip_values it.entries it.values.now };

    ghost invariant = { λ it. length it.entries ≡ length it.values.now };
}

impl<'a, T> Iterator for CsTripletIter<'a, T> {
    type Item = (usize, usize, &'a T);

    ghost next_gives = { YieldsFirstBy (λ x. (x.0, x.1, x.2.now)) (λ rest. rest) };

    ghost remaining = { item_count (λ rest. rest) };

    fn next(&mut self) -> Option<(usize, usize, &'a T)> {
        match self.entries.next() {
            Some((lane, index)) => match self.values.split_first() {
                Some((value, values)) => {
                    self.values = values;
                    Some((lane, index, value))
                }
                None => None,
            },
            None => None,
        }
    }
}
