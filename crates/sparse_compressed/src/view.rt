//! Compressed matrices in borrowed arrays.

ghost use Rattle.std.specs.Prelude.{◌≡◌, ◌<◌, ⊤, IfOk, IfErr, IsOk, OnOk, length, slice_range};
ghost use Rattle.sparse_pattern.specs.Raw.{start_of, end_of, lane_of};
ghost use Rattle.sparse_compressed.specs.Compressed.{arrays_of, IsSound};
ghost use Rattle.sparse_compressed.specs.SortedFaults.{IsFirstSortedFault};

use crate::{CsMatrix, SortedFault};
use sparse_pattern::pattern::check;
use std::alloc::AllocError;
use std::marker::Model;

/// A compressed matrix whose arrays are borrowed: those of a [`CsMatrix`], or arrays of another program.
#[derive(Debug, Drop)]
pub struct CsView<'a, T> {
    major_dim: usize,
    minor_dim: usize,
    offsets: &'a [usize],
    indices: &'a [usize],
    values: &'a [T],
}

impl<'a, T> Model for CsView<'a, T> {
    ghost use Rattle.sparse_compressed.specs.Compressed.{Compressed, compressed_code};
    ghost use Rattle.sparse_compressed.specs.Compressed.{arrays_of, IsSound};

    ghost Value = { Compressed T };

    ghost coded = { compressed_code T.code };

    ghost view = { λ m. arrays_of m.major_dim m.minor_dim m.offsets.now m.indices.now
        m.values.now };

    ghost invariant = { λ m. IsSound (arrays_of m.major_dim m.minor_dim m.offsets.now
        m.indices.now m.values.now) };
}

impl<'a, T> CsView<'a, T> {
    /// Returns the matrix with these arrays, whose lanes must be sorted.
    ///
    /// Linear in lanes and indices. Copies nothing and allocates nothing.
    ///
    /// # Errors
    ///
    /// Returns the first fault: first those of the pattern, then the number of values.
    pub fn try_from_slices(
        major_dim: usize,
        minor_dim: usize,
        offsets: &'a [usize],
        indices: &'a [usize],
        values: &'a [T],
    ) -> Result<Self, SortedFault>
        ensures ok { IfOk result
            (λ m. m ≡ arrays_of major_dim minor_dim offsets.now indices.now values.now) }
        ensures sound { OnOk result
            (IsSound (arrays_of major_dim minor_dim offsets.now indices.now values.now)) }
        ensures fault { IfErr result (IsFirstSortedFault
            (arrays_of major_dim minor_dim offsets.now indices.now values.now)) }
        ensures accepted { IsSound
            (arrays_of major_dim minor_dim offsets.now indices.now values.now) → IsOk result }
    {
        match check(major_dim, minor_dim, offsets, indices) {
            Ok(()) => {
                if values.len() != indices.len() {
                    return Err(SortedFault::ValueCount);
                }
                Ok(CsView {
                    major_dim,
                    minor_dim,
                    offsets,
                    indices,
                    values,
                })
            }
            Err(fault) => Err(SortedFault::Pattern(fault)),
        }
    }

    /// Returns the number of lanes.
    pub fn major_dim(&self) -> usize
        ensures { result ≡ self.now.pattern.major_dim }
    {
        self.major_dim
    }

    /// Returns the number of possible minor indices.
    pub fn minor_dim(&self) -> usize
        ensures { result ≡ self.now.pattern.minor_dim }
    {
        self.minor_dim
    }

    /// Returns the offsets.
    pub fn offsets(&self) -> &'a [usize]
        ensures offsets { result.now ≡ self.now.pattern.offsets }
        ensures sound { IsSound self.now }
    {
        self.offsets
    }

    /// Returns the minor indices, lane by lane.
    pub fn indices(&self) -> &'a [usize]
        ensures indices { result.now ≡ self.now.pattern.indices }
        ensures sound { IsSound self.now }
    {
        self.indices
    }

    /// Returns the values, lane by lane.
    pub fn values(&self) -> &'a [T]
        ensures values { result.now ≡ self.now.values }
        ensures sound { IsSound self.now }
    {
        self.values
    }

    /// Returns the minor indices and the values of a lane, which must be within bounds.
    pub fn lane(&self, i: usize) -> (&'a [usize], &'a [T])
        requires { i < self.now.pattern.major_dim }
        ensures indices { result.0.now ≡ lane_of self.now.pattern i }
        ensures values { result.1.now ≡ slice_range self.now.values
            (start_of self.now.pattern i) (end_of self.now.pattern i) }
        ensures sound { IsSound self.now }
    {
        let (offsets, indices, values) = (self.offsets, self.indices, self.values);
        let (start, end) = (offsets[i], offsets[i + 1]);
        (&indices[start..end], &values[start..end])
    }
}

impl<T> CsMatrix<T> {
    /// Returns the matrix as borrowed arrays.
    pub fn view(&self) -> CsView<'_, T>
        ensures { result ≡ self.now }
    {
        let pattern = self.pattern();
        CsView {
            major_dim: pattern.major_dim(),
            minor_dim: pattern.minor_dim(),
            offsets: pattern.major_offsets(),
            indices: pattern.minor_indices(),
            values: self.values(),
        }
    }
}

impl<'a, T> Clone for CsView<'a, T> {
    ghost is_clone = { λ s t. t ≡ s };

    ghost is_infallible = { λ _. ⊤ };

    fn clone(&self) -> Result<CsView<'a, T>, AllocError> {
        Ok(CsView {
            major_dim: self.major_dim,
            minor_dim: self.minor_dim,
            offsets: self.offsets,
            indices: self.indices,
            values: self.values,
        })
    }
}
