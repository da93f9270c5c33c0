//! Zero matrices and identity matrices.

ghost use Rattle.std.specs.Prelude.{◌≡◌, [], All, IfOk, EachIndex, slice_index, vec_len};
ghost use Rattle.sparse_pattern.specs.Raw.{empty_raw};
ghost use Rattle.sparse_algebra.specs.Plain.{plain_identity};
ghost use Rattle.sparse_compressed.specs.Compressed.{compressed_of, IsSound};
ghost use Rattle.sparse_compressed.specs.PlainOfLanes.{plain_of_rows};

use crate::CsMatrix;
use sparse_algebra::scalar::Ring;
use sparse_pattern::pattern::SparsityPattern;
use std::alloc::{AllocError, Global};

impl<T> CsMatrix<T> {
    /// Returns a matrix without entries. Allocates `major_dim + 1` offsets, and fails only if that allocation fails.
    pub fn zeros(alloc: Global, major_dim: usize, minor_dim: usize) -> Result<Self, AllocError>
        ensures is { IfOk result (λ m. m ≡ compressed_of (empty_raw major_dim minor_dim) []) }
        ensures sound { IfOk result IsSound }
    {
        let pattern = SparsityPattern::zeros(alloc, major_dim, minor_dim)?;
        Ok(CsMatrix::from_pattern_and_values(pattern, Vec::new(alloc)))
    }
}

impl<T: Ring> CsMatrix<T> {
    /// Returns the identity matrix of order `n`, with `n` stored ones, even in a ring where one equals zero. Fails only
    /// if an allocation fails.
    pub fn identity(alloc: Global, n: usize) -> Result<Self, AllocError>
        ensures plain { IfOk result
            (λ m. plain_of_rows T.ring T.value m ≡ plain_identity T.ring n) }
        ensures sound { IfOk result IsSound }
    {
        let offset_count = n.checked_add(1).ok_or(AllocError)?;
        let pattern = SparsityPattern::from_offset_and_indices_unchecked(
            n,
            n,
            numbers_below(alloc, offset_count)?,
            numbers_below(alloc, n)?,
        );
        Ok(CsMatrix::from_pattern_and_values(pattern, ones(alloc, n)?))
    }
}

// Returns the numbers less than `n`, increasing.
fn numbers_below(alloc: Global, n: usize) -> Result<Vec<usize>, AllocError>
    ensures count { IfOk result (λ v. vec_len v ≡ n) }
    ensures numbers { IfOk result (λ v. EachIndex v.items (λ k. slice_index v.items k ≡ k)) }
{
    let mut numbers = Vec::with_capacity(alloc, n)?;
    for number in 0..n {
        numbers.push_reserved(number);
    }
    Ok(numbers)
}

// Returns `n` ones.
fn ones<T: Ring>(alloc: Global, n: usize) -> Result<Vec<T>, AllocError>
    ensures count { IfOk result (λ v. vec_len v ≡ n) }
    ensures ones { IfOk result (λ v. All (λ x. T.value x ≡ T.ring.one) v.items) }
{
    let mut ones = Vec::with_capacity(alloc, n)?;
    for _ in 0..n {
        ones.push_reserved(T::one());
    }
    Ok(ones)
}
