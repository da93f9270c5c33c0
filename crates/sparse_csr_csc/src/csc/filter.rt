//! Selection of entries of a CSC matrix.

ghost use Rattle.std.specs.Prelude.{◌≡◌, ℕ, Bool, map, IfOk};
ghost use Rattle.std.specs.List.{filter};
ghost use Rattle.sparse_compressed.specs.Compressed.{IsSound, lane_triplets, transposed};
ghost use Rattle.sparse_compressed.specs.Filter.{Answers, AnswersAs, HasShapeOf, IsKept, is_upper};
ghost use Rattle.sparse_compressed.specs.Filter.{is_lower, is_diagonal};

use super::CscMatrix;
use std::alloc::{AllocError, Global};

impl<T: Copy> CscMatrix<T> {
    /// Returns a matrix of the same shape with the entries (row, column, value) for which `predicate` returns `true`.
    ///
    /// The predicate is called once for each entry, including those whose value is zero, column by column, rows
    /// increasing. It must be callable with any arguments. Linear in columns and entries; the memory is proportional to
    /// the columns and the entries kept. Fails only if an allocation fails.
    pub fn filter<P>(&self, alloc: Global, predicate: P) -> Result<Self, AllocError>
    where
        P: Fn(usize, usize, &T) -> bool,
        requires { P.IsAlwaysCallable predicate }
        ensures same_shape { IfOk result (HasShapeOf self.now) }
        ensures kept { IfOk result
            (λ m. IsKept (Answers P.Fn predicate) (map transposed (lane_triplets self.now))
            (map transposed (lane_triplets m))) }
        ensures tested { (test : ℕ × ℕ × T → Bool) → AnswersAs P.Fn predicate test
            → IfOk result (λ m. map transposed (lane_triplets m)
            ≡ filter test (map transposed (lane_triplets self.now))) }
        ensures sound { IfOk result IsSound }
    {
        Ok(CscMatrix {
            cs: self
                .cs()
                .filter(alloc, |column, row, value| predicate(row, column, value))?,
        })
    }

    /// Returns a matrix of the same shape with the entries (i, j) where `i <= j`. Cost and errors are those of
    /// [`CscMatrix::filter`].
    pub fn upper_triangle(&self, alloc: Global) -> Result<Self, AllocError>
        ensures same_shape { IfOk result (HasShapeOf self.now) }
        ensures kept { IfOk result
            (λ m. map transposed (lane_triplets m)
            ≡ filter is_upper (map transposed (lane_triplets self.now))) }
        ensures sound { IfOk result IsSound }
    {
        self.filter(alloc, |row, column, _| row <= column)
    }

    /// Returns a matrix of the same shape with the entries (i, j) where `i >= j`. Cost and errors are those of
    /// [`CscMatrix::filter`].
    pub fn lower_triangle(&self, alloc: Global) -> Result<Self, AllocError>
        ensures same_shape { IfOk result (HasShapeOf self.now) }
        ensures kept { IfOk result
            (λ m. map transposed (lane_triplets m)
            ≡ filter is_lower (map transposed (lane_triplets self.now))) }
        ensures sound { IfOk result IsSound }
    {
        self.filter(alloc, |row, column, _| row >= column)
    }

    /// Returns a matrix of the same shape with the entries (i, i). Cost and errors are those of [`CscMatrix::filter`].
    pub fn diagonal_as_csc(&self, alloc: Global) -> Result<Self, AllocError>
        ensures same_shape { IfOk result (HasShapeOf self.now) }
        ensures kept { IfOk result
            (λ m. map transposed (lane_triplets m)
            ≡ filter is_diagonal (map transposed (lane_triplets self.now))) }
        ensures sound { IfOk result IsSound }
    {
        self.filter(alloc, |row, column, _| row == column)
    }
}
