//! Selection of entries of a CSR matrix.

ghost use Rattle.std.specs.Prelude.{◌≡◌, ℕ, Bool, IfOk};
ghost use Rattle.std.specs.List.{filter};
ghost use Rattle.sparse_compressed.specs.Compressed.{IsSound, lane_triplets};
ghost use Rattle.sparse_compressed.specs.Filter.{Answers, AnswersAs, HasShapeOf, IsKept, is_upper};
ghost use Rattle.sparse_compressed.specs.Filter.{is_lower, is_diagonal};

use super::CsrMatrix;
use std::alloc::{AllocError, Global};

impl<T: Copy> CsrMatrix<T> {
    /// Returns a matrix of the same shape with the entries (row, column, value) for which `predicate` returns `true`.
    ///
    /// The predicate is called once for each entry, including those whose value is zero, row by row, columns
    /// increasing. It must be callable with any arguments. Linear in rows and entries; the memory is proportional to
    /// the rows and the entries kept. Fails only if an allocation fails.
    ///
    /// # Examples
    ///
    /// ```rust
    /// fn the_diagonal_is_filtered_out(alloc: Global) -> Result<bool, Fail> {
    ///     let identity = CsrMatrix::<W64>::identity(alloc, 2)?;
    ///     let rest = identity.filter(alloc, |row, column, _| row != column)?;
    ///     Ok(rest == CsrMatrix::zeros(alloc, 2, 2)?)
    /// }
    /// ```
    pub fn filter<P>(&self, alloc: Global, predicate: P) -> Result<Self, AllocError>
    where
        P: Fn(usize, usize, &T) -> bool,
        requires { P.IsAlwaysCallable predicate }
        ensures same_shape { IfOk result (HasShapeOf self.now) }
        ensures kept { IfOk result
            (λ m. IsKept (Answers P.Fn predicate) (lane_triplets self.now) (lane_triplets m)) }
        ensures tested { (test : ℕ × ℕ × T → Bool) → AnswersAs P.Fn predicate test
            → IfOk result (λ m. lane_triplets m ≡ filter test (lane_triplets self.now)) }
        ensures sound { IfOk result IsSound }
    {
        Ok(CsrMatrix {
            cs: self.cs.filter(alloc, predicate)?,
        })
    }

    /// Returns a matrix of the same shape with the entries (i, j) where `i <= j`. Cost and errors are those of
    /// [`CsrMatrix::filter`].
    ///
    /// # Examples
    ///
    /// ```rust
    /// fn the_upper_triangle_is_kept(alloc: Global) -> Result<bool, Fail> {
    ///     let dense = DMatrix::from_row_slice(alloc, 2, 2, &[1, 2, 3, 4])?;
    ///     let upper = convert_dense_csr(alloc, &dense)?.upper_triangle(alloc)?;
    ///     Ok(upper.values() == [1, 2, 4].as_slice())
    /// }
    /// ```
    pub fn upper_triangle(&self, alloc: Global) -> Result<Self, AllocError>
        ensures same_shape { IfOk result (HasShapeOf self.now) }
        ensures kept { IfOk result
            (λ m. lane_triplets m ≡ filter is_upper (lane_triplets self.now)) }
        ensures sound { IfOk result IsSound }
    {
        self.filter(alloc, |row, column, _| row <= column)
    }

    /// Returns a matrix of the same shape with the entries (i, j) where `i >= j`. Cost and errors are those of
    /// [`CsrMatrix::filter`].
    pub fn lower_triangle(&self, alloc: Global) -> Result<Self, AllocError>
        ensures same_shape { IfOk result (HasShapeOf self.now) }
        ensures kept { IfOk result
            (λ m. lane_triplets m ≡ filter is_lower (lane_triplets self.now)) }
        ensures sound { IfOk result IsSound }
    {
        self.filter(alloc, |row, column, _| row >= column)
    }

    /// Returns a matrix of the same shape with the entries (i, i). Cost and errors are those of [`CsrMatrix::filter`].
    pub fn diagonal_as_csr(&self, alloc: Global) -> Result<Self, AllocError>
        ensures same_shape { IfOk result (HasShapeOf self.now) }
        ensures kept { IfOk result
            (λ m. lane_triplets m ≡ filter is_diagonal (lane_triplets self.now)) }
        ensures sound { IfOk result IsSound }
    {
        self.filter(alloc, |row, column, _| row == column)
    }
}
