//! Dense matrices in column-major order.

ghost use Rattle.std.specs.Prelude.{◌≡◌, ◌+◌, ◌*◌, ◌<◌, ◌≤◌, ℕ, ◌==◌, ◌&&◌, if◌then◌else◌, length};
ghost use Rattle.std.specs.Prelude.{replicate, slice_index_or, slice_range, IfOk};
ghost use Rattle.std.specs.Borrow.{sem};
ghost use Rattle.sparse_coo_dense.specs.Dense.{dense_of, value_at, column_of};
ghost use Rattle.sparse_coo_dense.specs.Dense.{with_value_at, HasValues};
ghost use Rattle.sparse_coo_dense.specs.DenseLending.{LendsColumn, LendsValues};

use sparse_algebra::scalar::Zero;
use std::alloc::{AllocError, Global};
use std::marker::Model;

mod equality;

/// A dense matrix, stored column by column.
///
/// # Examples
///
/// ```rust
/// fn rows_are_stored_by_columns(alloc: Global) -> Result<bool, Fail> {
///     let matrix = DMatrix::from_row_slice(alloc, 2, 2, &[1, 2, 3, 4])?;
///     Ok(matrix.as_slice() == [1, 3, 2, 4].as_slice())
/// }
/// ```
#[derive(Debug, Drop)]
pub struct DMatrix<T> {
    nrows: usize,
    ncols: usize,
    values: Vec<T>,
}

impl<T> Model for DMatrix<T> {
    ghost use Rattle.std.specs.Prelude.{◌≡◌, ◌*◌, length};
    ghost use Rattle.sparse_coo_dense.specs.Dense.{Dense, dense_code, dense_of};

    ghost Value = { Dense T };

    ghost coded = { dense_code T.code };

    ghost view = { λ d. dense_of d.nrows d.ncols d.values.items };

    ghost invariant = { λ d. length d.values.items ≡ d.nrows * d.ncols };
}

impl<T: Zero + Copy> DMatrix<T> {
    /// Returns a matrix of zeros. Fails only if an allocation fails or `nrows * ncols` exceeds `usize::MAX`.
    pub fn zeros(alloc: Global, nrows: usize, ncols: usize) -> Result<Self, AllocError>
        ensures { IfOk result (HasValues nrows ncols (λ _ _ _. T.zero_value)) }
    {
        DMatrix::repeat(alloc, nrows, ncols, T::zero())
    }
}

impl<T: Copy> DMatrix<T> {
    /// Returns a matrix with `value` at each row and column.
    ///
    /// Fails only if an allocation fails or `nrows * ncols` exceeds `usize::MAX`.
    pub fn repeat(alloc: Global, nrows: usize, ncols: usize, value: T) -> Result<Self, AllocError>
        ensures { IfOk result (HasValues nrows ncols (λ _ _ _. value)) }
    {
        let Some(count) = nrows.checked_mul(ncols) else {
            return Err(AllocError);
        };
        Ok(DMatrix {
            nrows,
            ncols,
            values: copies_of(alloc, value, count)?,
        })
    }

    /// Returns the matrix of the values given column by column.
    ///
    /// `values.len()` must equal `nrows * ncols`. Fails only if an allocation fails.
    pub fn from_column_slice(
        alloc: Global,
        nrows: usize,
        ncols: usize,
        values: &[T],
    ) -> Result<Self, AllocError>
        requires { length values.now ≡ nrows * ncols }
        ensures exact { IfOk result (λ d. d ≡ dense_of nrows ncols values.now) }
        ensures values { IfOk result (HasValues nrows ncols
            (λ i j z. slice_index_or values.now (j * nrows + i) z)) }
    {
        Ok(DMatrix {
            nrows,
            ncols,
            values: Vec::from_slice(alloc, values)?,
        })
    }

    /// Returns the matrix of the values given row by row.
    ///
    /// `values.len()` must equal `nrows * ncols`. Fails only if an allocation fails.
    pub fn from_row_slice(
        alloc: Global,
        nrows: usize,
        ncols: usize,
        values: &[T],
    ) -> Result<Self, AllocError>
        requires { length values.now ≡ nrows * ncols }
        ensures { IfOk result (HasValues nrows ncols
            (λ i j z. slice_index_or values.now (i * ncols + j) z)) }
    {
        Ok(DMatrix {
            nrows,
            ncols,
            values: column_by_column(alloc, nrows, ncols, values)?,
        })
    }

    /// Returns a copy. Fails only if an allocation fails.
    pub fn clone(&self, alloc: Global) -> Result<Self, AllocError>
        ensures { IfOk result (λ d. d ≡ self.now) }
    {
        Ok(DMatrix {
            nrows: self.nrows,
            ncols: self.ncols,
            values: Vec::from_slice(alloc, &self.values)?,
        })
    }

    /// Returns a copy of the value at row `i` and column `j`. Both must be within bounds.
    pub fn get(&self, i: usize, j: usize) -> T
        requires row { i < self.now.nrows }
        requires col { j < self.now.ncols }
        ensures value { result ≡ value_at self.now i j result }
        ensures full { length self.now.values ≡ self.now.nrows * self.now.ncols }
    {
        self.values[j * self.nrows + i]
    }
}

impl<T> DMatrix<T> {
    /// Returns the number of rows.
    pub fn nrows(&self) -> usize
        ensures { result ≡ self.now.nrows }
    {
        self.nrows
    }

    /// Returns the number of columns.
    pub fn ncols(&self) -> usize
        ensures { result ≡ self.now.ncols }
    {
        self.ncols
    }

    /// Returns all values, column by column.
    pub fn as_slice(&self) -> &[T]
        ensures values { result.now ≡ self.now.values }
        ensures count { length result.now ≡ self.now.nrows * self.now.ncols }
    {
        &self.values
    }

    /// Returns all values, column by column, borrowed mutably.
    pub fn as_mut_slice(&mut self) -> &mut [T]
        ensures* writes_back { sem 𝓛 (LendsValues T.row self.entry result) }
        ensures values { result.now ≡ self.old.values }
        ensures count { length result.now ≡ self.old.nrows * self.old.ncols }
    {
        &mut self.values[..]
    }

    /// Replaces the value at row `i` and column `j`, which must be within bounds. The old value is dropped; all other
    /// values are unchanged.
    ///
    /// # Examples
    ///
    /// ```rust
    /// fn one_place_is_set(alloc: Global) -> Result<bool, Fail> {
    ///     let mut matrix = DMatrix::from_column_slice(alloc, 2, 2, &[1, 2, 3, 4])?;
    ///     matrix.set(0, 1, 9);
    ///     Ok(matrix.get(0, 1) == 9 && matrix.column(0) == [1, 2].as_slice())
    /// }
    /// ```
    pub fn set(&mut self, i: usize, j: usize, value: T)
    where
        T: Drop,
        requires row { i < self.old.nrows }
        requires col { j < self.old.ncols }
        ensures exact { self.new ≡ with_value_at self.old i j value }
        ensures values { HasValues self.old.nrows self.old.ncols
            (λ k l z. if k == i && l == j then value else value_at self.old k l z) self.new }
    {
        self.values[j * self.nrows + i] = value;
    }

    /// Returns the values of column `j`. `j` must be less than `ncols()`.
    pub fn column(&self, j: usize) -> &[T]
        requires { j < self.now.ncols }
        ensures exact { result.now ≡ column_of self.now j }
        ensures rows { length result.now ≡ self.now.nrows }
        ensures values { (i : ℕ) (z : T) → i < self.now.nrows
            → slice_index_or result.now i z ≡ value_at self.now i j z }
    {
        let start = j * self.nrows;
        &self.values[start..start + self.nrows]
    }

    /// Returns the values of column `j`, borrowed mutably. `j` must be less than `ncols()`. The other columns are
    /// unchanged.
    ///
    /// # Examples
    ///
    /// ```rust
    /// fn one_column_is_filled(alloc: Global) -> Result<bool, Fail> {
    ///     let mut matrix = DMatrix::from_column_slice(alloc, 2, 2, &[1, 2, 3, 4])?;
    ///     for value in matrix.column_mut(1) {
    ///         *value = 7;
    ///     }
    ///     Ok(matrix.as_slice() == [1, 2, 7, 7].as_slice())
    /// }
    /// ```
    pub fn column_mut(&mut self, j: usize) -> &mut [T]
        requires { j < self.old.ncols }
        ensures* writes_back { sem 𝓛 (LendsColumn T.row self.entry j result) }
        ensures exact { result.now ≡ column_of self.old j }
        ensures rows { length result.now ≡ self.old.nrows }
        ensures values { (i : ℕ) (z : T) → i < self.old.nrows
            → slice_index_or result.now i z ≡ value_at self.old i j z }
    {
        let start = j * self.nrows;
        self.values.slice_mut(start..start + self.nrows)
    }

    /// Returns the values of `count` columns from column `first` on, column by column, borrowed mutably.
    ///
    /// `first + count` must not exceed `ncols()`. The other columns are unchanged.
    pub fn columns_mut(&mut self, first: usize, count: usize) -> &mut [T]
        requires { first + count ≤ self.old.ncols }
        ensures* writes_back { sem 𝓛 (LendsColumn T.row self.entry first result) }
        ensures exact { result.now ≡ slice_range self.old.values (first * self.old.nrows)
            (first * self.old.nrows + count * self.old.nrows) }
        ensures rows { length result.now ≡ count * self.old.nrows }
        ensures values { (i j : ℕ) (z : T) → i < self.old.nrows → j < count
            → slice_index_or result.now (j * self.old.nrows + i) z
            ≡ value_at self.old i (first + j) z }
    {
        let start = first * self.nrows;
        self.values.slice_mut(start..start + count * self.nrows)
    }
}

// Returns `count` copies of a value.
fn copies_of<T: Copy>(alloc: Global, value: T, count: usize) -> Result<Vec<T>, AllocError>
    ensures { IfOk result (λ copies. copies.items ≡ replicate count value) }
{
    let mut copies = Vec::with_capacity(alloc, count)?;
    for _ in 0..count {
        copies.push(value)?;
    }
    Ok(copies)
}

// Returns the values, given row by row, in column-major order.
fn column_by_column<T: Copy>(
    alloc: Global,
    nrows: usize,
    ncols: usize,
    rows: &[T],
) -> Result<Vec<T>, AllocError>
    requires { length rows.now ≡ nrows * ncols }
    ensures { IfOk result (λ columns.
        HasValues nrows ncols (λ i j z. slice_index_or rows.now (i * ncols + j) z)
        (dense_of nrows ncols columns.items)) }
{
    let mut columns = Vec::with_capacity(alloc, rows.len())?;
    if rows.is_empty() {
        return Ok(columns);
    }
    for j in 0..ncols {
        for i in 0..nrows {
            columns.push(rows[i * ncols + j])?;
        }
    }
    Ok(columns)
}
