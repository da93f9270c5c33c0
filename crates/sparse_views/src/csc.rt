//! Borrowed matrices in compressed sparse column format.

ghost use Rattle.std.specs.Prelude.{◌≡◌, ◌<◌, ◌↔◌, ⊤, length, IfOk, IfErr, IfSome, IsOk, IsSome};
ghost use Rattle.sparse_algebra.specs.Sums.{sum_below};
ghost use Rattle.sparse_compressed.specs.Compressed.{arrays_of, IsSound};
ghost use Rattle.sparse_compressed.specs.Lanes.{lane_at};
ghost use Rattle.sparse_compressed.specs.PlainOfLanes.{plain_of_cols};
ghost use Rattle.sparse_compressed.specs.SortedFaults.{IsSortedRefusal, sorted_kind};
ghost use Rattle.sparse_compressed.specs.StoredEntries.{IsEntryAt, IsEntryOf, IsInBounds};
ghost use Rattle.sparse_dense_ops.specs.SparseVectors.{elements};

use crate::reading;
use sparse_algebra::scalar::Ring;
use sparse_compressed::{CsView, SortedFault};
use sparse_csr_csc::csc::{CscCol, CscMatrix};
use sparse_pattern::entry::SparseEntry;
use sparse_pattern::error::SparseFormatError;
use sparse_pattern::pattern::SparsityPatternFormatError;
use std::alloc::{AllocError, Global};
use std::marker::Model;

/// A sparse matrix in compressed sparse column (CSC) format whose arrays are borrowed.
///
/// The row indices of each column are strictly increasing, as in a [`CscMatrix`].
///
/// # Examples
///
/// ```rust
/// fn borrowed_columns_are_multiplied(alloc: Global) -> Result<bool, Fail> {
///     let values = [W64::new(4), W64::new(5), W64::new(6)];
///     let view = CscView::try_from_csc_data(2, 2, &[0, 2, 3], &[0, 1, 1], &values)?;
///     let matrix = view.to_csc(alloc)?;
///     let square = mul_csc(alloc, &matrix, &matrix)?;
///     Ok(square.values() == [W64::new(16), W64::new(50), W64::new(36)].as_slice())
/// }
/// ```
#[derive(Debug, Drop)]
pub struct CscView<'a, T> {
    arrays: CsView<'a, T>,
}

impl<'a, T> Model for CscView<'a, T> {
    ghost use Rattle.sparse_compressed.specs.Compressed.{Compressed, compressed_code};

    ghost Value = { Compressed T };

    ghost coded = { compressed_code T.code };

    ghost view = { λ m. m.arrays };
}

impl<'a, T> CscView<'a, T> {
    /// Returns a view of a matrix.
    ///
    /// Constant time. Copies nothing and allocates nothing.
    pub fn of(matrix: &'a CscMatrix<T>) -> Self
        ensures { result ≡ matrix.now }
    {
        CscView {
            arrays: matrix.cs().view(),
        }
    }

    /// Returns a view of these arrays, whose columns must be sorted by row.
    ///
    /// Linear in the number of columns and entries. Copies nothing and allocates nothing.
    ///
    /// # Errors
    ///
    /// Returns the first fault, as [`CscMatrix::try_from_csc_data`] does: that of the offsets and indices, and then the
    /// number of values.
    pub fn try_from_csc_data(
        nrows: usize,
        ncols: usize,
        col_offsets: &'a [usize],
        row_indices: &'a [usize],
        values: &'a [T],
    ) -> Result<Self, SparseFormatError>
        ensures ok { IfOk result
            (λ m. m ≡ arrays_of ncols nrows col_offsets.now row_indices.now values.now) }
        ensures sound { IfOk result IsSound }
        ensures fault { IfErr result
            (IsSortedRefusal (arrays_of ncols nrows col_offsets.now row_indices.now values.now)) }
        ensures accepted { IsSound
            (arrays_of ncols nrows col_offsets.now row_indices.now values.now) → IsOk result }
    {
        match CsView::try_from_slices(ncols, nrows, col_offsets, row_indices, values) {
            Ok(arrays) => Ok(CscView { arrays }),
            Err(fault) => Err(error_of(fault)),
        }
    }

    /// Returns the number of rows.
    pub fn nrows(&self) -> usize
        ensures { result ≡ self.now.pattern.minor_dim }
    {
        self.arrays.minor_dim()
    }

    /// Returns the number of columns.
    pub fn ncols(&self) -> usize
        ensures { result ≡ self.now.pattern.major_dim }
    {
        self.arrays.major_dim()
    }

    /// Returns the number of entries, including those whose value is zero.
    pub fn nnz(&self) -> usize
        ensures count { result ≡ length self.now.values }
        ensures sound { IsSound self.now }
    {
        self.arrays.values().len()
    }

    /// Returns the offset of the first entry of each column, followed by the number of entries.
    pub fn col_offsets(&self) -> &'a [usize]
        ensures offsets { result.now ≡ self.now.pattern.offsets }
        ensures sound { IsSound self.now }
    {
        self.arrays.offsets()
    }

    /// Returns the row of each entry, column by column.
    pub fn row_indices(&self) -> &'a [usize]
        ensures indices { result.now ≡ self.now.pattern.indices }
        ensures sound { IsSound self.now }
    {
        self.arrays.indices()
    }

    /// Returns the value of each entry, column by column.
    pub fn values(&self) -> &'a [T]
        ensures values { result.now ≡ self.now.values }
        ensures sound { IsSound self.now }
    {
        self.arrays.values()
    }

    /// Returns a column. `col_index` must be less than `ncols()`.
    pub fn col(&self, col_index: usize) -> CscCol<'a, T>
        requires { col_index < self.now.pattern.major_dim }
        ensures col { result ≡ lane_at self.now col_index }
        ensures sound { IsSound self.now }
    {
        CscCol::from_lane(reading::lane(&self.arrays, col_index))
    }

    /// Returns a column, or `None` if `col_index` is out of bounds.
    ///
    /// # Examples
    ///
    /// ```rust
    /// fn a_column_of_borrowed_arrays_is_read() -> Result<bool, Fail> {
    ///     let view = CscView::try_from_csc_data(3, 2, &[0, 2, 3], &[0, 2, 1], &[4, 5, 6])?;
    ///     let column = view.get_col(0).ok_or("out of bounds")?;
    ///     Ok(column.row_indices() == [0, 2].as_slice() && column.values() == [4, 5].as_slice())
    /// }
    /// ```
    pub fn get_col(&self, col_index: usize) -> Option<CscCol<'a, T>>
        ensures bounds { IsSome result ↔ (col_index < self.now.pattern.major_dim) }
        ensures col { IfSome result (λ col. col ≡ lane_at self.now col_index) }
        ensures sound { IsSound self.now }
    {
        match reading::get_lane(&self.arrays, col_index) {
            Some(lane) => Some(CscCol::from_lane(lane)),
            None => None,
        }
    }

    /// Returns the entry at a row and a column, or `Zero` if none is stored. Both indices must be within bounds. Binary
    /// search in the column.
    pub fn index_entry(&self, row_index: usize, col_index: usize) -> SparseEntry<'a, T>
        requires { IsInBounds self.now.pattern col_index row_index }
        ensures entry { IsEntryAt self.now col_index row_index result }
        ensures sound { IsSound self.now }
    {
        reading::index_entry(&self.arrays, col_index, row_index)
    }

    /// Returns the entry at a row and a column, `Zero` if none is stored, or `None` if an index is out of bounds.
    /// Binary search in the column.
    pub fn get_entry(&self, row_index: usize, col_index: usize) -> Option<SparseEntry<'a, T>>
        ensures entry { IsEntryOf self.now col_index row_index result }
        ensures sound { IsSound self.now }
    {
        reading::get_entry(&self.arrays, col_index, row_index)
    }
}

impl<'a, T: Copy> CscView<'a, T> {
    /// Returns a matrix with copies of the arrays, which are not checked again.
    ///
    /// Linear in the number of columns and entries; the memory is the result's. Fails only if an allocation fails.
    pub fn to_csc(&self, alloc: Global) -> Result<CscMatrix<T>, AllocError>
        ensures { IfOk result (λ m. m ≡ self.now) }
    {
        Ok(CscMatrix::from_cs(reading::to_matrix(&self.arrays, alloc)?))
    }
}

impl<'a, T: Ring> CscView<'a, T> {
    /// Returns the dot product of a column and a dense vector: the sum over the entries of the column of the value
    /// times the element of `x` at its row.
    ///
    /// `col_index` must be less than `ncols()`, and `x` must have `nrows()` elements.
    ///
    /// One multiplication for each entry of the column. Allocates nothing.
    pub fn dot_col(&self, col_index: usize, x: &[T]) -> T
        requires col { col_index < self.now.pattern.major_dim }
        requires fits { length x.now ≡ self.now.pattern.minor_dim }
        ensures product { T.value result ≡ sum_below T.ring self.now.pattern.minor_dim
            (λ k. T.ring.mul ((plain_of_cols T.ring T.value self.now).value k col_index)
            (elements T.ring T.value T.zero_value x.now k)) }
        ensures sound { IsSound self.now }
    {
        reading::dot_lane(&self.arrays, col_index, x)
    }
}

impl<'a, T> Clone for CscView<'a, T> {
    ghost is_clone = { λ s t. t ≡ s };

    ghost is_infallible = { λ _. ⊤ };

    fn clone(&self) -> Result<CscView<'a, T>, AllocError> {
        Ok(CscView {
            arrays: self.arrays.clone()?,
        })
    }
}

// Returns the error that reports a fault, with the message of `CscMatrix::try_from_csc_data`.
fn error_of(fault: SortedFault) -> SparseFormatError
    ensures { result ≡ sorted_kind fault }
{
    let message = match fault {
        SortedFault::Pattern(SparsityPatternFormatError::InvalidOffsetArrayLength) => {
            "Length of col offset array is not equal to ncols + 1."
        }
        SortedFault::Pattern(SparsityPatternFormatError::InvalidOffsetFirstLast) => {
            "First or last col offset is inconsistent with format specification."
        }
        SortedFault::Pattern(SparsityPatternFormatError::NonmonotonicOffsets) => {
            "Col offsets are not monotonically increasing."
        }
        SortedFault::Pattern(SparsityPatternFormatError::NonmonotonicMinorIndices) => {
            "Row indices are not monotonically increasing (sorted) within each column."
        }
        SortedFault::Pattern(SparsityPatternFormatError::MinorIndexOutOfBounds) => {
            "Row indices are out of bounds."
        }
        SortedFault::Pattern(SparsityPatternFormatError::DuplicateEntry) => {
            "Matrix data contains duplicate entries."
        }
        SortedFault::ValueCount => "Number of values and row indices must be the same",
    };
    SparseFormatError::new(fault.kind(), message)
}
