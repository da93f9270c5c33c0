//! Borrowed matrices in compressed sparse row format.

ghost use Rattle.std.specs.Prelude.{◌≡◌, ◌<◌, ◌↔◌, ⊤, length, IfOk, IfErr, IfSome, IsOk, IsSome};
ghost use Rattle.sparse_algebra.specs.Sums.{sum_below};
ghost use Rattle.sparse_compressed.specs.Compressed.{arrays_of, IsSound};
ghost use Rattle.sparse_compressed.specs.Lanes.{lane_at};
ghost use Rattle.sparse_compressed.specs.PlainOfLanes.{plain_of_rows};
ghost use Rattle.sparse_compressed.specs.SortedFaults.{IsSortedRefusal, sorted_kind};
ghost use Rattle.sparse_compressed.specs.StoredEntries.{IsEntryAt, IsEntryOf, IsInBounds};
ghost use Rattle.sparse_dense_ops.specs.SparseVectors.{elements};

use crate::reading;
use sparse_algebra::scalar::Ring;
use sparse_compressed::{CsView, SortedFault};
use sparse_csr_csc::csr::{CsrMatrix, CsrRow};
use sparse_pattern::entry::SparseEntry;
use sparse_pattern::error::SparseFormatError;
use sparse_pattern::pattern::SparsityPatternFormatError;
use std::alloc::{AllocError, Global};
use std::marker::Model;

/// A sparse matrix in compressed sparse row (CSR) format whose arrays are borrowed.
///
/// The column indices of each row are strictly increasing, as in a [`CsrMatrix`].
///
/// # Examples
///
/// ```rust
/// fn borrowed_rows_are_multiplied(alloc: Global) -> Result<bool, Fail> {
///     let values = [W64::new(4), W64::new(5), W64::new(6)];
///     let view = CsrView::try_from_csr_data(2, 2, &[0, 2, 3], &[0, 1, 1], &values)?;
///     let matrix = view.to_csr(alloc)?;
///     let square = mul_csr(alloc, &matrix, &matrix)?;
///     Ok(square.values() == [W64::new(16), W64::new(50), W64::new(36)].as_slice())
/// }
/// ```
#[derive(Debug, Drop)]
pub struct CsrView<'a, T> {
    arrays: CsView<'a, T>,
}

impl<'a, T> Model for CsrView<'a, T> {
    ghost use Rattle.sparse_compressed.specs.Compressed.{Compressed, compressed_code};

    ghost Value = { Compressed T };

    ghost coded = { compressed_code T.code };

    ghost view = { λ m. m.arrays };
}

impl<'a, T> CsrView<'a, T> {
    /// Returns a view of a matrix.
    ///
    /// Constant time. Copies nothing and allocates nothing.
    ///
    /// # Examples
    ///
    /// ```rust
    /// fn a_view_shows_the_matrix(alloc: Global) -> Result<bool, Fail> {
    ///     let identity = CsrMatrix::<W64>::identity(alloc, 2)?;
    ///     let view = CsrView::of(&identity);
    ///     Ok(view.col_indices() == identity.col_indices() && view.to_csr(alloc)? == identity)
    /// }
    /// ```
    pub fn of(matrix: &'a CsrMatrix<T>) -> Self
        ensures { result ≡ matrix.now }
    {
        CsrView {
            arrays: matrix.cs().view(),
        }
    }

    /// Returns a view of these arrays, whose rows must be sorted by column.
    ///
    /// Linear in the number of rows and entries. Copies nothing and allocates nothing.
    ///
    /// # Errors
    ///
    /// Returns the first fault, as [`CsrMatrix::try_from_csr_data`] does: that of the offsets and indices, and then the
    /// number of values.
    ///
    /// # Examples
    ///
    /// ```rust
    /// fn a_borrowed_column_is_out_of_bounds() -> bool {
    ///     match CsrView::try_from_csr_data(1, 2, &[0, 1], &[2], &[7]) {
    ///         Ok(_) => false,
    ///         Err(error) => *error.kind() == SparseFormatErrorKind::IndexOutOfBounds,
    ///     }
    /// }
    /// ```
    pub fn try_from_csr_data(
        nrows: usize,
        ncols: usize,
        row_offsets: &'a [usize],
        col_indices: &'a [usize],
        values: &'a [T],
    ) -> Result<Self, SparseFormatError>
        ensures ok { IfOk result
            (λ m. m ≡ arrays_of nrows ncols row_offsets.now col_indices.now values.now) }
        ensures sound { IfOk result IsSound }
        ensures fault { IfErr result
            (IsSortedRefusal (arrays_of nrows ncols row_offsets.now col_indices.now values.now)) }
        ensures accepted { IsSound
            (arrays_of nrows ncols row_offsets.now col_indices.now values.now) → IsOk result }
    {
        match CsView::try_from_slices(nrows, ncols, row_offsets, col_indices, values) {
            Ok(arrays) => Ok(CsrView { arrays }),
            Err(fault) => Err(error_of(fault)),
        }
    }

    /// Returns the number of rows.
    pub fn nrows(&self) -> usize
        ensures { result ≡ self.now.pattern.major_dim }
    {
        self.arrays.major_dim()
    }

    /// Returns the number of columns.
    pub fn ncols(&self) -> usize
        ensures { result ≡ self.now.pattern.minor_dim }
    {
        self.arrays.minor_dim()
    }

    /// Returns the number of entries, including those whose value is zero.
    pub fn nnz(&self) -> usize
        ensures count { result ≡ length self.now.values }
        ensures sound { IsSound self.now }
    {
        self.arrays.values().len()
    }

    /// Returns the offset of the first entry of each row, followed by the number of entries.
    pub fn row_offsets(&self) -> &'a [usize]
        ensures offsets { result.now ≡ self.now.pattern.offsets }
        ensures sound { IsSound self.now }
    {
        self.arrays.offsets()
    }

    /// Returns the column of each entry, row by row.
    pub fn col_indices(&self) -> &'a [usize]
        ensures indices { result.now ≡ self.now.pattern.indices }
        ensures sound { IsSound self.now }
    {
        self.arrays.indices()
    }

    /// Returns the value of each entry, row by row.
    pub fn values(&self) -> &'a [T]
        ensures values { result.now ≡ self.now.values }
        ensures sound { IsSound self.now }
    {
        self.arrays.values()
    }

    /// Returns a row. `row_index` must be less than `nrows()`.
    pub fn row(&self, row_index: usize) -> CsrRow<'a, T>
        requires { row_index < self.now.pattern.major_dim }
        ensures row { result ≡ lane_at self.now row_index }
        ensures sound { IsSound self.now }
    {
        CsrRow::from_lane(reading::lane(&self.arrays, row_index))
    }

    /// Returns a row, or `None` if `row_index` is out of bounds.
    ///
    /// # Examples
    ///
    /// ```rust
    /// fn a_row_of_borrowed_arrays_is_read() -> Result<bool, Fail> {
    ///     let view = CsrView::try_from_csr_data(2, 3, &[0, 2, 3], &[0, 2, 1], &[4, 5, 6])?;
    ///     let row = view.get_row(0).ok_or("out of bounds")?;
    ///     Ok(row.col_indices() == [0, 2].as_slice() && row.values() == [4, 5].as_slice())
    /// }
    /// ```
    pub fn get_row(&self, row_index: usize) -> Option<CsrRow<'a, T>>
        ensures bounds { IsSome result ↔ (row_index < self.now.pattern.major_dim) }
        ensures row { IfSome result (λ row. row ≡ lane_at self.now row_index) }
        ensures sound { IsSound self.now }
    {
        match reading::get_lane(&self.arrays, row_index) {
            Some(lane) => Some(CsrRow::from_lane(lane)),
            None => None,
        }
    }

    /// Returns the entry at a row and a column, or `Zero` if none is stored. Both indices must be within bounds. Binary
    /// search in the row.
    pub fn index_entry(&self, row_index: usize, col_index: usize) -> SparseEntry<'a, T>
        requires { IsInBounds self.now.pattern row_index col_index }
        ensures entry { IsEntryAt self.now row_index col_index result }
        ensures sound { IsSound self.now }
    {
        reading::index_entry(&self.arrays, row_index, col_index)
    }

    /// Returns the entry at a row and a column, `Zero` if none is stored, or `None` if an index is out of bounds.
    /// Binary search in the row.
    pub fn get_entry(&self, row_index: usize, col_index: usize) -> Option<SparseEntry<'a, T>>
        ensures entry { IsEntryOf self.now row_index col_index result }
        ensures sound { IsSound self.now }
    {
        reading::get_entry(&self.arrays, row_index, col_index)
    }
}

impl<'a, T: Copy> CsrView<'a, T> {
    /// Returns a matrix with copies of the arrays, which are not checked again.
    ///
    /// Linear in the number of rows and entries; the memory is the result's. Fails only if an allocation fails.
    pub fn to_csr(&self, alloc: Global) -> Result<CsrMatrix<T>, AllocError>
        ensures { IfOk result (λ m. m ≡ self.now) }
    {
        Ok(CsrMatrix::from_cs(reading::to_matrix(&self.arrays, alloc)?))
    }
}

impl<'a, T: Ring> CsrView<'a, T> {
    /// Returns the dot product of a row and a dense vector: the sum over the entries of the row of the value times the
    /// element of `x` at its column.
    ///
    /// `row_index` must be less than `nrows()`, and `x` must have `ncols()` elements.
    ///
    /// One multiplication for each entry of the row. Allocates nothing.
    ///
    /// # Examples
    ///
    /// ```rust
    /// fn a_borrowed_row_is_multiplied() -> Result<bool, Fail> {
    ///     let values = [4, 5, 6].map(W64::new);
    ///     let view = CsrView::try_from_csr_data(2, 3, &[0, 2, 3], &[0, 2, 1], &values)?;
    ///     Ok(view.dot_row(0, &[1, 2, 3].map(W64::new)) == W64::new(19))
    /// }
    /// ```
    pub fn dot_row(&self, row_index: usize, x: &[T]) -> T
        requires row { row_index < self.now.pattern.major_dim }
        requires fits { length x.now ≡ self.now.pattern.minor_dim }
        ensures product { T.value result ≡ sum_below T.ring self.now.pattern.minor_dim
            (λ k. T.ring.mul ((plain_of_rows T.ring T.value self.now).value row_index k)
            (elements T.ring T.value T.zero_value x.now k)) }
        ensures sound { IsSound self.now }
    {
        reading::dot_lane(&self.arrays, row_index, x)
    }
}

impl<'a, T> Clone for CsrView<'a, T> {
    ghost is_clone = { λ s t. t ≡ s };

    ghost is_infallible = { λ _. ⊤ };

    fn clone(&self) -> Result<CsrView<'a, T>, AllocError> {
        Ok(CsrView {
            arrays: self.arrays.clone()?,
        })
    }
}

// Returns the error that reports a fault, with the message of `CsrMatrix::try_from_csr_data`.
fn error_of(fault: SortedFault) -> SparseFormatError
    ensures { result ≡ sorted_kind fault }
{
    let message = match fault {
        SortedFault::Pattern(SparsityPatternFormatError::InvalidOffsetArrayLength) => {
            "Length of row offset array is not equal to nrows + 1."
        }
        SortedFault::Pattern(SparsityPatternFormatError::InvalidOffsetFirstLast) => {
            "First or last row offset is inconsistent with format specification."
        }
        SortedFault::Pattern(SparsityPatternFormatError::NonmonotonicOffsets) => {
            "Row offsets are not monotonically increasing."
        }
        SortedFault::Pattern(SparsityPatternFormatError::NonmonotonicMinorIndices) => {
            "Column indices are not monotonically increasing (sorted) within each row."
        }
        SortedFault::Pattern(SparsityPatternFormatError::MinorIndexOutOfBounds) => {
            "Column indices are out of bounds."
        }
        SortedFault::Pattern(SparsityPatternFormatError::DuplicateEntry) => {
            "Matrix data contains duplicate entries."
        }
        SortedFault::ValueCount => "Number of values and column indices must be the same",
    };
    SparseFormatError::new(fault.kind(), message)
}
