//! Constructors of CSC matrices from arrays and from a pattern with values, and the identity.

ghost use Rattle.std.specs.Prelude.{◌≡◌, ◌≢◌, ◌⊎◌, length, IfOk, IfErr, IsOk, OnOk, IsOkUnless};
ghost use Rattle.sparse_algebra.specs.Plain.{plain_identity};
ghost use Rattle.sparse_compressed.specs.Compressed.{compressed_of, arrays_of, IsSound};
ghost use Rattle.sparse_compressed.specs.PlainOfLanes.{plain_of_cols};
ghost use Rattle.sparse_compressed.specs.SortedFaults.{IsSortedRefusal, sorted_kind};
ghost use Rattle.sparse_compressed.specs.UnsortedFaults.{NeedsSorting, HasNoFault, IsSortedForm};
ghost use Rattle.sparse_compressed.specs.UnsortedFaults.{IsUnsortedRefusal};

use super::CscMatrix;
use sparse_algebra::scalar::Ring;
use sparse_compressed::{CsMatrix, SortedFault};
use sparse_pattern::error::{SparseFormatError, SparseFormatErrorKind};
use sparse_pattern::pattern::{SparsityPattern, SparsityPatternFormatError};
use std::alloc::{AllocError, Global};

impl<T> CscMatrix<T> {
    /// Returns the matrix of a pattern, whose lanes are the columns, and its values. Nothing is checked.
    ///
    /// There must be one value for each entry of the pattern. Constant time. Allocates nothing.
    ///
    /// # Examples
    ///
    /// ```rust
    /// fn a_pattern_by_columns_takes_its_values_back(alloc: Global) -> Result<bool, Fail> {
    ///     let (pattern, values) = CscMatrix::<W64>::identity(alloc, 2)?.into_pattern_and_values();
    ///     let matrix = CscMatrix::from_pattern_and_values_unchecked(pattern, values);
    ///     Ok(matrix.row_indices() == [0, 1].as_slice())
    /// }
    /// ```
    pub fn from_pattern_and_values_unchecked(pattern: SparsityPattern, values: Vec<T>) -> Self
        requires { length values.items ≡ length pattern.indices }
        ensures is { result ≡ compressed_of pattern values.items }
        ensures sound { IsSound result }
    {
        CscMatrix {
            cs: CsMatrix::from_pattern_and_values(pattern, values),
        }
    }
}

impl<T: Drop> CscMatrix<T> {
    /// Returns the matrix with these arrays, whose columns must be sorted by row.
    ///
    /// Linear in the number of columns and entries. Allocates nothing.
    ///
    /// # Errors
    ///
    /// Returns the first fault: that of the offsets and indices, in the order of
    /// [`SparsityPattern::try_from_offsets_and_indices`], and then the number of values. The arrays are dropped.
    pub fn try_from_csc_data(
        nrows: usize,
        ncols: usize,
        col_offsets: Vec<usize>,
        row_indices: Vec<usize>,
        values: Vec<T>,
    ) -> Result<Self, SparseFormatError>
        ensures ok { IfOk result
            (λ m. m ≡ arrays_of ncols nrows col_offsets.items row_indices.items values.items) }
        ensures sound { IfOk result IsSound }
        ensures fault { IfErr result
            (IsSortedRefusal (arrays_of ncols nrows col_offsets.items row_indices.items
            values.items)) }
        ensures accepted { IsSound
            (arrays_of ncols nrows col_offsets.items row_indices.items values.items)
            → IsOk result }
    {
        match CsMatrix::try_from_sorted_arrays(ncols, nrows, col_offsets, row_indices, values) {
            Ok(cs) => Ok(CscMatrix { cs }),
            Err(fault) => Err(error_of(fault)),
        }
    }

    /// Returns the matrix of a pattern, whose lanes are the columns, and its values.
    ///
    /// Returns `InvalidStructure` if the number of values is not the number of entries; pattern and values are then
    /// dropped. Allocates nothing.
    pub fn try_from_pattern_and_values(
        pattern: SparsityPattern,
        values: Vec<T>,
    ) -> Result<Self, SparseFormatError>
        ensures ok { IfOk result (λ m. m ≡ compressed_of pattern values.items) }
        ensures sound { IfOk result IsSound }
        ensures fault { IfErr result (λ kind. (kind ≡ SparseFormatErrorKind.InvalidStructure)
            × (length values.items ≢ length pattern.indices)) }
        ensures accepted { length values.items ≡ length pattern.indices → IsOk result }
    {
        match CsMatrix::try_from_pattern_and_values(pattern, values) {
            Ok(cs) => Ok(CscMatrix { cs }),
            Err(fault) => Err(error_of(fault)),
        }
    }
}

// Returns the error that reports a fault, with a message that speaks of columns.
fn error_of(fault: SortedFault) -> SparseFormatError
    ensures { result ≡ sorted_kind fault }
{
    let message = match fault {
        SortedFault::Pattern(SparsityPatternFormatError::InvalidOffsetArrayLength) => {
            "Length of col offset array is not equal to ncols + 1."
        }
        SortedFault::Pattern(SparsityPatternFormatError::InvalidOffsetFirstLast) => {
            "First or last col offset is inconsistent with format specification."
        }
        SortedFault::Pattern(SparsityPatternFormatError::NonmonotonicOffsets) => {
            "Col offsets are not monotonically increasing."
        }
        SortedFault::Pattern(SparsityPatternFormatError::NonmonotonicMinorIndices) => {
            "Row indices are not monotonically increasing (sorted) within each column."
        }
        SortedFault::Pattern(SparsityPatternFormatError::MinorIndexOutOfBounds) => {
            "Row indices are out of bounds."
        }
        SortedFault::Pattern(SparsityPatternFormatError::DuplicateEntry) => {
            "Matrix data contains duplicate entries."
        }
        SortedFault::ValueCount => "Number of values and row indices must be the same",
    };
    SparseFormatError::new(fault.kind(), message)
}

impl<T: Ring> CscMatrix<T> {
    /// Returns the identity matrix of order `n`, with `n` stored ones, even in a ring where one equals zero. Fails only
    /// if an allocation fails.
    pub fn identity(alloc: Global, n: usize) -> Result<Self, AllocError>
        ensures plain { IfOk result
            (λ m. plain_of_cols T.ring T.value m ≡ plain_identity T.ring n) }
        ensures sound { IfOk result IsSound }
    {
        Ok(CscMatrix {
            cs: CsMatrix::identity(alloc, n)?,
        })
    }
}

impl<T: Copy> CscMatrix<T> {
    /// Returns the matrix with these arrays, whose columns need not be sorted. Each value moves with its row index.
    ///
    /// Columns that are already sorted take one pass and no memory. Other columns are sorted.
    ///
    /// # Errors
    ///
    /// Returns the first fault in this order: the number of values is not the number of row indices; there is no
    /// offset; the number of offsets; the first and the last offset; then for each column an end before its start, an
    /// end past the row indices, a row out of bounds, a row that occurs twice. The arrays are dropped. `OutOfMemory` is
    /// returned if an allocation fails, possibly before a later fault is found.
    ///
    /// # Examples
    ///
    /// ```rust
    /// fn unsorted_rows_are_sorted(alloc: Global) -> Result<bool, Fail> {
    ///     let offsets = Vec::from_slice(alloc, &[0, 2])?;
    ///     let rows = Vec::from_slice(alloc, &[2, 0])?;
    ///     let values = Vec::from_slice(alloc, &[5, 4])?;
    ///     let matrix = CscMatrix::try_from_unsorted_csc_data(alloc, 3, 1, offsets, rows, values)?;
    ///     Ok(matrix.values() == [4, 5].as_slice())
    /// }
    /// ```
    pub fn try_from_unsorted_csc_data(
        alloc: Global,
        nrows: usize,
        ncols: usize,
        col_offsets: Vec<usize>,
        row_indices: Vec<usize>,
        values: Vec<T>,
    ) -> Result<Self, SparseFormatError>
        ensures sorted { IfOk result
            (IsSortedForm (arrays_of ncols nrows col_offsets.items row_indices.items
            values.items)) }
        ensures no_fault { OnOk result
            (HasNoFault (arrays_of ncols nrows col_offsets.items row_indices.items values.items)) }
        ensures fault { IfErr result (λ kind. (kind ≡ SparseFormatErrorKind.OutOfMemory)
            ⊎ IsUnsortedRefusal (arrays_of ncols nrows col_offsets.items row_indices.items
            values.items) kind) }
        ensures memory { IfErr result (λ kind. kind ≡ SparseFormatErrorKind.OutOfMemory
            → NeedsSorting (arrays_of ncols nrows col_offsets.items row_indices.items
            values.items)) }
        ensures sound { IsSound
            (arrays_of ncols nrows col_offsets.items row_indices.items values.items)
            → IsOk result }
        ensures accepted { HasNoFault
            (arrays_of ncols nrows col_offsets.items row_indices.items values.items)
            → IsOkUnless result SparseFormatErrorKind.OutOfMemory }
    {
        match CsMatrix::try_from_unsorted_arrays(
            alloc,
            ncols,
            nrows,
            col_offsets,
            row_indices,
            values,
        ) {
            Ok(cs) => Ok(CscMatrix { cs }),
            Err(error) => Err(error),
        }
    }
}
