//! Conversion of CSC matrices from and to the data struct that `serde` reads and writes.

ghost use Rattle.std.specs.Prelude.{◌≡◌, IfOk, IfErr, IsOk, OnOk};
ghost use Rattle.sparse_compressed.specs.Compressed.{IsSound};
ghost use Rattle.sparse_compressed.specs.SortedFaults.{IsSortedRefusal};
ghost use Rattle.sparse_csr_csc.specs.CscData.{csc_in};

use super::CscMatrix;
use sparse_pattern::error::SparseFormatError;
use sparse_serde::CscData;
use std::alloc::{AllocError, Global};

impl<T> CscMatrix<T> {
    /// Returns the matrix of the data, or the error of its first fault, as [`CscMatrix::try_from_csc_data`] does.
    ///
    /// Linear in columns and entries. Allocates nothing. Invalid data is dropped.
    pub fn try_from_data(source: CscData<T>) -> Result<CscMatrix<T>, SparseFormatError>
    where
        T: Drop,
        ensures ok { IfOk result (λ m. m ≡ csc_in source) }
        ensures sound { OnOk result (IsSound (csc_in source)) }
        ensures fault { IfErr result (IsSortedRefusal (csc_in source)) }
        ensures accepted { IsSound (csc_in source) → IsOk result }
    {
        CscMatrix::try_from_csc_data(
            source.nrows,
            source.ncols,
            source.col_offsets,
            source.row_indices,
            source.values,
        )
    }

    /// Returns the shape and copies of the three arrays. Fails only if an allocation fails.
    ///
    /// # Examples
    ///
    /// ```rust
    /// fn data_becomes_the_same_columns(alloc: Global) -> Result<bool, Fail> {
    ///     let matrix = CscMatrix::<i32>::zeros(alloc, 1, 2)?;
    ///     let data = matrix.to_data(alloc)?;
    ///     Ok(data.ncols == 2 && CscMatrix::try_from_data(data)? == matrix)
    /// }
    /// ```
    pub fn to_data(&self, alloc: Global) -> Result<CscData<T>, AllocError>
    where
        T: Copy,
        ensures is { IfOk result (λ d. csc_in d ≡ self.now) }
        ensures sound { IsSound self.now }
    {
        Ok(CscData {
            nrows: self.nrows(),
            ncols: self.ncols(),
            col_offsets: Vec::from_slice(alloc, self.col_offsets())?,
            row_indices: Vec::from_slice(alloc, self.row_indices())?,
            values: Vec::from_slice(alloc, self.values())?,
        })
    }
}
