//! Conversion of CSR matrices from and to the data struct that `serde` reads and writes.

ghost use Rattle.std.specs.Prelude.{◌≡◌, IfOk, IfErr, IsOk, OnOk};
ghost use Rattle.sparse_compressed.specs.Compressed.{IsSound};
ghost use Rattle.sparse_compressed.specs.SortedFaults.{IsSortedRefusal};
ghost use Rattle.sparse_csr_csc.specs.CsrData.{csr_in};

use super::CsrMatrix;
use sparse_pattern::error::SparseFormatError;
use sparse_serde::CsrData;
use std::alloc::{AllocError, Global};

impl<T> CsrMatrix<T> {
    /// Returns the matrix of the data, or the error of its first fault, as [`CsrMatrix::try_from_csr_data`] does.
    ///
    /// Linear in rows and entries. Allocates nothing. Invalid data is dropped.
    pub fn try_from_data(source: CsrData<T>) -> Result<CsrMatrix<T>, SparseFormatError>
    where
        T: Drop,
        ensures ok { IfOk result (λ m. m ≡ csr_in source) }
        ensures sound { OnOk result (IsSound (csr_in source)) }
        ensures fault { IfErr result (IsSortedRefusal (csr_in source)) }
        ensures accepted { IsSound (csr_in source) → IsOk result }
    {
        CsrMatrix::try_from_csr_data(
            source.nrows,
            source.ncols,
            source.row_offsets,
            source.col_indices,
            source.values,
        )
    }

    /// Returns the shape and copies of the three arrays. Fails only if an allocation fails.
    ///
    /// # Examples
    ///
    /// ```rust
    /// fn data_becomes_the_same_rows(alloc: Global) -> Result<bool, Fail> {
    ///     let matrix = CsrMatrix::<i32>::zeros(alloc, 1, 2)?;
    ///     let data = matrix.to_data(alloc)?;
    ///     Ok(data.ncols == 2 && CsrMatrix::try_from_data(data)? == matrix)
    /// }
    /// ```
    pub fn to_data(&self, alloc: Global) -> Result<CsrData<T>, AllocError>
    where
        T: Copy,
        ensures is { IfOk result (λ d. csr_in d ≡ self.now) }
        ensures sound { IsSound self.now }
    {
        Ok(CsrData {
            nrows: self.nrows(),
            ncols: self.ncols(),
            row_offsets: Vec::from_slice(alloc, self.row_offsets())?,
            col_indices: Vec::from_slice(alloc, self.col_indices())?,
            values: Vec::from_slice(alloc, self.values())?,
        })
    }
}
