//! Conversions between triplet lists and their data struct.

ghost use Rattle.std.specs.Prelude.{◌≡◌, length, IfOk, IfErr, IsOk, OnOk};
ghost use Rattle.sparse_coo_dense.specs.TripletFaults.{IsFirstTripletFault};
ghost use Rattle.sparse_coo_dense.specs.CooData.{coo_in, IsCooData};

use super::CooMatrix;
use sparse_pattern::error::SparseFormatError;
use sparse_serde::CooData;
use std::alloc::{AllocError, Global};

impl<T> CooMatrix<T> {
    /// Returns the matrix of the data, or its first fault, as [`CooMatrix::try_from_triplets`] does.
    ///
    /// Linear in the number of triplets. Allocates nothing. Invalid data is dropped.
    pub fn try_from_data(source: CooData<T>) -> Result<CooMatrix<T>, SparseFormatError>
    where
        T: Drop,
        ensures ok { IfOk result (λ m. m ≡ coo_in source) }
        ensures valid { OnOk result (IsCooData source) }
        ensures fault { IfErr result (IsFirstTripletFault source.nrows source.ncols
            source.row_indices.items source.col_indices.items (length source.values.items)) }
        ensures accepted { IsCooData source → IsOk result }
    {
        CooMatrix::try_from_triplets(
            source.nrows,
            source.ncols,
            source.row_indices,
            source.col_indices,
            source.values,
        )
    }

    /// Returns the shape and copies of the three lists. Fails only if an allocation fails.
    ///
    /// # Examples
    ///
    /// ```rust
    /// fn data_becomes_the_same_list(alloc: Global) -> Result<bool, Fail> {
    ///     let mut matrix = CooMatrix::new(alloc, 1, 2);
    ///     matrix.push(0, 1, 5)?;
    ///     let data = matrix.to_data(alloc)?;
    ///     Ok(data.ncols == 2 && CooMatrix::try_from_data(data)? == matrix)
    /// }
    /// ```
    pub fn to_data(&self, alloc: Global) -> Result<CooData<T>, AllocError>
    where
        T: Copy,
        ensures is { IfOk result (λ d. coo_in d ≡ self.now) }
        ensures valid { IfOk result IsCooData }
    {
        Ok(CooData {
            nrows: self.nrows(),
            ncols: self.ncols(),
            row_indices: Vec::from_slice(alloc, self.row_indices())?,
            col_indices: Vec::from_slice(alloc, self.col_indices())?,
            values: Vec::from_slice(alloc, self.values())?,
        })
    }
}
