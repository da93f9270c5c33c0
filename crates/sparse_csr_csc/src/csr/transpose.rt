//! The transpose of a CSR matrix, in the same format.

ghost use Rattle.std.specs.Prelude.{IfOk};
ghost use Rattle.sparse_compressed.specs.Compressed.{IsSound};
ghost use Rattle.sparse_compressed.specs.TransposedMatrix.{IsTranspose};

use super::CsrMatrix;
use std::alloc::{AllocError, Global};

impl<T: Copy> CsrMatrix<T> {
    /// Returns the transpose in CSR format: its value at (j, i) is the value of this matrix at (i, j). Stored zeros
    /// stay stored.
    ///
    /// A counting sort: linear in the number of entries, rows and columns. Beside the result it allocates one counter
    /// for each row of the result. Fails only if an allocation fails.
    ///
    /// # Examples
    ///
    /// ```rust
    /// fn rows_become_columns(alloc: Global) -> Result<bool, Fail> {
    ///     let dense = DMatrix::from_row_slice(alloc, 1, 3, &[4, 0, 5])?;
    ///     let transpose = convert_dense_csr(alloc, &dense)?.transpose(alloc)?;
    ///     Ok(transpose.row_offsets() == [0, 1, 1, 2].as_slice())
    /// }
    /// ```
    pub fn transpose(&self, alloc: Global) -> Result<Self, AllocError>
        ensures transposed { IfOk result (IsTranspose self.now) }
        ensures sound { IfOk result IsSound }
    {
        Ok(CsrMatrix {
            cs: self.cs.transpose(alloc)?,
        })
    }
}
