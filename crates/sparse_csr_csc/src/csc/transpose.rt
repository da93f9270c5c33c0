//! The transpose of a CSC matrix, in the same format.

ghost use Rattle.std.specs.Prelude.{IfOk};
ghost use Rattle.sparse_compressed.specs.Compressed.{IsSound};
ghost use Rattle.sparse_compressed.specs.TransposedMatrix.{IsTranspose};

use super::CscMatrix;
use std::alloc::{AllocError, Global};

impl<T: Copy> CscMatrix<T> {
    /// Returns the transpose in CSC format: its value at (j, i) is the value of this matrix at (i, j). Stored zeros
    /// stay stored.
    ///
    /// A counting sort: linear in the number of entries, columns and rows. Beside the result it allocates one counter
    /// for each column of the result. Fails only if an allocation fails.
    pub fn transpose(&self, alloc: Global) -> Result<Self, AllocError>
        ensures transposed { IfOk result (IsTranspose self.now) }
        ensures sound { IfOk result IsSound }
    {
        Ok(CscMatrix {
            cs: self.cs.transpose(alloc)?,
        })
    }
}
