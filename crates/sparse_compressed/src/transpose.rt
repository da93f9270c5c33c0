//! The transpose of a compressed matrix.

ghost use Rattle.std.specs.Prelude.{IfOk};
ghost use Rattle.sparse_compressed.specs.Compressed.{IsSound};
ghost use Rattle.sparse_compressed.specs.TransposedMatrix.{IsTranspose};

use crate::CsMatrix;
use std::alloc::{AllocError, Global};

impl<T: Copy> CsMatrix<T> {
    /// Returns the transpose: its value at (j, i) is the value of this matrix at (i, j). Stored zeros stay stored.
    ///
    /// A counting sort, or for most patterns that equal their transpose one pass over the entries: linear in entries,
    /// lanes and minor indices. Beside the result it allocates one counter for each lane of the result. Fails only if
    /// an allocation fails.
    pub fn transpose(&self, alloc: Global) -> Result<Self, AllocError>
        ensures transposed { IfOk result (IsTranspose self.now) }
        ensures sound { IfOk result IsSound }
    {
        let (transposed, values) = self.pattern().transpose_with(alloc, self.values())?;
        Ok(CsMatrix::from_pattern_and_values(transposed, values))
    }
}
