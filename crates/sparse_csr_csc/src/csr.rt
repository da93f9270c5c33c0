//! Matrices in compressed sparse row format.

ghost use Rattle.std.specs.Prelude.{◌≡◌, [], length, IfOk};
ghost use Rattle.sparse_pattern.specs.Raw.{empty_raw};
ghost use Rattle.sparse_compressed.specs.Compressed.{compressed_of, IsSound};

mod constructors;
mod data;
mod filter;
mod operators;
mod reading;
mod transpose;
mod writing;

use crate::csc::CscMatrix;
use sparse_algebra::recall;
use sparse_compressed::CsMatrix;
use sparse_pattern::pattern::SparsityPattern;
pub use sparse_rows_cols::row::{CsrRow, CsrRowIter};
pub use sparse_rows_cols::row_mut::{CsrRowIterMut, CsrRowMut};
pub use sparse_rows_cols::row_triplets::{CsrTripletIter, CsrTripletIterMut, CsrTripletValues};
use std::alloc::{AllocError, Global};
use std::marker::Model;

/// A sparse matrix in compressed sparse row (CSR) format.
///
/// The column indices of each row are strictly increasing. The value of an entry may be zero.
///
/// # Examples
///
/// ```rust
/// fn sorted_arrays_become_rows(alloc: Global) -> Result<bool, Fail> {
///     let offsets = Vec::from_slice(alloc, &[0, 2, 3])?;
///     let columns = Vec::from_slice(alloc, &[0, 2, 1])?;
///     let values = Vec::from_slice(alloc, &[4, 5, 6])?;
///     let matrix = CsrMatrix::try_from_csr_data(2, 3, offsets, columns, values)?;
///     Ok(matrix.get_entry(0, 2) == Some(SparseEntry::NonZero(&5)))
/// }
/// ```
#[derive(Debug, Drop)]
pub struct CsrMatrix<T> {
    cs: CsMatrix<T>,
}

impl<T> Model for CsrMatrix<T> {
    ghost use Rattle.sparse_compressed.specs.Compressed.{Compressed, compressed_code};

    ghost Value = { Compressed T };

    ghost coded = { compressed_code T.code };

    ghost view = { λ m. m.cs };
}

impl<T> CsrMatrix<T> {
    /// Returns the matrix whose rows are the lanes of `cs`.
    ///
    /// For the crates of this library.
    #[doc(hidden)]
    pub fn from_cs(cs: CsMatrix<T>) -> Self
        ensures { result ≡ cs }
    {
        CsrMatrix { cs }
    }

    /// Returns the underlying storage, whose lanes are the rows.
    ///
    /// For the crates of this library.
    #[doc(hidden)]
    pub fn cs(&self) -> &CsMatrix<T>
        ensures core { result.now ≡ self.now }
    {
        &self.cs
    }

    // Tells the prover that the matrix is sound. Costs nothing: it reads no element.
    fn show_sound(&self)
        ensures sound { IsSound self.now }
    {
        recall(self.cs.values());
    }

    /// Returns a matrix without entries. Allocates `nrows + 1` offsets, and fails only if that allocation fails.
    pub fn zeros(alloc: Global, nrows: usize, ncols: usize) -> Result<Self, AllocError>
        ensures is { IfOk result (λ m. m ≡ compressed_of (empty_raw nrows ncols) []) }
        ensures sound { IfOk result IsSound }
    {
        Ok(CsrMatrix {
            cs: CsMatrix::zeros(alloc, nrows, ncols)?,
        })
    }

    /// Returns the row offsets, the column indices and the values, and consumes the matrix.
    pub fn disassemble(self) -> (Vec<usize>, Vec<usize>, Vec<T>)
        ensures offsets { result.0.items ≡ self.pattern.offsets }
        ensures indices { result.1.items ≡ self.pattern.indices }
        ensures values { result.2.items ≡ self.values }
        ensures sound { IsSound self }
    {
        self.into_cs().disassemble()
    }

    /// Returns the pattern and the values, and consumes the matrix.
    pub fn into_pattern_and_values(self) -> (SparsityPattern, Vec<T>)
        ensures pattern { result.0 ≡ self.pattern }
        ensures values { result.1.items ≡ self.values }
        ensures sound { IsSound self }
    {
        self.into_cs().into_pattern_and_values()
    }

    /// Returns the transpose in CSC format, and consumes the matrix. The arrays are reused: constant time, and nothing
    /// is allocated.
    pub fn transpose_as_csc(self) -> CscMatrix<T>
        ensures { result ≡ self }
    {
        CscMatrix::from_cs(self.into_cs())
    }

    fn into_cs(self) -> CsMatrix<T>
        ensures { result ≡ self }
    {
        let CsrMatrix { cs } = self;
        cs
    }

    /// Returns the number of rows.
    pub fn nrows(&self) -> usize
        ensures { result ≡ self.now.pattern.major_dim }
    {
        self.cs.pattern().major_dim()
    }

    /// Returns the number of columns.
    pub fn ncols(&self) -> usize
        ensures { result ≡ self.now.pattern.minor_dim }
    {
        self.cs.pattern().minor_dim()
    }

    /// Returns the number of entries, including those whose value is zero.
    pub fn nnz(&self) -> usize
        ensures count { result ≡ length self.now.values }
        ensures sound { IsSound self.now }
    {
        self.cs.values().len()
    }
}

impl<T: Copy> CsrMatrix<T> {
    /// Returns a copy. Fails only if an allocation fails.
    pub fn clone(&self, alloc: Global) -> Result<Self, AllocError>
        ensures { IfOk result (λ m. m ≡ self.now) }
    {
        Ok(CsrMatrix {
            cs: self.cs.clone(alloc)?,
        })
    }
}

impl<T: PartialEq> PartialEq for CsrMatrix<T> {
    ghost use Rattle.sparse_compressed.specs.Compressed.{compressed_eq};
    ghost use Rattle.sparse_compressed.specs.Laws.{compressed_eq-laws};

    ghost eq = { compressed_eq T.eq };

    ghost laws = { compressed_eq-laws T.laws };

    fn eq(&self, other: &Self) -> bool {
        self.cs == other.cs
    }
}

impl<T: Eq> Eq for CsrMatrix<T> {
    ghost use Rattle.sparse_compressed.specs.Laws.{compressed_eq-equiv};

    ghost laws = { compressed_eq-equiv T.Eq.laws };
}
