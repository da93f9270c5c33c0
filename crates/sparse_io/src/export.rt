//! Matrices that can be written in Matrix Market format.

ghost use Rattle.std.specs.Prelude.{◌≡◌, length};
ghost use Rattle.std.specs.Iterator.{YieldsFirstBy, item_count};

use sparse_coo_dense::coo::{CooMatrix, CooTripletIter};
use sparse_csr_csc::csc::{CscMatrix, CscTripletIter};
use sparse_csr_csc::csr::{CsrMatrix, CsrTripletIter};

/// A matrix that can be written in Matrix Market format.
pub trait MatrixMarketExport<T> {
    ghost use Rattle.sparse_coo_dense.specs.Coo.{Coo, IsInside};
    ghost use Rattle.sparse_io.specs.Export.{triplets_left};

    // The shape, and the triplets in the order in which they are written.
    ghost exported: { Self → Coo T };

    /// Returns an iterator over the triplets, in the order of the matrix's format.
    fn triplet_iter(&self) -> ExportIter<'_, T>
        ensures all { triplets_left result ≡ (exported self.now).triplets }
        ensures inside { IsInside (exported self.now) };

    /// Returns the number of rows.
    fn nrows(&self) -> usize
        ensures { result ≡ (exported self.now).nrows };

    /// Returns the number of columns.
    fn ncols(&self) -> usize
        ensures { result ≡ (exported self.now).ncols };

    /// Returns the number of triplets.
    fn nnz(&self) -> usize
        ensures { result ≡ length (exported self.now).triplets };
}

/// An iterator over the triplets of a matrix, in the order of its format.
#[derive(Drop)]
pub enum ExportIter<'a, T> {
    /// The triplets of a list, in the order of pushing.
    Coo(CooTripletIter<'a, T>),
    /// The triplets of a matrix by rows, row after row.
    Csr(CsrTripletIter<'a, T>),
    /// The triplets of a matrix by columns, column after column.
    Csc(CscTripletIter<'a, T>),
}

impl<'a, T> Iterator for ExportIter<'a, T> {
    ghost use Rattle.sparse_io.specs.Export.{triplets_left};

    type Item = (usize, usize, &'a T);

    ghost next_gives = { YieldsFirstBy (λ x. (x.0, x.1, x.2.now)) triplets_left };

    ghost remaining = { item_count triplets_left };

    #[inline(always)]
    fn next(&mut self) -> Option<(usize, usize, &'a T)> {
        match self {
            ExportIter::Coo(triplets) => triplets.next(),
            ExportIter::Csr(triplets) => triplets.next(),
            ExportIter::Csc(triplets) => triplets.next(),
        }
    }
}

impl<T> MatrixMarketExport<T> for CooMatrix<T> {
    ghost exported = { λ m. m };

    fn triplet_iter(&self) -> ExportIter<'_, T> {
        ExportIter::Coo(CooMatrix::triplet_iter(self))
    }

    fn nrows(&self) -> usize {
        CooMatrix::nrows(self)
    }

    fn ncols(&self) -> usize {
        CooMatrix::ncols(self)
    }

    fn nnz(&self) -> usize {
        CooMatrix::nnz(self)
    }
}

impl<T> MatrixMarketExport<T> for CsrMatrix<T> {
    ghost use Rattle.sparse_coo_dense.specs.Coo.{coo_of};
    ghost use Rattle.sparse_compressed.specs.Compressed.{lane_triplets};

    ghost exported = { λ m. coo_of m.pattern.major_dim m.pattern.minor_dim (lane_triplets m) };

    fn triplet_iter(&self) -> ExportIter<'_, T> {
        ExportIter::Csr(CsrMatrix::triplet_iter(self))
    }

    fn nrows(&self) -> usize {
        CsrMatrix::nrows(self)
    }

    fn ncols(&self) -> usize {
        CsrMatrix::ncols(self)
    }

    fn nnz(&self) -> usize {
        CsrMatrix::nnz(self)
    }
}

impl<T> MatrixMarketExport<T> for CscMatrix<T> {
    ghost use Rattle.std.specs.Prelude.{map};
    ghost use Rattle.sparse_coo_dense.specs.Coo.{coo_of};
    ghost use Rattle.sparse_compressed.specs.Compressed.{lane_triplets, transposed};

    ghost exported = { λ m. coo_of m.pattern.minor_dim m.pattern.major_dim
        (map transposed (lane_triplets m)) };

    fn triplet_iter(&self) -> ExportIter<'_, T> {
        ExportIter::Csc(CscMatrix::triplet_iter(self))
    }

    fn nrows(&self) -> usize {
        CscMatrix::nrows(self)
    }

    fn ncols(&self) -> usize {
        CscMatrix::ncols(self)
    }

    fn nnz(&self) -> usize {
        CscMatrix::nnz(self)
    }
}
