//! Round trips: a copy of the view of a matrix equals the matrix.

ghost use Rattle.std.specs.Prelude.{◌≡◌, IfOk};

use crate::{CooView, CscView, CsrView};
use sparse_coo_dense::coo::CooMatrix;
use sparse_csr_csc::csc::CscMatrix;
use sparse_csr_csc::csr::CsrMatrix;
use std::alloc::{AllocError, Global};

/// Returns a copy of the view of a CSR matrix. It equals the matrix.
pub fn csr_view_returns<T: Copy>(
    alloc: Global,
    matrix: &CsrMatrix<T>,
) -> Result<CsrMatrix<T>, AllocError>
    ensures { IfOk result (λ m. m ≡ matrix.now) }
{
    CsrView::of(matrix).to_csr(alloc)
}

/// Returns a copy of the view of a CSC matrix. It equals the matrix.
pub fn csc_view_returns<T: Copy>(
    alloc: Global,
    matrix: &CscMatrix<T>,
) -> Result<CscMatrix<T>, AllocError>
    ensures { IfOk result (λ m. m ≡ matrix.now) }
{
    CscView::of(matrix).to_csc(alloc)
}

/// Returns a copy of the view of a list. It equals the list, with its triplets in the same order.
pub fn coo_view_returns<T: Copy>(
    alloc: Global,
    matrix: &CooMatrix<T>,
) -> Result<CooMatrix<T>, AllocError>
    ensures { IfOk result (λ m. m ≡ matrix.now) }
{
    CooView::of(matrix).to_coo(alloc)
}
