//! The matrices and the results of examples.

ghost use Rattle.std.specs.Prelude.{◌≡◌, IfOk};

use nalgebra_sparse::convert::serial::{convert_dense_csc, convert_dense_csr};
use nalgebra_sparse::dense::DMatrix;
use nalgebra_sparse::scalar::{Mod, W64};
use nalgebra_sparse::{CscMatrix, CsrMatrix};
use std::alloc::{AllocError, Global};
use std::process::Termination;
use std::test::Fail;

/// The matrix with these two rows modulo 7, without its zeros.
pub fn two_rows(alloc: Global, rows: &[u64; 4]) -> Result<CscMatrix<Mod<7>>, AllocError>
    ensures rows { IfOk result (λ m. m.pattern.minor_dim ≡ 2) }
    ensures cols { IfOk result (λ m. m.pattern.major_dim ≡ 2) }
{
    let dense = DMatrix::from_row_slice(alloc, 2, 2, &rows.map(Mod::new))?;
    convert_dense_csc(alloc, &dense)
}

/// The matrix with these three rows, without its zeros.
pub fn three_rows(alloc: Global, rows: &[i64; 9]) -> Result<CsrMatrix<W64>, AllocError>
    ensures rows { IfOk result (λ m. m.pattern.major_dim ≡ 3) }
    ensures cols { IfOk result (λ m. m.pattern.minor_dim ≡ 3) }
{
    let dense = DMatrix::from_row_slice(alloc, 3, 3, &rows.map(W64::new))?;
    convert_dense_csr(alloc, &dense)
}

/// Whether an example returned `true`. Its error is printed.
pub fn holds(rt: &HostRuntime, example: Result<bool, Fail>) -> bool {
    match example {
        Ok(held) => held,
        Err(error) => {
            let failed: Result<(), Fail> = Err(error);
            let _ = failed.report(rt);
            false
        }
    }
}
