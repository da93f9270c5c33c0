//! What the programs of README.md and docs/TUTORIAL.md call. `.ci/examples` runs the programs.

use nalgebra_sparse::convert::serial::convert_coo_csr;
use nalgebra_sparse::io::{load_coo_from_matrix_market_file, save_to_matrix_market_str};
use nalgebra_sparse::ops::serial::mul_csr;
use nalgebra_sparse::scalar::W64;
use nalgebra_sparse::{CooMatrix, CsrMatrix};
use std::alloc::{AllocError, Global};
use std::test::Fail;

fn square(alloc: Global) -> Result<CsrMatrix<W64>, AllocError> {
    let mut list = CooMatrix::new(alloc, 2, 2);
    list.push(0, 0, W64::new(1))?;
    list.push(0, 1, W64::new(2))?;
    list.push(1, 1, W64::new(3))?;
    let matrix = convert_coo_csr(alloc, &list)?;
    mul_csr(alloc, &matrix, &matrix)
}

fn print_square(rt: &HostRuntime) -> Result<(), Fail> {
    let square = square(rt.alloc())?;
    let text = save_to_matrix_market_str(rt.alloc(), &square)?;
    print!(rt; "{text}")?;
    Ok(())
}

fn gram_matrix(alloc: Global, list: &CooMatrix<W64>) -> Result<CsrMatrix<W64>, AllocError> {
    let matrix = convert_coo_csr(alloc, list)?;
    let transposed = matrix.transpose(alloc)?;
    mul_csr(alloc, &matrix, &transposed)
}

fn print_gram_matrix(rt: &HostRuntime, path: &str) -> Result<(), Fail> {
    let list = load_coo_from_matrix_market_file::<W64>(rt, path)?;
    let product = gram_matrix(rt.alloc(), &list)?;
    let text = save_to_matrix_market_str(rt.alloc(), &product)?;
    print!(rt; "{text}")?;
    Ok(())
}
