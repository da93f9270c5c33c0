//! What tasks are given: the list in a file, and its rows or columns.

use nalgebra_sparse::convert::serial::{convert_coo_csc, convert_coo_csr};
use nalgebra_sparse::io::load_coo_from_matrix_market_str;
use nalgebra_sparse::scalar::W64;
use nalgebra_sparse::{CooMatrix, CscMatrix, CsrMatrix};
use std::alloc::{AllocError, Global};
use std::fs;
use std::test::Fail;

/// Returns the list in a file. That of a pattern has ones as its values.
pub fn list_in(rt: &HostRuntime, path: &str) -> Result<CooMatrix<W64>, Fail> {
    let text = fs::read_to_string(rt, path)?;
    list_of(rt.alloc(), text.as_str())
}

fn list_of(alloc: Global, text: &str) -> Result<CooMatrix<W64>, Fail> {
    if is_pattern(text) {
        return ones_at(alloc, &load_coo_from_matrix_market_str(alloc, text)?);
    }
    Ok(load_coo_from_matrix_market_str(alloc, text)?)
}

/// Returns whether the header of a text is that of a pattern.
pub fn is_pattern(text: &str) -> bool {
    match text.split_once('\n') {
        Some((header, _)) => header.contains("pattern"),
        None => false,
    }
}

// The entries of a list, each with the value one.
fn ones_at(alloc: Global, places: &CooMatrix<()>) -> Result<CooMatrix<W64>, Fail> {
    let rows = Vec::from_slice(alloc, places.row_indices())?;
    let cols = Vec::from_slice(alloc, places.col_indices())?;
    let ones = vec![in alloc; W64::new(1); places.nnz()]?;
    Ok(CooMatrix::try_from_triplets(places.nrows(), places.ncols(), rows, cols, ones)?)
}

/// Returns the rows of a list, which is dropped.
pub fn rows_of(alloc: Global, list: CooMatrix<W64>) -> Result<CsrMatrix<W64>, AllocError> {
    convert_coo_csr(alloc, &list)
}

/// Returns the columns of a list, which is dropped.
pub fn columns_of(alloc: Global, list: CooMatrix<W64>) -> Result<CscMatrix<W64>, AllocError> {
    convert_coo_csc(alloc, &list)
}
