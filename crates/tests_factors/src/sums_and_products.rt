//! Lists of triplets by rows and columns, and their products.

use crate::generated::{Generator, list};
use reference_models::products::{product_at, product_has};
use reference_models::sums::{has_triplet, sum_at};
use sparse_algebra::scalar::W64;
use sparse_convert::serial::{convert_coo_csc, convert_coo_csr};
use sparse_coo_dense::coo::CooMatrix;
use sparse_csr_csc::csr::CsrMatrix;
use sparse_products::serial::mul_csr;
use std::alloc::{AllocError, Global};

/// The offsets, the indices and the values of a compressed matrix.
#[derive(Drop)]
struct Arrays {
    offsets: Vec<usize>,
    indices: Vec<usize>,
    values: Vec<W64>,
}

impl Arrays {
    // No lane.
    fn new(alloc: Global) -> Result<Arrays, AllocError> {
        let mut offsets = Vec::new(alloc);
        offsets.push(0)?;
        Ok(Arrays {
            offsets,
            indices: Vec::new(alloc),
            values: Vec::new(alloc),
        })
    }

    // Whether a matrix has these arrays.
    fn are(&self, offsets: &[usize], indices: &[usize], values: &[W64]) -> bool {
        self.offsets.as_slice() == offsets
            && self.indices.as_slice() == indices
            && self.values.as_slice() == values
    }

    fn push(&mut self, index: usize, value: W64) -> Result<(), AllocError> {
        self.indices.push(index)?;
        self.values.push(value)?;
        Ok(())
    }

    // Ends a lane.
    fn end(&mut self) -> Result<(), AllocError> {
        self.offsets.push(self.indices.len())?;
        Ok(())
    }
}

fn push_row_of_list(
    arrays: &mut Arrays,
    coo: &CooMatrix<W64>,
    row: usize,
) -> Result<(), AllocError> {
    for col in 0..coo.ncols() {
        if has_triplet(coo, row, col) {
            arrays.push(col, sum_at(coo, row, col))?;
        }
    }
    arrays.end()
}

fn rows_of_list(alloc: Global, coo: &CooMatrix<W64>) -> Result<Arrays, AllocError> {
    let mut arrays = Arrays::new(alloc)?;
    for row in 0..coo.nrows() {
        push_row_of_list(&mut arrays, coo, row)?;
    }
    Ok(arrays)
}

fn push_column_of_list(
    arrays: &mut Arrays,
    coo: &CooMatrix<W64>,
    col: usize,
) -> Result<(), AllocError> {
    for row in 0..coo.nrows() {
        if has_triplet(coo, row, col) {
            arrays.push(row, sum_at(coo, row, col))?;
        }
    }
    arrays.end()
}

fn columns_of_list(alloc: Global, coo: &CooMatrix<W64>) -> Result<Arrays, AllocError> {
    let mut arrays = Arrays::new(alloc)?;
    for col in 0..coo.ncols() {
        push_column_of_list(&mut arrays, coo, col)?;
    }
    Ok(arrays)
}

// Whether a list is converted to its rows.
fn has_its_rows(alloc: Global, coo: &CooMatrix<W64>) -> Result<bool, AllocError> {
    let rows = rows_of_list(alloc, coo)?;
    let csr = convert_coo_csr(alloc, coo)?;
    Ok(rows.are(csr.row_offsets(), csr.col_indices(), csr.values()))
}

// Whether a list is converted to its columns.
fn has_its_columns(alloc: Global, coo: &CooMatrix<W64>) -> Result<bool, AllocError> {
    let columns = columns_of_list(alloc, coo)?;
    let csc = convert_coo_csc(alloc, coo)?;
    Ok(columns.are(csc.col_offsets(), csc.row_indices(), csc.values()))
}

// Whether the next list of this shape, of 12 triplets, is converted to its rows and to its columns.
fn next_list_is_converted(
    alloc: Global,
    generator: &mut Generator,
    sizes: (u8, u8),
) -> Result<bool, AllocError> {
    let coo = list(alloc, generator, sizes, 12)?;
    Ok(has_its_rows(alloc, &coo)? && has_its_columns(alloc, &coo)?)
}

#[test]
fn lists_by_rows_and_columns(rt: HostRuntime) {
    let mut generator = Generator::new(1);
    for &sizes in &[(1, 1), (3, 5), (5, 3), (4, 4), (0, 3), (3, 0), (200, 2)] {
        let is_converted = next_list_is_converted(rt.alloc(), &mut generator, sizes);
        assert!(rt; matches!(is_converted, Ok(true)));
    }
}

fn push_row_of_product(
    arrays: &mut Arrays,
    a: &CooMatrix<W64>,
    b: &CooMatrix<W64>,
    row: usize,
) -> Result<(), AllocError> {
    for col in 0..b.ncols() {
        if product_has(a, b, row, col) {
            arrays.push(col, product_at(a, b, row, col))?;
        }
    }
    arrays.end()
}

fn rows_of_product(
    alloc: Global,
    a: &CooMatrix<W64>,
    b: &CooMatrix<W64>,
) -> Result<Arrays, AllocError> {
    let mut arrays = Arrays::new(alloc)?;
    for row in 0..a.nrows() {
        push_row_of_product(&mut arrays, a, b, row)?;
    }
    Ok(arrays)
}

// The product of two matrices, or `None` where their shapes don't fit.
fn product_of(
    alloc: Global,
    left: &CsrMatrix<W64>,
    right: &CsrMatrix<W64>,
) -> Result<Option<CsrMatrix<W64>>, AllocError> {
    if left.ncols() != right.nrows() {
        return Ok(None);
    }
    Ok(Some(mul_csr(alloc, left, right)?))
}

// The product of two lists by rows, or `None` where their shapes don't fit.
fn product(
    alloc: Global,
    a: &CooMatrix<W64>,
    b: &CooMatrix<W64>,
) -> Result<Option<CsrMatrix<W64>>, AllocError> {
    let left = convert_coo_csr(alloc, a)?;
    let right = convert_coo_csr(alloc, b)?;
    product_of(alloc, &left, &right)
}

// Numbers of rows, of middle indices, of columns and of triplets. The rows of the last two products take hundreds of
// multiplications each, and their indices are read from several words of bits.
const SIZES: &[(u8, u8, u8, usize)] = &[
    (1, 1, 1, 8),
    (4, 3, 5, 8),
    (3, 5, 4, 8),
    (5, 5, 5, 8),
    (2, 0, 3, 8),
    (6, 20, 200, 300),
    (3, 7, 65, 400),
];

// Whether the product was made, and has as many columns and these rows.
fn product_is(
    made: Result<Option<CsrMatrix<W64>>, AllocError>,
    ncols: usize,
    rows: &Arrays,
) -> bool {
    match made {
        Ok(Some(csr)) => {
            csr.ncols() == ncols && rows.are(csr.row_offsets(), csr.col_indices(), csr.values())
        }
        Ok(None) | Err(AllocError) => false,
    }
}

// Whether the product of two lists by rows has as many columns as the second, and the rows of the slow product.
fn has_its_product(
    alloc: Global,
    a: &CooMatrix<W64>,
    b: &CooMatrix<W64>,
) -> Result<bool, AllocError> {
    let rows = rows_of_product(alloc, a, b)?;
    Ok(product_is(product(alloc, a, b), b.ncols(), &rows))
}

// Whether the next two lists of this shape have their product.
fn next_product_is_right(
    alloc: Global,
    generator: &mut Generator,
    (nrows, inner, ncols, count): (u8, u8, u8, usize),
) -> Result<bool, AllocError> {
    let a = list(alloc, generator, (nrows, inner), count)?;
    let b = list(alloc, generator, (inner, ncols), count)?;
    Ok(b.ncols() == usize::from(ncols) && has_its_product(alloc, &a, &b)?)
}

#[test]
fn products_by_rows(rt: HostRuntime) {
    let mut generator = Generator::new(2);
    for &sizes in SIZES {
        let is_right = next_product_is_right(rt.alloc(), &mut generator, sizes);
        assert!(rt; matches!(is_right, Ok(true)));
    }
}
