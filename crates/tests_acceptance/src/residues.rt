//! Conversions and products over a user's own residues.

use crate::residue7::Residue7;
use nalgebra_sparse::convert::serial::convert_coo_csr;
use nalgebra_sparse::ops::serial::{mul_csr, spmm_csr_pattern};
use nalgebra_sparse::scalar::{Ring, Zero};
use nalgebra_sparse::{CooMatrix, CsrMatrix};
use std::alloc::Global;
use std::test::Fail;

// A residue with a tag that no operation returns.
fn residue(number: u64) -> Residue7 {
    Residue7::new(number, 9)
}

// The row `3 0`, whose last value is the sum of 5 and 9.
fn row(alloc: Global) -> Result<CsrMatrix<Residue7>, Fail> {
    let mut list = CooMatrix::new(alloc, 1, 2);
    list.push(0, 1, residue(5))?;
    list.push(0, 0, residue(3))?;
    list.push(0, 1, residue(9))?;
    Ok(convert_coo_csr(alloc, &list)?)
}

// The column `4 6`.
fn column(alloc: Global) -> Result<CsrMatrix<Residue7>, Fail> {
    let mut list = CooMatrix::new(alloc, 2, 1);
    list.push(0, 0, residue(4))?;
    list.push(1, 0, residue(6))?;
    Ok(convert_coo_csr(alloc, &list)?)
}

// Whether a sum that is zero is stored.
fn a_sum_of_zero_stays(row: &CsrMatrix<Residue7>) -> bool {
    row.col_indices() == [0, 1].as_slice() && row.values() == [residue(10), residue(0)].as_slice()
}

// Whether the row times the column is 5, the only entry of the product's pattern.
fn a_row_times_a_column(
    alloc: Global,
    row: &CsrMatrix<Residue7>,
    column: &CsrMatrix<Residue7>,
) -> Result<bool, Fail> {
    if row.ncols() != column.nrows() {
        return Ok(false);
    }
    let product = mul_csr(alloc, row, column)?;
    let pattern = spmm_csr_pattern(alloc, row.pattern(), column.pattern())?;
    Ok(*product.pattern() == pattern && product.values() == [residue(5)].as_slice())
}

#[test]
fn a_user_scalar(rt: HostRuntime) -> Result<(), Fail> {
    let row = row(rt.alloc())?;
    assert!(rt; a_sum_of_zero_stays(&row));
    assert!(rt; a_row_times_a_column(rt.alloc(), &row, &column(rt.alloc())?)?);
    let three = residue(3);
    assert!(rt; three.add(three.neg()) == Residue7::zero());
    assert!(rt; three.mul(Residue7::one()) == three);
    Ok(())
}
