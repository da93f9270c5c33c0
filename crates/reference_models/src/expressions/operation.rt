//! The result of an operation on lists of triplets, pair by pair.

ghost use Rattle.std.specs.Prelude.{◌≡◌, ◌+◌, ◌<◌, IfOk, OnOk};
ghost use Rattle.sparse_algebra.specs.Plain.{IsWithin};
ghost use Rattle.sparse_coo_dense.specs.CooPlain.{plain_of_coo};
ghost use Rattle.reference_models.specs.InnerOperation.{plain_of_operation, Lists};

use crate::products::{product_at, product_has};
use crate::sums::{has_triplet, sum_at};
use sparse_algebra::scalar::Ring;
use sparse_coo_dense::coo::CooMatrix;
use std::alloc::{AllocError, Global};

/// An operation on lists of triplets.
#[derive(Drop)]
pub(crate) enum Operation<'a, T> {
    /// The list itself.
    Entries(&'a CooMatrix<T>),
    Sum(&'a CooMatrix<T>, &'a CooMatrix<T>),
    Difference(&'a CooMatrix<T>, &'a CooMatrix<T>),
    Product(&'a CooMatrix<T>, &'a CooMatrix<T>),
    Transpose(&'a CooMatrix<T>),
    Negation(&'a CooMatrix<T>),
}

impl<'a, T: Ring> Operation<'a, T> {
    // The number of rows of the result.
    fn nrows(&self) -> usize
        ensures { result ≡ (plain_of_operation T.ring T.value self.now).rows }
    {
        match self {
            Operation::Entries(a)
            | Operation::Sum(a, _)
            | Operation::Difference(a, _)
            | Operation::Product(a, _)
            | Operation::Negation(a) => a.nrows(),
            Operation::Transpose(a) => a.ncols(),
        }
    }

    // The number of columns of the result.
    fn ncols(&self) -> usize
        ensures { result ≡ (plain_of_operation T.ring T.value self.now).cols }
    {
        match self {
            Operation::Entries(a)
            | Operation::Sum(a, _)
            | Operation::Difference(a, _)
            | Operation::Negation(a) => a.ncols(),
            Operation::Product(_, b) => b.ncols(),
            Operation::Transpose(a) => a.nrows(),
        }
    }

    // Whether (i, j) is a place of the result.
    fn has(&self, i: usize, j: usize) -> bool
        ensures { result ≡ (plain_of_operation T.ring T.value self.now).has i j }
    {
        match self {
            Operation::Entries(a) | Operation::Negation(a) => has_triplet(a, i, j),
            Operation::Sum(a, b) | Operation::Difference(a, b) => {
                has_triplet(a, i, j) || has_triplet(b, i, j)
            }
            Operation::Product(a, b) => product_has(a, b, i, j),
            Operation::Transpose(a) => has_triplet(a, j, i),
        }
    }

    // The value of the result at (i, j).
    fn at(&self, i: usize, j: usize) -> T
        ensures { T.value result ≡ (plain_of_operation T.ring T.value self.now).value i j }
    {
        match self {
            Operation::Entries(a) => sum_at(a, i, j),
            Operation::Sum(a, b) => sum_at(a, i, j).add(sum_at(b, i, j)),
            Operation::Difference(a, b) => sum_at(a, i, j).add(sum_at(b, i, j).neg()),
            Operation::Product(a, b) => product_at(a, b, i, j),
            Operation::Transpose(a) => sum_at(a, j, i),
            Operation::Negation(a) => sum_at(a, i, j).neg(),
        }
    }
}

/// Returns the result of an operation, each entry once, row after row. All triplets must lie inside the shape.
pub(crate) fn tabulated<T: Ring>(
    alloc: Global,
    operation: &Operation<'_, T>,
) -> Result<CooMatrix<T>, AllocError>
    requires within { IsWithin (plain_of_operation T.ring T.value operation.now) }
    ensures is { IfOk result (λ list. plain_of_coo T.ring T.value list
        ≡ plain_of_operation T.ring T.value operation.now) }
{
    let mut list = CooMatrix::new(alloc, operation.nrows(), operation.ncols());
    for row in 0..operation.nrows() {
        push_row(&mut list, operation, row)?;
    }
    Ok(list)
}

// Appends the entries of a row in increasing order of columns.
fn push_row<T: Ring>(
    list: &mut CooMatrix<T>,
    operation: &Operation<'_, T>,
    row: usize,
) -> Result<(), AllocError>
    requires within { IsWithin (plain_of_operation T.ring T.value operation.now) }
    requires row { row < list.old.nrows }
    requires lists { Lists T.ring T.value (plain_of_operation T.ring T.value operation.now) row 0
        list.old }
    ensures lists { OnOk result (Lists T.ring T.value
        (plain_of_operation T.ring T.value operation.now) (row + 1) 0 list.new) }
{
    for col in 0..list.ncols() {
        if operation.has(row, col) {
            list.push(row, col, operation.at(row, col))?;
        }
    }
    Ok(())
}
