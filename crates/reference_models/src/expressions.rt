//! The value of an expression, one operation after another.

ghost use Rattle.std.specs.Prelude.{◌≡◌, Ok, map};
ghost use Rattle.sparse_algebra.specs.Plain.{plain_transpose, plain_negation, IsWithin};
ghost use Rattle.sparse_coo_dense.specs.CooPlain.{plain_of_coo};
ghost use Rattle.sparse_expr.specs.Value.{value_of, input_at, Meets, sum_of, difference_of};
ghost use Rattle.sparse_expr.specs.Value.{product_of};

use crate::expressions::operation::{Operation, tabulated};
use sparse_algebra::laws::within_law;
use sparse_algebra::recall;
use sparse_algebra::scalar::Ring;
use sparse_coo_dense::coo::CooMatrix;
use sparse_expr::{Expr, ExprError};
use std::alloc::Global;

mod operation;

/// Returns the value of an expression over inputs, as a list that has each entry once, row after row.
///
/// The left operand comes before the right one, and both before their shapes. It converts an input each time it is
/// named, keeps each operand as a list, and looks at every pair of each result. The stack grows with the depth of the
/// expression.
///
/// # Errors
///
/// Returns `NoSuchInput` for a number of no input, `Shape` where shapes do not fit, and `OutOfMemory` if an allocation
/// fails.
pub fn expression_value<T: Ring>(
    alloc: Global,
    expr: &Expr,
    inputs: &[CooMatrix<T>],
) -> Result<CooMatrix<T>, ExprError>
    ensures { Meets T.ring (plain_of_coo T.ring T.value)
        (value_of T.ring (map (plain_of_coo T.ring T.value) inputs.now) expr.now) result }
{
    match expr {
        Expr::Input(number) => input(alloc, *number, inputs),
        Expr::Add(a, b) => {
            let first = expression_value(alloc, a, inputs)?;
            let second = expression_value(alloc, b, inputs)?;
            sum(alloc, &first, &second)
        }
        Expr::Sub(a, b) => {
            let minuend = expression_value(alloc, a, inputs)?;
            let subtrahend = expression_value(alloc, b, inputs)?;
            difference(alloc, &minuend, &subtrahend)
        }
        Expr::Mul(a, b) => {
            let left = expression_value(alloc, a, inputs)?;
            let right = expression_value(alloc, b, inputs)?;
            product(alloc, &left, &right)
        }
        Expr::Transpose(a) => {
            let matrix = expression_value(alloc, a, inputs)?;
            transpose(alloc, &matrix)
        }
        Expr::Neg(a) => {
            let operand = expression_value(alloc, a, inputs)?;
            negation(alloc, &operand)
        }
    }
}

// The input of this number, counted from 1.
fn input<T: Ring>(
    alloc: Global,
    number: usize,
    inputs: &[CooMatrix<T>],
) -> Result<CooMatrix<T>, ExprError>
    ensures { Meets T.ring (plain_of_coo T.ring T.value)
        (input_at T.ring (map (plain_of_coo T.ring T.value) inputs.now) number) result }
{
    if number == 0 || number > inputs.len() {
        return Err(ExprError::NoSuchInput);
    }
    let list = &inputs[number - 1];
    let _ = size(list);
    Ok(tabulated(alloc, &Operation::Entries(list))?)
}

fn sum<T: Ring>(
    alloc: Global,
    a: &CooMatrix<T>,
    b: &CooMatrix<T>,
) -> Result<CooMatrix<T>, ExprError>
    ensures { Meets T.ring (plain_of_coo T.ring T.value)
        (sum_of T.ring (plain_of_coo T.ring T.value a.now) (plain_of_coo T.ring T.value b.now))
        result }
{
    let (a_size, b_size) = (size(a), size(b));
    if a_size.0 != b_size.0 || a_size.1 != b_size.1 {
        return Err(ExprError::Shape);
    }
    Ok(tabulated(alloc, &Operation::Sum(a, b))?)
}

fn difference<T: Ring>(
    alloc: Global,
    a: &CooMatrix<T>,
    b: &CooMatrix<T>,
) -> Result<CooMatrix<T>, ExprError>
    ensures { Meets T.ring (plain_of_coo T.ring T.value)
        (difference_of T.ring (plain_of_coo T.ring T.value a.now)
        (plain_of_coo T.ring T.value b.now)) result }
{
    let (a_size, b_size) = (size(a), size(b));
    if a_size.0 != b_size.0 || a_size.1 != b_size.1 {
        return Err(ExprError::Shape);
    }
    Ok(tabulated(alloc, &Operation::Difference(a, b))?)
}

fn product<T: Ring>(
    alloc: Global,
    a: &CooMatrix<T>,
    b: &CooMatrix<T>,
) -> Result<CooMatrix<T>, ExprError>
    ensures { Meets T.ring (plain_of_coo T.ring T.value)
        (product_of T.ring (plain_of_coo T.ring T.value a.now)
        (plain_of_coo T.ring T.value b.now)) result }
{
    let (a_size, b_size) = (size(a), size(b));
    if a_size.1 != b_size.0 {
        return Err(ExprError::Shape);
    }
    within_law::<T>();
    Ok(tabulated(alloc, &Operation::Product(a, b))?)
}

fn transpose<T: Ring>(alloc: Global, a: &CooMatrix<T>) -> Result<CooMatrix<T>, ExprError>
    ensures { Meets T.ring (plain_of_coo T.ring T.value)
        (Ok (plain_transpose T.ring (plain_of_coo T.ring T.value a.now))) result }
{
    let _ = size(a);
    Ok(tabulated(alloc, &Operation::Transpose(a))?)
}

fn negation<T: Ring>(alloc: Global, a: &CooMatrix<T>) -> Result<CooMatrix<T>, ExprError>
    ensures { Meets T.ring (plain_of_coo T.ring T.value)
        (Ok (plain_negation T.ring (plain_of_coo T.ring T.value a.now))) result }
{
    let _ = size(a);
    Ok(tabulated(alloc, &Operation::Negation(a))?)
}

// The number of rows and that of columns.
fn size<T: Ring>(list: &CooMatrix<T>) -> (usize, usize)
    ensures rows { result.0 ≡ list.now.nrows }
    ensures cols { result.1 ≡ list.now.ncols }
    ensures within { IsWithin (plain_of_coo T.ring T.value list.now) }
{
    recall(list.col_indices());
    within_law::<T>();
    (list.nrows(), list.ncols())
}
