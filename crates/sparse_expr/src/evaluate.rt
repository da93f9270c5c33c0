//! The value of an expression over lists of triplets.

ghost use Rattle.std.specs.Prelude.{◌≡◌, Bool, Ok, IfOk, OnOk, map};
ghost use Rattle.std.specs.List.{AllZip};
ghost use Rattle.sparse_algebra.specs.Plain.{plain_negation};
ghost use Rattle.sparse_coo_dense.specs.CooPlain.{plain_of_coo};
ghost use Rattle.sparse_compressed.specs.PlainOfLanes.{plain_of_rows, plain_of_cols};
ghost use Rattle.sparse_expr.specs.Value.{value_of, Meets, sum_of, difference_of, product_of};
ghost use Rattle.sparse_expr.specs.InnerTransposed.{rows_or_transposed};
ghost use Rattle.sparse_expr.specs.InnerSources.{Provides};

use crate::error::ExprError;
use crate::expr::Expr;
use crate::sources::{Source, count_uses, empty_sources, input};
use sparse_algebra::scalar::Ring;
use sparse_coo_dense::coo::CooMatrix;
use sparse_csr_csc::csc::CscMatrix;
use sparse_csr_csc::csr::CsrMatrix;
use sparse_products::serial::mul_csr;
use sparse_sums::{add_csr, sub_csr};
use std::alloc::{AllocError, Global};
use std::rc::Rc;

/// Returns the value of an expression over inputs, as a CSR matrix.
///
/// Returns the first error, that of the left operand before that of the right one and of their operation: `NoSuchInput`
/// if no input has a number of the expression, `Shape` if the shapes of operands do not fit. Returns `OutOfMemory` if
/// an allocation fails.
///
/// Each input is converted at most twice, to CSR and to CSC, however often the expression names it, and a matrix is
/// dropped after its last use. Transposes cost nothing: an operand of a transpose is evaluated transposed, down to the
/// inputs, which are converted to CSC instead of CSR. The stack grows with the depth of the expression: 20,000 levels
/// fit in 8 MiB.
pub fn evaluate_rows<T: Ring>(
    alloc: Global,
    expr: &Expr,
    inputs: &[CooMatrix<T>],
) -> Result<CsrMatrix<T>, ExprError>
    ensures { Meets T.ring (λ m. plain_of_rows T.ring T.value m)
        (value_of T.ring (map (λ m. plain_of_coo T.ring T.value m) inputs.now) expr.now) result }
{
    value(alloc, expr, inputs, false)
}

/// Returns the value of an expression over inputs, as a CSC matrix, with the errors and the cost of [`evaluate_rows`].
pub fn evaluate_cols<T: Ring>(
    alloc: Global,
    expr: &Expr,
    inputs: &[CooMatrix<T>],
) -> Result<CscMatrix<T>, ExprError>
    ensures { Meets T.ring (λ m. plain_of_cols T.ring T.value m)
        (value_of T.ring (map (λ m. plain_of_coo T.ring T.value m) inputs.now) expr.now) result }
{
    match value(alloc, expr, inputs, true) {
        Ok(transposed) => Ok(transposed.transpose_as_csc()),
        Err(error) => Err(error),
    }
}

// The value of an expression as a CSR matrix, or that of its transpose if `transposed`.
fn value<T: Ring>(
    alloc: Global,
    expr: &Expr,
    inputs: &[CooMatrix<T>],
    transposed: bool,
) -> Result<CsrMatrix<T>, ExprError>
    ensures { Meets T.ring (rows_or_transposed T.ring T.value transposed)
        (value_of T.ring (map (λ m. plain_of_coo T.ring T.value m) inputs.now) expr.now) result }
{
    let mut sources = empty_sources(alloc, inputs)?;
    count_uses(expr, transposed, &mut sources);
    let matrix = evaluate(alloc, expr, inputs, transposed, &mut sources)?;
    Ok(owned(alloc, matrix)?)
}

// Returns the matrix itself if it is not shared, and a copy otherwise.
fn owned<T: Ring>(alloc: Global, matrix: Rc<CsrMatrix<T>>) -> Result<CsrMatrix<T>, AllocError>
    ensures is { IfOk result (λ m. m ≡ matrix.value) }
{
    match Rc::try_unwrap(matrix) {
        Ok(matrix) => Ok(matrix),
        Err(shared) => shared.as_ref().clone(alloc),
    }
}

// The value of an expression as a CSR matrix, or that of its transpose if `transposed`. The functions that it calls are
// not inlined, so that its stack frame stays small: it calls itself for each level of the expression.
#[tactic(auto, using(sparse_algebra::proofs::EarlyReturns::early_return))]
fn evaluate<T: Ring>(
    alloc: Global,
    expr: &Expr,
    inputs: &[CooMatrix<T>],
    transposed: bool,
    sources: &mut [Source<T>],
) -> Result<Rc<CsrMatrix<T>>, ExprError>
    requires provides { AllZip (Provides T.ring T.value) inputs.now sources.old }
    ensures met { Meets T.ring (λ m. rows_or_transposed T.ring T.value transposed m.value)
        (value_of T.ring (map (λ m. plain_of_coo T.ring T.value m) inputs.now) expr.now) result }
    ensures provides { OnOk result (AllZip (Provides T.ring T.value) inputs.now sources.new) }
{
    match expr {
        Expr::Input(number) => input(alloc, *number, inputs, transposed, sources),
        Expr::Add(a, b) => {
            let first = evaluate(alloc, a, inputs, transposed, sources)?;
            let second = evaluate(alloc, b, inputs, transposed, sources)?;
            sum(alloc, first, second)
        }
        Expr::Sub(a, b) => {
            let minuend = evaluate(alloc, a, inputs, transposed, sources)?;
            let subtrahend = evaluate(alloc, b, inputs, transposed, sources)?;
            difference(alloc, minuend, subtrahend)
        }
        Expr::Mul(a, b) => {
            let left = evaluate(alloc, a, inputs, transposed, sources)?;
            let right = evaluate(alloc, b, inputs, transposed, sources)?;
            product(alloc, left, right, transposed)
        }
        Expr::Transpose(a) => evaluate(alloc, a, inputs, !transposed, sources),
        Expr::Neg(a) => {
            let operand = evaluate(alloc, a, inputs, transposed, sources)?;
            negation(alloc, operand)
        }
    }
}

// The negation of a matrix, whose transpose is the negation of the transpose; in place if the matrix is not shared.
#[inline(never)]
fn negation<T: Ring>(alloc: Global, x: Rc<CsrMatrix<T>>) -> Result<Rc<CsrMatrix<T>>, ExprError>
    ensures { (transposed : Bool) → Meets T.ring (λ m. rows_or_transposed T.ring T.value transposed m.value)
        (Ok (plain_negation T.ring (rows_or_transposed T.ring T.value transposed x.value))) result }
{
    let negated = -owned(alloc, x)?;
    Ok(Rc::new(alloc, negated)?)
}

// The sum of two matrices, whose transpose is the sum of their transposes.
#[inline(never)]
fn sum<T: Ring>(
    alloc: Global,
    x: Rc<CsrMatrix<T>>,
    y: Rc<CsrMatrix<T>>,
) -> Result<Rc<CsrMatrix<T>>, ExprError>
    ensures { (transposed : Bool) → Meets T.ring (λ m. rows_or_transposed T.ring T.value transposed m.value)
        (sum_of T.ring (rows_or_transposed T.ring T.value transposed x.value)
        (rows_or_transposed T.ring T.value transposed y.value)) result }
{
    if x.nrows() != y.nrows() || x.ncols() != y.ncols() {
        return Err(ExprError::Shape);
    }
    Ok(Rc::new(alloc, add_csr(alloc, x.as_ref(), y.as_ref())?)?)
}

// The difference of two matrices, whose transpose is the difference of their transposes.
#[inline(never)]
fn difference<T: Ring>(
    alloc: Global,
    x: Rc<CsrMatrix<T>>,
    y: Rc<CsrMatrix<T>>,
) -> Result<Rc<CsrMatrix<T>>, ExprError>
    ensures { (transposed : Bool) → Meets T.ring (λ m. rows_or_transposed T.ring T.value transposed m.value)
        (difference_of T.ring (rows_or_transposed T.ring T.value transposed x.value)
        (rows_or_transposed T.ring T.value transposed y.value)) result }
{
    if x.nrows() != y.nrows() || x.ncols() != y.ncols() {
        return Err(ExprError::Shape);
    }
    Ok(Rc::new(alloc, sub_csr(alloc, x.as_ref(), y.as_ref())?)?)
}

// The product of two matrices. If `transposed`, they are the transposes of two operands, and the result is the
// transpose of the operands' product: the product of the matrices in reverse order.
#[inline(never)]
fn product<T: Ring>(
    alloc: Global,
    x: Rc<CsrMatrix<T>>,
    y: Rc<CsrMatrix<T>>,
    transposed: bool,
) -> Result<Rc<CsrMatrix<T>>, ExprError>
    ensures { Meets T.ring (λ m. rows_or_transposed T.ring T.value transposed m.value)
        (product_of T.ring (rows_or_transposed T.ring T.value transposed x.value)
        (rows_or_transposed T.ring T.value transposed y.value)) result }
{
    if transposed {
        multiply(alloc, y, x)
    } else {
        multiply(alloc, x, y)
    }
}

// The product of two matrices.
fn multiply<T: Ring>(
    alloc: Global,
    x: Rc<CsrMatrix<T>>,
    y: Rc<CsrMatrix<T>>,
) -> Result<Rc<CsrMatrix<T>>, ExprError>
    ensures { Meets T.ring (λ m. plain_of_rows T.ring T.value m.value)
        (product_of T.ring (plain_of_rows T.ring T.value x.value)
        (plain_of_rows T.ring T.value y.value)) result }
{
    if x.ncols() != y.nrows() {
        return Err(ExprError::Shape);
    }
    Ok(Rc::new(alloc, mul_csr(alloc, x.as_ref(), y.as_ref())?)?)
}
