//! The matrices of a product's operands, transposed where the operand says so.

ghost use Rattle.std.specs.Prelude.{◌≡◌, IsOk, IfOk, ⊤, true, false};
ghost use Rattle.sparse_algebra.specs.Plain.{plain_transpose};
ghost use Rattle.sparse_algebra.specs.Operands.{plain_op, MatchOp};
ghost use Rattle.sparse_compressed.specs.PlainOfLanes.{plain_of_rows, plain_of_cols};
ghost use Rattle.sparse_products.specs.InnerOperands.{matrix_of, HasProduct, AreMatricesOf};
ghost use Rattle.sparse_products.specs.Products.{product_by_rows, product_by_cols};
ghost use Rattle.sparse_products.specs.ScalarProducts.{IfNotTransposed};

use sparse_algebra::operand::Op;
use sparse_algebra::recall;
use sparse_algebra::scalar::Ring;
use sparse_compressed::CsMatrix;
use sparse_csr_csc::csc::CscMatrix;
use sparse_csr_csc::csr::CsrMatrix;
use std::alloc::{AllocError, Global};

// The two matrices of a product `a * b`, whose lanes are rows.
#[derive(Clone, Copy)]
pub(super) struct Matrices<'a, T> {
    pub(super) a: &'a CsMatrix<T>,
    pub(super) b: &'a CsMatrix<T>,
}

// The matrix of an operand, borrowed, or its transpose, owned.
#[derive(Drop)]
enum Multiplicand<'a, T> {
    Borrowed(&'a CsMatrix<T>),
    Owned(CsMatrix<T>),
}

impl<'a, T> Multiplicand<'a, T> {
    // Returns a reference to the matrix.
    fn matrix(&self) -> &CsMatrix<T>
        ensures { result.now ≡ matrix_of self.now }
    {
        match self {
            Multiplicand::Borrowed(matrix) => matrix,
            Multiplicand::Owned(matrix) => matrix,
        }
    }
}

// The matrices of the two operands of a product.
#[derive(Drop)]
pub(super) struct Operands<'a, T> {
    a: Multiplicand<'a, T>,
    b: Multiplicand<'a, T>,
}

impl<'a, T> Operands<'a, T> {
    // Returns references to the matrices.
    pub(super) fn matrices(&self) -> Matrices<'_, T>
        ensures { AreMatricesOf self.now result }
    {
        Matrices {
            a: self.a.matrix(),
            b: self.b.matrix(),
        }
    }
}

// Returns the matrices of a product by rows. Allocates only if an operand is transposed.
#[tactic(auto, using(sparse_algebra::proofs::EarlyReturns::early_return))]
pub(super) fn csr_operands<'a, T: Ring>(
    alloc: Global,
    a: Op<&'a CsrMatrix<T>>,
    b: Op<&'a CsrMatrix<T>>,
) -> Result<Operands<'a, T>, AllocError>
    requires { (plain_op T.ring (λ m. plain_of_rows T.ring T.value m.now) a).cols
        ≡ (plain_op T.ring (λ m. plain_of_rows T.ring T.value m.now) b).rows }
    ensures product { IfOk result
        (HasProduct T.ring T.value false (product_by_rows T.ring T.value a.entry b.entry)) }
    ensures borrowed { IfOk result (λ x. IfNotTransposed a.entry b.entry
        (λ m n. (matrix_of x.a ≡ m.now) × (matrix_of x.b ≡ n.now))) }
    ensures infallible { IfNotTransposed a.entry b.entry (λ _ _. IsOk result) }
{
    let a = csr_multiplicand(alloc, a)?;
    let b = csr_multiplicand(alloc, b)?;
    Ok(Operands { a, b })
}

// Returns the matrices of a product by columns, in reverse order: with lanes as rows, `b * a` is the transpose of the
// product. Allocates only if an operand is transposed.
#[tactic(auto, using(sparse_algebra::proofs::EarlyReturns::early_return))]
pub(super) fn csc_operands<'a, T: Ring>(
    alloc: Global,
    a: Op<&'a CscMatrix<T>>,
    b: Op<&'a CscMatrix<T>>,
) -> Result<Operands<'a, T>, AllocError>
    requires { (plain_op T.ring (λ m. plain_of_cols T.ring T.value m.now) a).cols
        ≡ (plain_op T.ring (λ m. plain_of_cols T.ring T.value m.now) b).rows }
    ensures product { IfOk result
        (HasProduct T.ring T.value true (product_by_cols T.ring T.value a.entry b.entry)) }
    ensures infallible { IfNotTransposed a.entry b.entry (λ _ _. IsOk result) }
{
    let a = csc_multiplicand(alloc, a)?;
    let b = csc_multiplicand(alloc, b)?;
    Ok(Operands { a: b, b: a })
}

// Returns the matrix of an operand. Allocates only if the operand is transposed.
fn csr_multiplicand<T: Ring>(
    alloc: Global,
    operand: Op<&CsrMatrix<T>>,
) -> Result<Multiplicand<'_, T>, AllocError>
    ensures plain { IfOk result (λ x. plain_of_rows T.ring T.value (matrix_of x)
        ≡ plain_op T.ring (λ m. plain_of_rows T.ring T.value m.now) operand.entry) }
    ensures borrowed { IfOk result (λ x. MatchOp operand.entry (λ m. matrix_of x ≡ m.now) (λ _. ⊤)) }
    ensures infallible { MatchOp operand.entry (λ _. IsOk result) (λ _. ⊤) }
{
    match operand {
        Op::NoOp(rows) => Ok(Multiplicand::Borrowed(rows.cs())),
        Op::Transpose(rows) => Ok(Multiplicand::Owned(transposed(alloc, rows.cs())?)),
    }
}

// Returns the matrix of an operand. Allocates only if the operand is transposed.
fn csc_multiplicand<T: Ring>(
    alloc: Global,
    operand: Op<&CscMatrix<T>>,
) -> Result<Multiplicand<'_, T>, AllocError>
    ensures plain { IfOk result (λ x. plain_of_cols T.ring T.value (matrix_of x)
        ≡ plain_op T.ring (λ m. plain_of_cols T.ring T.value m.now) operand.entry) }
    ensures infallible { MatchOp operand.entry (λ _. IsOk result) (λ _. ⊤) }
{
    match operand {
        Op::NoOp(cols) => Ok(Multiplicand::Borrowed(cols.cs())),
        Op::Transpose(cols) => Ok(Multiplicand::Owned(transposed(alloc, cols.cs())?)),
    }
}

// Returns the transpose of a matrix whose lanes are rows. Fails only if an allocation fails.
fn transposed<T: Ring>(alloc: Global, matrix: &CsMatrix<T>) -> Result<CsMatrix<T>, AllocError>
    ensures { IfOk result (λ m. plain_of_rows T.ring T.value m
        ≡ plain_transpose T.ring (plain_of_rows T.ring T.value matrix.now)) }
{
    recall(matrix.values());
    matrix.transpose(alloc)
}

/// Returns the transpose of a CSR matrix, by rows. Fails only if an allocation fails.
pub fn transposed_csr<T: Ring>(alloc: Global, a: &CsrMatrix<T>) -> Result<CsrMatrix<T>, AllocError>
    ensures { IfOk result
        (λ m. plain_of_rows T.ring T.value m
        ≡ plain_transpose T.ring (plain_of_rows T.ring T.value a.now)) }
{
    Ok(CsrMatrix::from_cs(transposed(alloc, a.cs())?))
}

/// Returns the transpose of a CSC matrix, by columns. Fails only if an allocation fails.
pub fn transposed_csc<T: Ring>(alloc: Global, a: &CscMatrix<T>) -> Result<CscMatrix<T>, AllocError>
    ensures { IfOk result
        (λ m. plain_of_cols T.ring T.value m
        ≡ plain_transpose T.ring (plain_of_cols T.ring T.value a.now)) }
{
    Ok(CscMatrix::from_cs(transposed(alloc, a.cs())?))
}
