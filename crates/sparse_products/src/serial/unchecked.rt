//! Products that are added to a given matrix whose pattern contains that of the product.

ghost use Rattle.std.specs.Prelude.{◌≡◌, ◌+◌, ◌≤◌, IfErr, OnOk, OnErr};
ghost use Rattle.sparse_algebra.specs.declared.error.OperationErrorKind.TheVariants.{OutOfMemory};
ghost use Rattle.sparse_algebra.specs.Operands.{plain_op};
ghost use Rattle.sparse_algebra.specs.Prealloc.{plain_update, IsCovered};
ghost use Rattle.sparse_pattern.specs.Raw.{nnz_of};
ghost use Rattle.sparse_compressed.specs.PlainOfLanes.{plain_of_rows, plain_of_cols};
ghost use Rattle.sparse_products.specs.Products.{product_by_rows, product_by_cols};
ghost use Rattle.sparse_products.specs.ScalarProducts.{IfNotTransposed, triples_of};

use super::multiplicands::{csc_operands, csr_operands};
use super::update::{Update, update_covered};
use sparse_algebra::error::OperationError;
use sparse_algebra::operand::Op;
use sparse_algebra::recall;
use sparse_algebra::scalar::Ring;
use sparse_coo_dense::steps::Steps;
use sparse_csr_csc::csc::CscMatrix;
use sparse_csr_csc::csr::CsrMatrix;
use std::alloc::Global;

/// Replaces `c` by `beta * c + alpha * op(a) * op(b)`, where the pattern of `c` contains that of the product.
///
/// The inner dimensions of `op(a)` and `op(b)` must be equal, and `c` must have the shape of their product. Returns
/// `OutOfMemory` only if an allocation fails; `c` is then unchanged.
///
/// Gustavson's algorithm (1978): one multiplication for each triple (i, k, j) with (i, k) in `op(a)` and (k, j) in
/// `op(b)`, and one for each entry of `op(a)` and of `c`. Scratch memory for one row of `c`; none if the row is longer
/// than the number of entries of `c` and `op(b)` together: then each triple is added by a binary search. If an operand
/// is transposed, its transpose is computed first.
pub fn spmm_csr_prealloc_unchecked<T: Ring>(
    alloc: Global,
    beta: T,
    c: &mut CsrMatrix<T>,
    alpha: T,
    a: Op<&CsrMatrix<T>>,
    b: Op<&CsrMatrix<T>>,
) -> Result<(), OperationError>
    requires inner { (plain_op T.ring (λ m. plain_of_rows T.ring T.value m.now) a).cols
        ≡ (plain_op T.ring (λ m. plain_of_rows T.ring T.value m.now) b).rows }
    requires rows { (product_by_rows T.ring T.value a b).rows ≡ c.old.pattern.major_dim }
    requires cols { (product_by_rows T.ring T.value a b).cols ≡ c.old.pattern.minor_dim }
    requires covered { IsCovered
        (product_by_rows T.ring T.value a b)
        (plain_of_rows T.ring T.value c.old) }
    ensures refused { IfErr result (λ e. e ≡ OutOfMemory) }
    ensures unchanged { OnErr result (c.new ≡ c.old) }
    ensures pattern { c.new.pattern ≡ c.old.pattern }
    ensures updated { OnOk result (plain_of_rows T.ring T.value c.new
        ≡ plain_update T.ring (T.value beta) (plain_of_rows T.ring T.value c.old) (T.value alpha)
        (product_by_rows T.ring T.value a.entry b.entry)) }
{
    spmm_csr_prealloc_unchecked_counted(alloc, beta, c, alpha, a, b, &mut Steps::new())
}

/// Does what [`spmm_csr_prealloc_unchecked`] does, and counts its steps: one for each multiplication of scalars.
///
/// If neither operand is transposed, the count grows by at most the number of entries of `a` and of `c` and of triples
/// (i, k, j) with (i, k) in `a` and (k, j) in `b`, even if the call returns an error, and at `Ok` by at least the
/// number of triples.
///
/// # Examples
///
/// ```rust
/// fn steps_of_a_square(alloc: Global) -> Result<bool, Fail> {
///     let matrix = CsrMatrix::<W64>::identity(alloc, 2)?;
///     let mut square = mul_csr(alloc, &matrix, &matrix)?;
///     let (zero, one) = (W64::new(0), W64::new(1));
///     let operand = Op::NoOp(&matrix);
///     let mut steps = Steps::new();
///     spmm_csr_prealloc_unchecked_counted(
///         alloc,
///         zero,
///         &mut square,
///         one,
///         operand,
///         operand,
///         &mut steps,
///     )?;
///     Ok(square == matrix)
/// }
/// ```
#[tactic(auto, using(sparse_algebra::proofs::EarlyReturns::early_return))]
pub fn spmm_csr_prealloc_unchecked_counted<T: Ring>(
    alloc: Global,
    beta: T,
    c: &mut CsrMatrix<T>,
    alpha: T,
    a: Op<&CsrMatrix<T>>,
    b: Op<&CsrMatrix<T>>,
    steps: &mut Steps,
) -> Result<(), OperationError>
    requires inner { (plain_op T.ring (λ m. plain_of_rows T.ring T.value m.now) a).cols
        ≡ (plain_op T.ring (λ m. plain_of_rows T.ring T.value m.now) b).rows }
    requires rows { (product_by_rows T.ring T.value a b).rows ≡ c.old.pattern.major_dim }
    requires cols { (product_by_rows T.ring T.value a b).cols ≡ c.old.pattern.minor_dim }
    requires covered { IsCovered
        (product_by_rows T.ring T.value a b)
        (plain_of_rows T.ring T.value c.old) }
    ensures refused { IfErr result (λ e. e ≡ OutOfMemory) }
    ensures unchanged { OnErr result (c.new ≡ c.old) }
    ensures pattern { c.new.pattern ≡ c.old.pattern }
    ensures updated { OnOk result (plain_of_rows T.ring T.value c.new
        ≡ plain_update T.ring (T.value beta) (plain_of_rows T.ring T.value c.old) (T.value alpha)
        (product_by_rows T.ring T.value a.entry b.entry)) }
    ensures no_more { IfNotTransposed a.entry b.entry
        (λ m n. steps.new ≤ steps.old + nnz_of m.now.pattern
        + nnz_of c.old.pattern + triples_of m.now.pattern n.now.pattern) }
    ensures all_multiplied { OnOk result (IfNotTransposed a.entry b.entry (λ m n.
        steps.old + triples_of m.now.pattern n.now.pattern ≤ steps.new)) }
{
    let operands = csr_operands(alloc, a, b)?;
    recall(c.values());
    let (pattern, values) = c.pattern_and_values_mut();
    let update = Update {
        beta,
        alpha,
        matrices: operands.matrices(),
    };
    update_covered(alloc, update, pattern, values, steps)?;
    Ok(())
}

/// Replaces `c` by `beta * c + alpha * op(a) * op(b)`, where the pattern of `c` contains that of the product.
///
/// The inner dimensions of `op(a)` and `op(b)` must be equal, and `c` must have the shape of their product. Returns
/// `OutOfMemory` only if an allocation fails; `c` is then unchanged.
///
/// Gustavson's algorithm (1978): one multiplication for each triple (i, k, j) with (i, k) in `op(a)` and (k, j) in
/// `op(b)`, and one for each entry of `op(a)` and of `c`. Scratch memory for one column of `c`; none if the column is
/// longer than the number of entries of `c` and `op(a)` together: then each triple is added by a binary search. If an
/// operand is transposed, its transpose is computed first.
#[tactic(auto, using(sparse_algebra::proofs::EarlyReturns::early_return))]
pub fn spmm_csc_prealloc_unchecked<T: Ring>(
    alloc: Global,
    beta: T,
    c: &mut CscMatrix<T>,
    alpha: T,
    a: Op<&CscMatrix<T>>,
    b: Op<&CscMatrix<T>>,
) -> Result<(), OperationError>
    requires inner { (plain_op T.ring (λ m. plain_of_cols T.ring T.value m.now) a).cols
        ≡ (plain_op T.ring (λ m. plain_of_cols T.ring T.value m.now) b).rows }
    requires rows { (product_by_cols T.ring T.value a b).rows ≡ c.old.pattern.minor_dim }
    requires cols { (product_by_cols T.ring T.value a b).cols ≡ c.old.pattern.major_dim }
    requires covered { IsCovered
        (product_by_cols T.ring T.value a b)
        (plain_of_cols T.ring T.value c.old) }
    ensures refused { IfErr result (λ e. e ≡ OutOfMemory) }
    ensures unchanged { OnErr result (c.new ≡ c.old) }
    ensures pattern { c.new.pattern ≡ c.old.pattern }
    ensures updated { OnOk result (plain_of_cols T.ring T.value c.new
        ≡ plain_update T.ring (T.value beta) (plain_of_cols T.ring T.value c.old) (T.value alpha)
        (product_by_cols T.ring T.value a.entry b.entry)) }
{
    let operands = csc_operands(alloc, a, b)?;
    recall(c.values());
    let (pattern, values) = c.pattern_and_values_mut();
    let update = Update {
        beta,
        alpha,
        matrices: operands.matrices(),
    };
    update_covered(alloc, update, pattern, values, &mut Steps::new())?;
    Ok(())
}
