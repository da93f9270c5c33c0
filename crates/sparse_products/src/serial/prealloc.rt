//! Products that are added to a given matrix, whose pattern is tested.

ghost use Rattle.std.specs.Prelude.{◌≡◌, ◌⊎◌, IsOk, IfErr, OnOk, OnErr};
ghost use Rattle.sparse_algebra.specs.declared.error.OperationErrorKind.TheVariants.{InvalidPattern};
ghost use Rattle.sparse_algebra.specs.declared.error.OperationErrorKind.TheVariants.{OutOfMemory};
ghost use Rattle.sparse_algebra.specs.Operands.{plain_op};
ghost use Rattle.sparse_algebra.specs.Prealloc.{plain_update, IsCovered};
ghost use Rattle.sparse_compressed.specs.PlainOfLanes.{plain_of_rows, plain_of_cols};
ghost use Rattle.sparse_products.specs.Products.{product_by_rows, product_by_cols};
ghost use Rattle.sparse_products.specs.ScalarProducts.{IfNotTransposed};

use super::multiplicands::{csc_operands, csr_operands};
use super::update::{Update, update_checked};
use sparse_algebra::error::OperationError;
use sparse_algebra::operand::Op;
use sparse_algebra::recall;
use sparse_algebra::scalar::Ring;
use sparse_csr_csc::csc::CscMatrix;
use sparse_csr_csc::csr::CsrMatrix;
use std::alloc::Global;

/// Replaces `c` by `beta * c + alpha * op(a) * op(b)`, on the pattern of `c`.
///
/// The inner dimensions of `op(a)` and `op(b)` must be equal, and `c` must have the shape of their product. Returns
/// [`InvalidPattern`](sparse_algebra::error::OperationErrorKind::InvalidPattern) only if the pattern of the product has
/// an entry that `c` does not store, whatever its value is, and `OutOfMemory` only if an allocation fails; `c` is then
/// unchanged.
///
/// Two binary searches in a row of `c` for each triple (i, k, j) with (i, k) in `op(a)` and (k, j) in `op(b)`: the
/// first pass tests the pattern, the second adds. Allocates nothing if neither operand is transposed; otherwise the
/// transposes are computed first.
#[tactic(auto, using(sparse_algebra::proofs::EarlyReturns::early_return))]
pub fn spmm_csr_prealloc<T: Ring>(
    alloc: Global,
    beta: T,
    c: &mut CsrMatrix<T>,
    alpha: T,
    a: Op<&CsrMatrix<T>>,
    b: Op<&CsrMatrix<T>>,
) -> Result<(), OperationError>
    requires inner { (plain_op T.ring (λ m. plain_of_rows T.ring T.value m.now) a).cols
        ≡ (plain_op T.ring (λ m. plain_of_rows T.ring T.value m.now) b).rows }
    requires rows { (product_by_rows T.ring T.value a b).rows ≡ c.old.pattern.major_dim }
    requires cols { (product_by_rows T.ring T.value a b).cols ≡ c.old.pattern.minor_dim }
    ensures covered { IsOk result
        → IsCovered (product_by_rows T.ring T.value a.entry b.entry)
        (plain_of_rows T.ring T.value c.old) }
    ensures refused { IfErr result (λ e. (e ≡ OutOfMemory) ⊎ ((e ≡ InvalidPattern)
        × (IsCovered (product_by_rows T.ring T.value a.entry b.entry)
        (plain_of_rows T.ring T.value c.old) → ⊥))) }
    ensures no_memory { IfNotTransposed a.entry b.entry
        (λ _ _. IfErr result (λ e. e ≡ InvalidPattern)) }
    ensures unchanged { OnErr result (c.new ≡ c.old) }
    ensures pattern { c.new.pattern ≡ c.old.pattern }
    ensures updated { OnOk result (plain_of_rows T.ring T.value c.new
        ≡ plain_update T.ring (T.value beta) (plain_of_rows T.ring T.value c.old) (T.value alpha)
        (product_by_rows T.ring T.value a.entry b.entry)) }
{
    let operands = csr_operands(alloc, a, b)?;
    recall(c.values());
    let (pattern, values) = c.pattern_and_values_mut();
    let update = Update {
        beta,
        alpha,
        matrices: operands.matrices(),
    };
    update_checked(update, pattern, values)
}

/// Replaces `c` by `beta * c + alpha * op(a) * op(b)`, on the pattern of `c`.
///
/// The inner dimensions of `op(a)` and `op(b)` must be equal, and `c` must have the shape of their product. Returns
/// [`InvalidPattern`](sparse_algebra::error::OperationErrorKind::InvalidPattern) only if the pattern of the product has
/// an entry that `c` does not store, whatever its value is, and `OutOfMemory` only if an allocation fails; `c` is then
/// unchanged.
///
/// Two binary searches in a column of `c` for each triple (i, k, j) with (i, k) in `op(a)` and (k, j) in `op(b)`: the
/// first pass tests the pattern, the second adds. Allocates nothing if neither operand is transposed; otherwise the
/// transposes are computed first.
#[tactic(auto, using(sparse_algebra::proofs::EarlyReturns::early_return))]
pub fn spmm_csc_prealloc<T: Ring>(
    alloc: Global,
    beta: T,
    c: &mut CscMatrix<T>,
    alpha: T,
    a: Op<&CscMatrix<T>>,
    b: Op<&CscMatrix<T>>,
) -> Result<(), OperationError>
    requires inner { (plain_op T.ring (λ m. plain_of_cols T.ring T.value m.now) a).cols
        ≡ (plain_op T.ring (λ m. plain_of_cols T.ring T.value m.now) b).rows }
    requires rows { (product_by_cols T.ring T.value a b).rows ≡ c.old.pattern.minor_dim }
    requires cols { (product_by_cols T.ring T.value a b).cols ≡ c.old.pattern.major_dim }
    ensures covered { IsOk result
        → IsCovered (product_by_cols T.ring T.value a.entry b.entry)
        (plain_of_cols T.ring T.value c.old) }
    ensures refused { IfErr result (λ e. (e ≡ OutOfMemory) ⊎ ((e ≡ InvalidPattern)
        × (IsCovered (product_by_cols T.ring T.value a.entry b.entry)
        (plain_of_cols T.ring T.value c.old) → ⊥))) }
    ensures no_memory { IfNotTransposed a.entry b.entry
        (λ _ _. IfErr result (λ e. e ≡ InvalidPattern)) }
    ensures unchanged { OnErr result (c.new ≡ c.old) }
    ensures pattern { c.new.pattern ≡ c.old.pattern }
    ensures updated { OnOk result (plain_of_cols T.ring T.value c.new
        ≡ plain_update T.ring (T.value beta) (plain_of_cols T.ring T.value c.old) (T.value alpha)
        (product_by_cols T.ring T.value a.entry b.entry)) }
{
    let operands = csc_operands(alloc, a, b)?;
    recall(c.values());
    let (pattern, values) = c.pattern_and_values_mut();
    let update = Update {
        beta,
        alpha,
        matrices: operands.matrices(),
    };
    update_checked(update, pattern, values)
}
