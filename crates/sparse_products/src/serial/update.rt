//! Updates of the values of a given pattern by a product.

ghost use Rattle.std.specs.Prelude.{◌≡◌, ◌+◌, ◌≤◌, ◌↔◌, IsOk, IfErr, OnErr, OnOk};
ghost use Rattle.sparse_algebra.specs.declared.error.OperationErrorKind.TheVariants.{InvalidPattern};
ghost use Rattle.sparse_algebra.specs.Prealloc.{IsCovered};
ghost use Rattle.sparse_compressed.specs.Compressed.{compressed_of};
ghost use Rattle.sparse_compressed.specs.PlainOfLanes.{plain_of_rows};
ghost use Rattle.sparse_products.specs.InnerOperands.{product_of};
ghost use Rattle.sparse_products.specs.InnerUpdates.{CanUpdate, IsUpdated, steps_of};
ghost use Rattle.sparse_products.specs.ScalarProducts.{triples_of};

use super::multiplicands::Matrices;
use super::scatter::scatter_rows;
use super::search::{covers_product, search_rows};
use sparse_algebra::error::OperationError;
use sparse_algebra::recall;
use sparse_algebra::scalar::Ring;
use sparse_coo_dense::steps::Steps;
use sparse_pattern::pattern::SparsityPattern;
use std::alloc::{AllocError, Global};

// The update of a matrix `c` to `beta * c + alpha * a * b`, on the pattern of `c`.
#[derive(Clone, Copy)]
pub(super) struct Update<'a, T> {
    pub(super) beta: T,
    pub(super) alpha: T,
    pub(super) matrices: Matrices<'a, T>,
}

// Updates the matrix of a pattern and its values. Returns an error, before a value is written, if the pattern does not
// contain that of the product.
pub(super) fn update_checked<T: Ring>(
    update: Update<'_, T>,
    pattern: &SparsityPattern,
    values: &mut [T],
) -> Result<(), OperationError>
    requires { CanUpdate update.matrices pattern.now values.old }
    ensures covered { IsOk result ↔ IsCovered (product_of T.ring T.value update.entry.matrices)
        (plain_of_rows T.ring T.value (compressed_of pattern.now values.old)) }
    ensures kind { IfErr result (λ e. e ≡ InvalidPattern) }
    ensures unchanged { OnErr result (values.new ≡ values.old) }
    ensures updated { OnOk result
        (IsUpdated T.ring T.value update.entry pattern.now values.old values.new) }
{
    recall(pattern.major_offsets());
    if !covers_product(
        pattern,
        update.matrices.a.pattern(),
        update.matrices.b.pattern(),
    ) {
        return Err(OperationError::of_product_pattern());
    }
    search_rows(update, pattern, values, &mut Steps::new());
    Ok(())
}

// Updates the matrix of a pattern and its values. The pattern contains that of the product.
//
// A scratch row is allocated only if it is not longer than the number of entries of `b` and of the pattern together.
pub(super) fn update_covered<T: Ring>(
    alloc: Global,
    update: Update<'_, T>,
    pattern: &SparsityPattern,
    values: &mut [T],
    steps: &mut Steps,
) -> Result<(), AllocError>
    requires sizes { CanUpdate update.matrices pattern.now values.old }
    requires width { update.matrices.b.now.pattern.minor_dim ≡ pattern.now.minor_dim }
    requires covered { IsCovered (product_of T.ring T.value update.matrices)
        (plain_of_rows T.ring T.value (compressed_of pattern.now values.old)) }
    ensures unchanged { OnErr result (values.new ≡ values.old) }
    ensures updated { OnOk result
        (IsUpdated T.ring T.value update.entry pattern.now values.old values.new) }
    ensures no_more { steps.new ≤ steps.old + steps_of update.entry.matrices pattern.now }
    ensures all_multiplied { OnOk result (steps.old + triples_of
        update.entry.matrices.a.now.pattern update.entry.matrices.b.now.pattern ≤ steps.new) }
{
    recall(pattern.major_offsets());
    recall(update.matrices.a.values());
    if pattern
        .nnz()
        .saturating_add(update.matrices.b.pattern().nnz())
        < pattern.minor_dim()
    {
        search_rows(update, pattern, values, steps);
        return Ok(());
    }
    scatter_rows(alloc, update, pattern, values, steps)
}
