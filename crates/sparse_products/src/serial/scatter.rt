//! Updates the values of a pattern by a product, through a scratch row.

ghost use Rattle.std.specs.Prelude.{◌≡◌, ℕ, ◌<◌, ◌+◌, length, slice_index, slice_index_or};
ghost use Rattle.std.specs.Prelude.{All, IfOk, OnErr, OnOk, vec_len};
ghost use Rattle.std.specs.List.Sorted.{IsStrictlyIncreasing};
ghost use Rattle.sparse_pattern.specs.Raw.{IsInLane, IsEntry, start_of, end_of};
ghost use Rattle.sparse_compressed.specs.Compressed.{IsOffset};
ghost use Rattle.sparse_products.specs.InnerOperands.{product_of};
ghost use Rattle.sparse_products.specs.InnerProducts.{IsInRow, IsExtracted, IsZeroRow};
ghost use Rattle.sparse_products.specs.InnerUpdates.{CanUpdate, ContainsProduct, IsUpdated};
ghost use Rattle.sparse_products.specs.InnerUpdates.{steps_below, steps_of};

use super::accumulate::{RowAccumulators, add_product_row};
use super::update::Update;
use sparse_algebra::recall;
use sparse_algebra::scalar::Ring;
use sparse_coo_dense::steps::Steps;
use sparse_pattern::pattern::SparsityPattern;
use std::alloc::{AllocError, Global};

// Replaces the matrix `c` of a pattern and its values by `beta * c + alpha * a * b`. The pattern contains that of the
// product.
//
// Gustavson's algorithm (1978): the terms of each row of the product are added in a scratch row as wide as the pattern,
// and the sums are gathered at the indices of the pattern's row.
#[tactic(auto, using(sparse_algebra::proofs::EarlyReturns::early_return))]
pub(super) fn scatter_rows<T: Ring>(
    alloc: Global,
    update: Update<'_, T>,
    pattern: &SparsityPattern,
    values: &mut [T],
    steps: &mut Steps,
) -> Result<(), AllocError>
    requires sizes { CanUpdate update.matrices pattern.now values.old }
    requires width { update.matrices.b.now.pattern.minor_dim ≡ pattern.now.minor_dim }
    requires contained { ContainsProduct pattern.now update.matrices.a.now.pattern
        update.matrices.b.now.pattern }
    ensures unchanged { OnErr result (values.new ≡ values.old) }
    ensures updated { OnOk result
        (IsUpdated T.ring T.value update.entry pattern.now values.old values.new) }
    ensures counted { OnOk result
        (steps.new ≡ steps.old + steps_of update.entry.matrices pattern.now) }
    ensures none { OnErr result (steps.new ≡ steps.old) }
{
    recall(pattern.major_offsets());
    recall(update.matrices.a.values());
    recall(update.matrices.b.values());
    let mut row = zero_row(alloc, pattern.minor_dim())?;
    for i in 0..pattern.major_dim() {
        scatter_row(&update, pattern, values, i, &mut row, steps);
    }
    Ok(())
}

// Returns a scratch row of `width` zeros.
pub(super) fn zero_row<T: Ring>(alloc: Global, width: usize) -> Result<Vec<T>, AllocError>
    ensures width { IfOk result (λ row. vec_len row ≡ width) }
    ensures zero { IfOk result (λ row. IsZeroRow T.ring T.value T.zero_value row.items) }
{
    let mut row = Vec::new(alloc);
    row.resize(width, T::zero())?;
    Ok(row)
}

// Updates the values of lane i. The scratch row is zero before and after.
#[inline(always)]
fn scatter_row<T: Ring>(
    update: &Update<'_, T>,
    pattern: &SparsityPattern,
    values: &mut [T],
    i: usize,
    row: &mut [T],
    steps: &mut Steps,
)
    requires sizes { CanUpdate update.now.matrices pattern.now values.old }
    requires lane { i < pattern.now.major_dim }
    requires cols { update.now.matrices.b.now.pattern.minor_dim ≡ pattern.now.minor_dim }
    requires contained { (j : ℕ) → IsInRow update.now.matrices i j → IsEntry pattern.now i j }
    requires width { length row.old ≡ pattern.now.minor_dim }
    requires zero { IsZeroRow T.ring T.value T.zero_value row.old }
    ensures zero { IsZeroRow T.ring T.value T.zero_value row.new }
    ensures updated { (j p : ℕ) → IsOffset pattern.now i j p
        → T.value (slice_index_or values.new p T.zero_value)
        ≡ T.ring.add (T.ring.mul (T.value update.now.beta)
        (T.value (slice_index_or values.old p T.zero_value)))
        (T.ring.mul (T.value update.now.alpha)
        ((product_of T.ring T.value update.now.matrices).value i j)) }
    ensures others { (p : ℕ) → (IsInLane pattern.now i p → ⊥)
        → slice_index_or values.new p T.zero_value ≡ slice_index_or values.old p T.zero_value }
    ensures counted { steps.new + start_of pattern.now i
        + steps_below i update.now.matrices.a.now.pattern update.now.matrices.b.now.pattern
        ≡ steps.old + end_of pattern.now i + steps_below (i + 1)
        update.now.matrices.a.now.pattern update.now.matrices.b.now.pattern }
{
    recall(update.matrices.a.values());
    recall(update.matrices.b.values());
    let offsets = pattern.major_offsets();
    let (begin, end) = (offsets[i], offsets[i + 1]);
    add_product_row(
        update.alpha,
        update.matrices,
        i,
        &mut RowAccumulators,
        row,
        steps,
    );
    gather_row(
        update.beta,
        pattern.lane(i),
        row,
        &mut values[begin..end],
        steps,
    );
}

// Multiplies each value by `beta`, adds the element of the row at its index, and sets that element to zero.
fn gather_row<T: Ring>(
    beta: T,
    indices: &[usize],
    row: &mut [T],
    values: &mut [T],
    steps: &mut Steps,
)
    requires rising { IsStrictlyIncreasing indices.now }
    requires inside { All (λ j. j < length row.old) indices.now }
    requires count { length values.old ≡ length indices.now }
    ensures gathered { (k : ℕ) → k < length indices.now
        → T.value (slice_index_or values.new k T.zero_value)
        ≡ T.ring.add (T.ring.mul (T.value beta)
        (T.value (slice_index_or values.old k T.zero_value)))
        (T.value (slice_index_or row.old (slice_index indices.now k) T.zero_value)) }
    ensures extracted { IsExtracted T.zero_value indices.now row.old row.new }
    ensures counted { steps.new ≡ steps.old + length indices.now }
{
    for at in 0..indices.len() {
        steps.tick();
        let j = indices[at];
        prove!(at < values.len());
        prove!(j < row.len());
        values[at] = beta.mul(values[at]).add(row[j]);
        row[j] = T::zero();
    }
}
