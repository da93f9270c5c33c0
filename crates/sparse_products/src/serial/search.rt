//! Updates the values of a pattern by a product, by binary searches and without scratch memory.

ghost use Rattle.std.specs.Prelude.{◌≡◌, ℕ, ◌+◌, ◌<◌, ◌↔◌, length, All, IsTrue};
ghost use Rattle.sparse_pattern.specs.Raw.{IsEntry};
ghost use Rattle.sparse_compressed.specs.ChangedValues.{AreChanged};
ghost use Rattle.sparse_products.specs.InnerProducts.{IsInLanes};
ghost use Rattle.sparse_products.specs.InnerUpdates.{CanUpdate, ContainsProduct, IsUpdated};
ghost use Rattle.sparse_products.specs.InnerUpdates.{steps_of};

use super::accumulate::{Accumulators, add_product_row};
use super::update::Update;
use sparse_algebra::recall;
use sparse_algebra::scalar::Ring;
use sparse_compressed::offset_of;
use sparse_coo_dense::steps::Steps;
use sparse_pattern::pattern::SparsityPattern;

// Whether the pattern contains that of the product of `a` and `b`.
pub(super) fn covers_product(
    pattern: &SparsityPattern,
    a: &SparsityPattern,
    b: &SparsityPattern,
) -> bool
    requires inner { a.now.minor_dim ≡ b.now.major_dim }
    requires lanes { a.now.major_dim ≡ pattern.now.major_dim }
    ensures { IsTrue result ↔ ContainsProduct pattern.now a.now b.now }
{
    recall(pattern.major_offsets());
    recall(a.major_offsets());
    recall(b.major_offsets());
    for i in 0..pattern.major_dim() {
        if !covers_lanes(pattern, i, a.lane(i), b) {
            return false;
        }
    }
    true
}

// Whether lane i of the pattern contains lane k of `b` for each k in `lanes`.
fn covers_lanes(pattern: &SparsityPattern, i: usize, lanes: &[usize], b: &SparsityPattern) -> bool
    requires lane { i < pattern.now.major_dim }
    requires shared { All (λ k. k < b.now.major_dim) lanes.now }
    ensures { IsTrue result ↔ ((j : ℕ) → IsInLanes b.now lanes.now j → IsEntry pattern.now i j) }
{
    for k in lanes {
        if !covers_lane(pattern, i, b, *k) {
            return false;
        }
    }
    true
}

// Whether lane i of the pattern contains lane k of `b`.
fn covers_lane(pattern: &SparsityPattern, i: usize, b: &SparsityPattern, k: usize) -> bool
    requires lane { i < pattern.now.major_dim }
    requires shared { k < b.now.major_dim }
    ensures { IsTrue result ↔ ((j : ℕ) → IsEntry b.now k j → IsEntry pattern.now i j) }
{
    recall(pattern.major_offsets());
    recall(b.major_offsets());
    let indices = b.lane(k);
    for j in indices {
        match offset_of(pattern, i, *j) {
            Some(_) => {}
            None => return false,
        }
    }
    true
}

// The accumulators are the values of a lane of a pattern.
#[derive(Drop)]
struct EntryAccumulators<'a> {
    pattern: &'a SparsityPattern,
    lane: usize,
}

// The accumulator of a column is the value at the offset of its index in the lane. Nothing is noted.
impl<'a> Accumulators for EntryAccumulators<'a> {
    ghost use Rattle.std.specs.Prelude.{⊤};
    ghost use Rattle.std.proofs.Common.{sym, ◌∙◌};
    ghost use Rattle.sparse_pattern.proofs.OffsetsInLanes.{one_offset};
    ghost use Rattle.sparse_products.specs.InnerAccumulators.{IsEntryOffset};

    ghost sum_at = { λ s. IsEntryOffset s.pattern.now s.lane };

    ghost noted = { λ _ _. ⊤ };

    #[inline(always)]
    fn accumulator_of(&mut self, column: usize) -> usize {
        match offset_of(self.pattern, self.lane, column) {
            Some(at) => at,
            None => 0,
        }
    }

    ghost one_sum = { λ s j p q here there. one_offset s.pattern.now here.0 s.lane p q here.1.0
        there.1.0 (here.1.1 ∙ sym there.1.1) };

    ghost one_column = { λ s i j p here there. sym here.1.1 ∙ there.1.1 };
}

// Replaces the matrix `c` of a pattern and its values by `beta * c + alpha * a * b`. The pattern contains that of the
// product.
pub(super) fn search_rows<T: Ring>(
    update: Update<'_, T>,
    pattern: &SparsityPattern,
    values: &mut [T],
    steps: &mut Steps,
)
    requires sizes { CanUpdate update.matrices pattern.now values.old }
    requires contained { ContainsProduct pattern.now update.matrices.a.now.pattern
        update.matrices.b.now.pattern }
    ensures updated { IsUpdated T.ring T.value update.entry pattern.now values.old values.new }
    ensures counted { steps.new ≡ steps.old + steps_of update.entry.matrices pattern.now }
{
    recall(pattern.major_offsets());
    recall(update.matrices.a.values());
    recall(update.matrices.b.values());
    scale_values(update.beta, values, steps);
    for i in 0..pattern.major_dim() {
        let mut row_sums = EntryAccumulators { pattern, lane: i };
        add_product_row(
            update.alpha,
            update.matrices,
            i,
            &mut row_sums,
            values,
            steps,
        );
    }
}

// Multiplies each value by `scale`.
fn scale_values<T: Ring>(scale: T, values: &mut [T], steps: &mut Steps)
    ensures scaled { AreChanged T.value (T.ring.mul (T.value scale)) T.zero_value values.old
        values.new }
    ensures counted { steps.new ≡ steps.old + length values.old }
{
    for value in values.iter_mut() {
        steps.tick();
        *value = scale.mul(*value);
    }
}
