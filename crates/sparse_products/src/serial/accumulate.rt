//! Adds the terms of a row of a product to accumulators: the loop that all products share (Gustavson 1978).

ghost use Rattle.std.specs.Prelude.{◌≡◌, ℕ, ◌+◌, ◌<◌, length, slice_range};
ghost use Rattle.sparse_pattern.specs.Raw.{IsEntry, start_of, end_of, lane_of};
ghost use Rattle.sparse_compressed.specs.Compressed.{IsSound};
ghost use Rattle.sparse_compressed.specs.PlainOfLanes.{plain_of_rows};
ghost use Rattle.sparse_products.specs.InnerOperands.{CanMultiply, product_of};
ghost use Rattle.sparse_products.specs.InnerProducts.{IsInRow};
ghost use Rattle.sparse_products.specs.InnerUpdates.{steps_below};
ghost use Rattle.sparse_products.specs.InnerAccumulators.{AreAdded, AreNoted};

use super::multiplicands::Matrices;
use super::read_ahead::lists_only_empty_lanes;
use sparse_algebra::recall;
use sparse_algebra::scalar::Ring;
use sparse_compressed::CsMatrix;
use sparse_coo_dense::steps::Steps;

// The accumulators of a row of a product: an element of a target for each column, to which the terms of the column are
// added.
pub(super) trait Accumulators {
    ghost use Rattle.std.specs.Prelude.{◌⊎◌, ◌↔◌};

    // The accumulator of column j is element p of the target, as `sum_at self j p`.
    ghost sum_at: { Self → ℕ → ℕ → Type 0 };

    // Column j was noted. A type that notes nothing says that each column was.
    ghost noted: { Self → ℕ → Type 0 };

    // Returns the index of a column's accumulator in the target, and notes the column.
    fn accumulator_of(&mut self, column: usize) -> usize
        requires { (p : ℕ) × sum_at self.old column p }
        ensures found { sum_at self.old column result }
        ensures kept { (j p : ℕ) → sum_at self.new j p ↔ sum_at self.old j p }
        ensures noted { (j : ℕ) → noted self.new j ↔ (noted self.old j ⊎ (column ≡ j)) };

    ghost one_sum: { (s : Self) → (j p q : ℕ) → sum_at s j p → sum_at s j q → p ≡ q };

    ghost one_column: { (s : Self) → (i j p : ℕ) → sum_at s i p → sum_at s j p → i ≡ j };
}

// The accumulators are a scratch row: that of column j is element j. Nothing is noted.
#[derive(Drop)]
pub(super) struct RowAccumulators;

impl Accumulators for RowAccumulators {
    ghost use Rattle.std.specs.Prelude.{⊤};
    ghost use Rattle.std.proofs.Common.{sym, ◌∙◌};

    ghost sum_at = { λ _ j p. j ≡ p };

    ghost noted = { λ _ _. ⊤ };

    #[inline(always)]
    fn accumulator_of(&mut self, column: usize) -> usize {
        column
    }

    ghost one_sum = { λ s j p q here there. sym here ∙ there };

    ghost one_column = { λ s i j p here there. here ∙ sym there };
}

// Adds `alpha` times row i of the product to the accumulators of its columns, and notes the columns.
#[inline(always)]
pub(super) fn add_product_row<T: Ring, S: Accumulators>(
    alpha: T,
    matrices: Matrices<'_, T>,
    i: usize,
    row_sums: &mut S,
    target: &mut [T],
    steps: &mut Steps,
)
    requires inner { CanMultiply matrices }
    requires lane { i < matrices.a.now.pattern.major_dim }
    requires row_sums { (j : ℕ) → IsInRow matrices i j
        → (p : ℕ) × S.sum_at row_sums.old j p × (p < length target.old) }
    ensures added { AreAdded T.ring T.value T.zero_value (S.sum_at row_sums.old) (T.value alpha)
        ((product_of T.ring T.value matrices.entry).value i) target.old target.new }
    ensures noted { AreNoted (S.sum_at row_sums.old) (S.sum_at row_sums.new) (S.noted row_sums.old)
        (S.noted row_sums.new) (IsInRow matrices.entry i) }
    ensures counted { steps.new
        + steps_below i matrices.entry.a.now.pattern matrices.entry.b.now.pattern ≡ steps.old
        + steps_below (i + 1) matrices.entry.a.now.pattern matrices.entry.b.now.pattern }
{
    let (lanes, entries) = lane_entries(matrices.a, i);
    if lists_only_empty_lanes(lanes, matrices.b.pattern()) {
        tick_for_each(lanes, steps);
        return;
    }
    for (k, entry) in lanes.iter().zip(entries) {
        steps.tick();
        add_matrix_row(alpha.mul(*entry), matrices.b, *k, row_sums, target, steps);
    }
}

// Adds a step for each index of a lane. The compiler removes the loop, since steps occupy no memory.
fn tick_for_each(lane: &[usize], steps: &mut Steps)
    ensures { steps.new ≡ steps.old + length lane.now }
{
    for _ in lane {
        steps.tick();
    }
}

// Adds `scale` times row k of `b` to the accumulators of its columns, and notes the columns.
#[inline(always)]
fn add_matrix_row<T: Ring, S: Accumulators>(
    scale: T,
    b: &CsMatrix<T>,
    k: usize,
    row_sums: &mut S,
    target: &mut [T],
    steps: &mut Steps,
)
    requires lane { k < b.now.pattern.major_dim }
    requires row_sums { (j : ℕ) → IsEntry b.now.pattern k j
        → (p : ℕ) × S.sum_at row_sums.old j p × (p < length target.old) }
    ensures added { AreAdded T.ring T.value T.zero_value (S.sum_at row_sums.old) (T.value scale)
        ((plain_of_rows T.ring T.value b.now).value k) target.old target.new }
    ensures noted { AreNoted (S.sum_at row_sums.old) (S.sum_at row_sums.new) (S.noted row_sums.old)
        (S.noted row_sums.new) (IsEntry b.now.pattern k) }
    ensures counted { steps.new ≡ steps.old + length (lane_of b.now.pattern k) }
{
    let (columns, entries) = lane_entries(b, k);
    for (j, entry) in columns.iter().zip(entries) {
        steps.tick();
        let at = row_sums.accumulator_of(*j);
        prove!(at < target.len());
        let sum = &mut target[at];
        *sum = sum.add(scale.mul(*entry));
    }
}

// Returns the minor indices and the values of lane i.
#[inline(always)]
fn lane_entries<T>(matrix: &CsMatrix<T>, i: usize) -> (&[usize], &[T])
    requires { i < matrix.now.pattern.major_dim }
    ensures indices { result.0.now ≡ lane_of matrix.now.pattern i }
    ensures values { result.1.now ≡ slice_range matrix.now.values
        (start_of matrix.now.pattern i) (end_of matrix.now.pattern i) }
    ensures sound { IsSound matrix.now }
{
    recall(matrix.values());
    let lane = matrix.lane(i);
    (lane.minor_indices(), lane.values())
}
