//! The rows that are merged into a column, each once.

ghost use Rattle.std.specs.Prelude.{◌≡◌, ◌≢◌, ℕ, ◌+◌, ◌<◌, ◌≤◌, ◌↔◌, ◌⊎◌, [], ◌∷◌, ◌++◌};
ghost use Rattle.std.specs.Prelude.{length, map, All, vec_len, vec_capacity, Contains, OnOk, OnErr};
ghost use Rattle.std.specs.List.{AllPairs};
ghost use Rattle.std.specs.List.Sorted.{IsStrictlyIncreasing};
ghost use Rattle.sparse_pattern.specs.Raw.{start_of, end_of};
ghost use Rattle.sparse_factor.specs.Fill.{LowerBase};
ghost use Rattle.sparse_factor.specs.InnerMarks.{AreMarked, AreAtMost};

use sparse_algebra::recall;
use sparse_coo_dense::steps::Steps;
use sparse_pattern::counting::Count;
use sparse_pattern::pattern::SparsityPattern;
use std::alloc::AllocError;

// The rows that were merged into the current column, and for each row the mark of the last column that it was merged
// into, or 0. The mark of a column is its number plus one.
#[derive(Drop)]
pub(super) struct AddedRows<C> {
    pub(super) marks: Vec<C>,
    pub(super) rows: Vec<usize>,
}

// Replaces the merged rows by the base rows of a column, those from the diagonal on. Counts a step for each entry of
// the base in that column.
#[inline(always)]
pub(super) fn merge_base<C: Count>(
    base: &SparsityPattern,
    column: usize,
    added: &mut AddedRows<C>,
    steps: &mut Steps,
) -> Result<(), AllocError>
    requires column { column < base.now.major_dim }
    requires width { column + 1 < C.limit }
    requires inside { base.now.minor_dim ≤ length added.old.marks.items }
    requires marks { AreAtMost column (map C.number added.old.marks.items) }
    ensures count { length added.new.marks.items ≡ length added.old.marks.items }
    ensures marked { OnOk result (AreMarked (column + 1) (map C.number added.new.marks.items)
        added.new.rows.items) }
    ensures rising { OnOk result (IsStrictlyIncreasing added.new.rows.items) }
    ensures rows { OnOk result ((r : ℕ)
        → Contains added.new.rows.items r ↔ LowerBase base.now r column) }
    ensures counted { OnOk result
        (steps.new + start_of base.now column ≡ steps.old + end_of base.now column) }
    ensures none { OnErr result (steps.new ≡ steps.old) }
{
    // Tells the prover that the pattern is valid.
    recall(base.major_offsets());
    let lane = base.lane(column);
    added.rows.clear();
    added.rows.reserve(lane.len())?;
    merge_lane(lane, column, &mut added.marks, &mut added.rows, steps);
    Ok(())
}

// Adds the rows of a lane from `column` on. Counts a step for each row of the lane.
#[inline(always)]
fn merge_lane<C: Count>(
    lane: &[usize],
    column: usize,
    marks: &mut [C],
    added: &mut Vec<usize>,
    steps: &mut Steps,
)
    requires lane { IsStrictlyIncreasing lane.now }
    requires inside { All (λ row. row < length marks.old) lane.now }
    requires width { column + 1 < C.limit }
    requires marks { AreAtMost column (map C.number marks.old) }
    requires empty { added.old.items ≡ [] }
    requires room { vec_len added.old + length lane.now ≤ vec_capacity added.old }
    ensures count { length marks.new ≡ length marks.old }
    ensures marked { AreMarked (column + 1) (map C.number marks.new) added.new.items }
    ensures rising { IsStrictlyIncreasing added.new.items }
    ensures rows { (r : ℕ) → Contains added.new.items r ↔ (Contains lane.now r × (column ≤ r)) }
    ensures counted { steps.new ≡ steps.old + length lane.now }
{
    for &row in lane {
        steps.tick();
        if column <= row {
            merge_row(row, column + 1, marks, added);
        }
    }
}

// Adds the rows of a tail that do not have the mark yet. Counts a step for each row of the tail.
#[inline(always)]
pub(super) fn merge_tail<C: Count>(
    tail: &[usize],
    mark: usize,
    marks: &mut [C],
    added: &mut Vec<usize>,
    steps: &mut Steps,
)
    requires inside { All (λ row. row < length marks.old) tail.now }
    requires width { mark < C.limit }
    requires marked { AreMarked mark (map C.number marks.old) added.old.items }
    requires room { vec_len added.old + length tail.now ≤ vec_capacity added.old }
    ensures count { length marks.new ≡ length marks.old }
    ensures marked { AreMarked mark (map C.number marks.new) added.new.items }
    ensures rows { (r : ℕ) → Contains added.new.items r
        ↔ (Contains added.old.items r ⊎ Contains tail.now r) }
    ensures counted { steps.new ≡ steps.old + length tail.now }
{
    for &row in tail {
        steps.tick();
        merge_row(row, mark, marks, added);
    }
}

// Adds a row and sets its mark, unless it has the mark.
#[inline(always)]
fn merge_row<C: Count>(row: usize, mark: usize, marks: &mut [C], added: &mut Vec<usize>)
    requires inside { row < length marks.old }
    requires width { mark < C.limit }
    requires marked { AreMarked mark (map C.number marks.old) added.old.items }
    requires room { vec_len added.old < vec_capacity added.old }
    ensures count { length marks.new ≡ length marks.old }
    ensures marked { AreMarked mark (map C.number marks.new) added.new.items }
    ensures added { Contains added.new.items row }
    ensures once { (added.new.items ≡ added.old.items)
        ⊎ (added.new.items ≡ added.old.items ++ row ∷ []) }
    ensures len { vec_len added.new ≤ vec_len added.old + 1 }
    ensures capacity { vec_capacity added.new ≡ vec_capacity added.old }
{
    if marks[row].get() != mark {
        marks[row] = C::of(mark);
        added.push_reserved(row);
    }
}

// Sorts the merged rows.
pub(super) fn sort_rows(rows: &mut Vec<usize>)
    requires once { AllPairs (λ x y. x ≢ y) rows.old.items }
    ensures rising { IsStrictlyIncreasing rows.new.items }
    ensures same { (row : ℕ) → Contains rows.new.items row ↔ Contains rows.old.items row }
{
    rows.sort_unstable();
}
