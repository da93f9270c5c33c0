//! The children of a column in the elimination tree: finished columns in a linked list. A head is a column's number
//! plus one, or 0 at the end of the list. The tail of a column is its rows below the diagonal.

ghost use Rattle.std.specs.Prelude.{◌≡◌, ◌≢◌, ℕ, suc, ◌+◌, ◌<◌, ◌≤◌, ◌↔◌, ◌⊎◌, length, map};
ghost use Rattle.std.specs.Prelude.{slice_index, slice_set, Contains, OnOk, IsTrue};
ghost use Rattle.std.specs.List.Sorted.{IsStrictlyIncreasing};
ghost use Rattle.sparse_factor.specs.InnerColumns.{IsInColumn};
ghost use Rattle.sparse_factor.specs.InnerColumns.{AreColumns, AreRowsBelow};
ghost use Rattle.sparse_factor.specs.InnerChildren.{IsOnList, AreFalling, IsInTailOf, IsTailRun, HasOthers};
ghost use Rattle.sparse_factor.specs.InnerMarks.{AreMarked, AreAtMost};
ghost use Rattle.sparse_factor.specs.InnerCountedPairs.{CountsPairs};

use super::Columns;
use super::added::{AddedRows, merge_tail, sort_rows};
use super::runs::skip_row;
use sparse_coo_dense::steps::Steps;
use sparse_pattern::counting::Count;
use std::alloc::AllocError;

// Returns the offsets where the tail of the column of `head` starts and ends; the tail is empty if `head` is 0.
pub(super) fn tail_of(columns: &Columns, head: usize) -> (usize, usize)
    requires columns { AreColumns columns.now.offsets.items columns.now.rows.items }
    requires head { head < length columns.now.offsets.items }
    ensures { IsTailRun columns.now.offsets.items columns.now.rows.items head result.0 result.1 }
{
    if head == 0 {
        return (0, 0);
    }
    let (from, to) = (columns.offsets[head - 1], columns.offsets[head]);
    (skip_row(&columns.rows, from, to, head - 1), to)
}

// Returns the head of the longest column on a list, or 0 if the list is empty.
pub(super) fn longest_child<C: Count>(columns: &Columns, nexts: &[C], first: usize) -> usize
    requires columns { AreColumns columns.now.offsets.items columns.now.rows.items }
    requires falling { AreFalling (map C.number nexts.now) }
    requires linked { length columns.now.offsets.items ≤ length nexts.now + 1 }
    requires first { first < length columns.now.offsets.items }
    ensures some { first ≢ 0 → result ≢ 0 }
    ensures on_list { (k : ℕ) → result ≡ suc k → IsOnList (map C.number nexts.now) first k }
{
    let mut longest = first;
    let mut most = 0;
    let mut head = first;
    while head != 0 {
        let places = columns.offsets[head] - columns.offsets[head - 1];
        if most < places {
            longest = head;
            most = places;
        }
        head = nexts[head - 1].get();
    }
    longest
}

// Returns whether a list has at most one column.
pub(super) fn is_single<C: Count>(nexts: &[C], first: usize) -> bool
    requires { first ≤ length nexts.now }
    ensures { IsTrue result → (k : ℕ) → IsOnList (map C.number nexts.now) first k → first ≡ suc k }
{
    first == 0 || nexts[first - 1].get() == 0
}

// Adds the tails of all children but the longest to the merged rows, and sorts these. `children` has the head of the
// list of children, and the head of the longest child. Counts a step for each row of a tail that is added.
#[inline(always)]
pub(super) fn merge_other_children<C: Count>(
    columns: &Columns,
    nexts: &[C],
    children: (usize, usize),
    mark: usize,
    added: &mut AddedRows<C>,
    steps: &mut Steps,
) -> Result<(), AllocError>
    requires columns { AreColumns columns.now.offsets.items columns.now.rows.items }
    requires falling { AreFalling (map C.number nexts.now) }
    requires linked { length columns.now.offsets.items ≤ length nexts.now + 1 }
    requires first { children.0 < length columns.now.offsets.items }
    requires some { children.0 ≢ 0 → children.1 ≢ 0 }
    requires on_list { (k : ℕ) → children.1 ≡ suc k
        → IsOnList (map C.number nexts.now) children.0 k }
    requires width { mark < C.limit }
    requires inside { AreRowsBelow (length added.old.marks.items) columns.now.rows.items }
    requires marked { AreMarked mark (map C.number added.old.marks.items) added.old.rows.items }
    requires rising { IsStrictlyIncreasing added.old.rows.items }
    ensures count { length added.new.marks.items ≡ length added.old.marks.items }
    ensures marks { AreAtMost mark (map C.number added.new.marks.items) }
    ensures rising { OnOk result (IsStrictlyIncreasing added.new.rows.items) }
    ensures rows { OnOk result (HasOthers columns.now.offsets.items columns.now.rows.items
        (map C.number nexts.now) children.0 children.1 added.old.rows.items added.new.rows.items) }
    ensures added { CountsPairs (λ i k. IsOnList (map C.number nexts.now) children.0 k
        × (children.1 ≢ suc k) × IsInColumn columns.now.offsets.items columns.now.rows.items k i)
        steps.old steps.new }
{
    // With at most one child no tail is added, and the base rows are sorted already.
    if is_single(nexts, children.0) {
        return Ok(());
    }
    merge_tails(columns, nexts, children, mark, added, steps)?;
    sort_rows(&mut added.rows);
    Ok(())
}

// Adds the tails of all children but the longest to the merged rows, unsorted. Counts a step for each row of these
// tails.
#[inline(always)]
fn merge_tails<C: Count>(
    columns: &Columns,
    nexts: &[C],
    children: (usize, usize),
    mark: usize,
    added: &mut AddedRows<C>,
    steps: &mut Steps,
) -> Result<(), AllocError>
    requires columns { AreColumns columns.now.offsets.items columns.now.rows.items }
    requires falling { AreFalling (map C.number nexts.now) }
    requires linked { length columns.now.offsets.items ≤ length nexts.now + 1 }
    requires first { children.0 < length columns.now.offsets.items }
    requires width { mark < C.limit }
    requires inside { AreRowsBelow (length added.old.marks.items) columns.now.rows.items }
    requires marked { AreMarked mark (map C.number added.old.marks.items) added.old.rows.items }
    ensures count { length added.new.marks.items ≡ length added.old.marks.items }
    ensures marked { AreMarked mark (map C.number added.new.marks.items) added.new.rows.items }
    ensures rows { OnOk result (HasOthers columns.now.offsets.items columns.now.rows.items
        (map C.number nexts.now) children.0 children.1 added.old.rows.items added.new.rows.items) }
    ensures added { CountsPairs (λ i k. IsOnList (map C.number nexts.now) children.0 k
        × (children.1 ≢ suc k) × IsInColumn columns.now.offsets.items columns.now.rows.items k i)
        steps.old steps.new }
{
    let (first, longest) = children;
    let mut head = first;
    while head != 0 {
        if head != longest {
            merge_tail_of(columns, head, mark, added, steps)?;
        }
        head = nexts[head - 1].get();
    }
    Ok(())
}

// Adds the tail of the column of `head` to the merged rows. Counts a step for each row of the tail.
#[inline(always)]
fn merge_tail_of<C: Count>(
    columns: &Columns,
    head: usize,
    mark: usize,
    added: &mut AddedRows<C>,
    steps: &mut Steps,
) -> Result<(), AllocError>
    requires columns { AreColumns columns.now.offsets.items columns.now.rows.items }
    requires head { head < length columns.now.offsets.items }
    requires width { mark < C.limit }
    requires inside { AreRowsBelow (length added.old.marks.items) columns.now.rows.items }
    requires marked { AreMarked mark (map C.number added.old.marks.items) added.old.rows.items }
    ensures count { length added.new.marks.items ≡ length added.old.marks.items }
    ensures marked { AreMarked mark (map C.number added.new.marks.items) added.new.rows.items }
    ensures rows { OnOk result ((i : ℕ) → Contains added.new.rows.items i
        ↔ (Contains added.old.rows.items i ⊎ IsInTailOf columns.now.offsets.items
        columns.now.rows.items head i)) }
    ensures counted { CountsPairs (λ i k. (head ≡ suc k)
        × IsInColumn columns.now.offsets.items columns.now.rows.items k i) steps.old steps.new }
{
    let (from, to) = tail_of(columns, head);
    added.rows.reserve(to - from)?;
    merge_tail(
        &columns.rows[from..to],
        mark,
        &mut added.marks,
        &mut added.rows,
        steps,
    );
    Ok(())
}

// Puts a finished column on the list of its parent's children, unless `parent` is 0: then it has no parent.
pub(super) fn link_to_parent<C: Count>(
    column: usize,
    parent: usize,
    firsts: &mut [C],
    nexts: &mut [C],
)
    requires width { column + 1 < C.limit }
    requires column { column < length nexts.old }
    requires parent { parent < length firsts.old }
    ensures none { parent ≡ 0 → (firsts.new ≡ firsts.old) × (nexts.new ≡ nexts.old) }
    ensures firsts { parent ≢ 0 → map C.number firsts.new
        ≡ slice_set (map C.number firsts.old) parent (column + 1) }
    ensures nexts { parent ≢ 0 → map C.number nexts.new ≡ slice_set (map C.number nexts.old)
        column (slice_index (map C.number firsts.old) parent) }
{
    if parent != 0 {
        nexts[column] = firsts[parent];
        firsts[parent] = C::of(column + 1);
    }
}
