//! Columns of L, subtracted from the scratch column: one, or four nested ones at a time.

ghost use Rattle.std.specs.Prelude.{◌≡◌, ◌+◌, ◌<◌, ◌≤◌, All, length, slice_index, slice_range};
ghost use Rattle.sparse_pattern.specs.Raw.{IsInLane, start_of, end_of};
ghost use Rattle.sparse_dense_ops.specs.SparseVectors.{AddsMultiple, sparse_elements};
ghost use Rattle.sparse_factor.specs.InnerNested.{AddsFour, AreFirstRows, IsUpdatedByFour};
ghost use Rattle.sparse_factor.specs.InnerNested.{column_from, moved, moved_four, scale_at};

use sparse_algebra::recall;
use sparse_algebra::scalar::Ring;
use sparse_dense_ops::usaxpy;
use sparse_pattern::pattern::SparsityPattern;

// Subtracts column k from its cursor on, times its pivot and its entry there, if it is before column j. Moves its
// cursor.
pub fn subtract_one<T: Ring>(
    pattern: &SparsityPattern,
    values: &[T],
    k: usize,
    j: usize,
    cursors: &mut [usize],
    column: &mut [T],
)
    requires square { pattern.now.minor_dim ≡ pattern.now.major_dim }
    requires fits { length values.now ≡ length pattern.now.indices }
    requires rows { length column.old ≡ pattern.now.minor_dim }
    requires count { pattern.now.major_dim ≤ length cursors.old }
    requires cursor { IsInLane pattern.now k (slice_index cursors.old k) }
    ensures moved { cursors.new ≡ moved cursors.old k }
    ensures updated { k < j → AddsMultiple T.ring T.value T.zero_value
        (scale_at T.ring T.value T.zero_value values.now column.old k (slice_index cursors.old k))
        (column_from T.ring T.value pattern.now values.now k (slice_index cursors.old k))
        column.old column.new }
    ensures unchanged { j ≤ k → column.new ≡ column.old }
{
    recall(pattern.minor_indices());
    let at = advance(cursors, k);
    if k < j {
        let scale = scale_of(values, column, k, at);
        add_column(scale, pattern, values, k, at, column);
    }
}

// Subtracts the columns from k to k + 3, each from its cursor on, times its pivot and its entry there. Moves their
// cursors. The rows of column k from its cursor on must be the first of those of each of the others, so they are read
// once for all four.
pub fn subtract_four<T: Ring>(
    pattern: &SparsityPattern,
    values: &[T],
    k: usize,
    cursors: &mut [usize],
    column: &mut [T],
)
    requires square { pattern.now.minor_dim ≡ pattern.now.major_dim }
    requires lanes { k + 3 < pattern.now.major_dim }
    requires fits { length values.now ≡ length pattern.now.indices }
    requires rows { length column.old ≡ pattern.now.minor_dim }
    requires count { pattern.now.major_dim ≤ length cursors.old }
    requires cursor { IsInLane pattern.now k (slice_index cursors.old k) }
    requires second { AreFirstRows pattern.now k (slice_index cursors.old k) (k + 1)
        (slice_index cursors.old (k + 1)) }
    requires third { AreFirstRows pattern.now k (slice_index cursors.old k) (k + 2)
        (slice_index cursors.old (k + 2)) }
    requires fourth { AreFirstRows pattern.now k (slice_index cursors.old k) (k + 3)
        (slice_index cursors.old (k + 3)) }
    ensures moved { cursors.new ≡ moved_four cursors.old k }
    ensures updated { IsUpdatedByFour T.ring T.value T.zero_value pattern.now values.now k cursors.old
        column.old column.new }
{
    let (offsets, rows) = (pattern.major_offsets(), pattern.minor_indices());
    let at = advance_four(cursors, k);
    let scales = scales_of(values, column, k, at);
    let shared = offsets[k + 1] - at.0;
    add_shared(scales, rows, values, at, shared, column);
    add_column(scales.1, pattern, values, k + 1, at.1 + shared, column);
    add_column(scales.2, pattern, values, k + 2, at.2 + shared, column);
    add_column(scales.3, pattern, values, k + 3, at.3 + shared, column);
}

// Returns the cursor of column k, and moves it to the next entry.
#[inline(always)]
fn advance(cursors: &mut [usize], k: usize) -> usize
    requires column { k < length cursors.old }
    requires fits { slice_index cursors.old k < usize.MAX }
    ensures cursor { result ≡ slice_index cursors.old k }
    ensures moved { cursors.new ≡ moved cursors.old k }
{
    let at = cursors[k];
    cursors[k] = at + 1;
    at
}

// Returns the cursors of the columns from k to k + 3, and moves each to the next entry.
#[inline(always)]
fn advance_four(cursors: &mut [usize], k: usize) -> (usize, usize, usize, usize)
    requires columns { k + 3 < length cursors.old }
    requires fits { slice_index cursors.old k < usize.MAX }
    requires fits_1 { slice_index cursors.old (k + 1) < usize.MAX }
    requires fits_2 { slice_index cursors.old (k + 2) < usize.MAX }
    requires fits_3 { slice_index cursors.old (k + 3) < usize.MAX }
    ensures first { result.0 ≡ slice_index cursors.old k }
    ensures second { result.1 ≡ slice_index cursors.old (k + 1) }
    ensures third { result.2 ≡ slice_index cursors.old (k + 2) }
    ensures fourth { result.3 ≡ slice_index cursors.old (k + 3) }
    ensures moved { cursors.new ≡ moved_four cursors.old k }
{
    let p = advance(cursors, k);
    let q = advance(cursors, k + 1);
    let r = advance(cursors, k + 2);
    let s = advance(cursors, k + 3);
    (p, q, r, s)
}

// Returns the negative product of pivot k and the value at an offset.
#[inline(always)]
fn scale_of<T: Ring>(values: &[T], column: &[T], k: usize, at: usize) -> T
    requires pivot { k < length column.now }
    requires value { at < length values.now }
    ensures { T.value result ≡ scale_at T.ring T.value T.zero_value values.now column.now k at }
{
    column[k].mul(values[at]).neg()
}

// Returns the negative products of the pivots from k to k + 3 and the values at four offsets.
#[inline(always)]
fn scales_of<T: Ring>(
    values: &[T],
    column: &[T],
    k: usize,
    at: (usize, usize, usize, usize),
) -> (T, T, T, T)
    requires pivots { k + 3 < length column.now }
    requires first { at.0 < length values.now }
    requires second { at.1 < length values.now }
    requires third { at.2 < length values.now }
    requires fourth { at.3 < length values.now }
    ensures first { T.value result.0
        ≡ scale_at T.ring T.value T.zero_value values.now column.now k at.0 }
    ensures second { T.value result.1
        ≡ scale_at T.ring T.value T.zero_value values.now column.now (k + 1) at.1 }
    ensures third { T.value result.2
        ≡ scale_at T.ring T.value T.zero_value values.now column.now (k + 2) at.2 }
    ensures fourth { T.value result.3
        ≡ scale_at T.ring T.value T.zero_value values.now column.now (k + 3) at.3 }
{
    let a = scale_of(values, column, k, at.0);
    let b = scale_of(values, column, k + 1, at.1);
    let c = scale_of(values, column, k + 2, at.2);
    let d = scale_of(values, column, k + 3, at.3);
    (a, b, c, d)
}

// Adds a multiple of column k from offset `from` on.
#[inline(always)]
fn add_column<T: Ring>(
    scale: T,
    pattern: &SparsityPattern,
    values: &[T],
    k: usize,
    from: usize,
    column: &mut [T],
)
    requires lane { k < pattern.now.major_dim }
    requires start { start_of pattern.now k ≤ from }
    requires end { from ≤ end_of pattern.now k }
    requires fits { length values.now ≡ length pattern.now.indices }
    requires rows { length column.old ≡ pattern.now.minor_dim }
    ensures { AddsMultiple T.ring T.value T.zero_value (T.value scale)
        (column_from T.ring T.value pattern.now values.now k from) column.old column.new }
{
    let end = pattern.major_offsets()[k + 1];
    usaxpy(
        scale,
        &values[from..end],
        &pattern.minor_indices()[from..end],
        column,
    );
}

// Adds multiples of `shared` entries of four columns, each from an offset of its own on, in the rows of the first.
#[inline(always)]
fn add_shared<T: Ring>(
    scales: (T, T, T, T),
    rows: &[usize],
    values: &[T],
    at: (usize, usize, usize, usize),
    shared: usize,
    column: &mut [T],
)
    requires fits { length values.now ≡ length rows.now }
    requires first { at.0 + shared ≤ length values.now }
    requires second { at.1 + shared ≤ length values.now }
    requires third { at.2 + shared ≤ length values.now }
    requires fourth { at.3 + shared ≤ length values.now }
    requires inside { All (λ i. i < length column.old)
        (slice_range rows.now at.0 (at.0 + shared)) }
    ensures { AddsFour T.ring T.value T.zero_value (T.value scales.0) (T.value scales.1)
        (T.value scales.2) (T.value scales.3)
        (sparse_elements T.ring T.value (slice_range rows.now at.0 (at.0 + shared))
        (slice_range values.now at.0 (at.0 + shared)))
        (sparse_elements T.ring T.value (slice_range rows.now at.0 (at.0 + shared))
        (slice_range values.now at.1 (at.1 + shared)))
        (sparse_elements T.ring T.value (slice_range rows.now at.0 (at.0 + shared))
        (slice_range values.now at.2 (at.2 + shared)))
        (sparse_elements T.ring T.value (slice_range rows.now at.0 (at.0 + shared))
        (slice_range values.now at.3 (at.3 + shared)))
        column.old column.new }
{
    let (p, q, r, s) = at;
    let lanes = (
        &values[p..p + shared],
        &values[q..q + shared],
        &values[r..r + shared],
        &values[s..s + shared],
    );
    add_four(scales, &rows[p..p + shared], lanes, column);
}

// Adds multiples of four lists of values to the entries in the same rows. Not inlined: in a larger function the
// pointers do not fit into registers, which takes a third more time.
#[inline(never)]
fn add_four<T: Ring>(
    scales: (T, T, T, T),
    rows: &[usize],
    lanes: (&[T], &[T], &[T], &[T]),
    column: &mut [T],
)
    requires first { length lanes.0.now ≡ length rows.now }
    requires second { length lanes.1.now ≡ length rows.now }
    requires third { length lanes.2.now ≡ length rows.now }
    requires fourth { length lanes.3.now ≡ length rows.now }
    requires inside { All (λ i. i < length column.old) rows.now }
    ensures { AddsFour T.ring T.value T.zero_value (T.value scales.0) (T.value scales.1)
        (T.value scales.2) (T.value scales.3)
        (sparse_elements T.ring T.value rows.now lanes.entry.0.now)
        (sparse_elements T.ring T.value rows.now lanes.entry.1.now)
        (sparse_elements T.ring T.value rows.now lanes.entry.2.now)
        (sparse_elements T.ring T.value rows.now lanes.entry.3.now) column.old column.new }
{
    let (a, b, c, d) = scales;
    let (first, second, third, fourth) = lanes;
    for at in 0..rows.len() {
        let entry = &mut column[rows[at]];
        let sum = a.mul(first[at]).add(b.mul(second[at]));
        let more = c.mul(third[at]).add(d.mul(fourth[at]));
        *entry = entry.add(sum.add(more));
    }
}
