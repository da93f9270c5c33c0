//! Forward substitution, column by column of a lower triangle.

ghost use Rattle.std.specs.Prelude.{◌≡◌, ◌<◌, All, length, slice_index_or, slice_set};
ghost use Rattle.sparse_compressed.specs.PlainOfLanes.{plain_of_cols};
ghost use Rattle.sparse_dense_ops.specs.SparseVectors.{sparse_elements};
ghost use Rattle.sparse_dense_ops.specs.InnerColumns.{HasPivots, SolvesList, EliminatesColumn, lower};

use crate::kernels::{add_multiple_four, usaxpy};
use crate::solve::column::{Column, column_below};
use sparse_algebra::scalar::{Ring, Units};
use sparse_csr_csc::csc::CscMatrix;

// Replaces b by the solution x of `T x = b`, from the first row to the last.
pub fn solve_forward<T: Units>(l: &CscMatrix<T>, x: &mut [T])
    requires square { l.now.pattern.minor_dim ≡ l.now.pattern.major_dim }
    requires rows { length x.old ≡ l.now.pattern.major_dim }
    requires pivots { HasPivots T.ring T.value (plain_of_cols T.ring T.value l.now) }
    ensures { SolvesList T.ring T.value T.zero_value (lower T.ring T.value l.now) x.new x.old }
{
    for k in 0..x.len() {
        let Some(column) = column_below(l, k) else {
            return;
        };
        eliminate_column(column, k, x);
    }
}

// Replaces each of four columns b by the solution x of `T x = b`. Each column of T is read once for all four.
pub fn solve_forward_four<T: Units>(
    l: &CscMatrix<T>,
    first: &mut [T],
    second: &mut [T],
    third: &mut [T],
    fourth: &mut [T],
)
    requires square { l.now.pattern.minor_dim ≡ l.now.pattern.major_dim }
    requires rows { length first.old ≡ l.now.pattern.major_dim }
    requires rows_2 { length second.old ≡ length first.old }
    requires rows_3 { length third.old ≡ length first.old }
    requires rows_4 { length fourth.old ≡ length first.old }
    requires pivots { HasPivots T.ring T.value (plain_of_cols T.ring T.value l.now) }
    ensures first { SolvesList T.ring T.value T.zero_value (lower T.ring T.value l.now)
        first.new first.old }
    ensures second { SolvesList T.ring T.value T.zero_value (lower T.ring T.value l.now)
        second.new second.old }
    ensures third { SolvesList T.ring T.value T.zero_value (lower T.ring T.value l.now)
        third.new third.old }
    ensures fourth { SolvesList T.ring T.value T.zero_value (lower T.ring T.value l.now)
        fourth.new fourth.old }
{
    for k in 0..first.len() {
        let Some(column) = column_below(l, k) else {
            return;
        };
        eliminate_column_four(column, k, first, second, third, fourth);
    }
}

// Computes x k, and subtracts x k times the column from the rows below.
#[inline(always)]
fn eliminate_column<T: Ring>(column: Column<'_, T>, k: usize, x: &mut [T])
    requires row { k < length x.old }
    requires fits { length column.values.now ≡ length column.rows.now }
    requires inside { All (λ i. i < length x.old) column.rows.now }
    requires above { sparse_elements T.ring T.value column.rows.now column.values.now k ≡ T.ring.zero }
    ensures { EliminatesColumn T.ring T.value T.zero_value k column.entry.rows.now
        column.entry.values.now column.entry.inverse x.old x.new }
{
    let scale = divide_entry(k, column.inverse, x).neg();
    usaxpy(scale, column.values, column.rows, x);
}

// Does the same in each of four columns.
#[inline(always)]
fn eliminate_column_four<T: Ring>(
    column: Column<'_, T>,
    k: usize,
    first: &mut [T],
    second: &mut [T],
    third: &mut [T],
    fourth: &mut [T],
)
    requires row { k < length first.old }
    requires fits { length column.values.now ≡ length column.rows.now }
    requires inside { All (λ i. i < length first.old) column.rows.now }
    requires above { sparse_elements T.ring T.value column.rows.now column.values.now k ≡ T.ring.zero }
    requires rows_2 { length second.old ≡ length first.old }
    requires rows_3 { length third.old ≡ length first.old }
    requires rows_4 { length fourth.old ≡ length first.old }
    ensures first { EliminatesColumn T.ring T.value T.zero_value k column.entry.rows.now
        column.entry.values.now column.entry.inverse first.old first.new }
    ensures second { EliminatesColumn T.ring T.value T.zero_value k column.entry.rows.now
        column.entry.values.now column.entry.inverse second.old second.new }
    ensures third { EliminatesColumn T.ring T.value T.zero_value k column.entry.rows.now
        column.entry.values.now column.entry.inverse third.old third.new }
    ensures fourth { EliminatesColumn T.ring T.value T.zero_value k column.entry.rows.now
        column.entry.values.now column.entry.inverse fourth.old fourth.new }
{
    let a = divide_entry(k, column.inverse, first).neg();
    let b = divide_entry(k, column.inverse, second).neg();
    let c = divide_entry(k, column.inverse, third).neg();
    let d = divide_entry(k, column.inverse, fourth).neg();
    let lane = (column.rows, column.values);
    add_multiple_four((a, b, c, d), lane, first, second, third, fourth);
}

// Multiplies entry k by an inverse, and returns the product. An inverse that is one is not multiplied by: most
// diagonals are ones.
#[inline(always)]
fn divide_entry<T: Ring>(k: usize, inverse: T, x: &mut [T]) -> T
    requires { k < length x.old }
    ensures value { T.value result
        ≡ T.ring.mul (T.value (slice_index_or x.old k T.zero_value)) (T.value inverse) }
    ensures written { x.new ≡ slice_set x.old k result }
{
    if inverse != T::one() {
        x[k] = x[k].mul(inverse);
    }
    x[k]
}
