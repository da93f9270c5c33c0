//! Products by rows of the sparse operand: an entry of the result is the dot product of a row and a column.

ghost use Rattle.std.specs.Prelude.{◌≡◌, ◌+◌, ◌<◌, ◌≤◌, ◌^◌, length, slice_index_or};
ghost use Rattle.sparse_algebra.specs.Plain.{plain_product};
ghost use Rattle.sparse_compressed.specs.PlainOfLanes.{plain_of_rows};
ghost use Rattle.sparse_dense_ops.specs.DenseOperands.{op_dense};
ghost use Rattle.sparse_dense_ops.specs.InnerKernels.{IsWrittenAt};
ghost use Rattle.sparse_dense_ops.specs.InnerUpdates.{IsUpdatedColumn, updated};

use crate::kernels::{dot, dot_four, lane_slices};
use crate::products::operand::{column_of, step_of};
use crate::products::update::Change;
use sparse_algebra::scalar::Ring;

// Updates column j of C with the product of A and column j of op(B).
pub fn gather_column<T: Ring>(change: &Change<'_, T>, j: usize, c: &mut [T])
    requires inner { change.now.a.now.pattern.minor_dim ≡ (op_dense T.ring T.value change.now.b).rows }
    requires rows { length c.old ≡ change.now.a.now.pattern.major_dim }
    requires column { j < (op_dense T.ring T.value change.now.b).cols }
    ensures { IsUpdatedColumn T.ring T.value T.zero_value (T.value change.now.beta)
        (T.value change.now.alpha)
        (λ i. (plain_product T.ring (plain_of_rows T.ring T.value change.now.a.now)
        (op_dense T.ring T.value change.now.b)).value i j) c.old c.new }
{
    let (a, beta, alpha) = (change.a, change.beta, change.alpha);
    let (x, step) = (column_of(change.b, j), step_of(change.b));
    for i in 0..c.len() {
        let (indices, values) = lane_slices(a, i);
        let sum = dot(indices, values, x, step);
        update_entry(beta, c, i, alpha, sum);
    }
}

// Updates four columns of C, from column j on, with the products of A and those of op(B). Each row of A is read once
// for all four.
pub fn gather_four<T: Ring>(
    change: &Change<'_, T>,
    j: usize,
    first: &mut [T],
    second: &mut [T],
    third: &mut [T],
    fourth: &mut [T],
)
    requires inner { change.now.a.now.pattern.minor_dim ≡ (op_dense T.ring T.value change.now.b).rows }
    requires rows { length first.old ≡ change.now.a.now.pattern.major_dim }
    requires rows_2 { length second.old ≡ length first.old }
    requires rows_3 { length third.old ≡ length first.old }
    requires rows_4 { length fourth.old ≡ length first.old }
    requires columns { j + 4 ≤ (op_dense T.ring T.value change.now.b).cols }
    requires fits { j + 3 < 2 ^ 64 }
    ensures first { IsUpdatedColumn T.ring T.value T.zero_value (T.value change.now.beta)
        (T.value change.now.alpha)
        (λ i. (plain_product T.ring (plain_of_rows T.ring T.value change.now.a.now)
        (op_dense T.ring T.value change.now.b)).value i j) first.old first.new }
    ensures second { IsUpdatedColumn T.ring T.value T.zero_value (T.value change.now.beta)
        (T.value change.now.alpha)
        (λ i. (plain_product T.ring (plain_of_rows T.ring T.value change.now.a.now)
        (op_dense T.ring T.value change.now.b)).value i (j + 1)) second.old second.new }
    ensures third { IsUpdatedColumn T.ring T.value T.zero_value (T.value change.now.beta)
        (T.value change.now.alpha)
        (λ i. (plain_product T.ring (plain_of_rows T.ring T.value change.now.a.now)
        (op_dense T.ring T.value change.now.b)).value i (j + 2)) third.old third.new }
    ensures fourth { IsUpdatedColumn T.ring T.value T.zero_value (T.value change.now.beta)
        (T.value change.now.alpha)
        (λ i. (plain_product T.ring (plain_of_rows T.ring T.value change.now.a.now)
        (op_dense T.ring T.value change.now.b)).value i (j + 3)) fourth.old fourth.new }
{
    let (a, beta, alpha) = (change.a, change.beta, change.alpha);
    let (b, step) = (change.b, step_of(change.b));
    let (x0, x1) = (column_of(b, j), column_of(b, j + 1));
    let (x2, x3) = (column_of(b, j + 2), column_of(b, j + 3));
    for i in 0..first.len() {
        let (indices, values) = lane_slices(a, i);
        let (s0, s1, s2, s3) = dot_four(indices, values, (x0, x1, x2, x3), step);
        update_entry(beta, first, i, alpha, s0);
        update_entry(beta, second, i, alpha, s1);
        update_entry(beta, third, i, alpha, s2);
        update_entry(beta, fourth, i, alpha, s3);
    }
}

// Replaces entry i of a column by beta times the entry plus alpha times a sum.
fn update_entry<T: Ring>(beta: T, c: &mut [T], i: usize, alpha: T, sum: T)
    requires { i < length c.old }
    ensures { IsWrittenAt T.ring T.value T.zero_value i (updated T.ring T.value (T.value beta)
        (T.value alpha) (slice_index_or c.old i T.zero_value) (T.value sum)) c.old c.new }
{
    c[i] = beta.mul(c[i]).add(alpha.mul(sum));
}
