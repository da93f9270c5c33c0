//! Backward substitution with the transpose of a lower triangle: the entries of a column below its diagonal are those
//! of a row of the transpose after its diagonal.

ghost use Rattle.std.specs.Prelude.{◌≡◌, ◌<◌, length, slice_index_or};
ghost use Rattle.sparse_compressed.specs.PlainOfLanes.{plain_of_cols};
ghost use Rattle.sparse_dense_ops.specs.InnerKernels.{IsWrittenAt};
ghost use Rattle.sparse_dense_ops.specs.InnerColumns.{HasPivots, SolvesList, lower};

use crate::kernels::{dot, dot_four};
use crate::solve::column::column_below;
use sparse_algebra::scalar::{Ring, Units};
use sparse_csr_csc::csc::CscMatrix;

// Replaces b by the solution x of `T^t x = b`, from the last row to the first.
pub fn solve_backward<T: Units>(l: &CscMatrix<T>, x: &mut [T])
    requires square { l.now.pattern.minor_dim ≡ l.now.pattern.major_dim }
    requires rows { length x.old ≡ l.now.pattern.major_dim }
    requires pivots { HasPivots T.ring T.value (plain_of_cols T.ring T.value l.now) }
    ensures { SolvesList T.ring T.value T.zero_value (λ i j. lower T.ring T.value l.now j i)
        x.new x.old }
{
    let count = x.len();
    for step in 0..count {
        let k = count - 1 - step;
        let Some(column) = column_below(l, k) else {
            return;
        };
        let known = dot(column.rows, column.values, x, 1);
        solve_row(x, k, known, column.inverse);
    }
}

// Replaces each of four columns b by the solution x of `T^t x = b`. Each column of T is read once for all four.
pub fn solve_backward_four<T: Units>(
    l: &CscMatrix<T>,
    first: &mut [T],
    second: &mut [T],
    third: &mut [T],
    fourth: &mut [T],
)
    requires square { l.now.pattern.minor_dim ≡ l.now.pattern.major_dim }
    requires rows { length first.old ≡ l.now.pattern.major_dim }
    requires rows_2 { length second.old ≡ length first.old }
    requires rows_3 { length third.old ≡ length first.old }
    requires rows_4 { length fourth.old ≡ length first.old }
    requires pivots { HasPivots T.ring T.value (plain_of_cols T.ring T.value l.now) }
    ensures first { SolvesList T.ring T.value T.zero_value (λ i j. lower T.ring T.value l.now j i)
        first.new first.old }
    ensures second { SolvesList T.ring T.value T.zero_value (λ i j. lower T.ring T.value l.now j i)
        second.new second.old }
    ensures third { SolvesList T.ring T.value T.zero_value (λ i j. lower T.ring T.value l.now j i)
        third.new third.old }
    ensures fourth { SolvesList T.ring T.value T.zero_value (λ i j. lower T.ring T.value l.now j i)
        fourth.new fourth.old }
{
    let count = first.len();
    for step in 0..count {
        let k = count - 1 - step;
        let Some(column) = column_below(l, k) else {
            return;
        };
        let columns = (&*first, &*second, &*third, &*fourth);
        let (a, b, c, d) = dot_four(column.rows, column.values, columns, 1);
        let e = column.inverse;
        solve_row(first, k, a, e);
        solve_row(second, k, b, e);
        solve_row(third, k, c, e);
        solve_row(fourth, k, d, e);
    }
}

// Writes the solution of row k: its entry minus the sum of the known terms, times the inverse of the diagonal entry.
#[inline(always)]
fn solve_row<T: Ring>(x: &mut [T], k: usize, known: T, inverse: T)
    requires { k < length x.old }
    ensures { IsWrittenAt T.ring T.value T.zero_value k
        (T.ring.mul (T.ring.add (T.value (slice_index_or x.old k T.zero_value))
        (T.ring.neg (T.value known))) (T.value inverse)) x.old x.new }
{
    x[k] = x[k].add(known.neg()).mul(inverse);
}
