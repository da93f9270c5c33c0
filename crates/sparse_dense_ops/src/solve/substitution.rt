//! Substitution in the columns of B, one or four at a time.

ghost use Rattle.std.specs.Prelude.{◌≡◌, ◌*◌, ◌<◌, ◌⊎◌, length};
ghost use Rattle.sparse_algebra.specs.Operands.{inner_of};
ghost use Rattle.sparse_compressed.specs.PlainOfLanes.{plain_of_cols};
ghost use Rattle.sparse_dense_ops.specs.InnerBlocks.{AreChanged};
ghost use Rattle.sparse_dense_ops.specs.InnerColumns.{HasPivots, SolvesAt};
ghost use Rattle.sparse_dense_ops.specs.InnerColumns.{SolvesColumns, SolvesList, op_lower};

use crate::blocks::{BLOCK, width_of_block};
use crate::solve::backward::{solve_backward, solve_backward_four};
use crate::solve::forward::{solve_forward, solve_forward_four};
use sparse_algebra::operand::Op;
use sparse_algebra::scalar::Units;
use sparse_coo_dense::dense::DMatrix;
use sparse_csr_csc::csc::CscMatrix;

// Replaces B by the solution X of `op(T) X = B`.
pub fn solve_columns<T: Units>(l: Op<&CscMatrix<T>>, b: &mut DMatrix<T>)
    requires square { (inner_of l).now.pattern.minor_dim ≡ (inner_of l).now.pattern.major_dim }
    requires rows { b.old.nrows ≡ (inner_of l).now.pattern.major_dim }
    requires pivots { 0 < b.old.ncols
        → HasPivots T.ring T.value (plain_of_cols T.ring T.value (inner_of l).now) }
    ensures { SolvesColumns T.ring T.value T.zero_value
        (op_lower T.ring T.value (λ m. m.now) l.entry) b.new b.old }
{
    // Columns without rows take no time, however many there are.
    if b.nrows() > 0 {
        let size = (b.nrows(), b.ncols());
        solve_blocks(l, size, b.as_mut_slice());
    }
}

// Replaces each column b by the solution x of `op(T) x = b`, four at a time.
fn solve_blocks<T: Units>(l: Op<&CscMatrix<T>>, size: (usize, usize), x: &mut [T])
    requires square { (inner_of l).now.pattern.minor_dim ≡ (inner_of l).now.pattern.major_dim }
    requires rows { size.0 ≡ (inner_of l).now.pattern.major_dim }
    requires count { length x.old ≡ size.1 * size.0 }
    requires pivots { 0 < size.1
        → HasPivots T.ring T.value (plain_of_cols T.ring T.value (inner_of l).now) }
    ensures { AreChanged size.0 size.1 (SolvesAt T.ring T.value T.zero_value
        (op_lower T.ring T.value (λ m. m.now) l.entry)) x.old x.new }
{
    let (nrows, ncols) = size;
    let mut j = 0;
    while j < ncols {
        let width = width_of_block(false, ncols - j);
        let columns = &mut x[j * nrows..(j + width) * nrows];
        solve_block(l, nrows, width, columns);
        j += width;
    }
}

// Replaces one or four columns b by the solutions x of `op(T) x = b`.
fn solve_block<T: Units>(l: Op<&CscMatrix<T>>, nrows: usize, width: usize, x: &mut [T])
    requires square { (inner_of l).now.pattern.minor_dim ≡ (inner_of l).now.pattern.major_dim }
    requires rows { nrows ≡ (inner_of l).now.pattern.major_dim }
    requires count { length x.old ≡ width * nrows }
    requires widths { (width ≡ 1) ⊎ (width ≡ 4) }
    requires pivots { HasPivots T.ring T.value (plain_of_cols T.ring T.value (inner_of l).now) }
    ensures { AreChanged nrows width (SolvesAt T.ring T.value T.zero_value
        (op_lower T.ring T.value (λ m. m.now) l.entry)) x.old x.new }
{
    if width == BLOCK {
        solve_four(l, nrows, x);
    } else {
        solve_one(l, x);
    }
}

// Replaces b by the solution x of `op(T) x = b`.
fn solve_one<T: Units>(l: Op<&CscMatrix<T>>, x: &mut [T])
    requires square { (inner_of l).now.pattern.minor_dim ≡ (inner_of l).now.pattern.major_dim }
    requires rows { length x.old ≡ (inner_of l).now.pattern.major_dim }
    requires pivots { HasPivots T.ring T.value (plain_of_cols T.ring T.value (inner_of l).now) }
    ensures { SolvesList T.ring T.value T.zero_value (op_lower T.ring T.value (λ m. m.now) l.entry)
        x.new x.old }
{
    match l {
        Op::NoOp(l) => solve_forward(l, x),
        Op::Transpose(l) => solve_backward(l, x),
    }
}

// Replaces four columns b, stored one after the other, by the solutions x of `op(T) x = b`.
fn solve_four<T: Units>(l: Op<&CscMatrix<T>>, nrows: usize, x: &mut [T])
    requires square { (inner_of l).now.pattern.minor_dim ≡ (inner_of l).now.pattern.major_dim }
    requires rows { nrows ≡ (inner_of l).now.pattern.major_dim }
    requires count { length x.old ≡ 4 * nrows }
    requires pivots { HasPivots T.ring T.value (plain_of_cols T.ring T.value (inner_of l).now) }
    ensures { AreChanged nrows 4 (SolvesAt T.ring T.value T.zero_value
        (op_lower T.ring T.value (λ m. m.now) l.entry)) x.old x.new }
{
    let (first, behind) = x.split_at_mut(nrows);
    let (second, behind) = behind.split_at_mut(nrows);
    let (third, fourth) = behind.split_at_mut(nrows);
    match l {
        Op::NoOp(l) => solve_forward_four(l, first, second, third, fourth),
        Op::Transpose(l) => solve_backward_four(l, first, second, third, fourth),
    }
}
