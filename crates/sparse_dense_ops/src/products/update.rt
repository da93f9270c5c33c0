//! Updates of a dense matrix, one or four columns at a time.

ghost use Rattle.std.specs.Prelude.{◌≡◌, ◌<◌, ◌≤◌, ◌+◌, ◌*◌, ◌⊎◌, ◌^◌, false, length};
ghost use Rattle.sparse_algebra.specs.Plain.{plain_product};
ghost use Rattle.sparse_algebra.specs.Prealloc.{plain_update};
ghost use Rattle.sparse_coo_dense.specs.DensePlain.{plain_of_dense};
ghost use Rattle.sparse_compressed.specs.PlainOfLanes.{plain_of_rows};
ghost use Rattle.sparse_dense_ops.specs.DenseOperands.{op_dense};
ghost use Rattle.sparse_dense_ops.specs.InnerUpdates.{AreUpdated};
ghost use Rattle.sparse_algebra.specs.Prealloc.{plain_transpose_if};

use crate::blocks::{BLOCK, width_of_block};
use crate::products::gather::{gather_column, gather_four};
use crate::products::scatter::scatter_column;
use sparse_algebra::operand::Op;
use sparse_algebra::recall;
use sparse_algebra::scalar::Ring;
use sparse_compressed::CsMatrix;
use sparse_coo_dense::dense::DMatrix;

// The update of C to beta C + alpha A op(B). A is the matrix whose rows are the lanes of `a`, or its transpose if
// `transposed`.
#[derive(Clone, Copy)]
pub struct Change<'a, T> {
    pub beta: T,
    pub alpha: T,
    pub a: &'a CsMatrix<T>,
    pub transposed: bool,
    pub b: Op<&'a DMatrix<T>>,
}

// Replaces C by beta C + alpha A op(B). A is the matrix whose rows are the lanes of `a`, or its transpose if
// `transposed`.
pub fn update<T: Ring>(
    beta: T,
    c: &mut DMatrix<T>,
    alpha: T,
    a: &CsMatrix<T>,
    transposed: bool,
    b: Op<&DMatrix<T>>,
)
    requires inner { (plain_transpose_if T.ring transposed (plain_of_rows T.ring T.value a.now)).cols
        ≡ (op_dense T.ring T.value b).rows }
    requires rows { (plain_transpose_if T.ring transposed (plain_of_rows T.ring T.value a.now)).rows
        ≡ c.old.nrows }
    requires cols { (op_dense T.ring T.value b).cols ≡ c.old.ncols }
    ensures rows { c.new.nrows ≡ c.old.nrows }
    ensures cols { c.new.ncols ≡ c.old.ncols }
    ensures updated { plain_of_dense T.ring T.value c.new
        ≡ plain_update T.ring (T.value beta) (plain_of_dense T.ring T.value c.old) (T.value alpha)
        (plain_product T.ring (plain_transpose_if T.ring transposed (plain_of_rows T.ring T.value a.now))
        (op_dense T.ring T.value b.entry)) }
{
    recall(a.values());
    // A dense matrix without rows has no values, whatever its number of columns.
    if c.nrows() > 0 {
        let change = Change {
            beta,
            alpha,
            a,
            transposed,
            b,
        };
        let size = (c.nrows(), c.ncols());
        update_columns(&change, size, c.as_mut_slice());
    }
}

// Updates the columns of C, four at a time if A is not transposed: each row of A is then read once for all four.
fn update_columns<T: Ring>(change: &Change<'_, T>, size: (usize, usize), c: &mut [T])
    requires inner { (plain_transpose_if T.ring change.now.transposed
        (plain_of_rows T.ring T.value change.now.a.now)).cols
        ≡ (op_dense T.ring T.value change.now.b).rows }
    requires rows { (plain_transpose_if T.ring change.now.transposed
        (plain_of_rows T.ring T.value change.now.a.now)).rows ≡ size.0 }
    requires cols { (op_dense T.ring T.value change.now.b).cols ≡ size.1 }
    requires count { length c.old ≡ size.1 * size.0 }
    ensures { AreUpdated T.ring T.value T.zero_value (T.value change.now.beta)
        (T.value change.now.alpha) size.0 size.1
        (plain_product T.ring (plain_transpose_if T.ring change.now.transposed
        (plain_of_rows T.ring T.value change.now.a.now))
        (op_dense T.ring T.value change.now.b)).value c.old c.new }
{
    let (nrows, ncols) = size;
    let mut j = 0;
    while j < ncols {
        let width = width_of_block(change.transposed, ncols - j);
        let columns = &mut c[j * nrows..(j + width) * nrows];
        update_block(change, size, j, width, columns);
        j += width;
    }
}

// Updates one or four columns of C, from column j on.
fn update_block<T: Ring>(
    change: &Change<'_, T>,
    size: (usize, usize),
    j: usize,
    width: usize,
    c: &mut [T],
)
    requires inner { (plain_transpose_if T.ring change.now.transposed
        (plain_of_rows T.ring T.value change.now.a.now)).cols
        ≡ (op_dense T.ring T.value change.now.b).rows }
    requires rows { (plain_transpose_if T.ring change.now.transposed
        (plain_of_rows T.ring T.value change.now.a.now)).rows ≡ size.0 }
    requires cols { (op_dense T.ring T.value change.now.b).cols ≡ size.1 }
    requires within { j + width ≤ size.1 }
    requires count { length c.old ≡ width * size.0 }
    requires widths { (width ≡ 1) ⊎ ((width ≡ 4) × (change.now.transposed ≡ false)) }
    ensures { AreUpdated T.ring T.value T.zero_value (T.value change.now.beta)
        (T.value change.now.alpha) size.0 width
        (λ i k. (plain_product T.ring (plain_transpose_if T.ring change.now.transposed
        (plain_of_rows T.ring T.value change.now.a.now))
        (op_dense T.ring T.value change.now.b)).value i (j + k)) c.old c.new }
{
    if width == BLOCK {
        update_four(change, size.0, j, c);
    } else if change.transposed {
        scatter_column(change, j, c);
    } else {
        gather_column(change, j, c);
    }
}

// Updates four columns of C, from column j on. A is not transposed.
fn update_four<T: Ring>(change: &Change<'_, T>, nrows: usize, j: usize, c: &mut [T])
    requires inner { change.now.a.now.pattern.minor_dim ≡ (op_dense T.ring T.value change.now.b).rows }
    requires rows { change.now.a.now.pattern.major_dim ≡ nrows }
    requires within { j + 4 ≤ (op_dense T.ring T.value change.now.b).cols }
    requires fits { j + 3 < 2 ^ 64 }
    requires count { length c.old ≡ 4 * nrows }
    ensures { AreUpdated T.ring T.value T.zero_value (T.value change.now.beta)
        (T.value change.now.alpha) nrows 4
        (λ i k. (plain_product T.ring (plain_of_rows T.ring T.value change.now.a.now)
        (op_dense T.ring T.value change.now.b)).value i (j + k)) c.old c.new }
{
    let (first, rest) = c.split_at_mut(nrows);
    let (second, rest) = rest.split_at_mut(nrows);
    let (third, fourth) = rest.split_at_mut(nrows);
    gather_four(change, j, first, second, third, fourth);
}
