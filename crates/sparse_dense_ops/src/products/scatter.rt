//! Products by columns of the sparse operand: a multiple of each of its columns is added to a column of the result.

ghost use Rattle.std.specs.Prelude.{◌≡◌, ◌<◌, length};
ghost use Rattle.sparse_algebra.specs.Plain.{plain_product};
ghost use Rattle.sparse_compressed.specs.PlainOfLanes.{plain_of_cols};
ghost use Rattle.sparse_dense_ops.specs.DenseOperands.{op_dense};
ghost use Rattle.sparse_dense_ops.specs.InnerUpdates.{IsUpdatedColumn};

use crate::kernels::{lane_slices, usaxpy};
use crate::products::operand::{column_of, step_of};
use crate::products::update::Change;
use sparse_algebra::scalar::Ring;
use sparse_compressed::scaling::scale_values;

// Updates column j of C with the product of the transpose of A and column j of op(B).
pub fn scatter_column<T: Ring>(change: &Change<'_, T>, j: usize, c: &mut [T])
    requires inner { change.now.a.now.pattern.major_dim ≡ (op_dense T.ring T.value change.now.b).rows }
    requires rows { length c.old ≡ change.now.a.now.pattern.minor_dim }
    requires column { j < (op_dense T.ring T.value change.now.b).cols }
    ensures { IsUpdatedColumn T.ring T.value T.zero_value (T.value change.now.beta)
        (T.value change.now.alpha)
        (λ i. (plain_product T.ring (plain_of_cols T.ring T.value change.now.a.now)
        (op_dense T.ring T.value change.now.b)).value i j) c.old c.new }
{
    scale_values(change.beta, c);
    let (x, step) = (column_of(change.b, j), step_of(change.b));
    let (a, alpha) = (change.a, change.alpha);
    let lanes = a.pattern().major_dim();
    for k in 0..lanes {
        let (rows, values) = lane_slices(a, k);
        let scale = alpha.mul(x[k * step]);
        usaxpy(scale, values, rows, c);
    }
}
