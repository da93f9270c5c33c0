//! The columns of op(B).

ghost use Rattle.std.specs.Prelude.{◌≡◌, ℕ, ◌<◌};
ghost use Rattle.sparse_dense_ops.specs.DenseOperands.{op_dense};
ghost use Rattle.sparse_dense_ops.specs.InnerUpdates.{HasStrided, op_step};
ghost use Rattle.sparse_dense_ops.specs.InnerKernels.{strided};

use sparse_algebra::operand::Op;
use sparse_algebra::scalar::Ring;
use sparse_coo_dense::dense::DMatrix;

// Returns the distance between neighbouring entries of a column of op(B) in the values of B.
pub fn step_of<T>(b: Op<&DMatrix<T>>) -> usize
    ensures { result ≡ op_step b.entry }
{
    match b {
        Op::NoOp(_) => 1,
        Op::Transpose(b) => b.nrows(),
    }
}

// Returns the values of B from the first entry of column j of op(B) on.
pub fn column_of<T: Ring>(b: Op<&DMatrix<T>>, j: usize) -> &[T]
    requires { j < (op_dense T.ring T.value b).cols }
    ensures inside { HasStrided result.now (op_step b.entry)
        (op_dense T.ring T.value b.entry).rows }
    ensures entries { (k : ℕ) → k < (op_dense T.ring T.value b.entry).rows
        → strided T.ring T.value T.zero_value result.now (op_step b.entry) k
        ≡ (op_dense T.ring T.value b.entry).value k j }
{
    match b {
        Op::NoOp(b) => b.column(j),
        Op::Transpose(b) => {
            let values = b.as_slice();
            &values[j.min(values.len())..]
        }
    }
}
