//! Callers whose contracts follow from the public clauses of the library.

ghost use Rattle.std.specs.Prelude.{◌≡◌, OnOk};
ghost use Rattle.sparse_coo_dense.specs.DensePlain.{plain_of_dense};
ghost use Rattle.sparse_compressed.specs.PlainOfLanes.{plain_of_cols};
ghost use Rattle.sparse_dense_ops.specs.Solutions.{plain_lower, IsSolution, HasSameValues};

use sparse_algebra::error::OperationError;
use sparse_algebra::operand::Op;
use sparse_algebra::scalar::Units;
use sparse_coo_dense::dense::DMatrix;
use sparse_csr_csc::csc::CscMatrix;
use sparse_dense_ops::spsolve_csc_lower_triangular;

/// Solves a system, and has the values of a solution that was known before: there is no other one.
pub fn solve_known<T: Units>(
    l: &CscMatrix<T>,
    b: &mut DMatrix<T>,
    known: &DMatrix<T>,
) -> Result<(), OperationError>
    requires square { l.now.pattern.minor_dim ≡ l.now.pattern.major_dim }
    requires rows { b.old.nrows ≡ l.now.pattern.major_dim }
    requires known { IsSolution T.ring (plain_lower T.ring (plain_of_cols T.ring T.value l.now))
        (plain_of_dense T.ring T.value known.now) (plain_of_dense T.ring T.value b.old) }
    ensures { OnOk result (HasSameValues T.ring b.old.nrows b.old.ncols
        (plain_of_dense T.ring T.value known.now) (plain_of_dense T.ring T.value b.new)) }
{
    spsolve_csc_lower_triangular(Op::NoOp(l), b)
}
