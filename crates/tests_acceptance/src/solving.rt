//! Calls whose results fit together, proved from the public clauses alone.

ghost use Rattle.std.specs.Prelude.{◌≡◌, IfOk};
ghost use Rattle.nalgebra_sparse.specs.DensePlain.{plain_of_dense};
ghost use Rattle.nalgebra_sparse.specs.PlainOfLanes.{plain_of_cols};
ghost use Rattle.nalgebra_sparse.specs.Solutions.{plain_lower};

use nalgebra_sparse::CscMatrix;
use nalgebra_sparse::dense::DMatrix;
use nalgebra_sparse::ops::Op;
use nalgebra_sparse::ops::serial::{OperationError, mul_csc_dense, spsolve_csc_lower_triangular};
use nalgebra_sparse::scalar::Units;
use std::alloc::Global;

/// Solves `L X = B`, writes X over the B in `b`, and returns `L X`, which equals that B.
///
/// `l` must be square and lower triangular, with as many rows as `b`.
pub fn solve_and_multiply<T: Units>(
    alloc: Global,
    l: &CscMatrix<T>,
    b: &mut DMatrix<T>,
) -> Result<DMatrix<T>, OperationError>
    requires square { l.now.pattern.minor_dim ≡ l.now.pattern.major_dim }
    requires rows { b.old.nrows ≡ l.now.pattern.major_dim }
    requires lower { plain_lower T.ring (plain_of_cols T.ring T.value l.now)
        ≡ plain_of_cols T.ring T.value l.now }
    ensures { IfOk result
        (λ product. plain_of_dense T.ring T.value product ≡ plain_of_dense T.ring T.value b.old) }
{
    spsolve_csc_lower_triangular(Op::NoOp(l), b)?;
    Ok(mul_csc_dense(alloc, l, b)?)
}
