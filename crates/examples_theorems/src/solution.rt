//! Symmetric systems that have one solution.

ghost use Rattle.std.specs.Prelude.{◌≡◌, IfOk, IfErr};
ghost use Rattle.nalgebra_sparse.specs.DensePlain.{plain_of_dense};
ghost use Rattle.nalgebra_sparse.specs.Factors.{HasNoFactors, symmetric_of};
ghost use Rattle.examples_theorems.specs.OnlySolutions.{IsOnlySolution};

use crate::example::{holds, two_rows};
use nalgebra_sparse::csc::CscMatrix;
use nalgebra_sparse::dense::DMatrix;
use nalgebra_sparse::laws::plain::product_associative_law;
use nalgebra_sparse::ldl::Ldl;
use nalgebra_sparse::ops::serial::{OperationError, OperationErrorKind};
use nalgebra_sparse::scalar::{Mod, Units};
use std::alloc::Global;
use std::test::Fail;

// Returns the solution X of A X = B, where A is the symmetric matrix with the entries of `a` on and above the diagonal.
// There is no other solution, over any commutative ring.
fn solve_symmetric<T: Units>(
    alloc: Global,
    a: &CscMatrix<T>,
    b: &DMatrix<T>,
) -> Result<DMatrix<T>, OperationError>
    requires square { a.now.pattern.minor_dim ≡ a.now.pattern.major_dim }
    requires rows { b.now.nrows ≡ a.now.pattern.minor_dim }
    ensures nrows { IfOk result (λ x. x.nrows ≡ b.now.nrows) }
    ensures ncols { IfOk result (λ x. x.ncols ≡ b.now.ncols) }
    ensures only { IfOk result (λ x. IsOnlySolution T.ring (symmetric_of T.ring T.value a.now)
        (plain_of_dense T.ring T.value x) (plain_of_dense T.ring T.value b.now)) }
    ensures singular { IfErr result (λ e. e ≡ OperationErrorKind.Singular
        → HasNoFactors T.ring T.value a.now) }
{
    // This call costs nothing: it tells the prover that the product is associative.
    product_associative_law::<T>();
    let mut x = b.clone(alloc)?;
    match Ldl::factor(alloc, a) {
        Ok(ldl) => {
            ldl.solve_mut(&mut x);
            Ok(x)
        }
        Err(error) => Err(error),
    }
}

// Whether the system with rows `2 1` and `1 1` and the right side `3 2` has the solution `1 1` modulo 7.
fn a_solution_is_one_one(alloc: Global) -> Result<bool, Fail> {
    let a = two_rows(alloc, &[2, 1, 1, 1])?;
    let b = DMatrix::from_column_slice(alloc, 2, 1, &[3, 2].map(Mod::new))?;
    Ok(solve_symmetric(alloc, &a, &b)?.as_slice() == [1, 1].map(Mod::new).as_slice())
}

#[test]
fn solutions(rt: HostRuntime) {
    assert!(rt; holds(&rt, a_solution_is_one_one(rt.alloc())));
}
