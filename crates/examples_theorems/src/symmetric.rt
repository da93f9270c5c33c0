//! Symmetric systems: solved exactly, and a test whether a symmetric matrix has factors.

ghost use Rattle.std.specs.Prelude.{◌≡◌, ℕ, true, false, IfOk};
ghost use Rattle.nalgebra_sparse.specs.DensePlain.{plain_of_dense};
ghost use Rattle.nalgebra_sparse.specs.Factorisations.{IsFactorisation};
ghost use Rattle.nalgebra_sparse.specs.Factors.{HasNoFactors, symmetric_of};
ghost use Rattle.nalgebra_sparse.specs.ModNumbers.{mod_value};
ghost use Rattle.nalgebra_sparse.specs.Moduli.{mod_ring};
ghost use Rattle.nalgebra_sparse.specs.Plain.{Plain, plain_transpose};
ghost use Rattle.nalgebra_sparse.specs.PlainOfLanes.{plain_of_cols};
ghost use Rattle.nalgebra_sparse.specs.Solutions.{HasSameValues};

use crate::example::{holds, two_rows};
use nalgebra_sparse::CscMatrix;
use nalgebra_sparse::dense::DMatrix;
use nalgebra_sparse::laws::compressed::{equal_law, transpose_law};
use nalgebra_sparse::ldl::Ldl;
use nalgebra_sparse::ops::serial::{OperationError, OperationErrorKind, mul_csc_dense};
use nalgebra_sparse::scalar::{Mod, Ring, Units};
use std::alloc::{AllocError, Global};
use std::test::Fail;

// Returns the product of a symmetric matrix with the solution of its system, which is the right side again.
fn product_with_solution<T: Units>(
    alloc: Global,
    a: &CscMatrix<T>,
    b: &DMatrix<T>,
) -> Result<DMatrix<T>, OperationError>
    requires symmetric { plain_transpose T.ring (plain_of_cols T.ring T.value a.now)
        ≡ plain_of_cols T.ring T.value a.now }
    requires rows { b.now.nrows ≡ a.now.pattern.minor_dim }
    ensures { IfOk result (λ product. HasSameValues T.ring b.now.nrows b.now.ncols
        (plain_of_dense T.ring T.value product) (plain_of_dense T.ring T.value b.now)) }
{
    let ldl = Ldl::factor(alloc, a)?;
    let mut x = b.clone(alloc)?;
    ldl.solve_mut(&mut x);
    Ok(mul_csc_dense(alloc, a, &x)?)
}

// Returns whether a matrix is its own transpose.
fn is_symmetric<T: Ring>(alloc: Global, a: &CscMatrix<T>) -> Result<bool, AllocError>
    ensures { IfOk result (λ yes. yes ≡ true
        → plain_transpose T.ring (plain_of_cols T.ring T.value a.now)
        ≡ plain_of_cols T.ring T.value a.now) }
{
    // The calls cost nothing: their contracts tell the prover what `==` and the transpose mean.
    let _ = a.values();
    equal_law::<T>();
    transpose_law::<T>();
    let transposed = a.transpose(alloc)?;
    Ok(transposed == *a)
}

// Returns whether the symmetric matrix with the entries of `a` on and above the diagonal has a factorisation modulo P.
fn has_factors<const P: u64>(alloc: Global, a: &CscMatrix<Mod<P>>) -> Result<bool, AllocError>
    requires { a.now.pattern.minor_dim ≡ a.now.pattern.major_dim }
    ensures factors { IfOk result (λ yes. yes ≡ true → (l : Plain (mod_ring P))
        × ((d : ℕ → (mod_ring P).Carrier) × IsFactorisation (mod_ring P) mod_value
        (symmetric_of (mod_ring P) mod_value a.now) l d)) }
    ensures none { IfOk result (λ yes. yes ≡ false → HasNoFactors (mod_ring P) mod_value a.now) }
{
    match Ldl::factor(alloc, a) {
        Ok(_ldl) => Ok(true),
        Err(error) => {
            let kind = *error.kind();
            match kind {
                OperationErrorKind::Singular => Ok(false),
                OperationErrorKind::OutOfMemory | OperationErrorKind::InvalidPattern => Err(
                    AllocError,
                ),
            }
        }
    }
}

fn the_matrix_times_the_solution_is_the_right_side(alloc: Global) -> Result<bool, Fail> {
    let a = two_rows(alloc, &[2, 1, 1, 1])?;
    let b = DMatrix::from_column_slice(alloc, 2, 1, &[3, 2].map(Mod::new))?;
    if !is_symmetric(alloc, &a)? {
        return Ok(false);
    }
    Ok(product_with_solution(alloc, &a, &b)? == b)
}

fn a_matrix_has_factors_or_none(alloc: Global) -> Result<bool, Fail> {
    let factored = two_rows(alloc, &[2, 1, 1, 1])?;
    let exchange = two_rows(alloc, &[0, 1, 1, 0])?;
    Ok(has_factors(alloc, &factored)? && !has_factors(alloc, &exchange)?)
}

#[test]
fn symmetric_systems(rt: HostRuntime) {
    assert!(rt;
        holds(
            &rt,
            the_matrix_times_the_solution_is_the_right_side(rt.alloc())
        )
    );
    assert!(rt; holds(&rt, a_matrix_has_factors_or_none(rt.alloc())));
}
