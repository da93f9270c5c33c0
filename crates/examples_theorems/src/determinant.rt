//! The determinant of a symmetric matrix, as the product of the pivots of its factorisation L D Lᵀ.

ghost use Rattle.std.specs.Prelude.{◌≡◌, IfOk, IfErr, length, slice_index_or};
ghost use Rattle.nalgebra_sparse.specs.Factors.{HasNoFactors, diagonal};
ghost use Rattle.examples_theorems.specs.Pivots.{product_below, HasFactors, IsPivotProduct};

use crate::example::{holds, two_rows};
use nalgebra_sparse::csc::CscMatrix;
use nalgebra_sparse::ldl::Ldl;
use nalgebra_sparse::ops::serial::{OperationError, OperationErrorKind};
use nalgebra_sparse::scalar::{Mod, Ring, Units};
use std::alloc::Global;
use std::test::Fail;

// Returns the product of the values.
fn product_of<T: Ring>(values: &[T]) -> T
    ensures { T.value result ≡ product_below T.ring (length values.now)
        (diagonal T.ring T.value T.zero_value values.now) }
{
    let mut product = T::one();
    for factor in values {
        product = product.mul(*factor);
    }
    product
}

// Returns the product of the pivots of the symmetric matrix with the entries of `a` on and above the diagonal. It is
// the same for each factorisation, and there is one.
fn determinant<T: Units>(alloc: Global, a: &CscMatrix<T>) -> Result<T, OperationError>
    requires { a.now.pattern.minor_dim ≡ a.now.pattern.major_dim }
    ensures factors { IfOk result (λ _. HasFactors T.ring T.value a.now) }
    ensures product { IfOk result (λ x. IsPivotProduct T.ring T.value a.now (T.value x)) }
    ensures singular { IfErr result (λ e. e ≡ OperationErrorKind.Singular → HasNoFactors T.ring T.value a.now) }
{
    match Ldl::factor(alloc, a) {
        Ok(ldl) => Ok(product_of(ldl.d())),
        Err(error) => Err(error),
    }
}

// Whether the matrix with rows `2 1` and `1 1` has the determinant 1 modulo 7.
fn a_determinant_is_one(alloc: Global) -> Result<bool, Fail> {
    let matrix = two_rows(alloc, &[2, 1, 1, 1])?;
    Ok(determinant(alloc, &matrix)? == Mod::one())
}

#[test]
fn determinants(rt: HostRuntime) {
    assert!(rt; holds(&rt, a_determinant_is_one(rt.alloc())));
}
