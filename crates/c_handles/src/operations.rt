//! Transposes, sums and products of matrices held by handles.

ghost use Rattle.std.specs.Prelude.{◌≡◌, Err, None, Some, IfErr, IfOk, IsErrAnd};
ghost use Rattle.std.specs.Prelude.{OnOk, OnErr};
ghost use Rattle.std.specs.Arc.{arc_value};
ghost use Rattle.sparse_algebra.specs.Integers.{element_of};
ghost use Rattle.sparse_algebra.specs.Plain.{plain_difference, plain_product, plain_scaled};
ghost use Rattle.sparse_algebra.specs.Plain.{plain_sum, plain_transpose};
ghost use Rattle.c_arrays.specs.Arrays.{ring64};
ghost use Rattle.c_arrays.specs.Refused.{IsOutOfMemoryOr};
ghost use Rattle.c_arrays.specs.declared.refusal.Refusal.TheVariants.{EmptyHandle};
ghost use Rattle.c_handles.specs.Held.{plain_held, Holds, IsEmpty};
ghost use Rattle.c_handles.specs.Held.{HoldsProduct, HoldsSum, IsSumError, IsProductError};

use crate::handle::MatrixHandle;
use crate::held::{put, shared, shared_pair};
use c_arrays::number::Number;
use c_arrays::refusal::Refusal;
use sparse_algebra::scalar::W64;
use sparse_csr_csc::csr::CsrMatrix;
use sparse_products::serial::mul_csr;
use sparse_products::transposes::transposed_csr;
use sparse_sums::{add_csr, add_scaled_csr, scale_csr, sub_csr};
use std::alloc::Global;
use std::sync::Arc;

/// Stores in `out` the transpose of the matrix that `a` holds.
///
/// # Errors
///
/// Returns `EmptyHandle` if `a` is empty. Otherwise fails only if an allocation fails. On an error `out` is unchanged.
pub fn transpose(alloc: Global, a: &mut MatrixHandle, out: &mut MatrixHandle) -> Result<(), Refusal>
    ensures kept { a.new.value ≡ a.old.value }
    ensures missing { a.old.value ≡ None → result ≡ Err EmptyHandle }
    ensures done { OnOk result
        (Holds out.new.value (plain_transpose ring64 (plain_held a.old.value))) }
    ensures unchanged { OnErr result (out.new.value ≡ out.old.value) }
    ensures fault { IfErr result (IsOutOfMemoryOr (IsEmpty a.old.value)) }
{
    let a = shared(alloc, a)?;
    let transpose = transposed_csr(alloc, &a)?;
    put(alloc, transpose, out)
}

/// Stores in `out` the matrix that `a` holds, times a number.
///
/// # Errors
///
/// Returns `EmptyHandle` if `a` is empty. Otherwise fails only if an allocation fails. On an error `out` is unchanged.
pub fn scale(
    alloc: Global,
    factor: i64,
    a: &mut MatrixHandle,
    out: &mut MatrixHandle,
) -> Result<(), Refusal>
    ensures kept { a.new.value ≡ a.old.value }
    ensures missing { a.old.value ≡ None → result ≡ Err EmptyHandle }
    ensures done { OnOk result (Holds out.new.value
        (plain_scaled ring64 (element_of ring64 factor) (plain_held a.old.value))) }
    ensures unchanged { OnErr result (out.new.value ≡ out.old.value) }
    ensures fault { IfErr result (IsOutOfMemoryOr (IsEmpty a.old.value)) }
{
    let a = shared(alloc, a)?;
    let multiple = scale_csr(alloc, &a, W64::from_number(factor))?;
    put(alloc, multiple, out)
}

/// Stores in `out` the sum of the matrices that `a` and `b` hold.
///
/// # Errors
///
/// Returns `EmptyHandle` if `a` or `b` is empty, and `ShapeMismatch` if the shapes of their matrices differ. Otherwise
/// fails only if an allocation fails. On an error `out` is unchanged.
pub fn add(
    alloc: Global,
    a: &mut MatrixHandle,
    b: &mut MatrixHandle,
    out: &mut MatrixHandle,
) -> Result<(), Refusal>
    ensures kept { (a.new.value ≡ a.old.value) × (b.new.value ≡ b.old.value) }
    ensures first_missing { a.old.value ≡ None → result ≡ Err EmptyHandle }
    ensures second_missing { b.old.value ≡ None
        → IsErrAnd result (IsOutOfMemoryOr (IsEmpty b.old.value)) }
    ensures done { OnOk result (HoldsSum a.old.value b.old.value
        (plain_sum ring64 (plain_held a.old.value) (plain_held b.old.value))
        out.new.value) }
    ensures unchanged { OnErr result (out.new.value ≡ out.old.value) }
    ensures fault { IfErr result (IsOutOfMemoryOr (IsSumError a.old.value b.old.value)) }
{
    let (a, b) = shared_alike(alloc, a, b)?;
    let sum = add_csr(alloc, &a, &b)?;
    put(alloc, sum, out)
}

/// Stores in `out` the difference `a - b` of the matrices that `a` and `b` hold.
///
/// # Errors
///
/// Returns `EmptyHandle` if `a` or `b` is empty, and `ShapeMismatch` if the shapes of their matrices differ. Otherwise
/// fails only if an allocation fails. On an error `out` is unchanged.
pub fn subtract(
    alloc: Global,
    a: &mut MatrixHandle,
    b: &mut MatrixHandle,
    out: &mut MatrixHandle,
) -> Result<(), Refusal>
    ensures kept { (a.new.value ≡ a.old.value) × (b.new.value ≡ b.old.value) }
    ensures first_missing { a.old.value ≡ None → result ≡ Err EmptyHandle }
    ensures second_missing { b.old.value ≡ None
        → IsErrAnd result (IsOutOfMemoryOr (IsEmpty b.old.value)) }
    ensures done { OnOk result (HoldsSum a.old.value b.old.value
        (plain_difference ring64 (plain_held a.old.value) (plain_held b.old.value))
        out.new.value) }
    ensures unchanged { OnErr result (out.new.value ≡ out.old.value) }
    ensures fault { IfErr result (IsOutOfMemoryOr (IsSumError a.old.value b.old.value)) }
{
    let (a, b) = shared_alike(alloc, a, b)?;
    let difference = sub_csr(alloc, &a, &b)?;
    put(alloc, difference, out)
}

/// Stores in `out` the sum `alpha * a + beta * b` of multiples of the matrices that `a` and `b` hold.
///
/// # Errors
///
/// Returns `EmptyHandle` if `a` or `b` is empty, and `ShapeMismatch` if the shapes of their matrices differ. Otherwise
/// fails only if an allocation fails. On an error `out` is unchanged.
pub fn add_scaled(
    alloc: Global,
    alpha: i64,
    a: &mut MatrixHandle,
    beta: i64,
    b: &mut MatrixHandle,
    out: &mut MatrixHandle,
) -> Result<(), Refusal>
    ensures kept { (a.new.value ≡ a.old.value) × (b.new.value ≡ b.old.value) }
    ensures first_missing { a.old.value ≡ None → result ≡ Err EmptyHandle }
    ensures second_missing { b.old.value ≡ None
        → IsErrAnd result (IsOutOfMemoryOr (IsEmpty b.old.value)) }
    ensures done { OnOk result (HoldsSum a.old.value b.old.value
        (plain_sum ring64 (plain_scaled ring64 (element_of ring64 alpha) (plain_held a.old.value))
        (plain_scaled ring64 (element_of ring64 beta) (plain_held b.old.value))) out.new.value) }
    ensures unchanged { OnErr result (out.new.value ≡ out.old.value) }
    ensures fault { IfErr result (IsOutOfMemoryOr (IsSumError a.old.value b.old.value)) }
{
    let (a, b) = shared_alike(alloc, a, b)?;
    let (alpha, beta) = (W64::from_number(alpha), W64::from_number(beta));
    let sum = add_scaled_csr(alloc, alpha, &a, beta, &b)?;
    put(alloc, sum, out)
}

/// Stores in `out` the product `a * b` of the matrices that `a` and `b` hold.
///
/// # Errors
///
/// Returns `EmptyHandle` if `a` or `b` is empty, and `ShapeMismatch` if the number of columns of the first matrix is
/// not the number of rows of the second. Otherwise fails only if an allocation fails. On an error `out` is unchanged.
pub fn multiply(
    alloc: Global,
    a: &mut MatrixHandle,
    b: &mut MatrixHandle,
    out: &mut MatrixHandle,
) -> Result<(), Refusal>
    ensures kept { (a.new.value ≡ a.old.value) × (b.new.value ≡ b.old.value) }
    ensures first_missing { a.old.value ≡ None → result ≡ Err EmptyHandle }
    ensures second_missing { b.old.value ≡ None
        → IsErrAnd result (IsOutOfMemoryOr (IsEmpty b.old.value)) }
    ensures done { OnOk result (HoldsProduct a.old.value b.old.value
        (plain_product ring64 (plain_held a.old.value) (plain_held b.old.value))
        out.new.value) }
    ensures unchanged { OnErr result (out.new.value ≡ out.old.value) }
    ensures fault { IfErr result (IsOutOfMemoryOr (IsProductError a.old.value b.old.value)) }
{
    let (a, b) = shared_pair(alloc, a, b)?;
    if a.ncols() != b.nrows() {
        return Err(Refusal::ShapeMismatch);
    }
    let product = mul_csr(alloc, &a, &b)?;
    put(alloc, product, out)
}

// Returns the matrices that two handles hold, with shared ownership, or `ShapeMismatch` if their shapes differ.
fn shared_alike(
    alloc: Global,
    a: &mut MatrixHandle,
    b: &mut MatrixHandle,
) -> Result<(Arc<CsrMatrix<W64>>, Arc<CsrMatrix<W64>>), Refusal>
    ensures kept { (a.new.value ≡ a.old.value) × (b.new.value ≡ b.old.value) }
    ensures first_missing { a.old.value ≡ None → result ≡ Err EmptyHandle }
    ensures second_missing { b.old.value ≡ None
        → IsErrAnd result (IsOutOfMemoryOr (IsEmpty b.old.value)) }
    ensures first { IfOk result (λ p. a.old.value ≡ Some (arc_value p.0)) }
    ensures second { IfOk result (λ p. b.old.value ≡ Some (arc_value p.1)) }
    ensures rows { IfOk result (λ p.
        (arc_value p.0).pattern.major_dim ≡ (arc_value p.1).pattern.major_dim) }
    ensures cols { IfOk result (λ p.
        (arc_value p.0).pattern.minor_dim ≡ (arc_value p.1).pattern.minor_dim) }
    ensures fault { IfErr result (IsOutOfMemoryOr (IsSumError a.old.value b.old.value)) }
{
    let (a, b) = shared_pair(alloc, a, b)?;
    if a.nrows() != b.nrows() || a.ncols() != b.ncols() {
        return Err(Refusal::ShapeMismatch);
    }
    Ok((a, b))
}
