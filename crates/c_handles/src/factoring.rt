//! Exact factors L D Lᵀ held by handles: factorisation and solves.

ghost use Rattle.std.specs.Prelude.{◌≡◌, Err, None, Some, IfErr, IfOk, OnOk, OnErr};
ghost use Rattle.sparse_algebra.specs.WrappingValues.{w64_value};
ghost use Rattle.c_arrays.specs.Arrays.{ring64};
ghost use Rattle.c_arrays.specs.Refused.{IsOutOfMemoryOr};
ghost use Rattle.c_arrays.specs.declared.refusal.Refusal.TheVariants.{EmptyHandle};
ghost use Rattle.sparse_compressed.specs.PlainOfLanes.{plain_of_rows};
ghost use Rattle.c_handles.specs.Held.{plain_held};
ghost use Rattle.c_handles.specs.Factored.{product_held, size_held, HasNoSystem};
ghost use Rattle.c_handles.specs.Factored.{AreFactors, HoldsFactors, IsUnfactored};
ghost use Rattle.c_handles.specs.Ordered.{AreFactorsInOrder, HoldsFactorsInOrder, IsUnfactoredInOrder};
ghost use Rattle.c_handles.specs.Solved.{SolvesInPlace};

use crate::handle::{FactorHandle, MatrixHandle};
use crate::held::{put, shared};
use crate::held_factors::HeldFactors;
use crate::ordering::permutation_of;
use crate::solving::{Triangle, columns_of, put_dense, size_of};
use c_arrays::dense::dense_matrix_of;
use c_arrays::refusal::Refusal;
use sparse_algebra::recall;
use sparse_algebra::scalar::W64;
use sparse_csr_csc::csr::CsrMatrix;
use sparse_factor::ldl::Ldl;
use sparse_factor::ordered::OrderedLdl;
use sparse_factor::ordered::error::OrderedFactorError;
use std::alloc::Global;

/// Stores in `out` the factors L and D of a symmetric matrix, whose entries on and above the diagonal are those of the
/// matrix that `a` holds.
///
/// # Errors
///
/// Returns `EmptyHandle` if `a` is empty, `ShapeMismatch` if its matrix is not square, and `Singular` if no factors
/// exist. Otherwise fails only if an allocation fails. On an error `out` is unchanged.
pub fn factor(alloc: Global, a: &mut MatrixHandle, out: &mut FactorHandle) -> Result<(), Refusal>
    ensures kept { a.new.value ≡ a.old.value }
    ensures missing { a.old.value ≡ None → result ≡ Err EmptyHandle }
    ensures done { OnOk result (HoldsFactors out.new.value (plain_held a.old.value)) }
    ensures unchanged { OnErr result (out.new.value ≡ out.old.value) }
    ensures fault { IfErr result (IsOutOfMemoryOr (IsUnfactored a.old.value)) }
{
    let a = shared(alloc, a)?;
    let factors = factors_of(alloc, &a)?;
    put(alloc, HeldFactors::Natural(factors), out)
}

/// Stores in `out` the factors L and D of P A Pᵀ, with the permutation P: A is the symmetric matrix whose entries on and
/// above the diagonal are those of the matrix that `a` holds, and P takes its rows and columns in the given order. The
/// order is copied.
///
/// # Errors
///
/// Returns `EmptyHandle` if `a` is empty, and `ShapeMismatch` if its matrix is not square. Returns `InvalidStructure` if
/// the order has another length than the matrix has rows, `IndexOutOfBounds` if one of its numbers is too large, and
/// `DuplicateEntry` if one occurs twice. Returns `Singular` if P A Pᵀ has no factors. Otherwise fails only if an
/// allocation fails. On an error `out` is unchanged.
pub fn factor_in_order(
    alloc: Global,
    a: &mut MatrixHandle,
    order: &[usize],
    out: &mut FactorHandle,
) -> Result<(), Refusal>
    ensures kept { a.new.value ≡ a.old.value }
    ensures missing { a.old.value ≡ None → result ≡ Err EmptyHandle }
    ensures done { OnOk result
        (HoldsFactorsInOrder out.new.value order.now (plain_held a.old.value)) }
    ensures unchanged { OnErr result (out.new.value ≡ out.old.value) }
    ensures fault { IfErr result (IsOutOfMemoryOr (IsUnfactoredInOrder a.old.value order.now)) }
{
    let a = shared(alloc, a)?;
    let factors = factors_in_order(alloc, &a, order)?;
    put(alloc, HeldFactors::Ordered(factors), out)
}

/// Solves A X = B in place with the factors that a handle holds, where A is the symmetric matrix that was factored:
/// `values` has the values of B before the call and those of X after it. B and X are dense matrices with `cols` columns,
/// stored column by column.
///
/// # Errors
///
/// Returns `EmptyHandle` if the handle is empty, and `InvalidStructure` if `values` does not have `cols` values for
/// each row of A. Otherwise fails only if an allocation fails. On an error `values` is unchanged.
pub fn solve_factored(
    alloc: Global,
    handle: &mut FactorHandle,
    cols: usize,
    values: &mut [i64],
) -> Result<(), Refusal>
    ensures kept { handle.new.value ≡ handle.old.value }
    ensures missing { handle.old.value ≡ None → result ≡ Err EmptyHandle }
    ensures solved { OnOk result (SolvesInPlace (product_held handle.old.value)
        (size_held handle.old.value) cols values.old values.new) }
    ensures unchanged { OnErr result (values.new ≡ values.old) }
    ensures fault { IfErr result (IsOutOfMemoryOr (HasNoSystem handle.old.value cols values.old)) }
{
    let factors = shared(alloc, handle)?;
    let mut x = dense_matrix_of(alloc, factors.size(), cols, values)?;
    factors.solve_mut(alloc, &mut x)?;
    put_dense(&x, values);
    Ok(())
}

// Returns the factors of the symmetric matrix whose entries on and above the diagonal are those of `a`.
fn factors_of(alloc: Global, a: &CsrMatrix<W64>) -> Result<Ldl<W64>, Refusal>
    ensures factors { IfOk result (AreFactors (plain_of_rows ring64 w64_value a.now)) }
    ensures fault { IfErr result (IsOutOfMemoryOr (IsUnfactored (Some a.now))) }
{
    size_of(a)?;
    let columns = columns_of(alloc, a, Triangle::Lower)?;
    recall(columns.values());
    let factors = Ldl::factor(alloc, &columns)?;
    Ok(factors)
}

// Returns the factors of that symmetric matrix with its rows and columns in the given order.
fn factors_in_order(
    alloc: Global,
    a: &CsrMatrix<W64>,
    order: &[usize],
) -> Result<OrderedLdl<W64>, Refusal>
    ensures factors { IfOk result
        (AreFactorsInOrder (plain_of_rows ring64 w64_value a.now) order.now) }
    ensures fault { IfErr result (IsOutOfMemoryOr (IsUnfactoredInOrder (Some a.now) order.now)) }
{
    let size = size_of(a)?;
    let permutation = permutation_of(alloc, order, size)?;
    let columns = columns_of(alloc, a, Triangle::Lower)?;
    match Ldl::factor_in_order(alloc, &columns, permutation) {
        Ok(factors) => Ok(factors),
        Err(OrderedFactorError::LengthMismatch) => Err(Refusal::InvalidStructure),
        Err(OrderedFactorError::Singular) => Err(Refusal::Singular),
        Err(OrderedFactorError::OutOfMemory) => Err(Refusal::OutOfMemory),
    }
}
