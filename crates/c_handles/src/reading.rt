//! The sizes and the arrays of matrices and of factors held by handles.

ghost use Rattle.std.specs.Prelude.{◌≡◌, length, Err, None, IfOk, IfErr, OnOk, OnErr};
ghost use Rattle.sparse_algebra.specs.Plain.{plain_transpose};
ghost use Rattle.sparse_algebra.specs.WrappingValues.{w64_value};
ghost use Rattle.c_arrays.specs.Arrays.{place_count, ring64, output_arrays, HoldsRows};
ghost use Rattle.c_arrays.specs.Refused.{IsOutOfMemoryOr};
ghost use Rattle.c_arrays.specs.Rests.{KeepsRest};
ghost use Rattle.c_arrays.specs.declared.refusal.Refusal.TheVariants.{EmptyHandle};
ghost use Rattle.sparse_compressed.specs.PlainOfLanes.{plain_of_cols};
ghost use Rattle.sparse_factor.specs.Factors.{diagonal};
ghost use Rattle.c_handles.specs.Factored.{d_held, l_held, zero64};
ghost use Rattle.c_handles.specs.Held.{plain_held, IsEmpty, IsUnwritten};

use crate::handle::{FactorHandle, MatrixHandle};
use crate::held::shared;
use c_arrays::refusal::Refusal;
use c_arrays::writing::write_rows;
use sparse_algebra::scalar::W64;
use sparse_csr_csc::csr::CsrMatrix;
use std::alloc::Global;

/// Returns the numbers of rows, columns and entries of the matrix that `a` holds.
///
/// # Errors
///
/// Returns `EmptyHandle` if `a` is empty. Otherwise fails only if the matrix has too many owners (`OutOfMemory`).
pub fn sizes(alloc: Global, a: &mut MatrixHandle) -> Result<(usize, usize, usize), Refusal>
    ensures kept { a.new.value ≡ a.old.value }
    ensures missing { a.old.value ≡ None → result ≡ Err EmptyHandle }
    ensures rows { IfOk result (λ sizes. sizes.0 ≡ (plain_held a.old.value).rows) }
    ensures cols { IfOk result (λ sizes. sizes.1 ≡ (plain_held a.old.value).cols) }
    ensures places { IfOk result (λ sizes. sizes.2 ≡ place_count (plain_held a.old.value)) }
    ensures fault { IfErr result (IsOutOfMemoryOr (IsEmpty a.old.value)) }
{
    let a = shared(alloc, a)?;
    Ok((a.nrows(), a.ncols(), a.nnz()))
}

/// Writes the CSR arrays of the matrix that `a` holds, and its number of entries to `places`. Longer arrays are
/// unchanged after the arrays of the matrix.
///
/// # Errors
///
/// Returns `EmptyHandle` if `a` is empty, and `TooSmall` if an array is too small. Otherwise fails only if the matrix
/// has too many owners (`OutOfMemory`). On an error the arrays and `places` are unchanged.
pub fn read(
    alloc: Global,
    a: &mut MatrixHandle,
    offsets: &mut [usize],
    indices: &mut [usize],
    values: &mut [i64],
    places: &mut usize,
) -> Result<(), Refusal>
    ensures kept { a.new.value ≡ a.old.value }
    ensures missing { a.old.value ≡ None → result ≡ Err EmptyHandle }
    ensures written { OnOk result (HoldsRows (plain_held a.old.value)
        (output_arrays offsets.new indices.new values.new places.new)) }
    ensures rest { OnOk result (KeepsRest (plain_held a.old.value).rows
        (output_arrays offsets.old indices.old values.old places.old)
        (output_arrays offsets.new indices.new values.new places.new)) }
    ensures unchanged { OnErr result (output_arrays offsets.new indices.new values.new places.new
        ≡ output_arrays offsets.old indices.old values.old places.old) }
    ensures fault { IfErr result (IsOutOfMemoryOr (IsUnwritten a.old.value
        (output_arrays offsets.old indices.old values.old places.old))) }
{
    let a = shared(alloc, a)?;
    if write_rows(&a, offsets, indices, values, places) == 0 {
        Ok(())
    } else {
        Err(Refusal::TooSmall)
    }
}

/// Returns the number of rows of the factor L that a handle holds, which is its number of columns, and its number of
/// entries.
///
/// # Errors
///
/// Returns `EmptyHandle` if the handle is empty. Otherwise fails only if the factors have too many owners
/// (`OutOfMemory`).
pub fn factor_sizes(alloc: Global, handle: &mut FactorHandle) -> Result<(usize, usize), Refusal>
    ensures kept { handle.new.value ≡ handle.old.value }
    ensures missing { handle.old.value ≡ None → result ≡ Err EmptyHandle }
    ensures rows { IfOk result (λ sizes. sizes.0 ≡ (l_held handle.old.value).rows) }
    ensures cols { IfOk result (λ sizes. sizes.0 ≡ (l_held handle.old.value).cols) }
    ensures places { IfOk result (λ sizes.
        sizes.1 ≡ place_count (plain_transpose ring64 (l_held handle.old.value))) }
    ensures fault { IfErr result (IsOutOfMemoryOr (IsEmpty handle.old.value)) }
{
    let factors = shared(alloc, handle)?;
    let l = factors.ldl().l();
    Ok((l.nrows(), l.nnz()))
}

/// Returns a copy of the factors that a handle holds: the CSR matrix whose rows are the columns of L, and the diagonal
/// of D.
///
/// # Errors
///
/// Returns `EmptyHandle` if the handle is empty. Otherwise fails only if an allocation fails.
pub fn copied_factors(
    alloc: Global,
    handle: &mut FactorHandle,
) -> Result<(CsrMatrix<W64>, Vec<W64>), Refusal>
    ensures kept { handle.new.value ≡ handle.old.value }
    ensures missing { handle.old.value ≡ None → result ≡ Err EmptyHandle }
    ensures columns { IfOk result (λ s.
        plain_of_cols ring64 w64_value s.0 ≡ l_held handle.old.value) }
    ensures diagonal { IfOk result (λ s.
        diagonal ring64 w64_value zero64 s.1.items ≡ d_held handle.old.value) }
    ensures count { IfOk result (λ s. length s.1.items ≡ (l_held handle.old.value).rows) }
    ensures fault { IfErr result (IsOutOfMemoryOr (IsEmpty handle.old.value)) }
{
    let factors = shared(alloc, handle)?;
    let ldl = factors.ldl();
    let l = ldl.l().clone(alloc)?;
    let d = Vec::from_slice(alloc, ldl.d())?;
    Ok((l.transpose_as_csr(), d))
}
