//! Orders of the rows and columns of matrices and of factors that handles hold.

ghost use Rattle.std.specs.Prelude.{◌≡◌, length, Err, None, Some, IfErr, IfOk, OnErr, OnOk};
ghost use Rattle.c_arrays.specs.Refused.{IsOutOfMemoryOr};
ghost use Rattle.c_arrays.specs.declared.refusal.Refusal.TheVariants.{EmptyHandle};
ghost use Rattle.c_handles.specs.Factored.{order_held};
ghost use Rattle.c_handles.specs.Held.{plain_held};
ghost use Rattle.c_handles.specs.Ordered.{IsNoOrder, IsOrderUnwritten, IsTooShort, IsUnordered};
ghost use Rattle.c_handles.specs.Ordered.{refusal_of_order, WritesOrder, WritesOrderOf};
ghost use Rattle.c_handles.specs.Solved.{IsNoSquare};
ghost use Rattle.sparse_permutation.specs.Permutations.{IsOrder};

use crate::handle::{FactorHandle, MatrixHandle};
use crate::held::shared;
use crate::solving::size_of;
use c_arrays::refusal::Refusal;
use c_arrays::scalars::put_items;
use sparse_algebra::scalar::W64;
use sparse_csr_csc::csr::CsrMatrix;
use sparse_ordering::minimum_degree::minimum_degree;
use sparse_ordering::reverse_cuthill_mckee::reverse_cuthill_mckee;
use sparse_permutation::error::PermutationError;
use sparse_permutation::permutation::Permutation;
use std::alloc::Global;

/// How an order of rows and columns is computed.
#[derive(Clone, Copy)]
pub enum Method {
    /// The approximate minimum degree order, which reduces the fill.
    MinimumDegree,
    /// The reverse Cuthill-McKee order, which reduces the bandwidth.
    ReverseCuthillMckee,
}

/// Writes an order of the rows and columns of the square matrix that `a` holds. Its pattern is read as the union of
/// itself and its transpose. A longer array is unchanged after the order.
///
/// # Errors
///
/// Returns `EmptyHandle` if `a` is empty, `ShapeMismatch` if its matrix is not square, and `TooSmall` if `out` is
/// shorter than the number of rows. Otherwise fails only if an allocation fails. On an error `out` is unchanged.
pub fn order(
    alloc: Global,
    a: &mut MatrixHandle,
    method: Method,
    out: &mut [usize],
) -> Result<(), Refusal>
    ensures kept { a.new.value ≡ a.old.value }
    ensures missing { a.old.value ≡ None → result ≡ Err EmptyHandle }
    ensures written { OnOk result (WritesOrderOf (plain_held a.old.value) out.old out.new) }
    ensures unchanged { OnErr result (out.new ≡ out.old) }
    ensures fault { IfErr result (IsOutOfMemoryOr (IsUnordered a.old.value out.old)) }
{
    let a = shared(alloc, a)?;
    let order = order_of(alloc, &a, method)?;
    write_order(&order, out)
}

/// Writes the order of the factors that a handle holds: the permutation P for which they are the factors of P A Pᵀ. A
/// longer array is unchanged after the order.
///
/// # Errors
///
/// Returns `EmptyHandle` if the handle is empty, and `TooSmall` if `out` is shorter than the order. Otherwise fails only
/// if an allocation fails. On an error `out` is unchanged.
pub fn factor_order(
    alloc: Global,
    handle: &mut FactorHandle,
    out: &mut [usize],
) -> Result<(), Refusal>
    ensures kept { handle.new.value ≡ handle.old.value }
    ensures missing { handle.old.value ≡ None → result ≡ Err EmptyHandle }
    ensures written { OnOk result (WritesOrder (order_held handle.old.value) out.old out.new) }
    ensures unchanged { OnErr result (out.new ≡ out.old) }
    ensures fault { IfErr result (IsOutOfMemoryOr (IsOrderUnwritten handle.old.value out.old)) }
{
    let factors = shared(alloc, handle)?;
    let order = factors.permutation(alloc)?;
    write_order(&order, out)
}

/// Returns the permutation with an order of `size` numbers, which is copied.
///
/// # Errors
///
/// Returns `InvalidStructure` if the order has another length. Otherwise returns the error of the first fault:
/// `IndexOutOfBounds` for a number that is not below `size`, and `DuplicateEntry` for one that occurs before. Otherwise
/// fails only if an allocation fails.
pub(crate) fn permutation_of(
    alloc: Global,
    order: &[usize],
    size: usize,
) -> Result<Permutation, Refusal>
    ensures order { IfOk result (λ p. p ≡ order.now) }
    ensures valid { OnOk result (IsOrder order.now) }
    ensures count { OnOk result (length order.now ≡ size) }
    ensures fault { IfErr result (IsOutOfMemoryOr (IsNoOrder size order.now)) }
{
    if order.len() != size {
        return Err(Refusal::InvalidStructure);
    }
    let order = Vec::from_slice(alloc, order)?;
    match Permutation::try_from_order(alloc, order) {
        Ok(permutation) => Ok(permutation),
        Err(error) => Err(refusal_of(error)),
    }
}

// Returns the error of a list that has this fault.
fn refusal_of(error: PermutationError) -> Refusal
    ensures { result ≡ refusal_of_order error }
{
    match error {
        PermutationError::IndexOutOfBounds { at: _ } => Refusal::IndexOutOfBounds,
        PermutationError::RepeatedIndex { at: _ } => Refusal::DuplicateEntry,
        PermutationError::OutOfMemory => Refusal::OutOfMemory,
    }
}

// Returns an order of the rows and columns of a square matrix.
fn order_of(alloc: Global, a: &CsrMatrix<W64>, method: Method) -> Result<Permutation, Refusal>
    ensures count { IfOk result (λ p. length p ≡ a.now.pattern.major_dim) }
    ensures square { OnOk result (a.now.pattern.major_dim ≡ a.now.pattern.minor_dim) }
    ensures fault { IfErr result (IsOutOfMemoryOr (IsNoSquare (Some a.now))) }
{
    size_of(a)?;
    let order = match method {
        Method::MinimumDegree => minimum_degree(alloc, a.pattern())?,
        Method::ReverseCuthillMckee => reverse_cuthill_mckee(alloc, a.pattern())?,
    };
    Ok(order)
}

// Writes the numbers of an order to the beginning of an array, if it has room for them.
fn write_order(order: &Permutation, out: &mut [usize]) -> Result<(), Refusal>
    ensures valid { IsOrder order.now }
    ensures written { OnOk result (WritesOrder order.now out.old out.new) }
    ensures unchanged { OnErr result (out.new ≡ out.old) }
    ensures fault { IfErr result (IsTooShort (length order.now) out.old) }
{
    let numbers = order.order();
    if out.len() < numbers.len() {
        return Err(Refusal::TooSmall);
    }
    put_items(out, numbers);
    Ok(())
}
