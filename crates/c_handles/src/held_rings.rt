//! Matrices over residues that handles hold: their moduli and sizes.

ghost use Rattle.std.specs.Prelude.{◌≡◌, length, Err, None, Some, IfOk, IfErr, IsErrAnd};
ghost use Rattle.std.specs.Arc.{arc_value};
ghost use Rattle.c_arrays.specs.Refused.{IsOutOfMemoryOr};
ghost use Rattle.c_arrays.specs.declared.refusal.Refusal.TheVariants.{EmptyHandle};
ghost use Rattle.c_handles.specs.Held.{IsEmpty};
ghost use Rattle.c_handles.specs.Rings.{arrays_held, modulus_held, IsRingError};

use crate::handle::RingHandle;
use crate::held::{shared, shared_pair};
use crate::ring_matrix::RingMatrix;
use c_arrays::refusal::Refusal;
use std::alloc::Global;
use std::sync::Arc;

/// Returns the matrices that two handles hold, with shared ownership. Their moduli are equal.
///
/// # Errors
///
/// Returns `EmptyHandle` if a handle is empty, and `RingMismatch` if the moduli of the matrices differ. Otherwise fails
/// only if a matrix has too many owners (`OutOfMemory`).
pub fn shared_ring_pair(
    alloc: Global,
    a: &mut RingHandle,
    b: &mut RingHandle,
) -> Result<(Arc<RingMatrix>, Arc<RingMatrix>), Refusal>
    ensures kept { (a.new.value ≡ a.old.value) × (b.new.value ≡ b.old.value) }
    ensures first_missing { a.old.value ≡ None → result ≡ Err EmptyHandle }
    ensures second_missing { b.old.value ≡ None
        → IsErrAnd result (IsOutOfMemoryOr (IsEmpty b.old.value)) }
    ensures first { IfOk result (λ p. a.old.value ≡ Some (arc_value p.0)) }
    ensures second { IfOk result (λ p. b.old.value ≡ Some (arc_value p.1)) }
    ensures ring { IfOk result (λ p. (arc_value p.1).modulus ≡ (arc_value p.0).modulus) }
    ensures fault { IfErr result (IsOutOfMemoryOr (IsRingError a.old.value b.old.value)) }
{
    let (a, b) = shared_pair(alloc, a, b)?;
    if a.modulus != b.modulus {
        return Err(Refusal::RingMismatch);
    }
    Ok((a, b))
}

/// The modulus of a matrix, its numbers of rows and columns, and its number of entries.
#[derive(Clone, Copy)]
pub struct RingSizes {
    /// The modulus.
    pub modulus: u64,
    /// The number of rows.
    pub rows: usize,
    /// The number of columns.
    pub cols: usize,
    /// The number of entries.
    pub places: usize,
}

/// Returns the modulus and the sizes of the matrix that `a` holds.
///
/// # Errors
///
/// Returns `EmptyHandle` if `a` is empty. Otherwise fails only if the matrix has too many owners (`OutOfMemory`).
pub fn ring_sizes(alloc: Global, a: &mut RingHandle) -> Result<RingSizes, Refusal>
    ensures kept { a.new.value ≡ a.old.value }
    ensures missing { a.old.value ≡ None → result ≡ Err EmptyHandle }
    ensures modulus { IfOk result (λ sizes. sizes.modulus ≡ modulus_held a.old.value) }
    ensures rows { IfOk result
        (λ sizes. sizes.rows ≡ (arrays_held a.old.value).pattern.major_dim) }
    ensures cols { IfOk result
        (λ sizes. sizes.cols ≡ (arrays_held a.old.value).pattern.minor_dim) }
    ensures places { IfOk result
        (λ sizes. sizes.places ≡ length (arrays_held a.old.value).values) }
    ensures fault { IfErr result (IsOutOfMemoryOr (IsEmpty a.old.value)) }
{
    let a = shared(alloc, a)?;
    Ok(RingSizes {
        modulus: a.modulus,
        rows: a.matrix.nrows(),
        cols: a.matrix.ncols(),
        places: a.matrix.nnz(),
    })
}
