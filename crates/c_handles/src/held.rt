//! What a handle holds: shared, replaced and dropped.

ghost use Rattle.std.specs.Prelude.{◌≡◌, Err, None, Some, IfOk, IfErr, OnOk, OnErr, IsErrAnd};
ghost use Rattle.std.specs.Arc.{arc_value};
ghost use Rattle.c_arrays.specs.Refused.{IsOutOfMemoryOr};
ghost use Rattle.c_arrays.specs.declared.refusal.Refusal.TheVariants.{EmptyHandle, OutOfMemory};
ghost use Rattle.c_handles.specs.Held.{IsEitherEmpty, IsEmpty};

use crate::block::{Block, Held};
use crate::handle::Handle;
use crate::shared::Shared;
use c_arrays::refusal::Refusal;
use std::alloc::Global;
use std::mem;
use std::sync::Arc;

/// Returns the value that a handle holds, with shared ownership: the handle holds it too.
///
/// # Errors
///
/// Returns `EmptyHandle` if the handle is empty. Otherwise fails only if the value has too many owners (`OutOfMemory`).
pub fn shared<H: Handle>(alloc: Global, handle: &mut H) -> Result<Arc<H::Item>, Refusal>
    ensures kept { H.value handle.new ≡ H.value handle.old }
    ensures missing { H.value handle.old ≡ None → result ≡ Err EmptyHandle }
    ensures value { IfOk result (λ a. H.value handle.old ≡ Some (arc_value a)) }
    ensures fault { IfErr result (IsOutOfMemoryOr (IsEmpty (H.value handle.old))) }
{
    match taken(handle).into_box(alloc) {
        None => Err(Refusal::EmptyHandle),
        Some(held) => {
            let value = Arc::try_clone(&held.value);
            put_box(alloc, held, handle);
            Ok(value?)
        }
    }
}

/// Returns the values that two handles hold, with shared ownership.
///
/// # Errors
///
/// Returns `EmptyHandle` if a handle is empty. Otherwise fails only if a value has too many owners (`OutOfMemory`).
pub(crate) fn shared_pair<H: Handle>(
    alloc: Global,
    a: &mut H,
    b: &mut H,
) -> Result<(Arc<H::Item>, Arc<H::Item>), Refusal>
    ensures kept { (H.value a.new ≡ H.value a.old) × (H.value b.new ≡ H.value b.old) }
    ensures first_missing { H.value a.old ≡ None → result ≡ Err EmptyHandle }
    ensures second_missing { H.value b.old ≡ None
        → IsErrAnd result (IsOutOfMemoryOr (IsEmpty (H.value b.old))) }
    ensures first { IfOk result (λ p. H.value a.old ≡ Some (arc_value p.0)) }
    ensures second { IfOk result (λ p. H.value b.old ≡ Some (arc_value p.1)) }
    ensures fault { IfErr result
        (IsOutOfMemoryOr (IsEitherEmpty (H.value a.old) (H.value b.old))) }
{
    let a = shared(alloc, a)?;
    let b = shared(alloc, b)?;
    Ok((a, b))
}

/// Stores a value in a handle, in place of what the handle holds.
///
/// Fails only if an allocation fails; the handle is then unchanged.
pub fn put<H: Handle>(alloc: Global, value: H::Item, handle: &mut H) -> Result<(), Refusal>
    ensures put { OnOk result (H.value handle.new ≡ Some value) }
    ensures unchanged { OnErr result (H.value handle.new ≡ H.value handle.old) }
    ensures memory { IfErr result (λ refusal. refusal ≡ OutOfMemory) }
{
    match Arc::new(alloc, value) {
        Ok(value) => put_shared(alloc, value, handle),
        Err(failed) => {
            drop(failed);
            Err(Refusal::OutOfMemory)
        }
    }
}

/// Stores in `out` the value that `a` holds: both handles share it.
///
/// # Errors
///
/// Returns `EmptyHandle` if `a` is empty. Otherwise fails only if an allocation fails. On an error `out` is unchanged.
pub fn share<H: Handle>(alloc: Global, a: &mut H, out: &mut H) -> Result<(), Refusal>
    ensures kept { H.value a.new ≡ H.value a.old }
    ensures missing { H.value a.old ≡ None → result ≡ Err EmptyHandle }
    ensures done { OnOk result (H.value out.new ≡ H.value a.old) }
    ensures unchanged { OnErr result (H.value out.new ≡ H.value out.old) }
    ensures fault { IfErr result (IsOutOfMemoryOr (IsEmpty (H.value a.old))) }
{
    let value = shared(alloc, a)?;
    put_shared(alloc, value, out)
}

/// Empties a handle, and drops the value that it holds, if it holds one.
pub fn clear<H: Handle>(alloc: Global, handle: &mut H)
    ensures { H.value handle.new ≡ None }
{
    taken(handle).discard(alloc);
}

// Stores a value, which other handles may share, in a handle, in place of what the handle holds. Fails only if an
// allocation fails; the handle is then unchanged.
fn put_shared<H: Handle>(alloc: Global, value: Arc<H::Item>, handle: &mut H) -> Result<(), Refusal>
    ensures put { OnOk result (H.value handle.new ≡ Some (arc_value value)) }
    ensures unchanged { OnErr result (H.value handle.new ≡ H.value handle.old) }
    ensures memory { IfErr result (λ refusal. refusal ≡ OutOfMemory) }
{
    match Box::new(alloc, Shared { value }) {
        Ok(boxed) => {
            put_box(alloc, boxed, handle);
            Ok(())
        }
        Err(failed) => {
            drop(failed);
            Err(Refusal::OutOfMemory)
        }
    }
}

// Stores the value of a box in a handle, in place of what the handle holds.
fn put_box<H: Handle>(alloc: Global, boxed: Box<Shared<H::Item>>, handle: &mut H)
    ensures { H.value handle.new ≡ Some boxed.value }
{
    let old = mem::replace(handle, H::of(Held::of(Block::of(boxed))));
    old.into_held().discard(alloc);
}

// Empties a handle, and returns what it held.
fn taken<H: Handle>(handle: &mut H) -> Held<Shared<H::Item>>
    ensures emptied { H.value handle.new ≡ None }
    ensures taken { result.value ≡ H.value handle.old }
{
    mem::replace(handle, H::of(Held::empty())).into_held()
}
