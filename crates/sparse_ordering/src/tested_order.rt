//! The permutation of a list that a heuristic computed.

ghost use Rattle.std.specs.Prelude.{◌≡◌, length, IfOk};

use sparse_permutation::error::PermutationError;
use sparse_permutation::permutation::Permutation;
use std::alloc::{AllocError, Global};

/// Returns the permutation of a list of the indices below `size`, in this order.
///
/// It is not proved that the orders of this crate list each index once. So each list is tested, in linear time, and the
/// identity takes the place of one that fails; tests show that none does. Fails only if an allocation fails.
pub(crate) fn tested_order(
    alloc: Global,
    order: Vec<usize>,
    size: usize,
) -> Result<Permutation, AllocError>
    ensures { IfOk result (λ p. length p ≡ size) }
{
    match Permutation::try_from_order(alloc, order) {
        Ok(permutation) if permutation.len() == size => Ok(permutation),
        Err(PermutationError::OutOfMemory) => Err(AllocError),
        _ => Permutation::identity(alloc, size),
    }
}
