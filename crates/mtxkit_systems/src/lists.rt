//! Turns lists of integers into lists of ring elements, and back.

ghost use Rattle.std.specs.Prelude.{◌≡◌, pos, All, IfOk, map};
ghost use Rattle.sparse_coo_dense.specs.CooPlain.{plain_of_coo};
ghost use Rattle.sparse_algebra.specs.Integers.{element_of};
ghost use Rattle.mtxkit_systems.specs.Systems.{plain_of_integers};
ghost use Rattle.mtxkit_matrices.specs.Orders.{coordinates_of};

use mtxkit_eval::Residues;
use mtxkit_texts::with_values;
use sparse_coo_dense::coo::CooMatrix;
use std::alloc::{AllocError, Global};

/// Returns the list whose values are the ring elements of these integers.
pub fn elements_of<T: Residues>(
    alloc: Global,
    list: &CooMatrix<i128>,
) -> Result<CooMatrix<T>, AllocError>
    ensures { IfOk result (λ m. plain_of_coo T.ring T.value m
        ≡ plain_of_integers T.ring list.now) }
{
    let elements = each_element(alloc, list.values())?;
    with_values(alloc, list, elements)
}

/// Returns the list whose values are the reduced integers of these ring elements.
pub fn integers_of<T: Residues>(
    alloc: Global,
    list: &CooMatrix<T>,
) -> Result<CooMatrix<i128>, AllocError>
    ensures plain { IfOk result (λ m. plain_of_integers T.ring m
        ≡ plain_of_coo T.ring T.value list.now) }
    ensures coordinates { IfOk result
        (λ m. coordinates_of m.triplets ≡ coordinates_of list.now.triplets) }
    ensures nonzero { IfOk result
        (λ m. All (λ t. T.value t.2 ≡ T.ring.zero → ⊥) list.now.triplets
        → All (λ z. z ≡ pos 0 → ⊥) (map (λ t. t.2) m.triplets)) }
    ensures reduced { IfOk result
        (λ m. All (λ z. T.reduced z ≡ z) (map (λ t. t.2) m.triplets)) }
{
    let integers = each_integer(alloc, list.values())?;
    with_values(alloc, list, integers)
}

// Returns the ring element of each integer.
fn each_element<T: Residues>(alloc: Global, integers: &[i128]) -> Result<Vec<T>, AllocError>
    ensures { IfOk result
        (λ elements. map T.value elements.items ≡ map (element_of T.ring) integers.now) }
{
    let mut elements = Vec::with_capacity(alloc, integers.len())?;
    for integer in integers {
        elements.push(T::of_integer(*integer))?;
    }
    Ok(elements)
}

// Returns the reduced integer of each ring element.
fn each_integer<T: Residues>(alloc: Global, elements: &[T]) -> Result<Vec<i128>, AllocError>
    ensures meant { IfOk result
        (λ integers. map (element_of T.ring) integers.items ≡ map T.value elements.now) }
    ensures reduced { IfOk result (λ integers. All (λ z. T.reduced z ≡ z) integers.items) }
{
    let mut integers = Vec::with_capacity(alloc, elements.len())?;
    for element in elements {
        integers.push(element.integer())?;
    }
    Ok(integers)
}
