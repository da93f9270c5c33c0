//! Turns matrices of integers into lists of ring elements, and back.

ghost use Rattle.std.specs.Prelude.{◌≡◌, All, IfOk, OnOk, map};
ghost use Rattle.sparse_algebra.specs.Integers.{element_of};
ghost use Rattle.sparse_algebra.specs.WrappingValues.{w128_number};
ghost use Rattle.sparse_compressed.specs.Compressed.{IsSound};
ghost use Rattle.sparse_compressed.specs.PlainOfLanes.{plain_of_rows};
ghost use Rattle.sparse_coo_dense.specs.CooPlain.{plain_of_coo};
ghost use Rattle.mtxkit_eval.specs.Values.{exact_of, image_in};

use crate::residues::Residues;
use mtxkit_texts::with_values;
use sparse_algebra::recall;
use sparse_algebra::scalar::W128;
use sparse_convert::serial::convert_csr_coo;
use sparse_coo_dense::coo::CooMatrix;
use sparse_csr_csc::csr::CsrMatrix;
use std::alloc::{AllocError, Global};

/// Returns a list for each matrix, whose values are the ring elements of the matrix's integers.
pub(crate) fn element_lists<T: Residues>(
    alloc: Global,
    matrices: &[CsrMatrix<W128>],
) -> Result<Vec<CooMatrix<T>>, AllocError>
    ensures images { IfOk result (λ lists. map (λ m. plain_of_coo T.ring T.value m) lists.items
        ≡ map (λ m. image_in T.ring (exact_of m)) matrices.now) }
    ensures sound { OnOk result (All IsSound matrices.now) }
{
    let mut lists = Vec::with_capacity(alloc, matrices.len())?;
    for matrix in matrices {
        lists.push(element_list(alloc, matrix)?)?;
    }
    Ok(lists)
}

// Returns the list of the entries of a matrix, whose values are the ring elements of its integers.
fn element_list<T: Residues>(
    alloc: Global,
    matrix: &CsrMatrix<W128>,
) -> Result<CooMatrix<T>, AllocError>
    ensures images { IfOk result
        (λ m. plain_of_coo T.ring T.value m ≡ image_in T.ring (exact_of matrix.now)) }
    ensures sound { IsSound matrix.now }
{
    recall(matrix.values());
    let list = convert_csr_coo(alloc, matrix)?;
    let elements = elements_of(alloc, list.values())?;
    with_values(alloc, &list, elements)
}

// Returns the ring element of each integer.
fn elements_of<T: Residues>(alloc: Global, integers: &[W128]) -> Result<Vec<T>, AllocError>
    ensures { IfOk result (λ elements. map T.value elements.items
        ≡ map (λ v. element_of T.ring (w128_number v)) integers.now) }
{
    let mut elements = Vec::with_capacity(alloc, integers.len())?;
    for integer in integers {
        elements.push(T::of_integer(integer.get()))?;
    }
    Ok(elements)
}

/// Returns the matrix whose values are the reduced integers of these ring elements.
pub(crate) fn reduced_matrix<T: Residues>(
    alloc: Global,
    matrix: CsrMatrix<T>,
) -> Result<CsrMatrix<W128>, AllocError>
    ensures sound { IfOk result IsSound }
    ensures images { IfOk result
        (λ m. image_in T.ring (exact_of m) ≡ plain_of_rows T.ring T.value matrix) }
    ensures reduced { IfOk result
        (λ m. All (λ v. T.reduced (w128_number v) ≡ w128_number v) m.values) }
{
    let (pattern, elements) = matrix.into_pattern_and_values();
    let integers = integers_of(alloc, &elements)?;
    match CsrMatrix::try_from_pattern_and_values(pattern, integers) {
        Ok(matrix) => Ok(matrix),
        Err(_) => unreachable!(),
    }
}

// Returns the reduced integer of each ring element.
fn integers_of<T: Residues>(alloc: Global, elements: &[T]) -> Result<Vec<W128>, AllocError>
    ensures images { IfOk result (λ integers. map (λ v. element_of T.ring (w128_number v))
        integers.items ≡ map T.value elements.now) }
    ensures reduced { IfOk result
        (λ integers. All (λ v. T.reduced (w128_number v) ≡ w128_number v) integers.items) }
{
    let mut integers = Vec::with_capacity(alloc, elements.len())?;
    for element in elements {
        integers.push(W128::new(element.integer()))?;
    }
    Ok(integers)
}
