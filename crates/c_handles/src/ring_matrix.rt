//! Matrices over the residues modulo a number that is known only at run time.

ghost use Rattle.std.specs.Prelude.{◌≡◌, length, map, IfOk};
ghost use Rattle.sparse_algebra.specs.Integers.{element_of};
ghost use Rattle.sparse_compressed.specs.Compressed.{IsSound};
ghost use Rattle.sparse_compressed.specs.PlainOfLanes.{plain_of_rows};
ghost use Rattle.c_arrays.specs.Arrays.{plain_by_rows};

use c_arrays::lanes::Lanes;
use c_arrays::number::Number;
use sparse_csr_csc::csr::CsrMatrix;
use std::alloc::{AllocError, Global};

/// A CSR matrix of integers, each of which represents its residue modulo `modulus`.
#[derive(Drop)]
pub struct RingMatrix {
    /// The modulus.
    pub modulus: u64,
    /// The integers.
    pub matrix: CsrMatrix<i64>,
}

impl RingMatrix {
    /// Returns the arrays of the matrix by rows.
    pub fn lanes(&self) -> Lanes<'_>
        ensures is { result ≡ self.now.matrix }
        ensures sound { IsSound self.now.matrix }
    {
        let (offsets, indices, values) = self.matrix.csr_data();
        Lanes {
            major_dim: self.matrix.nrows(),
            minor_dim: self.matrix.ncols(),
            offsets,
            indices,
            values,
        }
    }
}

/// Returns the matrix of the integers that represent the scalars of a matrix. Fails only if an allocation fails.
pub fn numbers_of<T: Number>(
    alloc: Global,
    matrix: CsrMatrix<T>,
) -> Result<CsrMatrix<i64>, AllocError>
    ensures { IfOk result (λ m. plain_by_rows T.ring m ≡ plain_of_rows T.ring T.value matrix) }
{
    let (pattern, scalars) = matrix.into_pattern_and_values();
    let numbers = integers_of(alloc, &scalars)?;
    Ok(CsrMatrix::from_pattern_and_values_unchecked(pattern, numbers))
}

// Returns integers that represent scalars. Fails only if an allocation fails.
fn integers_of<T: Number>(alloc: Global, scalars: &[T]) -> Result<Vec<i64>, AllocError>
    ensures values { IfOk result
        (λ numbers. map (element_of T.ring) numbers.items ≡ map T.value scalars.now) }
    ensures count { IfOk result (λ numbers. length numbers.items ≡ length scalars.now) }
{
    let mut numbers = Vec::with_capacity(alloc, scalars.len())?;
    for scalar in scalars {
        numbers.push_reserved(scalar.number());
    }
    Ok(numbers)
}
