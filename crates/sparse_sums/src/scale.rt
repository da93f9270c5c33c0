//! Multiples and negatives of matrices.

ghost use Rattle.std.specs.Prelude.{◌≡◌, IfOk};
ghost use Rattle.sparse_algebra.specs.Plain.{plain_negation, plain_scaled};
ghost use Rattle.sparse_compressed.specs.PlainOfLanes.{plain_of_rows, plain_of_cols};

use sparse_algebra::scalar::Ring;
use sparse_csr_csc::csc::CscMatrix;
use sparse_csr_csc::csr::CsrMatrix;
use std::alloc::{AllocError, Global};

/// Returns the matrix with each value multiplied by `factor`.
///
/// The result has the pattern of `a`, even if a product is zero. Time is linear in the number of entries and rows.
/// Fails only if an allocation fails.
pub fn scale_csr<T: Ring>(
    alloc: Global,
    a: &CsrMatrix<T>,
    factor: T,
) -> Result<CsrMatrix<T>, AllocError>
    ensures { IfOk result (λ m. plain_of_rows T.ring T.value m
        ≡ plain_scaled T.ring (T.value factor) (plain_of_rows T.ring T.value a.now)) }
{
    let mut scaled = a.clone(alloc)?;
    scaled *= factor;
    Ok(scaled)
}

/// Returns the matrix with each value negated.
///
/// The result has the pattern of `a`. Time is linear in the number of entries and rows. Fails only if an allocation
/// fails.
pub fn neg_csr<T: Ring>(alloc: Global, a: &CsrMatrix<T>) -> Result<CsrMatrix<T>, AllocError>
    ensures { IfOk result (λ m. plain_of_rows T.ring T.value m
        ≡ plain_negation T.ring (plain_of_rows T.ring T.value a.now)) }
{
    Ok(-a.clone(alloc)?)
}

/// Returns the matrix with each value multiplied by `factor`.
///
/// The result has the pattern of `a`, even if a product is zero. Time is linear in the number of entries and columns.
/// Fails only if an allocation fails.
pub fn scale_csc<T: Ring>(
    alloc: Global,
    a: &CscMatrix<T>,
    factor: T,
) -> Result<CscMatrix<T>, AllocError>
    ensures { IfOk result (λ m. plain_of_cols T.ring T.value m
        ≡ plain_scaled T.ring (T.value factor) (plain_of_cols T.ring T.value a.now)) }
{
    let mut multiple = a.clone(alloc)?;
    multiple *= factor;
    Ok(multiple)
}

/// Returns the matrix with each value negated.
///
/// The result has the pattern of `a`. Time is linear in the number of entries and columns. Fails only if an allocation
/// fails.
pub fn neg_csc<T: Ring>(alloc: Global, a: &CscMatrix<T>) -> Result<CscMatrix<T>, AllocError>
    ensures { IfOk result (λ m. plain_of_cols T.ring T.value m
        ≡ plain_negation T.ring (plain_of_cols T.ring T.value a.now)) }
{
    let copy = a.clone(alloc)?;
    Ok(-copy)
}
