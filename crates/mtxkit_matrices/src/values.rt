//! Compares the values of matrices, whatever their patterns are.

ghost use Rattle.std.specs.Prelude.{◌≡◌, ◌↔◌, IfOk, IsTrue, MatchOption, count_by};
ghost use Rattle.sparse_compressed.specs.PlainOfLanes.{plain_of_rows};
ghost use Rattle.sparse_dense_ops.specs.Solutions.{HasSameValues};
ghost use Rattle.mtxkit_matrices.specs.Differences.{IsFirstDifference, IsFirstAsymmetry};
ghost use Rattle.mtxkit_matrices.specs.InnerNonzeros.{IsFirstNonzero};
ghost use Rattle.mtxkit_matrices.specs.Values.{AllZero, IsSymmetricMatrix};

use crate::coordinates::Coordinates;
use sparse_algebra::recall;
use sparse_algebra::scalar::Ring;
use sparse_compressed::laws::transpose_law;
use sparse_csr_csc::csr::CsrMatrix;
use sparse_sums::sub_csr;
use std::alloc::{AllocError, Global};

/// Returns the number of values that are zero.
pub fn count_zeros<T: Ring>(values: &[T]) -> usize
    ensures { result ≡ count_by (λ v. T.eq v T.zero_value) values.now }
{
    let mut count = 0;
    for value in values {
        if *value == T::zero() {
            count += 1;
        }
    }
    count
}

/// Returns the first row and column, row by row, where two matrices of the same shape have different values, whatever
/// their patterns are. Returns `None` exactly if they have the same values.
///
/// Linear in the numbers of entries and rows. Fails only if an allocation fails.
pub fn first_difference<T: Ring>(
    alloc: Global,
    a: &CsrMatrix<T>,
    b: &CsrMatrix<T>,
) -> Result<Option<Coordinates>, AllocError>
    requires rows { a.now.pattern.major_dim ≡ b.now.pattern.major_dim }
    requires cols { a.now.pattern.minor_dim ≡ b.now.pattern.minor_dim }
    ensures { IfOk result (λ found. MatchOption found
        (HasSameValues T.ring a.now.pattern.major_dim a.now.pattern.minor_dim
        (plain_of_rows T.ring T.value a.now) (plain_of_rows T.ring T.value b.now))
        (λ at. IsFirstDifference T.ring a.now.pattern.major_dim a.now.pattern.minor_dim
        (plain_of_rows T.ring T.value a.now) (plain_of_rows T.ring T.value b.now)
        at.row at.col)) }
{
    recall(a.values());
    recall(b.values());
    let difference = sub_csr(alloc, a, b)?;
    Ok(first_nonzero(&difference))
}

/// Returns the first row and column, row by row, where a square matrix has another value than its transpose, whatever
/// its pattern is. Returns `None` exactly if the matrix is symmetric.
///
/// Linear in the numbers of entries, rows and columns. Fails only if an allocation fails.
pub fn first_asymmetry<T: Ring>(
    alloc: Global,
    matrix: &CsrMatrix<T>,
) -> Result<Option<Coordinates>, AllocError>
    requires { matrix.now.pattern.major_dim ≡ matrix.now.pattern.minor_dim }
    ensures { IfOk result (λ found. MatchOption found
        (IsSymmetricMatrix T.ring (plain_of_rows T.ring T.value matrix.now))
        (λ at. IsFirstAsymmetry T.ring (plain_of_rows T.ring T.value matrix.now) at.row at.col)) }
{
    recall(matrix.values());
    transpose_law::<T>();
    let transposed = matrix.transpose(alloc)?;
    let found = first_difference(alloc, matrix, &transposed)?;
    Ok(found)
}

/// Returns whether a matrix is square and has the same values as its transpose, whatever its pattern is.
///
/// Linear in the numbers of entries, rows and columns. Fails only if an allocation fails.
pub fn has_symmetric_values<T: Ring>(
    alloc: Global,
    matrix: &CsrMatrix<T>,
) -> Result<bool, AllocError>
    ensures { IfOk result (λ yes. IsTrue yes
        ↔ IsSymmetricMatrix T.ring (plain_of_rows T.ring T.value matrix.now)) }
{
    if matrix.nrows() != matrix.ncols() {
        return Ok(false);
    }
    let found = first_asymmetry(alloc, matrix)?;
    Ok(found.is_none())
}

// Returns the row and the column of the first value that is not zero, row by row.
fn first_nonzero<T: Ring>(matrix: &CsrMatrix<T>) -> Option<Coordinates>
    ensures { MatchOption result (AllZero T.ring (plain_of_rows T.ring T.value matrix.now))
        (λ at. IsFirstNonzero T.ring (plain_of_rows T.ring T.value matrix.now) at.row at.col) }
{
    for (row, col, value) in matrix.triplet_iter() {
        if *value != T::zero() {
            return Some(Coordinates { row, col });
        }
    }
    None
}
