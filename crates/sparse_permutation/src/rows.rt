//! Dense matrices with permuted rows.

ghost use Rattle.std.specs.Prelude.{◌≡◌, ◌≢◌, ◌<◌, ◌*◌, ◌==◌, if◌then◌else◌, length, slice_index, IfOk};
ghost use Rattle.std.specs.Prelude.{IsErrOf, IsOkUnless};
ghost use Rattle.sparse_coo_dense.specs.Dense.{HasValues, value_at};
ghost use Rattle.sparse_permutation.specs.Permutations.{IsOrder};
ghost use Rattle.sparse_permutation.specs.PermutedPatterns.{HasPermutedRows};

use crate::error::PermuteError;
use crate::permutation::Permutation;
use sparse_algebra::recall;
use sparse_coo_dense::dense::DMatrix;
use std::alloc::{AllocError, Global};

/// Returns the matrix P A: its row `i` is the row `order[i]` of `a`, where `order` is the order of the permutation.
///
/// The rows of P A permuted by the inverse are those of A again. Linear in `nrows * ncols`.
///
/// # Errors
///
/// Returns `LengthMismatch` if the number of rows is not the length of the permutation, otherwise `OutOfMemory` if the
/// allocation of the values fails.
///
/// # Examples
///
/// ```rust
/// fn the_last_row_comes_first(alloc: Global) -> Result<bool, Fail> {
///     let a = DMatrix::from_row_slice(alloc, 3, 2, &[1, 2, 3, 4, 5, 6])?;
///     let order = Permutation::try_from_order(alloc, Vec::from_slice(alloc, &[2, 0, 1])?)?;
///     let permuted = permute_rows(alloc, &a, &order)?;
///     Ok(permuted == DMatrix::from_row_slice(alloc, 3, 2, &[5, 6, 1, 2, 3, 4])?)
/// }
/// ```
pub fn permute_rows<T: Copy>(
    alloc: Global,
    a: &DMatrix<T>,
    permutation: &Permutation,
) -> Result<DMatrix<T>, PermuteError>
    ensures rows { IfOk result (HasPermutedRows permutation.now a.now) }
    ensures mismatch { a.now.nrows ≢ length permutation.now
        → IsErrOf result PermuteError.LengthMismatch }
    ensures accepted { a.now.nrows ≡ length permutation.now
        → IsOkUnless result PermuteError.OutOfMemory }
{
    if a.nrows() != permutation.len() {
        return Err(PermuteError::LengthMismatch);
    }
    Ok(permuted_dense(alloc, a, permutation.order())?)
}

// Returns P A, where the order is that of P.
fn permuted_dense<T: Copy>(
    alloc: Global,
    a: &DMatrix<T>,
    order: &[usize],
) -> Result<DMatrix<T>, AllocError>
    requires valid { IsOrder order.now }
    requires rows { a.now.nrows ≡ length order.now }
    ensures { IfOk result (HasPermutedRows order.now a.now) }
{
    recall(a.as_slice());
    let mut permuted = a.clone(alloc)?;
    // A matrix without rows takes no time, even if it has columns.
    if order.is_empty() {
        return Ok(permuted);
    }
    for j in 0..a.ncols() {
        write_column(a, order, j, &mut permuted);
    }
    Ok(permuted)
}

// Writes column `j` of P A to that of `permuted`, which has the shape of A.
fn write_column<T: Copy>(a: &DMatrix<T>, order: &[usize], j: usize, permuted: &mut DMatrix<T>)
    requires valid { IsOrder order.now }
    requires rows { a.now.nrows ≡ length order.now }
    requires col { j < a.now.ncols }
    requires same_rows { permuted.old.nrows ≡ a.now.nrows }
    requires same_cols { permuted.old.ncols ≡ a.now.ncols }
    requires full { length permuted.old.values ≡ a.now.nrows * a.now.ncols }
    ensures { HasValues a.now.nrows a.now.ncols (λ k l z. if l == j
        then value_at a.now (slice_index order.now k) l z
        else value_at permuted.old k l z) permuted.new }
{
    for (i, row) in order.iter().enumerate() {
        let value = a.get(*row, j);
        permuted.set(i, j, value);
    }
}
