//! The matrices and patterns P A Pᵀ: rows and columns permuted alike.

ghost use Rattle.std.specs.Prelude.{◌≡◌, ◌≢◌, length, IfOk, IsErrOf, IsOkUnless};
ghost use Rattle.sparse_compressed.specs.Compressed.{IsSound};
ghost use Rattle.sparse_compressed.specs.PlainOfLanes.{plain_of_rows, plain_of_cols};
ghost use Rattle.sparse_permutation.specs.PermutedPlain.{plain_permuted};
ghost use Rattle.sparse_permutation.specs.PermutedPatterns.{IsPermutedPattern};

use crate::error::PermuteError;
use crate::permutation::Permutation;
use crate::renumbering::renumber;
use sparse_algebra::recall;
use sparse_algebra::scalar::{NoValue, Ring};
use sparse_convert::serial::{convert_coo_csc, convert_coo_csr, convert_csc_coo, convert_csr_coo};
use sparse_csr_csc::csc::CscMatrix;
use sparse_csr_csc::csr::CsrMatrix;
use sparse_pattern::pattern::SparsityPattern;
use std::alloc::{AllocError, Global};

/// Returns the matrix P A Pᵀ: its entry at (i, j) is the entry of `a` at (`order[i]`, `order[j]`), where `order` is the
/// order of the permutation. Stored zeros are included.
///
/// Linear in the numbers of entries and rows: the entries are listed and renumbered, and the list is sorted by
/// [`convert_coo_csr`].
///
/// # Errors
///
/// Returns `NotSquare` if `a` has different numbers of rows and columns, otherwise `LengthMismatch` if their number is
/// not the length of the permutation, otherwise `OutOfMemory` if an allocation fails.
///
/// # Examples
///
/// ```rust
/// fn the_last_row_and_column_come_first(alloc: Global) -> Result<bool, Fail> {
///     let mut list = CooMatrix::new(alloc, 3, 3);
///     list.push(2, 2, W64::new(5))?;
///     list.push(2, 0, W64::new(7))?;
///     let a = convert_coo_csr(alloc, &list)?;
///     let order = Permutation::try_from_order(alloc, Vec::from_slice(alloc, &[2, 0, 1])?)?;
///     let permuted = permute_symmetric_csr(alloc, &a, &order)?;
///     Ok(permuted.row_offsets() == [0, 2, 2, 2].as_slice()
///         && permuted.values() == [W64::new(5), W64::new(7)].as_slice())
/// }
/// ```
pub fn permute_symmetric_csr<T: Ring>(
    alloc: Global,
    a: &CsrMatrix<T>,
    permutation: &Permutation,
) -> Result<CsrMatrix<T>, PermuteError>
    ensures plain { IfOk result (λ m. plain_of_rows T.ring T.value m
        ≡ plain_permuted T.ring permutation.now (plain_of_rows T.ring T.value a.now)) }
    ensures sound { IfOk result IsSound }
    ensures not_square { a.now.pattern.major_dim ≢ a.now.pattern.minor_dim
        → IsErrOf result PermuteError.NotSquare }
    ensures mismatch { a.now.pattern.major_dim ≡ a.now.pattern.minor_dim
        → a.now.pattern.major_dim ≢ length permutation.now
        → IsErrOf result PermuteError.LengthMismatch }
    ensures accepted { a.now.pattern.major_dim ≡ a.now.pattern.minor_dim
        → a.now.pattern.major_dim ≡ length permutation.now
        → IsOkUnless result PermuteError.OutOfMemory }
{
    if a.nrows() != a.ncols() {
        return Err(PermuteError::NotSquare);
    }
    if a.nrows() != permutation.len() {
        return Err(PermuteError::LengthMismatch);
    }
    Ok(permuted_rows(alloc, a, permutation)?)
}

/// Returns the matrix P A Pᵀ in CSC format.
///
/// As [`permute_symmetric_csr`]: the same entries, errors and cost.
pub fn permute_symmetric_csc<T: Ring>(
    alloc: Global,
    a: &CscMatrix<T>,
    permutation: &Permutation,
) -> Result<CscMatrix<T>, PermuteError>
    ensures plain { IfOk result (λ m. plain_of_cols T.ring T.value m
        ≡ plain_permuted T.ring permutation.now (plain_of_cols T.ring T.value a.now)) }
    ensures sound { IfOk result IsSound }
    ensures not_square { a.now.pattern.minor_dim ≢ a.now.pattern.major_dim
        → IsErrOf result PermuteError.NotSquare }
    ensures mismatch { a.now.pattern.minor_dim ≡ a.now.pattern.major_dim
        → a.now.pattern.minor_dim ≢ length permutation.now
        → IsErrOf result PermuteError.LengthMismatch }
    ensures accepted { a.now.pattern.minor_dim ≡ a.now.pattern.major_dim
        → a.now.pattern.minor_dim ≡ length permutation.now
        → IsOkUnless result PermuteError.OutOfMemory }
{
    if a.nrows() != a.ncols() {
        return Err(PermuteError::NotSquare);
    }
    if a.nrows() != permutation.len() {
        return Err(PermuteError::LengthMismatch);
    }
    Ok(permuted_cols(alloc, a, permutation)?)
}

/// Returns the pattern of P A Pᵀ, where `pattern` is that of A: it has an entry at (i, j) if and only if `pattern` has
/// one at (`order[i]`, `order[j]`), where `order` is the order of the permutation.
///
/// Errors and cost are those of [`permute_symmetric_csr`].
///
/// # Examples
///
/// ```rust
/// fn the_entries_move(alloc: Global) -> Result<bool, Fail> {
///     let offsets = Vec::from_slice(alloc, &[0, 0, 1])?;
///     let indices = Vec::from_slice(alloc, &[0])?;
///     let pattern = SparsityPattern::try_from_offsets_and_indices(2, 2, offsets, indices)?;
///     let order = Permutation::try_from_order(alloc, Vec::from_slice(alloc, &[1, 0])?)?;
///     let permuted = permute_symmetric_pattern(alloc, &pattern, &order)?;
///     Ok(permuted.lane(0) == [1].as_slice())
/// }
/// ```
pub fn permute_symmetric_pattern(
    alloc: Global,
    pattern: &SparsityPattern,
    permutation: &Permutation,
) -> Result<SparsityPattern, PermuteError>
    ensures entries { IfOk result (IsPermutedPattern permutation.now pattern.now) }
    ensures not_square { pattern.now.major_dim ≢ pattern.now.minor_dim
        → IsErrOf result PermuteError.NotSquare }
    ensures mismatch { pattern.now.major_dim ≡ pattern.now.minor_dim
        → pattern.now.major_dim ≢ length permutation.now
        → IsErrOf result PermuteError.LengthMismatch }
    ensures accepted { pattern.now.major_dim ≡ pattern.now.minor_dim
        → pattern.now.major_dim ≡ length permutation.now
        → IsOkUnless result PermuteError.OutOfMemory }
{
    if pattern.major_dim() != pattern.minor_dim() {
        return Err(PermuteError::NotSquare);
    }
    if pattern.major_dim() != permutation.len() {
        return Err(PermuteError::LengthMismatch);
    }
    Ok(permuted_pattern(alloc, pattern, permutation)?)
}

// Returns P A Pᵀ of a square matrix with as many rows as the permutation is long.
#[tactic(auto, using(sparse_algebra::proofs::EarlyReturns::early_return))]
fn permuted_rows<T: Ring>(
    alloc: Global,
    a: &CsrMatrix<T>,
    permutation: &Permutation,
) -> Result<CsrMatrix<T>, AllocError>
    requires rows { a.now.pattern.major_dim ≡ length permutation.now }
    requires cols { a.now.pattern.minor_dim ≡ length permutation.now }
    ensures plain { IfOk result (λ m. plain_of_rows T.ring T.value m
        ≡ plain_permuted T.ring permutation.now (plain_of_rows T.ring T.value a.now)) }
    ensures sound { IfOk result IsSound }
{
    recall(a.values());
    let inverse = permutation.inverse(alloc)?;
    let list = convert_csr_coo(alloc, a)?;
    let matrix = convert_coo_csr(alloc, &renumber(list, &inverse))?;
    Ok(matrix)
}

// Returns P A Pᵀ of a square matrix with as many columns as the permutation is long.
#[tactic(auto, using(sparse_algebra::proofs::EarlyReturns::early_return))]
fn permuted_cols<T: Ring>(
    alloc: Global,
    a: &CscMatrix<T>,
    permutation: &Permutation,
) -> Result<CscMatrix<T>, AllocError>
    requires rows { a.now.pattern.minor_dim ≡ length permutation.now }
    requires cols { a.now.pattern.major_dim ≡ length permutation.now }
    ensures plain { IfOk result (λ m. plain_of_cols T.ring T.value m
        ≡ plain_permuted T.ring permutation.now (plain_of_cols T.ring T.value a.now)) }
    ensures sound { IfOk result IsSound }
{
    recall(a.values());
    let inverse = permutation.inverse(alloc)?;
    let list = convert_csc_coo(alloc, a)?;
    let matrix = convert_coo_csc(alloc, &renumber(list, &inverse))?;
    Ok(matrix)
}

// Returns the permuted pattern, as that of a matrix over the zero ring.
#[tactic(auto, using(sparse_algebra::proofs::EarlyReturns::early_return))]
fn permuted_pattern(
    alloc: Global,
    pattern: &SparsityPattern,
    permutation: &Permutation,
) -> Result<SparsityPattern, AllocError>
    requires rows { pattern.now.major_dim ≡ length permutation.now }
    requires cols { pattern.now.minor_dim ≡ length permutation.now }
    ensures { IfOk result (IsPermutedPattern permutation.now pattern.now) }
{
    let values = vec![in alloc; NoValue; pattern.nnz()]?;
    let copy = pattern.clone(alloc)?;
    let matrix = CsrMatrix::from_pattern_and_values_unchecked(copy, values);
    let permuted = permuted_rows(alloc, &matrix, permutation)?;
    let (permuted_pattern, _) = permuted.into_pattern_and_values();
    Ok(permuted_pattern)
}
