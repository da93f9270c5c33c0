//! The product of two matrices.

ghost use Rattle.std.specs.Prelude.{◌≡◌, IfOk};
ghost use Rattle.sparse_algebra.specs.Plain.{plain_product};
ghost use Rattle.sparse_compressed.specs.PlainOfLanes.{plain_of_rows, plain_of_cols};
ghost use Rattle.sparse_products.specs.InnerOperands.{CanMultiply, product_of};

use super::multiplicands::Matrices;
use super::pattern::{is_wide, spmm_csr_pattern};
use super::rows::multiply_rows;
use super::update::{Update, update_covered};
use sparse_algebra::scalar::Ring;
use sparse_compressed::CsMatrix;
use sparse_coo_dense::steps::Steps;
use sparse_csr_csc::csc::CscMatrix;
use sparse_csr_csc::csr::CsrMatrix;
use std::alloc::{AllocError, Global};

/// Returns the product `a * b`.
///
/// The result has the pattern [`spmm_csr_pattern`], even where a sum is zero. `a.ncols()` must equal `b.nrows()`.
///
/// Gustavson's algorithm (1978): the terms of each row are added in a scratch row, as in
/// [`spmm_csr_prealloc_unchecked`](crate::serial::spmm_csr_prealloc_unchecked), and its column indices are collected in
/// a bit set, from which they are read in increasing order. It takes one multiplication for each triple (i, k, j) with
/// (i, k) in `a` and (k, j) in `b`, one for each entry of `a`, and for each row one step for each 262,144 columns of
/// `b`. Scratch memory: a value and a bit for each column of `b`. If `b` has more columns than `a` and `b` have entries
/// together, the pattern is computed first and each triple is added by a binary search, in scratch memory for the
/// triples of one row. Fails only if an allocation fails.
///
/// The number of entries of the result is estimated: extrapolated from about 64 evenly spaced rows, plus an eighth, and
/// at most one for each pair (i, j). The arrays of the result start empty if the memory for the estimate can't be had,
/// and grow by doubling where the estimate is too small. Unused memory is released at the end.
///
/// # Examples
///
/// ```rust
/// fn a_matrix_is_squared(alloc: Global) -> Result<bool, Fail> {
///     let dense = DMatrix::from_row_slice(alloc, 2, 2, &[1, 2, 0, 3].map(W64::new))?;
///     let matrix = convert_dense_csr(alloc, &dense)?;
///     let square = mul_csr(alloc, &matrix, &matrix)?;
///     Ok(square.values() == [1, 8, 9].map(W64::new).as_slice())
/// }
/// ```
pub fn mul_csr<T: Ring>(
    alloc: Global,
    a: &CsrMatrix<T>,
    b: &CsrMatrix<T>,
) -> Result<CsrMatrix<T>, AllocError>
    requires { a.now.pattern.minor_dim ≡ b.now.pattern.major_dim }
    ensures { IfOk result (λ m. plain_of_rows T.ring T.value m
        ≡ plain_product T.ring (plain_of_rows T.ring T.value a.now)
        (plain_of_rows T.ring T.value b.now)) }
{
    Ok(CsrMatrix::from_cs(multiply(alloc, a.cs(), b.cs())?))
}

/// Returns the product `a * b`.
///
/// The result has the pattern [`spmm_csc_pattern`](crate::serial::spmm_csc_pattern), even where a sum is zero.
/// `a.ncols()` must equal `b.nrows()`.
///
/// Computes the product of the transposes by rows, in reverse order. Time and memory are those of [`mul_csr`] with the
/// operands exchanged: scratch memory for one column of `a`. Fails only if an allocation fails.
pub fn mul_csc<T: Ring>(
    alloc: Global,
    a: &CscMatrix<T>,
    b: &CscMatrix<T>,
) -> Result<CscMatrix<T>, AllocError>
    requires { a.now.pattern.major_dim ≡ b.now.pattern.minor_dim }
    ensures { IfOk result (λ m. plain_of_cols T.ring T.value m
        ≡ plain_product T.ring (plain_of_cols T.ring T.value a.now)
        (plain_of_cols T.ring T.value b.now)) }
{
    Ok(CscMatrix::from_cs(multiply(alloc, b.cs(), a.cs())?))
}

// Returns `a * b`, where the lanes of both matrices are rows.
fn multiply<T: Ring>(
    alloc: Global,
    a: &CsMatrix<T>,
    b: &CsMatrix<T>,
) -> Result<CsMatrix<T>, AllocError>
    requires { a.now.pattern.minor_dim ≡ b.now.pattern.major_dim }
    ensures { IfOk result (λ m. plain_of_rows T.ring T.value m
        ≡ plain_product T.ring (plain_of_rows T.ring T.value a.now)
        (plain_of_rows T.ring T.value b.now)) }
{
    if is_wide(a.pattern(), b.pattern()) {
        multiply_wide(alloc, Matrices { a, b })
    } else {
        multiply_rows(alloc, Matrices { a, b })
    }
}

// Returns the product without scratch memory of the length of a row: computes the pattern, then adds the terms to
// zeros.
#[tactic(auto, using(sparse_algebra::proofs::EarlyReturns::early_return))]
fn multiply_wide<T: Ring>(
    alloc: Global,
    matrices: Matrices<'_, T>,
) -> Result<CsMatrix<T>, AllocError>
    requires { CanMultiply matrices }
    ensures { IfOk result
        (λ m. plain_of_rows T.ring T.value m ≡ product_of T.ring T.value matrices.entry) }
{
    let pattern = spmm_csr_pattern(alloc, matrices.a.pattern(), matrices.b.pattern())?;
    let mut values = Vec::new(alloc);
    values.resize(pattern.nnz(), T::zero())?;
    let update = Update {
        beta: T::zero(),
        alpha: T::one(),
        matrices,
    };
    update_covered(alloc, update, &pattern, &mut values, &mut Steps::new())?;
    Ok(CsMatrix::from_pattern_and_values(pattern, values))
}
