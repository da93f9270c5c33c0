//! A row of a CSR matrix and a dense vector.

ghost use Rattle.std.specs.Prelude.{◌≡◌, ◌<◌, length};
ghost use Rattle.sparse_algebra.specs.Sums.{sum_below};
ghost use Rattle.sparse_compressed.specs.Compressed.{IsSound};
ghost use Rattle.sparse_compressed.specs.PlainOfLanes.{plain_of_rows};
ghost use Rattle.sparse_dense_ops.specs.SparseVectors.{AddsMultiple, elements};

use crate::kernels::lane::{axpy_lane, dot_lane};
use sparse_algebra::scalar::Ring;
use sparse_csr_csc::csr::CsrMatrix;

/// Adds `alpha` times a row of a matrix to a dense vector.
///
/// `row_index` must be less than `a.nrows()`, and `y` must have `a.ncols()` elements.
///
/// One multiplication for each entry of the row. Allocates nothing.
///
/// # Examples
///
/// ```rust
/// fn a_row_is_added(alloc: Global) -> Result<bool, Fail> {
///     let dense = DMatrix::from_row_slice(alloc, 1, 3, &[4, 0, 5].map(W64::new))?;
///     let matrix = convert_dense_csr(alloc, &dense)?;
///     let mut y = [1, 2, 3].map(W64::new);
///     axpy_csr_row(W64::new(10), &matrix, 0, &mut y);
///     Ok(y == [41, 2, 53].map(W64::new))
/// }
/// ```
#[inline(always)]
pub fn axpy_csr_row<T: Ring>(alpha: T, a: &CsrMatrix<T>, row_index: usize, y: &mut [T])
    requires row { row_index < a.now.pattern.major_dim }
    requires fits { length y.old ≡ a.now.pattern.minor_dim }
    ensures added { AddsMultiple T.ring T.value T.zero_value (T.value alpha)
        (λ k. (plain_of_rows T.ring T.value a.now).value row_index k) y.old y.new }
    ensures sound { IsSound a.now }
{
    axpy_lane(alpha, a.cs(), row_index, y);
}

/// Returns the dot product of a row of a matrix and a dense vector.
///
/// `row_index` must be less than `a.nrows()`, and `x` must have `a.ncols()` elements.
///
/// One multiplication for each entry of the row. Allocates nothing.
///
/// # Examples
///
/// ```rust
/// fn a_row_is_multiplied(alloc: Global) -> Result<bool, Fail> {
///     let dense = DMatrix::from_row_slice(alloc, 1, 3, &[4, 0, 5].map(W64::new))?;
///     let matrix = convert_dense_csr(alloc, &dense)?;
///     Ok(dot_csr_row(&matrix, 0, &[1, 2, 3].map(W64::new)) == W64::new(19))
/// }
/// ```
#[inline(always)]
pub fn dot_csr_row<T: Ring>(a: &CsrMatrix<T>, row_index: usize, x: &[T]) -> T
    requires row { row_index < a.now.pattern.major_dim }
    requires fits { length x.now ≡ a.now.pattern.minor_dim }
    ensures product { T.value result ≡ sum_below T.ring a.now.pattern.minor_dim
        (λ k. T.ring.mul ((plain_of_rows T.ring T.value a.now).value row_index k)
        (elements T.ring T.value T.zero_value x.now k)) }
    ensures sound { IsSound a.now }
{
    dot_lane(a.cs(), row_index, x)
}
