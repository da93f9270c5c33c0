//! A column of a CSC matrix and a dense vector.

ghost use Rattle.std.specs.Prelude.{◌≡◌, ◌<◌, length};
ghost use Rattle.sparse_algebra.specs.Sums.{sum_below};
ghost use Rattle.sparse_compressed.specs.Compressed.{IsSound};
ghost use Rattle.sparse_compressed.specs.PlainOfLanes.{plain_of_cols};
ghost use Rattle.sparse_dense_ops.specs.SparseVectors.{AddsMultiple, elements};

use crate::kernels::lane::{axpy_lane, dot_lane};
use sparse_algebra::scalar::Ring;
use sparse_csr_csc::csc::CscMatrix;

/// Adds `alpha` times a column of a matrix to a dense vector.
///
/// `col_index` must be less than `a.ncols()`, and `y` must have `a.nrows()` elements.
///
/// One multiplication for each entry of the column. Allocates nothing.
///
/// # Examples
///
/// ```rust
/// fn a_column_is_added(alloc: Global) -> Result<bool, Fail> {
///     let dense = DMatrix::from_column_slice(alloc, 3, 1, &[4, 0, 5].map(W64::new))?;
///     let matrix = convert_dense_csc(alloc, &dense)?;
///     let mut y = [1, 2, 3].map(W64::new);
///     axpy_csc_col(W64::new(10), &matrix, 0, &mut y);
///     Ok(y == [41, 2, 53].map(W64::new))
/// }
/// ```
#[inline(always)]
pub fn axpy_csc_col<T: Ring>(alpha: T, a: &CscMatrix<T>, col_index: usize, y: &mut [T])
    requires col { col_index < a.now.pattern.major_dim }
    requires fits { length y.old ≡ a.now.pattern.minor_dim }
    ensures added { AddsMultiple T.ring T.value T.zero_value (T.value alpha)
        (λ k. (plain_of_cols T.ring T.value a.now).value k col_index) y.old y.new }
    ensures sound { IsSound a.now }
{
    axpy_lane(alpha, a.cs(), col_index, y);
}

/// Returns the dot product of a column of a matrix and a dense vector.
///
/// `col_index` must be less than `a.ncols()`, and `x` must have `a.nrows()` elements.
///
/// One multiplication for each entry of the column. Allocates nothing.
///
/// # Examples
///
/// ```rust
/// fn a_column_is_multiplied(alloc: Global) -> Result<bool, Fail> {
///     let dense = DMatrix::from_column_slice(alloc, 3, 1, &[4, 0, 5].map(W64::new))?;
///     let matrix = convert_dense_csc(alloc, &dense)?;
///     Ok(dot_csc_col(&matrix, 0, &[1, 2, 3].map(W64::new)) == W64::new(19))
/// }
/// ```
#[inline(always)]
pub fn dot_csc_col<T: Ring>(a: &CscMatrix<T>, col_index: usize, x: &[T]) -> T
    requires col { col_index < a.now.pattern.major_dim }
    requires fits { length x.now ≡ a.now.pattern.minor_dim }
    ensures product { T.value result ≡ sum_below T.ring a.now.pattern.minor_dim
        (λ k. T.ring.mul ((plain_of_cols T.ring T.value a.now).value k col_index)
        (elements T.ring T.value T.zero_value x.now k)) }
    ensures sound { IsSound a.now }
{
    dot_lane(a.cs(), col_index, x)
}
