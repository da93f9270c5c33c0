//! Dot products of a sparse vector and dense vectors.

ghost use Rattle.std.specs.Prelude.{◌≡◌, ◌<◌, ◌*◌, All, length, slice_index_or};
ghost use Rattle.sparse_algebra.specs.Sums.{dot_of};
ghost use Rattle.sparse_dense_ops.specs.InnerKernels.{strided};
ghost use Rattle.sparse_dense_ops.specs.SparseVectors.{elements};

use sparse_algebra::scalar::Ring;

/// Returns the dot product of a sparse vector and a dense one: the sum of the values, each times the element of `y` at
/// its index.
///
/// There must be one value for each index, and the indices must be less than the length of `y`. They may be in any
/// order, and an index may occur more than once.
///
/// USDOT of the Sparse BLAS standard (Duff, Heroux and Pozo 2002). One multiplication for each index. Allocates
/// nothing.
///
/// # Examples
///
/// ```rust
/// fn a_sparse_vector_is_multiplied() -> Result<bool, Fail> {
///     let y = [1, 2, 3].map(W64::new);
///     Ok(usdot(&[4, 5].map(W64::new), &[0, 2], &y) == W64::new(19))
/// }
/// ```
#[inline(always)]
pub fn usdot<T: Ring>(values: &[T], indices: &[usize], y: &[T]) -> T
    requires fits { length values.now ≡ length indices.now }
    requires inside { All (λ k. k < length y.now) indices.now }
    ensures { T.value result ≡ dot_of T.ring T.value indices.now values.now
        (elements T.ring T.value T.zero_value y.now) }
{
    dot(indices, values, y, 1)
}

/// Returns the dot product of a lane and a dense vector: the sum of the values, each times the element of the vector at
/// its index.
///
/// Element k of the vector is `column[k * step]`. There must be one value for each index, and the elements at the
/// indices must be inside `column`.
///
/// One multiplication for each index. Allocates nothing.
///
/// For the crates of this library.
#[doc(hidden)]
#[inline(always)]
pub fn dot<T: Ring>(indices: &[usize], values: &[T], column: &[T], step: usize) -> T
    requires fits { length values.now ≡ length indices.now }
    requires inside { All (λ k. k * step < length column.now) indices.now }
    ensures { T.value result ≡ dot_of T.ring T.value indices.now values.now
        (strided T.ring T.value T.zero_value column.now step) }
{
    let mut sum = T::zero();
    for (index, value) in indices.iter().zip(values) {
        sum = add_term(sum, *value, column, *index * step);
    }
    sum
}

/// Returns the [`dot`] products of one lane and four dense vectors. The lane is read once for all four.
///
/// For the crates of this library.
#[doc(hidden)]
#[inline(always)]
pub fn dot_four<T: Ring>(
    indices: &[usize],
    values: &[T],
    columns: (&[T], &[T], &[T], &[T]),
    step: usize,
) -> (T, T, T, T)
    requires fits { length values.now ≡ length indices.now }
    requires first { All (λ k. k * step < length columns.0.now) indices.now }
    requires second { All (λ k. k * step < length columns.1.now) indices.now }
    requires third { All (λ k. k * step < length columns.2.now) indices.now }
    requires fourth { All (λ k. k * step < length columns.3.now) indices.now }
    ensures first { T.value result.0 ≡ dot_of T.ring T.value indices.now values.now
        (strided T.ring T.value T.zero_value columns.entry.0.now step) }
    ensures second { T.value result.1 ≡ dot_of T.ring T.value indices.now values.now
        (strided T.ring T.value T.zero_value columns.entry.1.now step) }
    ensures third { T.value result.2 ≡ dot_of T.ring T.value indices.now values.now
        (strided T.ring T.value T.zero_value columns.entry.2.now step) }
    ensures fourth { T.value result.3 ≡ dot_of T.ring T.value indices.now values.now
        (strided T.ring T.value T.zero_value columns.entry.3.now step) }
{
    let (first, second, third, fourth) = columns;
    let (mut a, mut b, mut c, mut d) = (T::zero(), T::zero(), T::zero(), T::zero());
    for (index, value) in indices.iter().zip(values) {
        let at = *index * step;
        a = add_term(a, *value, first, at);
        b = add_term(b, *value, second, at);
        c = add_term(c, *value, third, at);
        d = add_term(d, *value, fourth, at);
    }
    (a, b, c, d)
}

// Returns `sum + value * column[at]`.
#[inline(always)]
fn add_term<T: Ring>(sum: T, value: T, column: &[T], at: usize) -> T
    requires { at < length column.now }
    ensures { T.value result ≡ T.ring.add (T.value sum)
        (T.ring.mul (T.value value) (T.value (slice_index_or column.now at T.zero_value))) }
{
    sum.add(value.mul(column[at]))
}
