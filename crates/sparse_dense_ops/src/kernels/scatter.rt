//! Multiples of a sparse vector, added to dense vectors.

ghost use Rattle.std.specs.Prelude.{◌≡◌, ◌<◌, All, length, slice_index_or};
ghost use Rattle.sparse_dense_ops.specs.InnerKernels.{IsWrittenAt};
ghost use Rattle.sparse_dense_ops.specs.SparseVectors.{AddsMultiple, sparse_elements};

use sparse_algebra::scalar::Ring;

/// Adds `alpha` times a sparse vector to a dense one: each value, times `alpha`, to the element of `y` at its index.
///
/// There must be one value for each index, and the indices must be less than the length of `y`. They may be in any
/// order, and an index may occur more than once.
///
/// USAXPY of the Sparse BLAS standard (Duff, Heroux and Pozo 2002). One multiplication for each index. Allocates
/// nothing.
///
/// # Examples
///
/// ```rust
/// fn a_sparse_vector_is_added() -> Result<bool, Fail> {
///     let mut y = [1, 2, 3].map(W64::new);
///     usaxpy(W64::new(10), &[4, 5].map(W64::new), &[0, 2], &mut y);
///     Ok(y == [41, 2, 53].map(W64::new))
/// }
/// ```
#[inline(always)]
pub fn usaxpy<T: Ring>(alpha: T, values: &[T], indices: &[usize], y: &mut [T])
    requires fits { length values.now ≡ length indices.now }
    requires inside { All (λ k. k < length y.old) indices.now }
    ensures { AddsMultiple T.ring T.value T.zero_value (T.value alpha)
        (sparse_elements T.ring T.value indices.now values.now) y.old y.new }
{
    for (index, value) in indices.iter().zip(values) {
        add_product(y, *index, alpha, *value);
    }
}

/// Adds a multiple of one lane to each of four dense vectors. The lane is read once for all four.
///
/// `lane` has the indices and the values. There must be one value for each index, and the indices must be less than the
/// length of the vectors, which are equally long.
///
/// Four multiplications for each index. Allocates nothing.
///
/// For the crates of this library.
#[doc(hidden)]
#[inline(always)]
pub fn add_multiple_four<T: Ring>(
    scales: (T, T, T, T),
    lane: (&[usize], &[T]),
    first: &mut [T],
    second: &mut [T],
    third: &mut [T],
    fourth: &mut [T],
)
    requires fits { length lane.1.now ≡ length lane.0.now }
    requires inside { All (λ j. j < length first.old) lane.0.now }
    requires width_2 { length second.old ≡ length first.old }
    requires width_3 { length third.old ≡ length first.old }
    requires width_4 { length fourth.old ≡ length first.old }
    ensures first { AddsMultiple T.ring T.value T.zero_value (T.value scales.0)
        (sparse_elements T.ring T.value lane.entry.0.now lane.entry.1.now) first.old first.new }
    ensures second { AddsMultiple T.ring T.value T.zero_value (T.value scales.1)
        (sparse_elements T.ring T.value lane.entry.0.now lane.entry.1.now) second.old second.new }
    ensures third { AddsMultiple T.ring T.value T.zero_value (T.value scales.2)
        (sparse_elements T.ring T.value lane.entry.0.now lane.entry.1.now) third.old third.new }
    ensures fourth { AddsMultiple T.ring T.value T.zero_value (T.value scales.3)
        (sparse_elements T.ring T.value lane.entry.0.now lane.entry.1.now) fourth.old fourth.new }
{
    let (a, b, c, d) = scales;
    let (indices, values) = lane;
    for (index, value) in indices.iter().zip(values) {
        // Read once: the compiler cannot tell that a write to a vector does not change the index and the value behind
        // the references.
        let (index, value) = (*index, *value);
        add_product(first, index, a, value);
        add_product(second, index, b, value);
        add_product(third, index, c, value);
        add_product(fourth, index, d, value);
    }
}

// Adds `scale * value` to the element at an index.
#[inline(always)]
fn add_product<T: Ring>(row: &mut [T], index: usize, scale: T, value: T)
    requires { index < length row.old }
    ensures { IsWrittenAt T.ring T.value T.zero_value index
        (T.ring.add (T.value (slice_index_or row.old index T.zero_value))
        (T.ring.mul (T.value scale) (T.value value))) row.old row.new }
{
    let entry = &mut row[index];
    *entry = entry.add(scale.mul(value));
}
