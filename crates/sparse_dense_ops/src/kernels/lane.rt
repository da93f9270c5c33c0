//! A lane of the core of CSR and CSC matrices, and a dense vector.

ghost use Rattle.std.specs.Prelude.{◌≡◌, ◌<◌, All, length};
ghost use Rattle.std.specs.List.Sorted.{IsStrictlyIncreasing};
ghost use Rattle.sparse_algebra.specs.Sums.{sum_below};
ghost use Rattle.sparse_compressed.specs.Compressed.{IsSound};
ghost use Rattle.sparse_compressed.specs.Lanes.{lane_at};
ghost use Rattle.sparse_compressed.specs.PlainOfLanes.{plain_of_rows};
ghost use Rattle.sparse_dense_ops.specs.SparseVectors.{AddsMultiple, elements};

use crate::kernels::gather::usdot;
use crate::kernels::scatter::usaxpy;
use sparse_algebra::scalar::Ring;
use sparse_compressed::CsMatrix;

/// Returns the indices and the values of lane i.
///
/// For the crates of this library.
#[doc(hidden)]
#[inline(always)]
pub fn lane_slices<T>(a: &CsMatrix<T>, i: usize) -> (&[usize], &[T])
    requires { i < a.now.pattern.major_dim }
    ensures indices { result.0.now ≡ (lane_at a.now i).indices }
    ensures values { result.1.now ≡ (lane_at a.now i).values }
    ensures fits { length result.1.now ≡ length result.0.now }
    ensures rising { IsStrictlyIncreasing result.0.now }
    ensures inside { All (λ j. j < a.now.pattern.minor_dim) result.0.now }
    ensures sound { IsSound a.now }
{
    let (offsets, indices, values) = a.cs_data();
    let (begin, end) = (offsets[i], offsets[i + 1]);
    (&indices[begin..end], &values[begin..end])
}

// Adds `alpha` times lane i to a dense vector.
#[inline(always)]
pub fn axpy_lane<T: Ring>(alpha: T, a: &CsMatrix<T>, i: usize, y: &mut [T])
    requires lane { i < a.now.pattern.major_dim }
    requires fits { length y.old ≡ a.now.pattern.minor_dim }
    ensures added { AddsMultiple T.ring T.value T.zero_value (T.value alpha)
        ((plain_of_rows T.ring T.value a.now).value i) y.old y.new }
    ensures sound { IsSound a.now }
{
    let (indices, values) = lane_slices(a, i);
    usaxpy(alpha, values, indices, y);
}

// Returns the dot product of lane i and a dense vector.
#[inline(always)]
pub fn dot_lane<T: Ring>(a: &CsMatrix<T>, i: usize, x: &[T]) -> T
    requires lane { i < a.now.pattern.major_dim }
    requires fits { length x.now ≡ a.now.pattern.minor_dim }
    ensures product { T.value result ≡ sum_below T.ring a.now.pattern.minor_dim
        (λ k. T.ring.mul ((plain_of_rows T.ring T.value a.now).value i k)
        (elements T.ring T.value T.zero_value x.now k)) }
    ensures sound { IsSound a.now }
{
    let (indices, values) = lane_slices(a, i);
    usdot(values, indices, x)
}
