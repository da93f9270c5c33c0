//! Laws of kernels.

ghost use Rattle.std.specs.Prelude.{ℕ, ◌≡◌, List, length};
ghost use Rattle.sparse_algebra.specs.Plain.{Plain, plain_product};
ghost use Rattle.sparse_dense_ops.specs.Solutions.{HasSameValues};
ghost use Rattle.sparse_lu_laws.specs.Kernels.{IsKernel, plain_rows_at};

use sparse_algebra::scalar::Ring;

/// A matrix `x` with `a x = 0` is in one way only a product `k y` with the kernel `k` of `a`: `y` has the values of `x`
/// at the free rows.
pub fn kernel_unique_law<T: Ring>()
    ensures { (a k x y : Plain T.ring) (free : List ℕ)
        → IsKernel T.ring a k free
        → HasSameValues T.ring a.cols x.cols (plain_product T.ring k y) x
        → HasSameValues T.ring (length free) x.cols y (plain_rows_at T.ring free x) }
{}
