//! The product of two lists of triplets by its definition, one (i, j) at a time.

ghost use Rattle.std.specs.Prelude.{◌≡◌};
ghost use Rattle.sparse_algebra.specs.Plain.{plain_product};
ghost use Rattle.sparse_coo_dense.specs.CooPlain.{plain_of_coo};

use crate::sums::{has_triplet, sum_at};
use sparse_algebra::scalar::Ring;
use sparse_coo_dense::coo::CooMatrix;

/// Returns whether (i, j) is a place of the product: some k has (i, k) in `a` and (k, j) in `b`. Tries all k.
pub fn product_has<T: Ring>(a: &CooMatrix<T>, b: &CooMatrix<T>, i: usize, j: usize) -> bool
    ensures { result ≡ (plain_product T.ring
        (plain_of_coo T.ring T.value a.now) (plain_of_coo T.ring T.value b.now)).has i j }
{
    for k in 0..a.ncols() {
        if has_triplet(a, i, k) && has_triplet(b, k, j) {
            return true;
        }
    }
    false
}

/// Returns the value of the product at (i, j): the sum over all k of the value at (i, k) in `a` times that at (k, j) in
/// `b`.
pub fn product_at<T: Ring>(a: &CooMatrix<T>, b: &CooMatrix<T>, i: usize, j: usize) -> T
    ensures { T.value result ≡ (plain_product T.ring
        (plain_of_coo T.ring T.value a.now) (plain_of_coo T.ring T.value b.now)).value i j }
{
    let mut sum = T::zero();
    for k in 0..a.ncols() {
        sum = sum.add(sum_at(a, i, k).mul(sum_at(b, k, j)));
    }
    sum
}
