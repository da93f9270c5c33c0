//! The plain matrix of a list of triplets, pair by pair.

ghost use Rattle.std.specs.Prelude.{◌≡◌};
ghost use Rattle.std.specs.List.{list_any};
ghost use Rattle.sparse_algebra.specs.Plain.{is_at};
ghost use Rattle.sparse_coo_dense.specs.CooPlain.{plain_of_coo};

use sparse_algebra::scalar::Ring;
use sparse_coo_dense::coo::CooMatrix;

/// Returns whether a triplet is at (i, j). Reads all triplets.
pub fn has_triplet<T>(coo: &CooMatrix<T>, i: usize, j: usize) -> bool
    ensures { result ≡ list_any (is_at i j) coo.now.triplets }
{
    for (row, col, _) in coo.triplet_iter() {
        if row == i && col == j {
            return true;
        }
    }
    false
}

/// Returns the sum of the values of all triplets at (i, j), which is zero where there are none. Reads all triplets.
pub fn sum_at<T: Ring>(coo: &CooMatrix<T>, i: usize, j: usize) -> T
    ensures { T.value result ≡ (plain_of_coo T.ring T.value coo.now).value i j }
{
    let mut sum = T::zero();
    for (row, col, value) in coo.triplet_iter() {
        if row == i && col == j {
            sum = sum.add(*value);
        }
    }
    sum
}
