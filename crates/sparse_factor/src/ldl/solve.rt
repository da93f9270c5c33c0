//! The multiplication of each row of a dense matrix by a number.

ghost use Rattle.std.specs.Prelude.{◌≡◌, length};
ghost use Rattle.sparse_factor.specs.InnerFactors.{AreScaledBelow, IsScaled};

use sparse_algebra::scalar::Ring;
use sparse_coo_dense::dense::DMatrix;

// Multiplies row i of b by `factors[i]`, for each i.
pub fn scale_rows<T: Ring>(factors: &[T], b: &mut DMatrix<T>)
    requires rows { b.old.nrows ≡ length factors.now }
    ensures { AreScaledBelow T.ring T.value T.zero_value b.old.ncols factors.now b.old b.new }
{
    // A matrix without rows takes no time, even if it has columns.
    if b.nrows() == 0 {
        return;
    }
    for j in 0..b.ncols() {
        scale_column(factors, b.column_mut(j));
    }
}

// Multiplies `x[i]` by `factors[i]`, for each i.
fn scale_column<T: Ring>(factors: &[T], x: &mut [T])
    requires rows { length x.old ≡ length factors.now }
    ensures { IsScaled T.ring T.value T.zero_value factors.now x.old x.new }
{
    for i in 0..x.len() {
        x[i] = x[i].mul(factors[i]);
    }
}
