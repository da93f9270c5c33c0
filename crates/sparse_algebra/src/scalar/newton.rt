//! Newton's iteration for an inverse.

ghost use Rattle.std.specs.Prelude.{◌≡◌};
ghost use Rattle.sparse_algebra.specs.InnerNewton.{squared, one_minus};

use crate::scalar::Ring;

// Approximates the inverse of `x` by at most `steps` steps of Newton's iteration from one. Each step squares the
// residual, 1 - x * inverse; the iteration ends once the residual is zero.
pub fn newton_inverse<T: Ring>(x: T, steps: u32) -> T
    ensures { one_minus T.ring (T.ring.mul (T.value x) (T.value result))
        ≡ squared T.ring steps (one_minus T.ring (T.value x)) }
{
    let mut inverse = T::one();
    let mut residual = T::one().add(x.neg());
    for _step in 0..steps {
        if residual == T::zero() {
            return inverse;
        }
        inverse = inverse.mul(T::one().add(residual));
        residual = residual.mul(residual);
    }
    inverse
}
