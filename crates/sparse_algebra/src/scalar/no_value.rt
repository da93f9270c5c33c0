//! The scalar of the zero ring, which has one element.

ghost use Rattle.sparse_algebra.specs.ZeroRing.{zero_ring};

use super::{Ring, Zero};

/// The only scalar of the zero ring. It has no bytes, so an array of it takes no memory: a matrix over it is a pattern.
#[derive(Clone, Copy, PartialEq)]
pub struct NoValue;

impl Zero for NoValue {
    ghost zero_value = { record {} };

    fn zero() -> NoValue {
        NoValue
    }
}

impl Ring for NoValue {
    ghost use Rattle.std.specs.Prelude.{refl};

    ghost ring = { zero_ring };

    ghost value = { λ _. tt };

    ghost zero_law = { refl };

    ghost eq_law = { λ _ _. (λ _. refl, λ _. refl) };

    fn one() -> NoValue {
        NoValue
    }

    fn add(self, _other: NoValue) -> NoValue {
        NoValue
    }

    fn mul(self, _other: NoValue) -> NoValue {
        NoValue
    }

    fn neg(self) -> NoValue {
        NoValue
    }
}
