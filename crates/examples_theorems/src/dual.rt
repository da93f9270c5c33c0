//! A ring of one's own: dual numbers over any commutative ring.

ghost use Rattle.std.specs.Prelude.{refl};

use nalgebra_sparse::scalar::{Ring, W64, Zero};

/// A number and its derivative: a + b e, where e * e = 0.
#[derive(Clone, Copy, Debug, PartialEq)]
pub struct Dual<T> {
    pub number: T,
    pub slope: T,
}

impl<T: Zero> Zero for Dual<T> {
    ghost zero_value = { record { number = T.zero_value; slope = T.zero_value } };

    fn zero() -> Dual<T> {
        Dual {
            number: T::zero(),
            slope: T::zero(),
        }
    }
}

impl<T: Ring> Ring for Dual<T> {
    ghost use Rattle.std.proofs.Common.{ap};
    ghost use Rattle.std.proofs.lemmas.Bool.{and_from, and_parts};
    ghost use Rattle.examples_theorems.specs.DualNumbers.{dual_ring, pair_same};

    ghost ring = { dual_ring T.ring };

    ghost value = { λ x. (T.value x.number, T.value x.slope) };

    ghost zero_law = { pair_same T.ring _ _ T.zero_law T.zero_law };

    ghost eq_law = { λ x y. (
      λ e. pair_same T.ring _ _ ((T.eq_law x.number y.number).0 (and_parts _ _ e).0)
          ((T.eq_law x.slope y.slope).0 (and_parts _ _ e).1),
      λ p. and_from _ _ ((T.eq_law x.number y.number).1 (ap (λ q. q.0) p))
          ((T.eq_law x.slope y.slope).1 (ap (λ q. q.1) p)),
    ) };

    fn one() -> Dual<T> {
        Dual {
            number: T::one(),
            slope: T::zero(),
        }
    }

    fn add(self, other: Dual<T>) -> Dual<T> {
        Dual {
            number: self.number.add(other.number),
            slope: self.slope.add(other.slope),
        }
    }

    fn mul(self, other: Dual<T>) -> Dual<T> {
        let left = self.number.mul(other.slope);
        let right = self.slope.mul(other.number);
        Dual {
            number: self.number.mul(other.number),
            slope: left.add(right),
        }
    }

    fn neg(self) -> Dual<T> {
        Dual {
            number: self.number.neg(),
            slope: self.slope.neg(),
        }
    }
}

#[test]
fn a_product_has_both_slopes(rt: HostRuntime) {
    let x = Dual {
        number: W64::new(5),
        slope: W64::new(1),
    };
    let want = Dual {
        number: W64::new(25),
        slope: W64::new(10),
    };
    assert!(rt; x.mul(x) == want);
}
