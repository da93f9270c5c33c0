//! Pairs of scalars: the product of two rings.

ghost use Rattle.std.specs.Prelude.{◌≡◌, ◌↔◌, IfSome, IsSome};
ghost use Rattle.sparse_algebra.specs.Inverses.{HasInverse};

use sparse_algebra::scalar::{Ring, Units, Zero};

/// A pair of scalars, an element of the product of two rings. Every operation applies to the first scalars and to the
/// second scalars.
///
/// # Examples
///
/// ```rust
/// fn a_pair_computes_in_both_rings() -> bool {
///     let ten: Pair<Mod<7>, Mod<9>> = Pair::new(Mod::new(10), Mod::new(10));
///     let square = ten.mul(ten);
///     square.first.get() == 2 && square.second.get() == 1
/// }
/// ```
#[derive(Clone, Copy, Debug, PartialEq)]
pub struct Pair<A, B> {
    /// The scalar of the first ring.
    pub first: A,
    /// The scalar of the second ring.
    pub second: B,
}

impl<A, B> Pair<A, B> {
    /// Returns the pair of the two scalars.
    pub fn new(first: A, second: B) -> Pair<A, B>
        ensures first { result.first ≡ first }
        ensures second { result.second ≡ second }
    {
        Pair { first, second }
    }
}

impl<A: Zero, B: Zero> Zero for Pair<A, B> {
    ghost zero_value = { record { first = A.zero_value; second = B.zero_value } };

    fn zero() -> Pair<A, B> {
        Pair::new(A::zero(), B::zero())
    }
}

impl<A: Ring, B: Ring> Ring for Pair<A, B> {
    ghost use Rattle.std.proofs.Common.{ap};
    ghost use Rattle.std.proofs.lemmas.Bool.{and_from, and_parts};
    ghost use Rattle.sparse_rings.specs.PairRing.{pair_ring};
    ghost use Rattle.sparse_rings.specs.InnerPairs.{same_pair};

    ghost ring = { pair_ring A.ring B.ring };

    ghost value = { λ x. (A.value x.first, B.value x.second) };

    ghost zero_law = { same_pair _ _ A.zero_law B.zero_law };

    ghost eq_law = { λ x y. (
      λ e. same_pair _ _ ((A.eq_law x.first y.first).0 (and_parts _ _ e).0)
          ((B.eq_law x.second y.second).0 (and_parts _ _ e).1),
      λ p. and_from _ _ ((A.eq_law x.first y.first).1 (ap (λ q. q.0) p))
          ((B.eq_law x.second y.second).1 (ap (λ q. q.1) p)),
    ) };

    fn one() -> Pair<A, B> {
        Pair::new(A::one(), B::one())
    }

    fn add(self, other: Pair<A, B>) -> Pair<A, B> {
        Pair::new(self.first.add(other.first), self.second.add(other.second))
    }

    fn mul(self, other: Pair<A, B>) -> Pair<A, B> {
        Pair::new(self.first.mul(other.first), self.second.mul(other.second))
    }

    fn neg(self) -> Pair<A, B> {
        Pair::new(self.first.neg(), self.second.neg())
    }
}

impl<A: Units, B: Units> Units for Pair<A, B> {
    ghost use Rattle.sparse_rings.specs.PairRing.{pair_ring};
    ghost use Rattle.sparse_rings.specs.RingValues.{pair_value};

    /// Returns the inverse, or `None` if and only if one of the two scalars has none.
    fn recip(self) -> Option<Pair<A, B>>
        ensures inverse { IfSome result (λ y. (pair_ring A.ring B.ring).mul
            (pair_value A.value B.value self) (pair_value A.value B.value y)
            ≡ (pair_ring A.ring B.ring).one) }
        ensures exact { IsSome result ↔ HasInverse (pair_ring A.ring B.ring)
            (pair_value A.value B.value) (pair_value A.value B.value self) }
        ensures both { IsSome result ↔ HasInverse A.ring A.value (A.value self.first)
            × HasInverse B.ring B.value (B.value self.second) }
    {
        let first = self.first.recip()?;
        let second = self.second.recip()?;
        Some(Pair::new(first, second))
    }
}
