//! Laws of the rings of this crate. Each is stated as the postcondition of an empty function.

ghost use Rattle.std.specs.Prelude.{◌≡◌};
ghost use Rattle.sparse_algebra.specs.Moduli.{mod_ring};
ghost use Rattle.sparse_algebra.specs.Plain.{Plain, plain_sum, plain_product};
ghost use Rattle.sparse_algebra.specs.RingMaps.{IsRingMap};
ghost use Rattle.sparse_rings.specs.ChineseRemainders.{AreCoprime, both_ring, residue_pair};
ghost use Rattle.sparse_rings.specs.DualMatrices.{plain_numbers, plain_derivatives};
ghost use Rattle.sparse_rings.specs.DualRing.{dual_ring};
ghost use Rattle.sparse_rings.specs.GaussianRing.{gaussian_ring, gaussian_mul};
ghost use Rattle.sparse_rings.specs.GaussianRing.{gaussian_conjugate, gaussian_norm};
ghost use Rattle.sparse_rings.specs.PairRing.{pair_ring};

use sparse_algebra::scalar::Ring;

/// The map from dual numbers to their numbers is a ring homomorphism, and so is the map from numbers to constants.
pub fn dual_law<T: Ring>()
    ensures number { IsRingMap (dual_ring T.ring) T.ring (λ x. x.0) }
    ensures constant { IsRingMap T.ring (dual_ring T.ring) (λ a. (a, T.ring.zero)) }
{}

/// The product rule for matrices: the derivative of `A B` is `A B' + A' B`.
pub fn product_rule_law<T: Ring>()
    ensures { (a b : Plain (dual_ring T.ring))
        → plain_derivatives T.ring (plain_product (dual_ring T.ring) a b)
        ≡ plain_sum T.ring
        (plain_product T.ring (plain_numbers T.ring a) (plain_derivatives T.ring b))
        (plain_product T.ring (plain_derivatives T.ring a) (plain_numbers T.ring b)) }
{}

/// The square of `i` is minus one, the inclusion of the real numbers and conjugation are ring homomorphisms, and the
/// norm of a product is the product of the norms.
pub fn gaussian_law<T: Ring>()
    ensures unit { gaussian_mul T.ring (T.ring.zero, T.ring.one) (T.ring.zero, T.ring.one)
        ≡ (T.ring.neg T.ring.one, T.ring.zero) }
    ensures real { IsRingMap T.ring (gaussian_ring T.ring) (λ a. (a, T.ring.zero)) }
    ensures conjugate { IsRingMap (gaussian_ring T.ring) (gaussian_ring T.ring) (gaussian_conjugate T.ring) }
    ensures norm { (x y : (gaussian_ring T.ring).Carrier)
        → gaussian_norm T.ring (gaussian_mul T.ring x y)
        ≡ T.ring.mul (gaussian_norm T.ring x) (gaussian_norm T.ring y) }
{}

/// The maps from pairs to their first and to their second parts are ring homomorphisms.
pub fn pair_law<A: Ring, B: Ring>()
    ensures first { IsRingMap (pair_ring A.ring B.ring) A.ring (λ x. x.0) }
    ensures second { IsRingMap (pair_ring A.ring B.ring) B.ring (λ x. x.1) }
{}

/// The Chinese remainder theorem: for coprime moduli, residues modulo `M * N` are pairs of residues modulo `M` and `N`.
///
/// A modulus of 0 is read as 1, as in [`Mod`](sparse_algebra::scalar::Mod).
pub fn chinese_remainder_law<const M: u64, const N: u64>()
    ensures map { IsRingMap (both_ring M N) (pair_ring (mod_ring M) (mod_ring N)) (residue_pair M N) }
    ensures one_to_one { AreCoprime M N → (c d : (both_ring M N).Carrier)
        → residue_pair M N c ≡ residue_pair M N d → c ≡ d }
    ensures onto { AreCoprime M N
        → (p : (pair_ring (mod_ring M) (mod_ring N)).Carrier)
        → (c : (both_ring M N).Carrier) × (residue_pair M N c ≡ p) }
{}
