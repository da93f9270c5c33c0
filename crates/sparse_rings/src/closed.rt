//! Rings whose represented elements are closed under sums and products.

ghost use Rattle.sparse_rings.specs.Closed.{IsValue};
ghost use Rattle.sparse_rings.specs.InnerPairs.{same_pair};
ghost use Rattle.sparse_rings.specs.InnerValues.{mod-is_value, w32-is_value, w64-is_value};
ghost use Rattle.sparse_rings.specs.InnerValues.{w128-is_value, dual-sum, dual-product};

use crate::dual::Dual;
use crate::pair::Pair;
use sparse_algebra::scalar::{Mod, Ring, W32, W64, W128};

/// A ring in which some scalar represents each sum and each product of elements that scalars represent.
///
/// The trait has no functions; it only states this fact for proofs. A contract that says "no scalar is an inverse"
/// speaks of all scalars, also of those that no code computes. `W32`, `W64`, `W128` and `Mod<M>` implement the trait,
/// and so do dual numbers and pairs of scalars that implement it; `Gaussian<T>` requires it of `T` for its inverses.
pub trait Closed: Ring {
    ghost sum_law: { (x y : Self)
        → IsValue Self.ring Self.value (Self.ring.add (Self.value x) (Self.value y)) };

    ghost product_law: { (x y : Self)
        → IsValue Self.ring Self.value (Self.ring.mul (Self.value x) (Self.value y)) };
}

impl<const M: u64> Closed for Mod<M> {
    ghost sum_law = { λ x y. mod-is_value M _ };

    ghost product_law = { λ x y. mod-is_value M _ };
}

impl Closed for W32 {
    ghost sum_law = { λ x y. w32-is_value _ };

    ghost product_law = { λ x y. w32-is_value _ };
}

impl Closed for W64 {
    ghost sum_law = { λ x y. w64-is_value _ };

    ghost product_law = { λ x y. w64-is_value _ };
}

impl Closed for W128 {
    ghost sum_law = { λ x y. w128-is_value _ };

    ghost product_law = { λ x y. w128-is_value _ };
}

impl<T: Closed> Closed for Dual<T> {
    ghost sum_law = { dual-sum T.ring T.value T.sum_law T.product_law };

    ghost product_law = { dual-product T.ring T.value T.sum_law T.product_law };
}

impl<A: Closed, B: Closed> Closed for Pair<A, B> {
    ghost sum_law = { λ x y.
        let first = A.sum_law x.first y.first in
        let second = B.sum_law x.second y.second in
        (record { first = first.0; second = second.0 }, same_pair _ _ first.1 second.1) };

    ghost product_law = { λ x y.
        let first = A.product_law x.first y.first in
        let second = B.product_law x.second y.second in
        (record { first = first.0; second = second.0 }, same_pair _ _ first.1 second.1) };
}
