//! Scalars with a method that computes inverses.

ghost use Rattle.std.specs.Prelude.{◌≡◌, ◌↔◌, IfSome, IsSome};
ghost use Rattle.sparse_algebra.specs.Inverses.{HasInverse};

use crate::scalar::Ring;

/// A commutative ring with a method that computes inverses.
///
/// # Examples
///
/// ```rust
/// fn an_odd_number_has_an_inverse() -> bool {
///     match W64::new(3).recip() {
///         Some(third) => third.mul(W64::new(3)) == W64::one(),
///         None => false,
///     }
/// }
/// ```
pub trait Units: Ring {
    /// Returns the inverse, or `None` if and only if no scalar is an inverse.
    fn recip(self) -> Option<Self>
        ensures inverse { IfSome result (λ y.
            Self.ring.mul (Self.value self) (Self.value y) ≡ Self.ring.one) }
        ensures exact { IsSome result ↔ HasInverse Self.ring Self.value (Self.value self) };
}
