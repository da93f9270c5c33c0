//! Scalars: types with a zero, commutative rings, units, the wrapping integers, and residues.

ghost use Rattle.std.specs.Prelude.{◌≡◌, ◌↔◌, true};
ghost use Rattle.sparse_algebra.specs.Algebra.{CommRing};

pub mod integers;
mod inverses;
mod newton;
mod no_value;
mod odd;
mod residues;
mod wide;
pub mod wrapping;

pub use inverses::Units;
pub use no_value::NoValue;
pub use residues::Mod;
pub use wide::W128;
pub use wrapping::{W32, W64};

/// A type with a zero: the value of a matrix at every row and column where no entry is stored.
pub trait Zero: PartialEq {
    // The value that `zero` returns.
    ghost zero_value: { Self };

    /// Returns zero.
    fn zero() -> Self
        ensures { result ≡ zero_value };
}

/// A commutative ring.
///
/// Each value of the type represents an element of the mathematical ring `ring`, given by `value`. Two values are `==`
/// if and only if they represent the same element.
///
/// # Examples
///
/// ```rust
/// fn negation_cancels() -> bool {
///     let seven = W64::new(7);
///     seven.add(seven.neg()) == W64::zero() && seven.mul(W64::one()) == seven
/// }
/// ```
pub trait Ring: Zero + Copy {
    // The commutative ring, with its laws.
    ghost ring: { CommRing };

    // The ring element that a scalar represents.
    ghost value: { Self → ring.Carrier };

    /// Returns one.
    fn one() -> Self
        ensures { value result ≡ ring.one };

    /// Returns the sum.
    fn add(self, other: Self) -> Self
        ensures { value result ≡ ring.add (value self) (value other) };

    /// Returns the product.
    fn mul(self, other: Self) -> Self
        ensures { value result ≡ ring.mul (value self) (value other) };

    /// Returns the additive inverse.
    fn neg(self) -> Self
        ensures { value result ≡ ring.neg (value self) };

    ghost zero_law: { value Self.zero_value ≡ ring.zero };

    ghost eq_law: { (x y : Self) → (Self.eq x y ≡ true) ↔ (value x ≡ value y) };
}
