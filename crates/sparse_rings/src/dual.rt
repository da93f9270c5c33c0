//! Dual numbers: a number with its derivative.

ghost use Rattle.std.specs.Prelude.{◌≡◌, ◌↔◌, IfSome, IsSome};
ghost use Rattle.sparse_algebra.specs.Inverses.{HasInverse};

use sparse_algebra::scalar::{Ring, Units, Zero};

/// A number and its derivative: `number + derivative * e`, where `e * e` is zero.
///
/// Sums and products of dual numbers also compute the derivatives of sums and products (forward differentiation), so
/// a matrix over `Dual<T>` is a matrix with its derivative. A parameter is a [`Dual::variable`], every other number a
/// [`Dual::constant`].
///
/// # Examples
///
/// ```rust
/// fn a_product_differentiates_itself() -> bool {
///     let x = Dual::variable(W64::new(5));
///     let seven = Dual::constant(W64::new(7));
///     x.mul(x).add(seven.mul(x)) == Dual::new(W64::new(60), W64::new(17))
/// }
/// ```
#[derive(Clone, Copy, Debug, PartialEq)]
pub struct Dual<T> {
    /// The number itself.
    pub number: T,
    /// The derivative of the number.
    pub derivative: T,
}

impl<T> Dual<T> {
    /// Returns the number with this derivative.
    pub fn new(number: T, derivative: T) -> Dual<T>
        ensures number { result.number ≡ number }
        ensures derivative { result.derivative ≡ derivative }
    {
        Dual { number, derivative }
    }
}

impl<T: Ring> Dual<T> {
    /// Returns the number with the derivative zero.
    pub fn constant(number: T) -> Dual<T>
        ensures number { result.number ≡ number }
        ensures derivative { T.value result.derivative ≡ T.ring.zero }
    {
        Dual::new(number, T::zero())
    }

    /// Returns the number with the derivative one.
    pub fn variable(number: T) -> Dual<T>
        ensures number { result.number ≡ number }
        ensures derivative { T.value result.derivative ≡ T.ring.one }
    {
        Dual::new(number, T::one())
    }
}

impl<T: Zero> Zero for Dual<T> {
    ghost zero_value = { record { number = T.zero_value; derivative = T.zero_value } };

    fn zero() -> Dual<T> {
        Dual::new(T::zero(), T::zero())
    }
}

impl<T: Ring> Ring for Dual<T> {
    ghost use Rattle.std.proofs.Common.{ap};
    ghost use Rattle.std.proofs.lemmas.Bool.{and_from, and_parts};
    ghost use Rattle.sparse_rings.specs.DualRing.{dual_ring};
    ghost use Rattle.sparse_rings.specs.InnerPairs.{same_pair};

    ghost ring = { dual_ring T.ring };

    ghost value = { λ x. (T.value x.number, T.value x.derivative) };

    ghost zero_law = { same_pair _ _ T.zero_law T.zero_law };

    ghost eq_law = { λ x y. (
      λ e. same_pair _ _ ((T.eq_law x.number y.number).0 (and_parts _ _ e).0)
          ((T.eq_law x.derivative y.derivative).0 (and_parts _ _ e).1),
      λ p. and_from _ _ ((T.eq_law x.number y.number).1 (ap (λ q. q.0) p))
          ((T.eq_law x.derivative y.derivative).1 (ap (λ q. q.1) p)),
    ) };

    fn one() -> Dual<T> {
        Dual::new(T::one(), T::zero())
    }

    fn add(self, other: Dual<T>) -> Dual<T> {
        Dual::new(
            self.number.add(other.number),
            self.derivative.add(other.derivative),
        )
    }

    fn mul(self, other: Dual<T>) -> Dual<T> {
        let left = self.number.mul(other.derivative);
        let right = self.derivative.mul(other.number);
        Dual::new(self.number.mul(other.number), left.add(right))
    }

    fn neg(self) -> Dual<T> {
        Dual::new(self.number.neg(), self.derivative.neg())
    }
}

impl<T: Units> Units for Dual<T> {
    ghost use Rattle.sparse_rings.specs.DualRing.{dual_ring};
    ghost use Rattle.sparse_rings.specs.RingValues.{dual_value};

    /// Returns the inverse, or `None` if and only if the number has none, whatever the derivative is.
    ///
    /// The derivative of the inverse of `x` is `-x' / (x * x)`.
    fn recip(self) -> Option<Dual<T>>
        ensures inverse { IfSome result (λ y.
            (dual_ring T.ring).mul (dual_value T.value self) (dual_value T.value y)
            ≡ (dual_ring T.ring).one) }
        ensures exact { IsSome result
            ↔ HasInverse (dual_ring T.ring) (dual_value T.value) (dual_value T.value self) }
        ensures number { IsSome result ↔ HasInverse T.ring T.value (T.value self.number) }
    {
        let inverse = self.number.recip()?;
        let square = inverse.mul(inverse);
        Some(Dual::new(inverse, self.derivative.mul(square).neg()))
    }
}
