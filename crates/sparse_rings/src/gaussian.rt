//! Gaussian numbers: a real and an imaginary part.

ghost use Rattle.std.specs.Prelude.{◌≡◌, ◌↔◌, IfSome, IsSome};
ghost use Rattle.sparse_algebra.specs.Inverses.{HasInverse};
ghost use Rattle.sparse_rings.specs.GaussianRing.{gaussian_norm};

use crate::closed::Closed;
use sparse_algebra::scalar::{Ring, Units, Zero};

/// A real and an imaginary part: `real + imaginary * i`, where `i * i` is minus one.
///
/// Implements [`Units`] over scalars that implement it and [`Closed`].
///
/// # Examples
///
/// ```rust
/// fn i_squared_is_minus_one() -> bool {
///     let i = Gaussian::new(W64::zero(), W64::one());
///     i.mul(i) == Gaussian::one().neg()
/// }
/// ```
#[derive(Clone, Copy, Debug, PartialEq)]
pub struct Gaussian<T> {
    /// The real part.
    pub real: T,
    /// The imaginary part.
    pub imaginary: T,
}

impl<T> Gaussian<T> {
    /// Returns the number with these parts.
    pub fn new(real: T, imaginary: T) -> Gaussian<T>
        ensures real { result.real ≡ real }
        ensures imaginary { result.imaginary ≡ imaginary }
    {
        Gaussian { real, imaginary }
    }
}

impl<T: Ring> Gaussian<T> {
    /// Returns the conjugate, whose imaginary part has the other sign.
    pub fn conjugate(self) -> Gaussian<T>
        ensures real { result.real ≡ self.real }
        ensures imaginary { T.value result.imaginary ≡ T.ring.neg (T.value self.imaginary) }
    {
        Gaussian::new(self.real, self.imaginary.neg())
    }

    /// Returns the norm, `real * real + imaginary * imaginary`: the product of the number and its conjugate.
    ///
    /// # Examples
    ///
    /// ```rust
    /// fn a_norm_is_a_sum_of_squares() -> bool {
    ///     Gaussian::new(W64::new(3), W64::new(4)).norm() == W64::new(25)
    /// }
    /// ```
    pub fn norm(self) -> T
        ensures { T.value result
            ≡ gaussian_norm T.ring (T.value self.real, T.value self.imaginary) }
    {
        self.real
            .mul(self.real)
            .add(self.imaginary.mul(self.imaginary))
    }
}

impl<T: Zero> Zero for Gaussian<T> {
    ghost zero_value = { record { real = T.zero_value; imaginary = T.zero_value } };

    fn zero() -> Gaussian<T> {
        Gaussian::new(T::zero(), T::zero())
    }
}

impl<T: Ring> Ring for Gaussian<T> {
    ghost use Rattle.std.proofs.Common.{ap};
    ghost use Rattle.std.proofs.lemmas.Bool.{and_from, and_parts};
    ghost use Rattle.sparse_rings.specs.GaussianRing.{gaussian_ring};
    ghost use Rattle.sparse_rings.specs.InnerPairs.{same_pair};

    ghost ring = { gaussian_ring T.ring };

    ghost value = { λ x. (T.value x.real, T.value x.imaginary) };

    ghost zero_law = { same_pair _ _ T.zero_law T.zero_law };

    ghost eq_law = { λ x y. (
      λ e. same_pair _ _ ((T.eq_law x.real y.real).0 (and_parts _ _ e).0)
          ((T.eq_law x.imaginary y.imaginary).0 (and_parts _ _ e).1),
      λ p. and_from _ _ ((T.eq_law x.real y.real).1 (ap (λ q. q.0) p))
          ((T.eq_law x.imaginary y.imaginary).1 (ap (λ q. q.1) p)),
    ) };

    fn one() -> Gaussian<T> {
        Gaussian::new(T::one(), T::zero())
    }

    fn add(self, other: Gaussian<T>) -> Gaussian<T> {
        Gaussian::new(
            self.real.add(other.real),
            self.imaginary.add(other.imaginary),
        )
    }

    fn mul(self, other: Gaussian<T>) -> Gaussian<T> {
        let reals = self.real.mul(other.real);
        let imaginaries = self.imaginary.mul(other.imaginary);
        let left = self.real.mul(other.imaginary);
        let right = self.imaginary.mul(other.real);
        Gaussian::new(reals.add(imaginaries.neg()), left.add(right))
    }

    fn neg(self) -> Gaussian<T> {
        Gaussian::new(self.real.neg(), self.imaginary.neg())
    }
}

impl<T: Units + Closed> Units for Gaussian<T> {
    ghost use Rattle.sparse_rings.specs.GaussianRing.{gaussian_ring};
    ghost use Rattle.sparse_rings.specs.RingValues.{gaussian_value};

    /// Returns the inverse, or `None` if and only if the norm has none.
    ///
    /// The inverse is the conjugate times the inverse of the norm.
    fn recip(self) -> Option<Gaussian<T>>
        ensures inverse { IfSome result (λ y.
            (gaussian_ring T.ring).mul (gaussian_value T.value self) (gaussian_value T.value y)
            ≡ (gaussian_ring T.ring).one) }
        ensures exact { IsSome result ↔ HasInverse (gaussian_ring T.ring)
            (gaussian_value T.value) (gaussian_value T.value self) }
        ensures norm { IsSome result
            ↔ HasInverse T.ring T.value (gaussian_norm T.ring (gaussian_value T.value self)) }
    {
        let inverse = self.norm().recip()?;
        let conjugate = self.conjugate();
        Some(Gaussian::new(
            conjugate.real.mul(inverse),
            conjugate.imaginary.mul(inverse),
        ))
    }
}
