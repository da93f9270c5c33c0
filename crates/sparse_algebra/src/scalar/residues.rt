//! The integers modulo a constant.

ghost use Rattle.std.specs.Prelude.{◌≡◌, ◌<◌, ◌%◌, refl};
ghost use Rattle.sparse_algebra.specs.Moduli.{modulus, modulus_pos, mod_ring};
ghost use Rattle.sparse_algebra.specs.Moduli.{mod_class, mod_decides};

use crate::scalar::inverses::Units;
use crate::scalar::{Ring, Zero};

/// An integer modulo `M`. A modulus of 0 is read as 1.
///
/// # Examples
///
/// ```rust
/// fn residues_are_reduced() -> bool {
///     let ten = Mod::<7>::new(10);
///     ten.get() == 3 && ten.mul(Mod::new(5)) == Mod::one()
/// }
/// ```
#[derive(Clone, Copy, Debug, PartialEq, Eq)]
pub struct Mod<const M: u64> {
    number: u64,
    ghost below: { number < modulus M },
}

impl<const M: u64> Mod<M> {
    ghost use Rattle.sparse_algebra.specs.ModNumbers.{mod_number};

    fn modulus() -> u64
        ensures { result ≡ modulus M }
    {
        if M == 0 { 1 } else { M }
    }

    /// Returns the residue of `number`.
    pub fn new(number: u64) -> Mod<M>
        ensures { mod_number result ≡ number % modulus M }
    {
        Mod {
            number: number % Self::modulus(),
        }
    }

    /// Returns the representative of the residue that is below the modulus.
    pub fn get(self) -> u64
        ensures number { result ≡ mod_number self.entry }
        ensures below { result < modulus M }
    {
        self.number
    }
}

impl<const M: u64> Zero for Mod<M> {
    ghost zero_value = { record { number = 0; below = modulus_pos M } };

    fn zero() -> Mod<M> {
        Mod { number: 0 }
    }
}

impl<const M: u64> Ring for Mod<M> {
    ghost ring = { mod_ring M };

    ghost value = { λ x. mod_class M x.number };

    ghost zero_law = { refl };

    ghost eq_law = { λ x y. mod_decides M x.number y.number x.below y.below };

    fn one() -> Mod<M> {
        Mod::new(1)
    }

    fn add(self, other: Mod<M>) -> Mod<M> {
        let room = Self::modulus() - self.number;
        let number = if other.number < room {
            self.number + other.number
        } else {
            other.number - room
        };
        Mod { number }
    }

    fn mul(self, other: Mod<M>) -> Mod<M> {
        let product = (self.number as u128 * other.number as u128) % Self::modulus() as u128;
        Mod {
            number: product as u64,
        }
    }

    fn neg(self) -> Mod<M> {
        let number = if self.number == 0 {
            0
        } else {
            Self::modulus() - self.number
        };
        Mod { number }
    }
}

impl<const M: u64> Units for Mod<M> {
    ghost use Rattle.std.specs.Prelude.{◌↔◌, IfSome, IsSome};
    ghost use Rattle.std.specs.Int.{IsGcd};
    ghost use Rattle.sparse_algebra.specs.Inverses.{HasInverse};
    ghost use Rattle.sparse_algebra.specs.ModNumbers.{mod_number, mod_value};

    /// Returns the inverse, or `None` if and only if the number and the modulus have a common divisor other than one.
    ///
    /// The extended Euclidean algorithm, in at most about 1.5 divisions for each bit of the modulus.
    fn recip(self) -> Option<Mod<M>>
        ensures inverse { IfSome result (λ y.
            (mod_ring M).mul (mod_value self.entry) (mod_value y) ≡ (mod_ring M).one) }
        ensures exact { IsSome result ↔ HasInverse (mod_ring M) mod_value (mod_value self.entry) }
        ensures coprime { IsSome result ↔ IsGcd (modulus M) (mod_number self.entry) 1 }
    {
        let mut high = Self::modulus();
        let mut low = self.number;
        let mut high_coefficient: Mod<M> = Mod::zero();
        let mut low_coefficient: Mod<M> = Mod::one();
        while low != 0 {
            let quotient: Mod<M> = Mod::new(high / low);
            let rest = high % low;
            let rest_coefficient = high_coefficient.add(quotient.mul(low_coefficient).neg());
            high = low;
            low = rest;
            high_coefficient = low_coefficient;
            low_coefficient = rest_coefficient;
        }
        if high == 1 {
            Some(high_coefficient)
        } else {
            None
        }
    }
}
