//! The number that two residues determine.

ghost use Rattle.std.specs.Prelude.{◌≡◌, ◌↔◌, ℕ, ◌*◌, ◌%◌, ◌<◌, IfSome, IsSome};
ghost use Rattle.sparse_algebra.specs.ModNumbers.{mod_number};
ghost use Rattle.sparse_algebra.specs.Moduli.{modulus};
ghost use Rattle.sparse_rings.specs.ChineseRemainders.{AreCoprime};

use crate::pair::Pair;
use sparse_algebra::scalar::{Mod, Ring, Units};

impl<const M: u64, const N: u64> Pair<Mod<M>, Mod<N>> {
    fn first_modulus() -> u64
        ensures { result ≡ modulus M }
    {
        if M == 0 { 1 } else { M }
    }

    /// Returns the number below `M * N` that has these residues, or `None` if and only if the moduli have a common
    /// divisor other than one.
    ///
    /// A modulus of 0 is read as 1, as in [`Mod`](sparse_algebra::scalar::Mod). If the result of a computation is an
    /// integer below `M * N`, this function returns it from the results in both rings, even if it does not fit 64 bits.
    ///
    /// One inverse and one product modulo `N`.
    ///
    /// # Examples
    ///
    /// ```rust
    /// fn two_residues_determine_a_number() -> bool {
    ///     let pair: Pair<Mod<7>, Mod<9>> = Pair::new(Mod::new(3), Mod::new(4));
    ///     pair.combine() == Some(31)
    /// }
    /// ```
    pub fn combine(self) -> Option<u128>
        ensures exact { IsSome result ↔ AreCoprime M N }
        ensures below { IfSome result (λ x. x < modulus M * modulus N) }
        ensures first { IfSome result (λ x. x % modulus M ≡ mod_number self.entry.first) }
        ensures second { IfSome result (λ x. x % modulus N ≡ mod_number self.entry.second) }
        ensures unique { IfSome result (λ x. (y : ℕ) → y < modulus M * modulus N
            → y % modulus M ≡ mod_number self.entry.first → y % modulus N ≡ mod_number self.entry.second
            → y ≡ x) }
    {
        let modulus = Self::first_modulus();
        let inverse = Mod::<N>::new(modulus).recip()?;
        let number = self.first.get();
        let difference = self.second.add(Mod::new(number).neg());
        let quotient = difference.mul(inverse).get();
        Some(number as u128 + modulus as u128 * quotient as u128)
    }
}
