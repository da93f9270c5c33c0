//! Rings of residues, the integers modulo a number.

ghost use Rattle.std.specs.Prelude.{◌≡◌, ◌<◌, ◌≤◌, ◌^◌, ℤ};
ghost use Rattle.sparse_algebra.specs.Moduli.{modulus};
ghost use Rattle.sparse_algebra.specs.Integers.{element_of};
ghost use Rattle.mtxkit_eval.specs.Rings.{remainder, reduced64, reduced128, reduced_modulo};

use sparse_algebra::scalar::{Mod, Units, W64, W128};

/// A ring of residues.
pub trait Residues: Units {
    // The integer that is written for all integers with the same residue.
    ghost reduced: { ℤ → ℤ };

    /// Returns the residue of an integer: the integer times one.
    fn of_integer(number: i128) -> Self
        ensures { Self.value result ≡ element_of Self.ring number };

    /// Returns the reduced integer of the residue.
    fn integer(self) -> i128
        ensures meant { element_of Self.ring result ≡ Self.value self }
        ensures reduced { reduced result ≡ result };
}

impl Residues for W64 {
    ghost reduced = { reduced64 };

    fn of_integer(number: i128) -> W64 {
        W64::new(remainder(number, 1 << 64).cast_signed())
    }

    /// The integer has 64 bits.
    fn integer(self) -> i128 {
        i128::from(self.get())
    }
}

impl Residues for W128 {
    ghost reduced = { reduced128 };

    fn of_integer(number: i128) -> W128 {
        W128::new(number)
    }

    /// The integer has 128 bits.
    fn integer(self) -> i128 {
        self.get()
    }
}

impl<const M: u64> Residues for Mod<M> {
    ghost reduced = { reduced_modulo M };

    fn of_integer(number: i128) -> Mod<M> {
        Mod::new(remainder(number, modulus::<M>()))
    }

    /// The integer is the least one that is not negative.
    fn integer(self) -> i128 {
        self.get() as i128
    }
}

// Returns M, or 1 if M is 0.
fn modulus<const M: u64>() -> u128
    ensures value { result ≡ modulus M }
    ensures some { 0 < result }
    ensures small { result ≤ 2 ^ 64 }
{
    if M == 0 { 1 } else { M as u128 }
}

// Returns the remainder of an integer, from 0 to `modulus` - 1.
fn remainder(number: i128, modulus: u128) -> u64
    requires some { 0 < modulus }
    requires small { modulus ≤ 2 ^ 64 }
    ensures value { result ≡ remainder modulus number }
    ensures below { result < modulus }
{
    number.rem_euclid(modulus as i128) as u64
}
