//! Scalars that are 64-bit integers in the arrays of C.

ghost use Rattle.std.specs.Prelude.{◌≡◌, ◌≤◌, ℤ};
ghost use Rattle.sparse_algebra.specs.Integers.{element_of};
ghost use Rattle.c_arrays.specs.Reduced.{IsReduced};

use sparse_algebra::scalar::{Mod, Ring, Units, W64};

/// A scalar that the arrays of C represent by a 64-bit integer.
pub trait Number: Units {
    // The integers that `number` may return.
    ghost is_shown: { ℤ → Type 0 };

    /// Returns the scalar that an integer represents: that many times one.
    fn from_number(number: i64) -> Self
        ensures { Self.value result ≡ element_of Self.ring number };

    /// Returns an integer that represents the scalar.
    fn number(self) -> i64
        ensures means { element_of Self.ring result ≡ Self.value self }
        ensures shown { is_shown result };
}

impl Number for W64 {
    ghost is_shown = { λ _. Unit };

    fn from_number(number: i64) -> W64 {
        W64::new(number)
    }

    fn number(self) -> i64 {
        self.get()
    }
}

// The integer of a residue is its representative from 0 to `M - 1`, less `M` if that representative needs 64 bits.
impl<const M: u64> Number for Mod<M> {
    ghost is_shown = { λ z. M ≤ 9223372036854775808 → IsReduced M z };

    fn from_number(number: i64) -> Mod<M> {
        let size = Mod::new(number.unsigned_abs());
        if number < 0 { size.neg() } else { size }
    }

    fn number(self) -> i64 {
        let number = self.get();
        if number <= i64::MAX as u64 {
            number as i64
        } else {
            -((M - number) as i64)
        }
    }
}
