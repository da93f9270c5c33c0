//! The integers modulo 2^128, represented by signed integers.

ghost use Rattle.std.specs.Prelude.{◌≡◌, pos};
ghost use Rattle.std.specs.Int.{w128};
ghost use Rattle.std.specs.Int.RustNames.{FitsSigned};
ghost use Rattle.sparse_algebra.specs.Wrapping.{wrapping_ring, class_of, class_decides, fits_zero};
ghost use Rattle.sparse_algebra.specs.Wrapping.{class_of_zero};

use crate::scalar::{Ring, Zero};

/// An integer modulo 2^128, represented by an `i128`. Sums, products and negation wrap.
///
/// # Examples
///
/// ```rust
/// fn wide_sums_wrap() -> bool {
///     let largest = W128::new(i128::MAX);
///     largest.add(W128::one()).get() == i128::MIN
/// }
/// ```
#[derive(Clone, Copy, Debug, PartialEq, Eq)]
pub struct W128 {
    number: i128,
    ghost in_range: { FitsSigned w128 number },
}

impl W128 {
    ghost use Rattle.sparse_algebra.specs.WrappingValues.{w128_number};

    /// Returns the residue class of `number`.
    pub fn new(number: i128) -> W128
        ensures { w128_number result ≡ number }
    {
        W128 { number }
    }

    /// Returns the representative of the class as an `i128`.
    pub fn get(self) -> i128
        ensures { result ≡ w128_number self }
    {
        self.number
    }
}

impl Zero for W128 {
    ghost zero_value = { record { number = pos 0; in_range = fits_zero w128 } };

    fn zero() -> W128 {
        W128 { number: 0 }
    }
}

impl Ring for W128 {
    ghost ring = { wrapping_ring w128 };

    ghost value = { λ x. class_of w128 x.number };

    ghost zero_law = { class_of_zero w128 };

    ghost eq_law = { λ x y. class_decides w128 x.number y.number x.in_range y.in_range };

    fn one() -> W128 {
        W128 { number: 1 }
    }

    fn add(self, other: W128) -> W128 {
        W128 {
            number: self.number.wrapping_add(other.number),
        }
    }

    fn mul(self, other: W128) -> W128 {
        W128 {
            number: self.number.wrapping_mul(other.number),
        }
    }

    fn neg(self) -> W128 {
        W128 {
            number: self.number.wrapping_neg(),
        }
    }
}
