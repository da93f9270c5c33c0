//! The integers modulo 2^32 and modulo 2^64.

ghost use Rattle.std.specs.Prelude.{◌≡◌, pos};
ghost use Rattle.std.specs.Int.{w32, w64};
ghost use Rattle.std.specs.Int.RustNames.{FitsSigned};
ghost use Rattle.sparse_algebra.specs.Wrapping.{wrapping_ring, class_of, class_decides, fits_zero};
ghost use Rattle.sparse_algebra.specs.Wrapping.{class_of_zero};

use crate::scalar::{Ring, Zero};

/// An integer modulo 2^32, represented by an `i32`. Sums, products and negation wrap.
///
/// # Examples
///
/// ```rust
/// fn sums_wrap() -> bool {
///     let largest = W32::new(i32::MAX);
///     largest.add(W32::one()).get() == i32::MIN
/// }
/// ```
#[derive(Clone, Copy, Debug, PartialEq, Eq)]
pub struct W32 {
    number: i32,
    ghost in_range: { FitsSigned w32 number },
}

impl W32 {
    ghost use Rattle.sparse_algebra.specs.Numbers.{w32_number};

    /// Returns the residue class of `number`.
    pub fn new(number: i32) -> W32
        ensures { w32_number result ≡ number }
    {
        W32 { number }
    }

    /// Returns the representative of the class as an `i32`.
    pub fn get(self) -> i32
        ensures { result ≡ w32_number self }
    {
        self.number
    }
}

impl Zero for W32 {
    ghost zero_value = { record { number = pos 0; in_range = fits_zero w32 } };

    fn zero() -> W32 {
        W32 { number: 0 }
    }
}

impl Ring for W32 {
    ghost ring = { wrapping_ring w32 };

    ghost value = { λ x. class_of w32 x.number };

    ghost zero_law = { class_of_zero w32 };

    ghost eq_law = { λ x y. class_decides w32 x.number y.number x.in_range y.in_range };

    fn one() -> W32 {
        W32 { number: 1 }
    }

    fn add(self, other: W32) -> W32 {
        W32 {
            number: self.number.wrapping_add(other.number),
        }
    }

    fn mul(self, other: W32) -> W32 {
        W32 {
            number: self.number.wrapping_mul(other.number),
        }
    }

    fn neg(self) -> W32 {
        W32 {
            number: self.number.wrapping_neg(),
        }
    }
}

/// An integer modulo 2^64, represented by an `i64`. Sums, products and negation wrap.
///
/// # Examples
///
/// ```rust
/// fn products_wrap() -> bool {
///     let half = W64::new(1 << 62);
///     half.mul(W64::new(4)).get() == 0
/// }
/// ```
#[derive(Clone, Copy, Debug, PartialEq, Eq)]
pub struct W64 {
    number: i64,
    ghost in_range: { FitsSigned w64 number },
}

impl W64 {
    ghost use Rattle.sparse_algebra.specs.Numbers.{w64_number};

    /// Returns the residue class of `number`.
    pub fn new(number: i64) -> W64
        ensures { w64_number result ≡ number }
    {
        W64 { number }
    }

    /// Returns the representative of the class as an `i64`.
    pub fn get(self) -> i64
        ensures { result ≡ w64_number self }
    {
        self.number
    }
}

impl Zero for W64 {
    ghost zero_value = { record { number = pos 0; in_range = fits_zero w64 } };

    fn zero() -> W64 {
        W64 { number: 0 }
    }
}

impl Ring for W64 {
    ghost ring = { wrapping_ring w64 };

    ghost value = { λ x. class_of w64 x.number };

    ghost zero_law = { class_of_zero w64 };

    ghost eq_law = { λ x y. class_decides w64 x.number y.number x.in_range y.in_range };

    fn one() -> W64 {
        W64 { number: 1 }
    }

    fn add(self, other: W64) -> W64 {
        W64 {
            number: self.number.wrapping_add(other.number),
        }
    }

    fn mul(self, other: W64) -> W64 {
        W64 {
            number: self.number.wrapping_mul(other.number),
        }
    }

    fn neg(self) -> W64 {
        W64 {
            number: self.number.wrapping_neg(),
        }
    }
}
