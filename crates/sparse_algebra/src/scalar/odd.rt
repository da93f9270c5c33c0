//! Inverses of the wrapping integers: exactly the odd ones have one.

ghost use Rattle.std.specs.Prelude.{◌≡◌, ◌↔◌, IfSome, IsSome};
ghost use Rattle.std.specs.Int.{w32, w64, w128};
ghost use Rattle.sparse_algebra.specs.Numbers.{w32_number, w64_number};
ghost use Rattle.sparse_algebra.specs.Wrapping.{wrapping_ring};
ghost use Rattle.sparse_algebra.specs.Inverses.{HasInverse};
ghost use Rattle.sparse_algebra.specs.WrappingValues.{w128_number, w32_value};
ghost use Rattle.sparse_algebra.specs.WrappingValues.{w64_value, w128_value};
ghost use Rattle.sparse_algebra.specs.WrappingValues.{IsOdd};

use crate::scalar::inverses::Units;
use crate::scalar::newton::newton_inverse;
use crate::scalar::wide::W128;
use crate::scalar::{W32, W64};

impl Units for W32 {
    /// Returns the inverse, or `None` if and only if the number is even.
    ///
    /// Newton's iteration from one, which is correct in the last bit. Each step doubles the number of correct bits.
    fn recip(self) -> Option<W32>
        ensures inverse { IfSome result (λ y.
            (wrapping_ring w32).mul (w32_value self) (w32_value y) ≡ (wrapping_ring w32).one) }
        ensures exact { IsSome result ↔ HasInverse (wrapping_ring w32) w32_value (w32_value self) }
        ensures odd { IsSome result ↔ IsOdd w32 (w32_number self) }
    {
        if self.get().cast_unsigned() % 2 == 0 {
            return None;
        }
        Some(newton_inverse(self, 5))
    }
}

impl Units for W64 {
    /// Returns the inverse, or `None` if and only if the number is even.
    ///
    /// Newton's iteration from one, which is correct in the last bit. Each step doubles the number of correct bits.
    fn recip(self) -> Option<W64>
        ensures inverse { IfSome result (λ y.
            (wrapping_ring w64).mul (w64_value self) (w64_value y) ≡ (wrapping_ring w64).one) }
        ensures exact { IsSome result ↔ HasInverse (wrapping_ring w64) w64_value (w64_value self) }
        ensures odd { IsSome result ↔ IsOdd w64 (w64_number self) }
    {
        if self.get().cast_unsigned() % 2 == 0 {
            return None;
        }
        Some(newton_inverse(self, 6))
    }
}

impl Units for W128 {
    /// Returns the inverse, or `None` if and only if the number is even.
    ///
    /// Newton's iteration from one, which is correct in the last bit. Each step doubles the number of correct bits.
    fn recip(self) -> Option<W128>
        ensures inverse { IfSome result (λ y.
            (wrapping_ring w128).mul (w128_value self) (w128_value y) ≡ (wrapping_ring w128).one) }
        ensures exact { IsSome result ↔
            HasInverse (wrapping_ring w128) w128_value (w128_value self) }
        ensures odd { IsSome result ↔ IsOdd w128 (w128_number self) }
    {
        if self.get().cast_unsigned() % 2 == 0 {
            return None;
        }
        Some(newton_inverse(self, 7))
    }
}
