//! The zero of the signed integer types.

ghost use Rattle.std.specs.Prelude.{pos};

use crate::scalar::Zero;

impl Zero for i8 {
    ghost zero_value = { pos 0 };

    fn zero() -> i8 {
        0
    }
}

impl Zero for i16 {
    ghost zero_value = { pos 0 };

    fn zero() -> i16 {
        0
    }
}

impl Zero for i32 {
    ghost zero_value = { pos 0 };

    fn zero() -> i32 {
        0
    }
}

impl Zero for i64 {
    ghost zero_value = { pos 0 };

    fn zero() -> i64 {
        0
    }
}

impl Zero for i128 {
    ghost zero_value = { pos 0 };

    fn zero() -> i128 {
        0
    }
}
