//! Plain integers. The least value of each type has no negative.

ghost use Rattle.std.specs.Int.{w8, w16, w32, w64, w128};
ghost use Rattle.sparse_market_scalar.specs.ScalarTypes.{signed_scalar};

use crate::scalar::MatrixMarketScalar;
use crate::scalar::decimal::push_integer;
use itoa::Buffer;
use sparse_parser::error::{Cause, MatrixMarketError};
use std::alloc::AllocError;

impl MatrixMarketScalar for i8 {
    ghost scalar = { signed_scalar w8 };

    ghost value = { λ x. x };

    fn from_i128(number: i128) -> Result<i8, MatrixMarketError> {
        Ok(i8::try_from(number)?)
    }

    fn from_pattern(_pattern: ()) -> Result<i8, MatrixMarketError> {
        Err(MatrixMarketError::new(Cause::NothingAsInteger))
    }

    fn negative(self) -> Result<i8, MatrixMarketError> {
        Ok(self.checked_neg().ok_or(Cause::ValueOutOfRange)?)
    }

    fn conjugate(self) -> Result<i8, MatrixMarketError> {
        Err(MatrixMarketError::new(Cause::IntegerConjugate))
    }

    fn typename() -> &'static str {
        "integer"
    }

    #[inline(always)]
    fn write_matrix_market(&self, out: &mut String) -> Result<(), AllocError> {
        push_integer(out, i64::from(*self))
    }

    fn in_range(self) {}
}

impl MatrixMarketScalar for i16 {
    ghost scalar = { signed_scalar w16 };

    ghost value = { λ x. x };

    fn from_i128(number: i128) -> Result<i16, MatrixMarketError> {
        Ok(i16::try_from(number)?)
    }

    fn from_pattern(_pattern: ()) -> Result<i16, MatrixMarketError> {
        Err(MatrixMarketError::new(Cause::NothingAsInteger))
    }

    fn negative(self) -> Result<i16, MatrixMarketError> {
        Ok(self.checked_neg().ok_or(Cause::ValueOutOfRange)?)
    }

    fn conjugate(self) -> Result<i16, MatrixMarketError> {
        Err(MatrixMarketError::new(Cause::IntegerConjugate))
    }

    fn typename() -> &'static str {
        "integer"
    }

    #[inline(always)]
    fn write_matrix_market(&self, out: &mut String) -> Result<(), AllocError> {
        push_integer(out, i64::from(*self))
    }

    fn in_range(self) {}
}

impl MatrixMarketScalar for i32 {
    ghost scalar = { signed_scalar w32 };

    ghost value = { λ x. x };

    fn from_i128(number: i128) -> Result<i32, MatrixMarketError> {
        Ok(i32::try_from(number)?)
    }

    fn from_pattern(_pattern: ()) -> Result<i32, MatrixMarketError> {
        Err(MatrixMarketError::new(Cause::NothingAsInteger))
    }

    fn negative(self) -> Result<i32, MatrixMarketError> {
        Ok(self.checked_neg().ok_or(Cause::ValueOutOfRange)?)
    }

    fn conjugate(self) -> Result<i32, MatrixMarketError> {
        Err(MatrixMarketError::new(Cause::IntegerConjugate))
    }

    fn typename() -> &'static str {
        "integer"
    }

    #[inline(always)]
    fn write_matrix_market(&self, out: &mut String) -> Result<(), AllocError> {
        push_integer(out, i64::from(*self))
    }

    fn in_range(self) {}
}

impl MatrixMarketScalar for i64 {
    ghost scalar = { signed_scalar w64 };

    ghost value = { λ x. x };

    fn from_i128(number: i128) -> Result<i64, MatrixMarketError> {
        Ok(i64::try_from(number)?)
    }

    fn from_pattern(_pattern: ()) -> Result<i64, MatrixMarketError> {
        Err(MatrixMarketError::new(Cause::NothingAsInteger))
    }

    fn negative(self) -> Result<i64, MatrixMarketError> {
        Ok(self.checked_neg().ok_or(Cause::ValueOutOfRange)?)
    }

    fn conjugate(self) -> Result<i64, MatrixMarketError> {
        Err(MatrixMarketError::new(Cause::IntegerConjugate))
    }

    fn typename() -> &'static str {
        "integer"
    }

    #[inline(always)]
    fn write_matrix_market(&self, out: &mut String) -> Result<(), AllocError> {
        push_integer(out, *self)
    }

    fn in_range(self) {}
}

impl MatrixMarketScalar for i128 {
    ghost scalar = { signed_scalar w128 };

    ghost value = { λ x. x };

    fn from_i128(number: i128) -> Result<i128, MatrixMarketError> {
        Ok(number)
    }

    fn from_pattern(_pattern: ()) -> Result<i128, MatrixMarketError> {
        Err(MatrixMarketError::new(Cause::NothingAsInteger))
    }

    fn negative(self) -> Result<i128, MatrixMarketError> {
        Ok(self.checked_neg().ok_or(Cause::ValueOutOfRange)?)
    }

    fn conjugate(self) -> Result<i128, MatrixMarketError> {
        Err(MatrixMarketError::new(Cause::IntegerConjugate))
    }

    fn typename() -> &'static str {
        "integer"
    }

    fn write_matrix_market(&self, out: &mut String) -> Result<(), AllocError> {
        let mut digits = Buffer::new();
        out.push_str(digits.format(*self))
    }

    fn in_range(self) {}
}
