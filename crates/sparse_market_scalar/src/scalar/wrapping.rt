//! Wrapping integers, whose texts are decimal numbers in signed form.

ghost use Rattle.std.specs.Int.{w32, w64, w128};
ghost use Rattle.sparse_algebra.specs.Numbers.{w32_number, w64_number};
ghost use Rattle.sparse_algebra.specs.WrappingValues.{w128_number};
ghost use Rattle.sparse_market_scalar.specs.ScalarTypes.{wrapping_scalar};

use crate::scalar::MatrixMarketScalar;
use crate::scalar::decimal::push_integer;
use itoa::Buffer;
use sparse_algebra::scalar::{W32, W64, W128};
use sparse_parser::error::{Cause, MatrixMarketError};
use std::alloc::AllocError;

impl MatrixMarketScalar for W32 {
    ghost scalar = { wrapping_scalar w32 };

    ghost value = { w32_number };

    fn from_i128(number: i128) -> Result<W32, MatrixMarketError> {
        Ok(W32::new(i32::try_from(number)?))
    }

    fn from_pattern(_pattern: ()) -> Result<W32, MatrixMarketError> {
        Err(MatrixMarketError::new(Cause::NothingAsInteger))
    }

    fn negative(self) -> Result<W32, MatrixMarketError> {
        Ok(W32::new(self.get().wrapping_neg()))
    }

    fn conjugate(self) -> Result<W32, MatrixMarketError> {
        Err(MatrixMarketError::new(Cause::IntegerConjugate))
    }

    fn typename() -> &'static str {
        "integer"
    }

    #[inline(always)]
    fn write_matrix_market(&self, out: &mut String) -> Result<(), AllocError> {
        push_integer(out, i64::from(self.get()))
    }

    fn in_range(self) {}
}

impl MatrixMarketScalar for W64 {
    ghost scalar = { wrapping_scalar w64 };

    ghost value = { w64_number };

    fn from_i128(number: i128) -> Result<W64, MatrixMarketError> {
        Ok(W64::new(i64::try_from(number)?))
    }

    fn from_pattern(_pattern: ()) -> Result<W64, MatrixMarketError> {
        Err(MatrixMarketError::new(Cause::NothingAsInteger))
    }

    fn negative(self) -> Result<W64, MatrixMarketError> {
        Ok(W64::new(self.get().wrapping_neg()))
    }

    fn conjugate(self) -> Result<W64, MatrixMarketError> {
        Err(MatrixMarketError::new(Cause::IntegerConjugate))
    }

    fn typename() -> &'static str {
        "integer"
    }

    #[inline(always)]
    fn write_matrix_market(&self, out: &mut String) -> Result<(), AllocError> {
        push_integer(out, self.get())
    }

    fn in_range(self) {}
}

impl MatrixMarketScalar for W128 {
    ghost scalar = { wrapping_scalar w128 };

    ghost value = { w128_number };

    fn from_i128(number: i128) -> Result<W128, MatrixMarketError> {
        Ok(W128::new(number))
    }

    fn from_pattern(_pattern: ()) -> Result<W128, MatrixMarketError> {
        Err(MatrixMarketError::new(Cause::NothingAsInteger))
    }

    fn negative(self) -> Result<W128, MatrixMarketError> {
        Ok(W128::new(self.get().wrapping_neg()))
    }

    fn conjugate(self) -> Result<W128, MatrixMarketError> {
        Err(MatrixMarketError::new(Cause::IntegerConjugate))
    }

    fn typename() -> &'static str {
        "integer"
    }

    fn write_matrix_market(&self, out: &mut String) -> Result<(), AllocError> {
        let mut digits = Buffer::new();
        out.push_str(digits.format(self.get()))
    }

    fn in_range(self) {}
}
