//! Scalar types of Matrix Market texts.

ghost use Rattle.std.specs.Prelude.{◌≡◌, ◌++◌, OnOk, string_bytes};
ghost use Rattle.sparse_parser.specs.Reads.{read_as};
ghost use Rattle.sparse_market_scalar.specs.ScalarTypes.{pattern_scalar};

use sparse_parser::error::{Cause, MatrixMarketError};
use std::alloc::AllocError;

mod decimal;
mod plain;
mod wrapping;

/// A scalar type that can be read from and written to Matrix Market texts.
///
/// An implementation proves that its only error is `TypeMismatch`, and that the text of each of its values is read back
/// as that value. A type named `integer` writes an optional sign and digits, which [`from_i128`](Self::from_i128)
/// accepts. A type named `pattern` writes nothing, and [`from_pattern`](Self::from_pattern) returns its value.
pub trait MatrixMarketScalar: Copy {
    ghost use Rattle.sparse_parser.specs.Scalars.{Scalar};

    // The numbers that the type accepts, and the texts of its values.
    ghost scalar: { Scalar };

    // What contracts see of a value.
    ghost value: { Self → scalar.Value };

    /// Returns the value of an integer entry, or `TypeMismatch` if the type does not have it.
    fn from_i128(number: i128) -> Result<Self, MatrixMarketError>
        ensures { read_as value result ≡ scalar.from_number number };

    /// Returns the value of a pattern entry, or `TypeMismatch` if the type has none.
    fn from_pattern(pattern: ()) -> Result<Self, MatrixMarketError>
        ensures { read_as value result ≡ scalar.from_pattern };

    /// Returns the negative of the value, or `TypeMismatch` if the type does not have it.
    fn negative(self) -> Result<Self, MatrixMarketError>
        ensures { read_as value result ≡ scalar.negated (value self) };

    /// Returns the conjugate of the value, or `TypeMismatch` if the type has none.
    fn conjugate(self) -> Result<Self, MatrixMarketError>
        ensures { read_as value result ≡ scalar.conjugated (value self) };

    /// Returns the name of the type in a header: `integer` or `pattern`.
    fn typename() -> &'static str
        ensures { result.now ≡ scalar.name };

    /// Appends the text of the value. Fails only if an allocation fails; a prefix may have been appended then.
    fn write_matrix_market(&self, out: &mut String) -> Result<(), AllocError>
        ensures { OnOk result
            (string_bytes out.new ≡ string_bytes out.old ++ scalar.text (value self.now)) };

    /// Does nothing. Its contract states that `self` is one of the type's values.
    fn in_range(self)
        ensures { scalar.IsValue (value self) };
}

impl MatrixMarketScalar for () {
    ghost scalar = { pattern_scalar };

    ghost value = { λ x. x };

    fn from_i128(_number: i128) -> Result<(), MatrixMarketError> {
        Err(MatrixMarketError::new(Cause::IntegerAsNothing))
    }

    fn from_pattern(_pattern: ()) -> Result<(), MatrixMarketError> {
        Ok(())
    }

    fn negative(self) -> Result<(), MatrixMarketError> {
        Err(MatrixMarketError::new(Cause::PatternNegative))
    }

    fn conjugate(self) -> Result<(), MatrixMarketError> {
        Err(MatrixMarketError::new(Cause::PatternConjugate))
    }

    fn typename() -> &'static str {
        "pattern"
    }

    fn write_matrix_market(&self, _out: &mut String) -> Result<(), AllocError> {
        Ok(())
    }

    fn in_range(self) {}
}
