//! A field as a user of the library may write one: its elements have inverses, and are read from texts.

ghost use Rattle.tests_acceptance.specs.Bit.{bit_ring};
ghost use Rattle.tests_acceptance.specs.BitTexts.{bit_scalar};

use nalgebra_sparse::io::{Cause, MatrixMarketError, MatrixMarketScalar};
use nalgebra_sparse::scalar::{Ring, Units, Zero};
use std::alloc::AllocError;

/// An element of the field of two elements.
#[derive(Clone, Copy, Debug, PartialEq, Eq)]
pub struct Bit {
    set: bool,
}

impl Zero for Bit {
    ghost use Rattle.std.specs.Prelude.{false};

    ghost zero_value = { record { set = false } };

    fn zero() -> Bit {
        Bit { set: false }
    }
}

impl Ring for Bit {
    ghost use Rattle.std.specs.Prelude.{refl};
    ghost use Rattle.std.specs.Cmp.{booleans_Decides};

    ghost ring = { bit_ring };

    ghost value = { λ x. x.set };

    ghost zero_law = { refl };

    ghost eq_law = { λ x y. booleans_Decides x.set y.set };

    fn one() -> Bit {
        Bit { set: true }
    }

    fn add(self, other: Bit) -> Bit {
        let set = if self.set { !other.set } else { other.set };
        Bit { set }
    }

    fn mul(self, other: Bit) -> Bit {
        let set = if self.set { other.set } else { false };
        Bit { set }
    }

    fn neg(self) -> Bit {
        self
    }
}

impl Units for Bit {
    fn recip(self) -> Option<Bit> {
        if self.set { Some(self) } else { None }
    }
}

impl MatrixMarketScalar for Bit {
    ghost scalar = { bit_scalar };

    ghost value = { λ x. x.set };

    fn from_i128(number: i128) -> Result<Bit, MatrixMarketError> {
        if number == 0 {
            Ok(Bit { set: false })
        } else if number == 1 {
            Ok(Bit { set: true })
        } else {
            Err(MatrixMarketError::new(Cause::ValueOutOfRange))
        }
    }

    fn from_pattern(_pattern: ()) -> Result<Bit, MatrixMarketError> {
        Err(MatrixMarketError::new(Cause::NothingAsInteger))
    }

    fn negative(self) -> Result<Bit, MatrixMarketError> {
        Ok(self)
    }

    fn conjugate(self) -> Result<Bit, MatrixMarketError> {
        Err(MatrixMarketError::new(Cause::IntegerConjugate))
    }

    fn typename() -> &'static str {
        "integer"
    }

    fn write_matrix_market(&self, out: &mut String) -> Result<(), AllocError> {
        out.push(if self.set { '1' } else { '0' })
    }

    fn in_range(self) {}
}

#[test]
fn zero_is_neutral(rt: HostRuntime) {
    let one = Bit { set: true };
    assert!(rt; one.add(Bit { set: false }) == one);
}
