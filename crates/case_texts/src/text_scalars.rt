//! The scalar types of Matrix Market texts, written as integers, or as `x` where a text holds a pattern.

use case_words::failure::Failure;
use case_words::scalar::Scalar;
use nalgebra_sparse::io::MatrixMarketScalar;
use nalgebra_sparse::scalar::{W32, W64, W128};
use std::alloc::{AllocError, Global};

/// A scalar type of texts.
pub trait TextScalar: MatrixMarketScalar + Drop {
    /// Returns the value of a number, if the type has one.
    fn of(number: i128) -> Option<Self>;

    /// Returns the number of the value, or `None` if it is that of a pattern's entry.
    fn shown(self) -> Option<i128>;
}

impl TextScalar for i8 {
    fn of(number: i128) -> Option<i8> {
        i8::try_from(number).ok()
    }

    fn shown(self) -> Option<i128> {
        Some(i128::from(self))
    }
}

impl TextScalar for i16 {
    fn of(number: i128) -> Option<i16> {
        i16::try_from(number).ok()
    }

    fn shown(self) -> Option<i128> {
        Some(i128::from(self))
    }
}

impl TextScalar for i32 {
    fn of(number: i128) -> Option<i32> {
        i32::try_from(number).ok()
    }

    fn shown(self) -> Option<i128> {
        Some(i128::from(self))
    }
}

impl TextScalar for i64 {
    fn of(number: i128) -> Option<i64> {
        i64::try_from(number).ok()
    }

    fn shown(self) -> Option<i128> {
        Some(i128::from(self))
    }
}

impl TextScalar for i128 {
    fn of(number: i128) -> Option<i128> {
        Some(number)
    }

    fn shown(self) -> Option<i128> {
        Some(self)
    }
}

impl TextScalar for W32 {
    fn of(number: i128) -> Option<W32> {
        Scalar::of(number)
    }

    fn shown(self) -> Option<i128> {
        Some(self.number())
    }
}

impl TextScalar for W64 {
    fn of(number: i128) -> Option<W64> {
        Scalar::of(number)
    }

    fn shown(self) -> Option<i128> {
        Some(self.number())
    }
}

impl TextScalar for W128 {
    fn of(number: i128) -> Option<W128> {
        Scalar::of(number)
    }

    fn shown(self) -> Option<i128> {
        Some(self.number())
    }
}

/// The value of a pattern's entry is written as `x`, which is read as one.
impl TextScalar for () {
    fn of(number: i128) -> Option<()> {
        if number == 1 { Some(()) } else { None }
    }

    fn shown(self) -> Option<i128> {
        None
    }
}

/// Returns the value of a number.
pub fn value_from<T: TextScalar>(number: i128) -> Result<T, Failure> {
    T::of(number).ok_or(Failure::Unreadable("the type has no such number"))
}

/// Returns the values of numbers.
pub fn values_from<T: TextScalar>(alloc: Global, numbers: &[W128]) -> Result<Vec<T>, Failure> {
    let mut values = Vec::with_capacity(alloc, numbers.len())?;
    for number in numbers {
        values.push(value_from(number.get())?)?;
    }
    Ok(values)
}

/// Appends a value: its number, or `x`.
pub fn draw_value<T: TextScalar>(value: T, out: &mut String) -> Result<(), AllocError> {
    match value.shown() {
        Some(number) => write!(out, "{number}"),
        None => out.push_str("x"),
    }
}
