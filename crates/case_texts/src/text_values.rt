//! The values of the scalar types of texts, and the errors that become errors of texts.

use crate::text_scalars::{TextScalar, draw_value, value_from};
use case_words::failure::Failure;
use case_words::scalar::scalar_of;
use case_words::turn::Turn;
use nalgebra_sparse::SparseFormatError;
use nalgebra_sparse::SparseFormatErrorKind::DuplicateEntry;
use nalgebra_sparse::expr::ExprError;
use nalgebra_sparse::io::MatrixMarketError;
use nalgebra_sparse::io::MatrixMarketErrorKind::IOError;
use nalgebra_sparse::scalar::W128;
use std::alloc::{AllocError, Global};
use std::io;
use std::io::ErrorKind::{BrokenPipe, NotFound, WriteZero};

/// Returns the answer of `from-integer N`, `from-pattern`, `negative-of V`, `conjugate-of V` or `text-of V`, where V is
/// an integer, or `x` for the value of a pattern's entry.
pub fn valued<T: TextScalar>(turn: &mut Turn, name: &str, word: &str) -> Result<String, Failure> {
    match name {
        "from-pattern" => value_text::<T>(turn.alloc(), T::from_pattern(())),
        "from-integer" => value_text::<T>(turn.alloc(), T::from_i128(number_of(word)?)),
        "negative-of" => value_text::<T>(turn.alloc(), value_of::<T>(word)?.negative()),
        "conjugate-of" => value_text::<T>(turn.alloc(), value_of::<T>(word)?.conjugate()),
        _ => text_of_value::<T>(turn, value_of(word)?),
    }
}

// The number that a word writes.
fn number_of(word: &str) -> Result<i128, Failure> {
    let number: W128 = scalar_of(word.trim())?;
    Ok(number.get())
}

// The value that a word writes.
fn value_of<T: TextScalar>(word: &str) -> Result<T, Failure> {
    value_from(number_of(word)?)
}

fn value_text<T: TextScalar>(
    alloc: Global,
    value: Result<T, MatrixMarketError>,
) -> Result<String, Failure> {
    let mut out = String::new(alloc);
    draw_value(value?, &mut out)?;
    Ok(out)
}

// The text that a value is written as.
fn text_of_value<T: TextScalar>(turn: &mut Turn, value: T) -> Result<String, Failure> {
    let mut out = String::new(turn.alloc());
    turn.begin();
    turn.end(value.write_matrix_market(&mut out))?;
    Ok(out)
}

/// Returns the failure by which an error of this name is reported.
pub fn failure_of(name: &str) -> Failure {
    match error_from(name) {
        Some(error) => Failure::Reading(error),
        None => failure_of_a_run(name),
    }
}

// The error of a text that another error becomes.
fn error_from(name: &str) -> Option<MatrixMarketError> {
    match name {
        "AllocError" => Some(MatrixMarketError::from(AllocError)),
        "io::Error" => Some(MatrixMarketError::from(io::Error::from(NotFound))),
        "io::ErrorKind" => Some(MatrixMarketError::from(WriteZero)),
        "ParseIntError" => parsing_error(),
        "TryFromIntError" => range_error(),
        "SparseFormatError" => {
            let twice = SparseFormatError::new(DuplicateEntry, "Twice.");
            Some(MatrixMarketError::from(twice))
        }
        _ => None,
    }
}

// An error of a run that no text and no expression leads to.
fn failure_of_a_run(name: &str) -> Failure {
    match name {
        "Input" => Failure::Expression(ExprError::Input(usize::MAX, IOError(NotFound))),
        "Write" => Failure::Expression(ExprError::Write(BrokenPipe)),
        "OutOfMemory" => Failure::Expression(ExprError::OutOfMemory),
        _ => Failure::Unreadable("no error has this name"),
    }
}

// The error of a word that is not a number.
fn parsing_error() -> Option<MatrixMarketError> {
    match "x".parse::<i32>() {
        Ok(_) => None,
        Err(error) => Some(MatrixMarketError::from(error)),
    }
}

// The error of a number that a type does not have.
fn range_error() -> Option<MatrixMarketError> {
    match i8::try_from(300i32) {
        Ok(_) => None,
        Err(error) => Some(MatrixMarketError::from(error)),
    }
}
