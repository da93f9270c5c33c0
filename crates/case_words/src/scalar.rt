//! Scalars that rows write as integers.

use crate::failure::Failure;
use crate::words::Word;
use nalgebra_sparse::scalar::{Mod, Units, W32, W64, W128};
use std::alloc::Global;
use std::fmt::Debug;

/// A scalar that rows write as an integer.
pub trait Scalar: Units + Debug + Drop {
    /// Returns the scalar of a number, if the type has one.
    fn of(number: i128) -> Option<Self>;

    /// Returns the number of the scalar.
    fn number(self) -> i128;
}

impl Scalar for W32 {
    fn of(number: i128) -> Option<W32> {
        Some(W32::new(i32::try_from(number).ok()?))
    }

    fn number(self) -> i128 {
        i128::from(self.get())
    }
}

impl Scalar for W64 {
    fn of(number: i128) -> Option<W64> {
        Some(W64::new(i64::try_from(number).ok()?))
    }

    fn number(self) -> i128 {
        i128::from(self.get())
    }
}

impl Scalar for W128 {
    fn of(number: i128) -> Option<W128> {
        Some(W128::new(number))
    }

    fn number(self) -> i128 {
        self.get()
    }
}

impl<const M: u64> Scalar for Mod<M> {
    fn of(number: i128) -> Option<Mod<M>> {
        Some(Mod::new(u64::try_from(number).ok()?))
    }

    fn number(self) -> i128 {
        i128::from(self.get())
    }
}

/// Returns the scalar of a number.
pub fn scalar_from<T: Scalar>(number: i128) -> Result<T, Failure> {
    T::of(number).ok_or(Failure::Unreadable("the type has no such number"))
}

/// Returns the scalar that a word writes: an integer, or `x` for one.
pub fn scalar_of<T: Scalar>(word: &str) -> Result<T, Failure> {
    if word == "x" {
        return Ok(T::one());
    }
    match word.parse::<i128>() {
        Ok(number) => scalar_from(number),
        Err(_) => Err(Failure::Unreadable("a word is not a number")),
    }
}

/// Returns the scalars that words write.
pub fn scalars_of<T: Scalar>(alloc: Global, words: &str) -> Result<Vec<T>, Failure> {
    let mut scalars = Vec::new(alloc);
    for word in words.split_whitespace() {
        scalars.push(scalar_of(word)?)?;
    }
    Ok(scalars)
}

/// Returns the scalars of words that are numbers.
pub fn scalars_from<T: Scalar>(alloc: Global, words: &[Word<'_>]) -> Result<Vec<T>, Failure> {
    let mut scalars = Vec::new(alloc);
    for word in words {
        match *word {
            Word::Number(number) => scalars.push(scalar_from(number)?)?,
            _ => return Err(Failure::Unreadable("a word is not a number")),
        }
    }
    Ok(scalars)
}
