//! Arithmetic of scalars.

use crate::vectors::number_text;
use case_matrices::conversions::truth;
use case_words::failure::Failure;
use case_words::scalar::{Scalar, scalar_from};
use case_words::templates::{Operands, call_of};
use case_words::turn::Turn;
use case_words::words::Word;
use nalgebra_sparse::scalar::Mod;
use std::alloc::Global;

// The greatest modulus, and 2^63.
const GREATEST: u64 = 18446744073709551615;

const HALF: u64 = 9223372036854775808;

/// Returns the answer of a call on scalars, after which `mod M` may stand for the residues modulo M.
pub fn number<T: Scalar>(turn: &mut Turn, words: &[Word<'_>]) -> Result<String, Failure> {
    let alloc = turn.alloc();
    match *words {
        [
            ref words @ ..,
            Word::Name("mod"),
            Word::Number(18446744073709551615),
        ] => { result::<Mod<GREATEST>>(alloc, words) }
        [
            ref words @ ..,
            Word::Name("mod"),
            Word::Number(9223372036854775808),
        ] => { result::<Mod<HALF>>(alloc, words) }
        _ => result::<T>(alloc, words),
    }
}

#[derive(Clone, Copy)]
enum Arithmetic {
    Value,
    Zero,
    One,
    Negative,
    Inverse,
    Sum,
    Product,
    Equal,
}

const ARITHMETIC: &[(&str, Arithmetic)] = &[
    ("k", Arithmetic::Value),
    ("zero", Arithmetic::Zero),
    ("one", Arithmetic::One),
    ("- k", Arithmetic::Negative),
    ("l / k", Arithmetic::Inverse),
    ("k + l", Arithmetic::Sum),
    ("k * l", Arithmetic::Product),
    ("k == l", Arithmetic::Equal),
];

fn result<T: Scalar>(alloc: Global, words: &[Word<'_>]) -> Result<String, Failure> {
    match call_of(ARITHMETIC, words) {
        Some((call, given)) => value::<T>(alloc, call, given),
        None => Err(Failure::Unreadable("no call has these words")),
    }
}

fn value<T: Scalar>(
    alloc: Global,
    call: Arithmetic,
    given: Operands<'_>,
) -> Result<String, Failure> {
    let (k, l): (T, T) = (scalar_from(given.k)?, scalar_from(given.l)?);
    match call {
        Arithmetic::Inverse if given.l == 1 => inverse(alloc, k),
        Arithmetic::Inverse => Err(Failure::Unreadable("only one is divided")),
        Arithmetic::Equal => truth(alloc, k == l),
        _ => number_text(alloc, computed(call, k, l)),
    }
}

fn inverse<T: Scalar>(alloc: Global, a: T) -> Result<String, Failure> {
    match a.recip() {
        Some(inverse) => number_text(alloc, inverse),
        None => Ok(String::from_str(alloc, "none")?),
    }
}

fn computed<T: Scalar>(call: Arithmetic, k: T, l: T) -> T {
    match call {
        Arithmetic::Zero => T::zero(),
        Arithmetic::One => T::one(),
        Arithmetic::Negative => k.neg(),
        Arithmetic::Sum => k.add(l),
        Arithmetic::Product => k.mul(l),
        _ => k,
    }
}
