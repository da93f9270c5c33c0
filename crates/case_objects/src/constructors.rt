//! Calls that make matrices of arrays and of parts, view them, filter them, and read and write JSON.

use crate::json::{from_json, to_json};
use crate::views::{Views, view};
use case_matrices::arrays::{coo, csc, csr, unsorted};
use case_matrices::compressed::Compressed;
use case_matrices::conversions::Conversions;
use case_matrices::filters::{Filters, keep};
use case_matrices::made::{MADE, Made, made_call};
use case_words::failure::Failure;
use case_words::scalar::Scalar;
use case_words::templates::{Operands, call_of};
use case_words::turn::Turn;
use case_words::words::Word;
use nalgebra_sparse::{CscMatrix, CsrMatrix};

/// A format with these calls.
pub trait Constructors<T: Scalar>: Filters<T> + Made<T> + Views<T> {}

impl<T: Scalar> Constructors<T> for CsrMatrix<T> {}

impl<T: Scalar> Constructors<T> for CscMatrix<T> {}

/// Returns whether a word begins a call of a text.
pub fn is_constructor(keyword: &str) -> bool {
    match keyword {
        "csr" | "csc" | "unsorted" | "coo" | "view" | "from-json" => true,
        _ => false,
    }
}

/// Returns the answer of a call of a text, given its first word and the text after it.
pub fn constructed<T: Scalar, F: Compressed<T> + Conversions<T> + Constructors<T>>(
    turn: &mut Turn,
    keyword: &str,
    text: &str,
) -> Result<String, Failure> {
    match keyword {
        "csr" => csr::<T>(turn, text),
        "csc" => csc::<T>(turn, text),
        "unsorted" => unsorted::<T, F>(turn, text),
        "coo" => coo::<T>(turn, text),
        "view" => view::<T, F>(turn, text),
        _ => from_json(turn, text),
    }
}

#[derive(Clone, Copy)]
enum Other {
    Keep,
    ToJson,
}

const OTHERS: &[(&str, Other)] = &[("keep w A", Other::Keep), ("to-json w A", Other::ToJson)];

/// Returns the answer of a call that makes a matrix of parts, takes one apart, filters it or writes JSON, or `None` of
/// other words.
pub fn of_parts<T: Scalar, F: Compressed<T> + Conversions<T> + Constructors<T>>(
    turn: &mut Turn,
    words: &[Word<'_>],
) -> Option<Result<String, Failure>> {
    if let Some((call, given)) = call_of(MADE, words) {
        return Some(made_call::<T, F>(turn, call, given));
    }
    let (call, given) = call_of(OTHERS, words)?;
    Some(of_other::<T, F>(turn, call, given))
}

fn of_other<T: Scalar, F: Compressed<T> + Filters<T>>(
    turn: &mut Turn,
    call: Other,
    given: Operands<'_>,
) -> Result<String, Failure> {
    match call {
        Other::Keep => keep::<T, F>(turn, given),
        Other::ToJson => to_json(turn, given.w, given.a),
    }
}
