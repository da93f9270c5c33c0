//! Calls, and what they answer.

use case_entries::entries::{ENTRIES, Entries, entry_call};
use case_entries::lanes::{LANES, Lanes, lane_call};
use case_entries::lists::{LISTS, list_call};
use case_entries::shapes::{SHAPES, Shapes, read, shaped};
use case_entries::triplets::{TRIPLETS, Triplets, triplets_call};
use case_matrices::compressed::Compressed;
use case_matrices::conversions::{CONVERSIONS, Conversions, converted};
use case_objects::constructors::{Constructors, constructed, is_constructor, of_parts};
use case_objects::dense::{DENSE, dense_call};
use case_objects::pattern_calls::{PATTERN_CALLS, pattern_call};
use case_operations::operations::{Operations, operation};
use case_orders::ordered::{ORDERED_CALLS, ordered_call};
use case_orders::orders::{ORDER_CALLS, order_call};
use case_orders::permuted::{PERMUTED_CALLS, Permuted, permuted_call};
use case_orders::reduced::{REDUCED_CALLS, reduced_call};
use case_words::failure::Failure;
use case_words::scalar::Scalar;
use case_words::templates::call_of;
use case_words::turn::Turn;
use case_words::words::{Word, words_of};
use nalgebra_sparse::{CscMatrix, CsrMatrix};
use std::alloc::Global;

/// A format of a matrix, with all calls on it.
pub trait CompressedFormat<T: Scalar>: Compressed<T>
    + Constructors<T>
    + Conversions<T>
    + Entries<T>
    + Lanes<T>
    + Operations<T>
    + Permuted<T>
    + Shapes<T>
    + Triplets<T> {}

impl<T: Scalar> CompressedFormat<T> for CsrMatrix<T> {}

impl<T: Scalar> CompressedFormat<T> for CscMatrix<T> {}

/// Returns what a call answers over the scalars `T` in the format `F`. After `display` an error of an operation is
/// displayed.
pub fn answer<T: Scalar, F: CompressedFormat<T>>(
    turn: &mut Turn,
    call: &str,
) -> Result<String, Failure> {
    match call.strip_prefix("display ") {
        Some(call) => displayed(turn.alloc(), answer_plain::<T, F>(turn, call)),
        None => answer_plain::<T, F>(turn, call),
    }
}

// The text of an operation's error.
fn displayed(alloc: Global, answer: Result<String, Failure>) -> Result<String, Failure> {
    match answer {
        Err(Failure::Operation(error)) => Ok(format!(in alloc; "{error}")?),
        other => other,
    }
}

fn answer_plain<T: Scalar, F: CompressedFormat<T>>(
    turn: &mut Turn,
    call: &str,
) -> Result<String, Failure> {
    match call.split_once(' ') {
        Some((keyword, text)) if is_constructor(keyword) => {
            constructed::<T, F>(turn, keyword, text)
        }
        _ => of_words::<T, F>(turn, &words_of(turn.alloc(), call)?),
    }
}

// The answer of a call with these words: of one that makes, reads or compares matrices of the format, or of another.
fn of_words<T: Scalar, F: CompressedFormat<T>>(
    turn: &mut Turn,
    words: &[Word<'_>],
) -> Result<String, Failure> {
    if let [Word::Matrix(a)] = *words {
        return read::<T, F>(turn, a);
    }
    if let Some((call, given)) = call_of(SHAPES, words) {
        return shaped::<T, F>(turn, call, given);
    }
    if let Some((call, given)) = call_of(CONVERSIONS, words) {
        return converted::<T, F>(turn, call, given);
    }
    if let Some((call, given)) = call_of(ENTRIES, words) {
        return entry_call::<T, F>(turn, call, given);
    }
    if let Some((call, given)) = call_of(LANES, words) {
        return lane_call::<T, F>(turn, call, given);
    }
    if let Some((call, given)) = call_of(TRIPLETS, words) {
        return triplets_call::<T, F>(turn, call, given);
    }
    of_object::<T, F>(turn, words)
}

// The answer of a call of a list, of a dense matrix, of a pattern or of the parts of a matrix, or of an operation.
fn of_object<T: Scalar, F: CompressedFormat<T>>(
    turn: &mut Turn,
    words: &[Word<'_>],
) -> Result<String, Failure> {
    if let Some((call, given)) = call_of(LISTS, words) {
        return list_call::<T>(turn, call, given);
    }
    if let Some((call, given)) = call_of(DENSE, words) {
        return dense_call::<T>(turn, call, given);
    }
    if let Some((call, given)) = call_of(PATTERN_CALLS, words) {
        return pattern_call(turn, call, given);
    }
    match of_parts::<T, F>(turn, words) {
        Some(answer) => answer,
        None => of_order::<T, F>(turn, words),
    }
}

// The answer of a call of a permutation, of a permuted matrix or of its factors, or of an operation.
fn of_order<T: Scalar, F: CompressedFormat<T>>(
    turn: &mut Turn,
    words: &[Word<'_>],
) -> Result<String, Failure> {
    if let Some((call, given)) = call_of(ORDER_CALLS, words) {
        return order_call(turn, call, given);
    }
    if let Some((call, given)) = call_of(PERMUTED_CALLS, words) {
        return permuted_call::<T, F>(turn, call, given);
    }
    if let Some((call, given)) = call_of(ORDERED_CALLS, words) {
        return ordered_call::<T>(turn, call, given);
    }
    match call_of(REDUCED_CALLS, words) {
        Some((call, given)) => reduced_call(turn, call, given),
        None => operation::<T, F>(turn, words),
    }
}
