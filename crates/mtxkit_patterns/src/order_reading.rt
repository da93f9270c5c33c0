//! Reads orders from texts.

ghost use Rattle.std.specs.Prelude.{◌≡◌, IfOk, IfErr};
ghost use Rattle.mtxkit_patterns.specs.Orders.{IsMisordered, MeansOrder, order_error};

use crate::order_error::OrderError;
use crate::order_lists::{indices_of, is_column};
use mtxkit_texts::{Failure, read_integers};
use sparse_permutation::error::PermutationError;
use sparse_permutation::permutation::Permutation;
use std::alloc::Global;

/// Returns the order that a text means: an array of one column, in which each number from 1 to its length occurs once.
/// `number` is that of the text in the command.
///
/// # Errors
///
/// Returns the errors of [`read_integers`], `NotColumn` if the text means a matrix that is not a column with an entry in
/// each row, from the top, and `OutOfRange` or `Repeated` for the first number that is 0, negative, exceeds the length,
/// or occurs before. Otherwise fails only if an allocation fails.
pub fn read_order(alloc: Global, number: usize, text: &str) -> Result<Permutation, OrderError>
    ensures order { IfOk result (MeansOrder text.now) }
    ensures refused { IfErr result (IsMisordered number text.now) }
{
    let list = read_integers(alloc, number, text)?;
    if !is_column(&list) {
        return Err(OrderError::NotColumn(number));
    }
    let indices = indices_of(alloc, list.values())?;
    match Permutation::try_from_order(alloc, indices) {
        Ok(order) => Ok(order),
        Err(error) => Err(named(number, error)),
    }
}

// Returns the error for a list that is not a permutation, which is that of the text with this number.
fn named(number: usize, error: PermutationError) -> OrderError
    ensures { result ≡ order_error number error }
{
    match error {
        PermutationError::IndexOutOfBounds { at } => OrderError::OutOfRange(number, at),
        PermutationError::RepeatedIndex { at } => OrderError::Repeated(number, at),
        PermutationError::OutOfMemory => OrderError::Failed(Failure::OutOfMemory),
    }
}
