//! Reads the places of texts, also of those whose values are real or complex.

ghost use Rattle.std.specs.Prelude.{◌≡◌, ◌⊎◌, IfOk, IfErr};
ghost use Rattle.sparse_compressed.specs.Compressed.{IsSound};
ghost use Rattle.mtxkit_texts.specs.AnyField.{IsOnesFailure, IsPlacesFailure, IsUnsupported};
ghost use Rattle.mtxkit_texts.specs.AnyField.{MeansOnesText, MeansPlaces};
ghost use Rattle.mtxkit_texts.specs.Loaded.{IsLoadFailure};
ghost use Rattle.mtxkit_texts.specs.declared.failure.Failure.TheVariants.{OutOfMemory};

use crate::failure::Failure;
use crate::loaded::{Loaded, load};
use crate::ones::ones_text;
use std::alloc::Global;

/// As [`load`](crate::load), but if the values of the text are real or complex, the matrix has the value 1 in place of
/// each of them. So its pattern is that of the text, whatever the field is.
///
/// A text with real or complex values is read through a second text, which needs memory of its own.
///
/// # Errors
///
/// Returns the errors of [`load`](crate::load) except `NotSupported`: if the values are real or complex, returns
/// `Input` if an entry has another number of values than the header's field, or an error in its row and column.
pub fn load_places(alloc: Global, number: usize, text: &str) -> Result<Loaded, Failure>
    ensures meant { IfOk result (λ l. MeansPlaces text.now l.entries l.matrix) }
    ensures sound { IfOk result (λ l. IsSound l.matrix) }
    ensures refused { IfErr result (IsPlacesFailure number text.now) }
{
    match load(alloc, number, text) {
        Ok(loaded) => Ok(loaded),
        Err(failure) => load_unsupported(alloc, number, text, failure),
    }
}

// Returns the matrix of a text that `load` refuses with this failure, if its values are real or complex, and otherwise
// the failure.
fn load_unsupported(
    alloc: Global,
    number: usize,
    text: &str,
    failure: Failure,
) -> Result<Loaded, Failure>
    requires { IsLoadFailure number text.now failure }
    ensures meant { IfOk result (λ l. MeansOnesText text.now l.entries l.matrix) }
    ensures sound { IfOk result (λ l. IsSound l.matrix) }
    ensures refused { IfErr result (IsPlacesFailure number text.now) }
{
    match failure {
        Failure::NotSupported(_) => load_ones(alloc, number, text),
        failure => Err(failure),
    }
}

/// Returns the matrix of a text whose first error is a real or complex value, with the value 1 in place of each value.
///
/// # Errors
///
/// Returns the errors of [`load`](crate::load) for the text of integers with the value 1 in place of each value, which
/// needs memory of its own.
pub fn load_ones(alloc: Global, number: usize, text: &str) -> Result<Loaded, Failure>
    requires { IsUnsupported text.now }
    ensures meant { IfOk result (λ l. MeansOnesText text.now l.entries l.matrix) }
    ensures sound { IfOk result (λ l. IsSound l.matrix) }
    ensures refused { IfErr result
        (λ e. (e ≡ OutOfMemory) ⊎ IsOnesFailure number text.now e) }
{
    let ones = ones_text(alloc, text)?;
    load(alloc, number, ones.as_str())
}
