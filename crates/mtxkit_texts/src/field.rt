//! Writes the matrix of a text with another field, or with its own.

ghost use Rattle.std.specs.Prelude.{IfErr, IfOk, string_bytes};
ghost use Rattle.mtxkit_texts.specs.AnyField.{IsPlacesFailure};
ghost use Rattle.mtxkit_texts.specs.Rewritten.{WritesIntegers, WritesPattern, WritesPlaces};
ghost use Rattle.mtxkit_texts.specs.Rewritten.{WritesCopy, IsCopyFailure};
ghost use Rattle.mtxkit_texts.specs.Loaded.{IsLoadFailure, IsValuesFailure};

use crate::any_field::load_places;
use crate::failure::Failure;
use crate::headers::names_pattern;
use crate::loaded::load;
use crate::pattern_texts::write_pattern;
use crate::values::load_values;
use sparse_io::{Banner, save_to_matrix_market_str_with};
use std::alloc::Global;

/// Returns the text of the pattern that a text means, row by row, also if the values are real or complex. An entry
/// whose value is zero is kept.
///
/// Returns the errors of [`load_places`](crate::load_places).
pub fn places_text(alloc: Global, text: &str) -> Result<String, Failure>
    ensures written { IfOk result (λ written. WritesPlaces text.now (string_bytes written)) }
    ensures refused { IfErr result (IsPlacesFailure 1 text.now) }
{
    let places = load_places(alloc, 1, text)?;
    Ok(write_pattern(alloc, places.matrix.pattern())?)
}

/// Returns the text of the pattern of a text's matrix, row by row. An entry whose value is zero is kept.
///
/// Returns the errors of [`load`](crate::load).
pub(crate) fn pattern_text(alloc: Global, text: &str) -> Result<String, Failure>
    ensures written { IfOk result (λ written. WritesPattern text.now (string_bytes written)) }
    ensures refused { IfErr result (IsLoadFailure 1 text.now) }
{
    let loaded = load(alloc, 1, text)?;
    Ok(write_pattern(alloc, loaded.matrix.pattern())?)
}

/// Returns the text of a text's matrix with integers, row by row. The values of a pattern's entries are 1.
///
/// Returns the errors of [`load_values`](crate::load_values).
pub fn integer_text(alloc: Global, text: &str) -> Result<String, Failure>
    ensures written { IfOk result (λ written. WritesIntegers text.now (string_bytes written)) }
    ensures refused { IfErr result (IsValuesFailure 1 text.now) }
{
    let matrix = load_values(alloc, 1, text)?;
    Ok(save_to_matrix_market_str_with(alloc, &matrix, Banner::MixedCase)?)
}

/// Returns the text of a text's matrix, row by row: as a pattern if the header names a pattern, and otherwise with
/// integers.
///
/// Returns the errors of [`pattern_text`] or [`integer_text`].
pub fn copy_text(alloc: Global, text: &str) -> Result<String, Failure>
    ensures written { IfOk result (λ written. WritesCopy text.now (string_bytes written)) }
    ensures refused { IfErr result (IsCopyFailure text.now) }
{
    if names_pattern(text) {
        pattern_text(alloc, text)
    } else {
        integer_text(alloc, text)
    }
}
