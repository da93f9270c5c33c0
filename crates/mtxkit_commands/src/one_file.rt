//! What the commands that read one file write.

ghost use Rattle.std.specs.Prelude.{◌<◌, IfOk, IfErr, string_bytes};
ghost use Rattle.mtxkit_commands.specs.Answers.{ShowsPicture, WritesValues};
ghost use Rattle.mtxkit_commands.specs.Failures.{IsFieldFailureOf};
ghost use Rattle.file_readings.specs.Reads.{ReadsOne};
ghost use Rattle.mtxkit_commands.specs.Reads.{FailsOne};
ghost use Rattle.mtxkit_texts.specs.AnyField.{IsPlacesFailure};
ghost use Rattle.mtxkit_facts.specs.Facts.{IsInfoFailure, WritesInfo};
ghost use Rattle.mtxkit_texts.specs.Headers.{header_in};
ghost use Rattle.mtxkit_texts.specs.Lower.{IsSymmetricFailure, Symmetrised};
ghost use Rattle.mtxkit_texts.specs.Rewritten.{IsCopyFailure, WritesCopy};

use crate::inputs::read_text;
use file_readings::Texts;
use mtxkit_arguments::{Target, Values};
use mtxkit_facts::{ReportFormat, info_text};
use mtxkit_texts::{
    Failure, copy_text, integer_text, places_text, spy_bitmap, spy_blocks, spy_svg, symmetric_text,
};
use std::alloc::Global;

/// Reads the file, and returns facts about its matrix.
pub(crate) fn described<T: Texts>(
    alloc: Global,
    texts: &mut T,
    file: &str,
    form: ReportFormat,
) -> Result<Vec<u8>, Failure>
    ensures answer { IfOk result (λ answer. ReadsOne file.now
        (λ text. WritesInfo form text answer.items) (T.readings texts.old) (T.readings texts.new)) }
    ensures failed { IfErr result
        (FailsOne file.now IsInfoFailure (T.readings texts.old) (T.readings texts.new)) }
{
    let text = read_text(texts, 1, file)?;
    Ok(info_text(alloc, form, text.as_str())?.into_bytes())
}

/// Reads the file, and returns the picture of its pattern, in the form for this target.
pub(crate) fn pictured<T: Texts>(
    alloc: Global,
    texts: &mut T,
    file: &str,
    size: usize,
    target: Target<'_>,
) -> Result<Vec<u8>, Failure>
    requires { 0 < size }
    ensures answer { IfOk result (λ answer. ReadsOne file.now
        (λ text. ShowsPicture target.entry text size answer.items) (T.readings texts.old) (T.readings texts.new)) }
    ensures failed { IfErr result
        (FailsOne file.now (IsPlacesFailure 1) (T.readings texts.old) (T.readings texts.new)) }
{
    let text = read_text(texts, 1, file)?;
    Ok(picture(alloc, size, target, text.as_str())?.into_bytes())
}

/// Reads the file, and returns its matrix with its own field.
pub(crate) fn copied<T: Texts>(alloc: Global, texts: &mut T, file: &str) -> Result<Vec<u8>, Failure>
    ensures answer { IfOk result (λ answer. ReadsOne file.now
        (λ text. WritesCopy text answer.items) (T.readings texts.old) (T.readings texts.new)) }
    ensures failed { IfErr result
        (FailsOne file.now IsCopyFailure (T.readings texts.old) (T.readings texts.new)) }
{
    let text = read_text(texts, 1, file)?;
    Ok(copy_text(alloc, text.as_str())?.into_bytes())
}

/// Reads the file, and returns its matrix with or without its values.
pub(crate) fn rewritten<T: Texts>(
    alloc: Global,
    texts: &mut T,
    file: &str,
    values: Values,
) -> Result<Vec<u8>, Failure>
    ensures answer { IfOk result (λ answer. ReadsOne file.now
        (λ text. WritesValues values text answer.items) (T.readings texts.old) (T.readings texts.new)) }
    ensures failed { IfErr result
        (FailsOne file.now (IsFieldFailureOf values) (T.readings texts.old) (T.readings texts.new)) }
{
    let text = read_text(texts, 1, file)?;
    Ok(field_text(alloc, values, text.as_str())?.into_bytes())
}

/// Reads the file, and returns its matrix with the symmetry expanded, or its lower triangle.
pub(crate) fn symmetrised<T: Texts>(
    alloc: Global,
    texts: &mut T,
    file: &str,
) -> Result<Vec<u8>, Failure>
    ensures answer { IfOk result (λ answer. ReadsOne file.now
        (λ text. Symmetrised (header_in text) text answer.items) (T.readings texts.old) (T.readings texts.new)) }
    ensures failed { IfErr result
        (FailsOne file.now IsSymmetricFailure (T.readings texts.old) (T.readings texts.new)) }
{
    let text = read_text(texts, 1, file)?;
    Ok(symmetric_text(alloc, text.as_str())?.into_bytes())
}

// Returns the picture of the pattern that a text means, in the form for this target.
fn picture(alloc: Global, size: usize, target: Target<'_>, text: &str) -> Result<String, Failure>
    requires { 0 < size }
    ensures shown { IfOk result
        (λ shown. ShowsPicture target.entry text.now size (string_bytes shown)) }
    ensures refused { IfErr result (IsPlacesFailure 1 text.now) }
{
    match target {
        Target::Bitmap => spy_bitmap(alloc, text, size),
        Target::Blocks => spy_blocks(alloc, text, size),
        Target::Svg => spy_svg(alloc, text, size),
        Target::File(_) => spy_bitmap(alloc, text, size),
    }
}

// Returns the text of a text's matrix, with or without its values.
fn field_text(alloc: Global, values: Values, text: &str) -> Result<String, Failure>
    ensures written { IfOk result
        (λ written. WritesValues values text.now (string_bytes written)) }
    ensures refused { IfErr result (IsFieldFailureOf values text.now) }
{
    match values {
        Values::Integers => integer_text(alloc, text),
        Values::Pattern => places_text(alloc, text),
    }
}
