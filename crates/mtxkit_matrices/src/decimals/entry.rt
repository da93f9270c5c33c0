//! Writes data lines with scaled values.

ghost use Rattle.std.specs.Prelude.{◌≡◌, ◌++◌, ◌∷◌, [], IsTrue, true, false};
ghost use Rattle.std.specs.Prelude.{MatchOption, IfOk, IfErr, OnOk};
ghost use Rattle.std.specs.Fmt.{signed_decimal};
ghost use Rattle.std.specs.Int.{w128};
ghost use Rattle.std.specs.Int.RustNames.{FitsSigned};
ghost use Rattle.sparse_parser.specs.declared.header.Format.TheVariants.{Coordinate, Array};
ghost use Rattle.sparse_parser.specs.Grammar.{is_index, is_number};
ghost use Rattle.sparse_parser.specs.InnerReading.{words_of};
ghost use Rattle.mtxkit_matrices.specs.declared.decimals.error.ScaleError.TheVariants.{OutOfMemory};
ghost use Rattle.mtxkit_matrices.specs.declared.decimals.stage.Stage.TheVariants.{Entries};
ghost use Rattle.mtxkit_matrices.specs.Decimals.{IsScaled};
ghost use Rattle.mtxkit_matrices.specs.InnerRewriting.{IsLineWritten, IsCoordinateLine};
ghost use Rattle.mtxkit_matrices.specs.InnerRewriting.{IsArrayLine, coordinate_text};
ghost use Rattle.mtxkit_matrices.specs.InnerScaleFailures.{IsEntryFailure, IsValueFailure};
ghost use Rattle.mtxkit_matrices.specs.InnerScaleFailures.{AreContent, IsLineFailure};
ghost use Rattle.mtxkit_matrices.specs.ScaleFailures.{is_decimal_entry};

use crate::decimals::error::ScaleError;
use crate::decimals::number::{Misfit, scaled};
use crate::decimals::stage::Stage;
use itoa::Buffer;
use sparse_parser::header::{Format, Header};
use sparse_parser::lines::next_word;
use sparse_parser::numbers::{is_index, is_number};

/// The words of a data line in coordinate format.
#[derive(Clone, Copy)]
struct CoordinateWords<'a> {
    row: &'a [u8],
    col: &'a [u8],
    value: &'a [u8],
}

/// Appends a data line with its value scaled, or returns why it is refused. `number` is the line's number in the text.
pub(crate) fn push_entry(
    written: &mut Vec<u8>,
    scale: u32,
    header: Header,
    number: usize,
    line: &[u8],
) -> Result<Stage, ScaleError>
    requires { AreContent (words_of line.now) }
    ensures written { IfOk result
        (λ next. IsLineWritten scale (Entries header) line.now next written.old.items
        written.new.items) }
    ensures refused { IfErr result
        (IsLineFailure scale (Entries header) number (words_of line.now)) }
{
    let pushed = match header.format {
        Format::Coordinate => push_coordinate(written, scale, number, line),
        Format::Array => push_value(written, scale, number, line),
    };
    match pushed {
        Ok(()) => Ok(Stage::Entries(header)),
        Err(why) => Err(why),
    }
}

// Appends a data line in coordinate format: two indices and a scaled value.
fn push_coordinate(
    written: &mut Vec<u8>,
    scale: u32,
    number: usize,
    line: &[u8],
) -> Result<(), ScaleError>
    ensures written { OnOk result
        (IsCoordinateLine scale (words_of line.now) written.old.items written.new.items) }
    ensures refused { IfErr result
        (IsEntryFailure scale Coordinate number (words_of line.now)) }
{
    let Some(words) = coordinate_words(line) else {
        return Err(ScaleError::Entry(number));
    };
    match scaled_at(words.value, scale, number) {
        Ok(integer) => push_words(written, words, integer),
        Err(why) => Err(why),
    }
}

// Appends a data line in array format: a scaled value.
fn push_value(
    written: &mut Vec<u8>,
    scale: u32,
    number: usize,
    line: &[u8],
) -> Result<(), ScaleError>
    ensures written { OnOk result
        (IsArrayLine scale (words_of line.now) written.old.items written.new.items) }
    ensures refused { IfErr result
        (IsEntryFailure scale Array number (words_of line.now)) }
{
    let Some(value) = value_word(line) else {
        return Err(ScaleError::Entry(number));
    };
    match scaled_at(value, scale, number) {
        Ok(integer) => push_integer(written, integer),
        Err(why) => Err(why),
    }
}

// Appends two indices and an integer.
fn push_words(
    written: &mut Vec<u8>,
    words: CoordinateWords<'_>,
    integer: i128,
) -> Result<(), ScaleError>
    ensures appended { OnOk result (written.new.items ≡ written.old.items
        ++ coordinate_text words.entry.row.now words.entry.col.now integer) }
    ensures refused { IfErr result (λ e. e ≡ OutOfMemory) }
{
    written.extend_from_slice(words.row)?;
    written.push(b' ')?;
    written.extend_from_slice(words.col)?;
    written.push(b' ')?;
    push_integer(written, integer)
}

// Returns the words of a line if they are two indices and a number.
fn coordinate_words(line: &[u8]) -> Option<CoordinateWords<'_>>
    ensures { MatchOption result (is_decimal_entry Coordinate (words_of line.now) ≡ false)
        (λ w. (words_of line.now ≡ w.row.now ∷ w.col.now ∷ w.value.now ∷ [])
        × (is_index w.row.now ≡ true) × (is_index w.col.now ≡ true)
        × (is_number w.value.now ≡ true)) }
{
    let (row, rest) = next_word(line)?;
    let (col, rest) = next_word(rest)?;
    let value = value_word(rest)?;
    if is_index(row) && is_index(col) {
        Some(CoordinateWords { row, col, value })
    } else {
        None
    }
}

// Returns the word of a line that has one word, if it is a number.
fn value_word(line: &[u8]) -> Option<&[u8]>
    ensures { MatchOption result (is_decimal_entry Array (words_of line.now) ≡ false)
        (λ w. (words_of line.now ≡ w.now ∷ []) × (is_number w.now ≡ true)) }
{
    let (value, rest) = next_word(line)?;
    if !is_number(value) || next_word(rest).is_some() {
        return None;
    }
    Some(value)
}

// Returns the value of a word times `10^scale`. `number` is the number of its line.
fn scaled_at(word: &[u8], scale: u32, number: usize) -> Result<i128, ScaleError>
    requires { IsTrue (is_number word.now) }
    ensures value { IfOk result (IsScaled scale word.now) }
    ensures fits { IfOk result (FitsSigned w128) }
    ensures refused { IfErr result (IsValueFailure scale number word.now) }
{
    match scaled(word, scale) {
        Ok(integer) => Ok(integer),
        Err(Misfit::Fraction(least)) => Err(ScaleError::Fraction(number, least)),
        Err(Misfit::Range) => Err(ScaleError::Range(number)),
    }
}

// Appends an integer in decimal.
fn push_integer(written: &mut Vec<u8>, integer: i128) -> Result<(), ScaleError>
    ensures appended { OnOk result
        (written.new.items ≡ written.old.items ++ signed_decimal integer) }
    ensures refused { IfErr result (λ e. e ≡ OutOfMemory) }
{
    let mut digits = Buffer::new();
    match written.extend_from_slice(digits.format(integer).as_bytes()) {
        Ok(()) => Ok(()),
        Err(_) => Err(ScaleError::OutOfMemory),
    }
}
