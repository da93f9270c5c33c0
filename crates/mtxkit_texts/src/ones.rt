//! Writes texts with the value 1 in place of each value, which is not read.

ghost use Rattle.std.specs.Prelude.{◌≡◌, ◌++◌, ◌∷◌, [], IfOk, OnOk, MatchOption, string_bytes};
ghost use Rattle.sparse_parser.specs.declared.header.Field.TheVariants.{Real};
ghost use Rattle.sparse_parser.specs.declared.header.Format.TheVariants.{Coordinate, Array};
ghost use Rattle.sparse_parser.specs.InnerReading.{words_of};
ghost use Rattle.sparse_parser.specs.Meaning.{is_of_field};
ghost use Rattle.mtxkit_texts.specs.declared.ones.Stage.TheVariants.{Head, Sizes, Entries};
ghost use Rattle.mtxkit_texts.specs.InnerOnes.{HasNoPlace, next_stage, stage_words};
ghost use Rattle.mtxkit_texts.specs.Ones.{AreOnesOf, copied, copy_of, has_no_contents, head_words};
ghost use Rattle.mtxkit_texts.specs.Ones.{one_words, spaced, unconjugated};

use crate::headers::{format_name, symmetry_name};
use sparse_faults::{after_end, is_comment};
use sparse_parser::header::{Field, Format, Header, Symmetry};
use sparse_parser::lines::{next_word, split_line};
use std::alloc::{AllocError, Global};

/// Which lines of a text were read.
#[derive(Clone, Copy)]
pub(crate) enum Stage {
    /// No header.
    Head,
    /// The header.
    Sizes(Header),
    /// The header and the size line.
    Entries(Header),
}

/// The row and the column of an entry, and the text after them.
#[derive(Clone, Copy)]
struct Place<'a> {
    row: &'a [u8],
    col: &'a [u8],
    values: &'a [u8],
}

/// Returns the text of integers with the value 1 in place of each value, line by line. Comments are left out, and a
/// hermitian text becomes a symmetric one. A data line with another number of values than those of its field becomes
/// two numbers, which are no entry.
///
/// Fails only if an allocation fails.
pub(crate) fn ones_text(alloc: Global, text: &str) -> Result<String, AllocError>
    ensures { IfOk result (λ ones. AreOnesOf text.now (string_bytes ones)) }
{
    let mut ones = String::new(alloc);
    let mut stage = Stage::Head;
    let mut rest = text.as_bytes();
    while !rest.is_empty() {
        let (line, others) = split_line(rest);
        stage = push_line(&mut ones, stage, line)?;
        ones.push_str("\n")?;
        rest = after_end(others);
    }
    Ok(ones)
}

// Appends what is written for a line, without a line end. Returns the stage after the line.
fn push_line(ones: &mut String, stage: Stage, line: &[u8]) -> Result<Stage, AllocError>
    ensures next { IfOk result (λ next. next ≡ next_stage stage (words_of line.now)) }
    ensures appended { OnOk result (string_bytes ones.new
        ≡ string_bytes ones.old ++ spaced (stage_words stage (words_of line.now))) }
{
    match stage {
        Stage::Head => push_head(ones, line),
        Stage::Sizes(header) => push_sizes(ones, header, line),
        Stage::Entries(header) => push_entry(ones, header, line),
    }
}

// Appends the header for a line, if it is one.
fn push_head(ones: &mut String, line: &[u8]) -> Result<Stage, AllocError>
    ensures next { IfOk result (λ next. next ≡ next_stage Head (words_of line.now)) }
    ensures appended { OnOk result (string_bytes ones.new
        ≡ string_bytes ones.old ++ spaced (stage_words Head (words_of line.now))) }
{
    match Header::from_line(line) {
        Some(header) => {
            push_header(ones, header)?;
            Ok(Stage::Sizes(header))
        }
        None => Ok(Stage::Head),
    }
}

// Appends the header of the text of ones.
fn push_header(ones: &mut String, header: Header) -> Result<(), AllocError>
    ensures { OnOk result
        (string_bytes ones.new ≡ string_bytes ones.old ++ spaced (head_words header)) }
{
    ones.push_str("%%MatrixMarket matrix ")?;
    ones.push_str(format_name(header.format))?;
    ones.push_str(" integer ")?;
    ones.push_str(symmetry_name(unconjugated(header.symmetry)))?;
    ones.push_str(" ")
}

// Returns the symmetry of the text of ones: the places are those of a symmetric text, whether values are conjugated or
// not.
fn unconjugated(symmetry: Symmetry) -> Symmetry
    ensures { result ≡ unconjugated symmetry }
{
    match symmetry {
        Symmetry::Hermitian => Symmetry::Symmetric,
        symmetry => symmetry,
    }
}

// Appends a size line, or nothing for a line that is blank or a comment.
fn push_sizes(ones: &mut String, header: Header, line: &[u8]) -> Result<Stage, AllocError>
    ensures next { IfOk result (λ next. next ≡ next_stage (Sizes header) (words_of line.now)) }
    ensures appended { OnOk result (string_bytes ones.new
        ≡ string_bytes ones.old ++ spaced (stage_words (Sizes header) (words_of line.now))) }
{
    if has_no_contents(line) {
        return Ok(Stage::Sizes(header));
    }
    push_words(ones, line)?;
    Ok(Stage::Entries(header))
}

// Appends an entry with the value 1, or nothing for a line that is blank or a comment.
fn push_entry(ones: &mut String, header: Header, line: &[u8]) -> Result<Stage, AllocError>
    ensures next { IfOk result (λ next. next ≡ next_stage (Entries header) (words_of line.now)) }
    ensures appended { OnOk result (string_bytes ones.new
        ≡ string_bytes ones.old ++ spaced (stage_words (Entries header) (words_of line.now))) }
{
    if !has_no_contents(line) {
        push_one(ones, header, line)?;
    }
    Ok(Stage::Entries(header))
}

// Returns whether a line is blank or a comment.
fn has_no_contents(line: &[u8]) -> bool
    ensures { result ≡ has_no_contents (words_of line.now) }
{
    match next_word(line) {
        None => true,
        Some((word, _)) => is_comment(word),
    }
}

// Appends the entry with the value 1 for a data line.
fn push_one(ones: &mut String, header: Header, line: &[u8]) -> Result<(), AllocError>
    ensures { OnOk result (string_bytes ones.new ≡ string_bytes ones.old
        ++ spaced (copied (one_words header.format header.field (words_of line.now)))) }
{
    match header.format {
        Format::Coordinate => push_coordinate(ones, header.field, line),
        Format::Array => ones.push_str(value_text(header.field, line)),
    }
}

// Appends the entry with the value 1 for a data line in coordinate format.
fn push_coordinate(ones: &mut String, field: Field, line: &[u8]) -> Result<(), AllocError>
    ensures { OnOk result (string_bytes ones.new ≡ string_bytes ones.old
        ++ spaced (copied (one_words Coordinate field (words_of line.now)))) }
{
    let Some(place) = place_of(line) else {
        ones.push_str("1 1 ")?;
        return Ok(());
    };
    if !are_values(field, place.values) {
        ones.push_str("1 1 ")?;
        return Ok(());
    }
    push_word(ones, place.row)?;
    push_word(ones, place.col)?;
    ones.push_str("1 ")?;
    Ok(())
}

// Returns the entry with the value 1 for a data line in array format.
fn value_text(field: Field, line: &[u8]) -> &'static str
    ensures { result.now ≡ spaced (copied (one_words Array field (words_of line.now))) }
{
    if are_values(field, line) {
        "1 "
    } else {
        "1 1 "
    }
}

// Returns the first two words of a line and the rest of the line, if it has two.
fn place_of(line: &[u8]) -> Option<Place<'_>>
    ensures { MatchOption result (HasNoPlace (words_of line.now))
        (λ p. words_of line.now ≡ p.row.now ∷ p.col.now ∷ words_of p.values.now) }
{
    let (row, rest) = next_word(line)?;
    let (col, values) = next_word(rest)?;
    Some(Place { row, col, values })
}

// Returns whether the number of words is that of a value of the field.
fn are_values(field: Field, words: &[u8]) -> bool
    ensures { result ≡ is_of_field field (words_of words.now) }
{
    match field {
        Field::Pattern => next_word(words).is_none(),
        Field::Real | Field::Integer => is_word(words),
        Field::Complex => match next_word(words) {
            Some((_, rest)) => is_word(rest),
            None => false,
        },
    }
}

// Returns whether a line has one word.
fn is_word(line: &[u8]) -> bool
    ensures { result ≡ is_of_field Real (words_of line.now) }
{
    match next_word(line) {
        Some((_, rest)) => next_word(rest).is_none(),
        None => false,
    }
}

// Appends the words of a line, each with a blank after it.
fn push_words(ones: &mut String, line: &[u8]) -> Result<(), AllocError>
    ensures { OnOk result (string_bytes ones.new
        ≡ string_bytes ones.old ++ spaced (copied (words_of line.now))) }
{
    let mut rest = line;
    while let Some((word, others)) = next_word(rest) {
        push_word(ones, word)?;
        rest = others;
    }
    Ok(())
}

// Appends a word and a blank. A word that is not UTF-8 is left out.
fn push_word(ones: &mut String, word: &[u8]) -> Result<(), AllocError>
    ensures { OnOk result
        (string_bytes ones.new ≡ string_bytes ones.old ++ (copy_of word.now ++ (32 ∷ []))) }
{
    ones.push_str(text_of(word))?;
    ones.push_str(" ")
}

// Returns a word, or an empty text if it is not UTF-8.
fn text_of(word: &[u8]) -> &str
    ensures { result.now ≡ copy_of word.now }
{
    match str::from_utf8(word) {
        Ok(text) => text,
        Err(_) => "",
    }
}
