//! Lines of a text, and the words of a line.

ghost use Rattle.std.specs.Prelude.{◌≡◌, ◌∷◌, [], IfOk, MatchOption, filter};
ghost use Rattle.std.specs.List.{slice_split};
ghost use Rattle.sparse_parser.specs.Bytes.{is_line_end};
ghost use Rattle.sparse_parser.specs.InnerReading.{words_of, written_of, is_content};
ghost use Rattle.reference_models.specs.InnerTexts.{texts, words_in, lines_in};

use std::alloc::{AllocError, Global};

/// A line, as its words.
#[derive(Drop)]
pub struct Line<'a> {
    pub words: Vec<&'a [u8]>,
}

/// Returns the lines of a text that are not blank.
pub fn written_lines<'a>(alloc: Global, text: &'a [u8]) -> Result<Vec<Line<'a>>, AllocError>
    ensures { IfOk result (λ v. lines_in v.items ≡ written_of text.now) }
{
    let lines = split_lines(alloc, text)?;
    let mut written = Vec::new(alloc);
    for line in &lines {
        let words = words(alloc, line)?;
        if !words.is_empty() {
            written.push(Line { words })?;
        }
    }
    Ok(written)
}

// The lines of a text. A CR and an LF have an empty line between them.
fn split_lines<'a>(alloc: Global, text: &'a [u8]) -> Result<Vec<&'a [u8]>, AllocError>
    ensures { IfOk result (λ v. texts v.items ≡ slice_split is_line_end text.now) }
{
    text.split(|byte| *byte == b'\n' || *byte == b'\r')
        .collect(alloc)
}

// The words of a line.
fn words<'a>(alloc: Global, line: &'a [u8]) -> Result<Vec<&'a [u8]>, AllocError>
    ensures { IfOk result (λ v. texts v.items ≡ words_of line.now) }
{
    line.split(|byte| *byte == b' ' || *byte == b'\t')
        .filter(|word| !word.is_empty())
        .collect(alloc)
}

/// Returns copies of the lines that are not comments.
pub fn without_comments<'a>(alloc: Global, lines: &[Line<'a>]) -> Result<Vec<Line<'a>>, AllocError>
    ensures { IfOk result (λ v. lines_in v.items ≡ filter is_content (lines_in lines.now)) }
{
    let mut contents = Vec::new(alloc);
    for line in lines {
        if is_content(&line.words) {
            let words = Vec::from_slice(alloc, &line.words)?;
            contents.push(Line { words })?;
        }
    }
    Ok(contents)
}

// Whether the first word does not begin with `%`.
#[tactic(auto, unfolding(sparse_parser::specs::InnerReading::is_content))]
fn is_content(words: &[&[u8]]) -> bool
    ensures { result ≡ is_content (texts words.now) }
{
    match first_word(words) {
        None => true,
        Some((word, _)) => !word.starts_with(b"%"),
    }
}

/// Returns the first word and those after it.
pub fn first_word<'b, 'a>(words: &'b [&'a [u8]]) -> Option<(&'a [u8], &'b [&'a [u8]])>
    ensures { MatchOption result (texts words.now ≡ [])
        (λ found. texts words.now ≡ found.0.now ∷ texts found.1.now) }
{
    let (word, others) = words.split_first()?;
    Some((*word, others))
}

/// Returns the first line and those after it.
pub fn first_line<'b, 'a>(lines: &'b [Line<'a>]) -> Option<(&'b Line<'a>, &'b [Line<'a>])>
    ensures { MatchOption result (lines_in lines.now ≡ [])
        (λ found. lines_in lines.now ≡ words_in found.0.now ∷ lines_in found.1.now) }
{
    lines.split_first()
}
