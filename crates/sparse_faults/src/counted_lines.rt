//! Finds the next line of a text that is neither blank nor a comment, and its number.

ghost use Rattle.std.specs.Prelude.{◌≡◌, ◌+◌, ◌-◌, ◌<◌, ◌^◌, [], IfOk, IfErr, length, true, max};
ghost use Rattle.sparse_parser.specs.InnerReading.{words_of};
ghost use Rattle.sparse_faults.specs.InnerFirstFaults.{is_skipped, AreSkipped, IsFirstLine};

use crate::lines::{after_end, is_comment};
use sparse_parser::lines::{next_word, split_line};

/// A line of a text, its number, and the text below it.
#[derive(Clone, Copy)]
pub(crate) struct Numbered<'a> {
    pub line: &'a [u8],
    pub number: usize,
    pub below: &'a [u8],
}

/// Returns the first line of a text that is not blank, and no comment if `skips_comments` is set. `first` is the number
/// of the text's first line. If there is no such line, returns the number of the line after the last.
pub(crate) fn first_content(
    text: &[u8],
    first: usize,
    skips_comments: bool,
) -> Result<Numbered<'_>, usize>
    requires { first + length text.now < 2 ^ 64 }
    ensures found { IfOk result (λ found. IsFirstLine skips_comments text.now first
        found.line.now found.number found.below.now) }
    ensures none { IfErr result (λ end. AreSkipped skips_comments text.now first end []) }
{
    let mut rest = text;
    let mut number = first;
    while !rest.is_empty() {
        let (line, others) = split_line(rest);
        let below = after_end(others);
        if !is_skipped(skips_comments, line) {
            return Ok(Numbered {
                line,
                number,
                below,
            });
        }
        rest = below;
        number += 1;
    }
    Err(number)
}

// Returns whether a line is blank, or a comment if the flag is set.
fn is_skipped(skips_comments: bool, line: &[u8]) -> bool
    ensures { result ≡ is_skipped skips_comments (words_of line.now) }
{
    match next_word(line) {
        None => true,
        Some((word, _)) => skips_comments && is_comment(word),
    }
}

/// Returns the number of the last line of a text, given the number of the line after it. An empty text has one line.
pub(crate) fn last_line(end: usize) -> usize
    requires { 0 < end }
    ensures { result ≡ max (end - 1) 1 }
{
    if end > 1 { end - 1 } else { 1 }
}
