//! The fast path for data lines: indices, and integers that fit in 64 bits, of at most 19 digits each.
//!
//! The functions take a byte offset into one text, which takes half as many instructions as a slice for each number.

ghost use Rattle.std.specs.Prelude.{◌≡◌, ◌≢◌, ◌≤◌, true, MatchOption, length, drop};
ghost use Rattle.std.specs.Str.Parse.{without_leading_sign};
ghost use Rattle.sparse_parser.specs.Bytes.{is_blank, after};
ghost use Rattle.sparse_parser.specs.InnerLines.{ends_word};
ghost use Rattle.sparse_parser.specs.InnerIntegers.{IsIndexAt, IsEndAt, IsLastIndex, IsLastNumber};
ghost use Rattle.sparse_parser.specs.InnerIntegers.{IsIntegerLine, IsPatternLine, IsValueLine};

use crate::digit_runs::{digits_at, long_digits_at};
use crate::lines::{ends_line, ends_word, is_blank, text_from};
use crate::numbers::{starts_with_minus, with_sign};

/// Parses the line at an offset as two indices and an integer. Returns the row, the column, the value and the offset of
/// the line's end, or `None` if the fast path does not apply.
#[inline(always)]
pub fn integer_line(text: &[u8], from: usize) -> Option<(usize, usize, i64, usize)>
    requires { from ≤ length text.now }
    ensures inside { MatchOption result (Unit {0}) (λ line. line.3 ≤ length text.now) }
    ensures line { MatchOption result (Unit {0})
        (λ line. IsIntegerLine (drop from text.now) line.0 line.1 line.2 (drop line.3 text.now)) }
{
    let (row, at) = index_at(text, from)?;
    let (col, at) = index_at(text, at)?;
    let (value, end) = value_line(text, at)?;
    Some((row, col, value, end))
}

/// Parses the line at an offset as two indices. Returns the row, the column and the offset of the line's end, or `None`
/// if the fast path does not apply.
#[inline(always)]
pub fn pattern_line(text: &[u8], from: usize) -> Option<(usize, usize, usize)>
    requires { from ≤ length text.now }
    ensures inside { MatchOption result (Unit {0}) (λ line. line.2 ≤ length text.now) }
    ensures line { MatchOption result (Unit {0})
        (λ line. IsPatternLine (drop from text.now) line.0 line.1 (drop line.2 text.now)) }
{
    let (row, at) = index_at(text, from)?;
    let (col, end) = last_index(text, at)?;
    Some((row, col, end))
}

/// Parses the line at an offset as an integer, after blanks. Returns the value and the offset of the line's end, or
/// `None` if the fast path does not apply.
#[inline(always)]
pub fn value_line(text: &[u8], from: usize) -> Option<(i64, usize)>
    requires { from ≤ length text.now }
    ensures inside { MatchOption result (Unit {0}) (λ line. line.1 ≤ length text.now) }
    ensures line { MatchOption result (Unit {0})
        (λ line. IsValueLine (drop from text.now) line.0 (drop line.1 text.now)) }
{
    let start = skip_blanks(text, from);
    let (number, end) = last_number(text, after_sign_at(text, start))?;
    let value = with_sign(number, starts_with_minus(text_from(text, start)))?;
    Some((value, end))
}

// The value of at most 19 digits at an offset, and the offset of the line's end. One digit followed by LF is tested
// first, since small values are common.
#[inline(always)]
fn last_number(text: &[u8], from: usize) -> Option<(usize, usize)>
    requires { from ≤ length text.now }
    ensures inside { MatchOption result (Unit {0}) (λ found. found.1 ≤ length text.now) }
    ensures number { MatchOption result (Unit {0})
        (λ found. IsLastNumber (drop from text.now) found.0 (drop found.1 text.now)) }
{
    if text.len() - from > 1 && text[from].is_ascii_digit() && text[from + 1] == b'\n' {
        let number = usize::from(text[from] - b'0');
        return Some((number, from + 1));
    }
    let (number, end) = long_digits_at(text, from);
    if end == from {
        return None;
    }
    let end = number_end(text, end)?;
    Some((number, end))
}

// The index at an offset, after blanks, and the offset after it. A single blank after the index, the most frequent
// case, is skipped too.
#[inline(always)]
fn index_at(text: &[u8], from: usize) -> Option<(usize, usize)>
    requires { from ≤ length text.now }
    ensures inside { MatchOption result (Unit {0}) (λ found. found.1 ≤ length text.now) }
    ensures index { MatchOption result (Unit {0})
        (λ found. IsIndexAt (drop from text.now) found.0 (drop found.1 text.now)) }
{
    let (number, end) = digits_at(text, from);
    if end > from && end < text.len() && is_blank(text[end]) {
        return Some((number, end + 1));
    }
    let (number, end) = spaced_index_at(text, from);
    if end == from {
        return None;
    }
    Some((number, end))
}

// The index at an offset, after blanks, and the offset of the line's end. Most often LF follows the index directly.
#[inline(always)]
fn last_index(text: &[u8], from: usize) -> Option<(usize, usize)>
    requires { from ≤ length text.now }
    ensures inside { MatchOption result (Unit {0}) (λ found. found.1 ≤ length text.now) }
    ensures index { MatchOption result (Unit {0})
        (λ found. IsLastIndex (drop from text.now) found.0 (drop found.1 text.now)) }
{
    let (number, end) = digits_at(text, from);
    if end > from && end < text.len() && text[end] == b'\n' {
        return Some((number, end));
    }
    let (number, behind) = spaced_index_at(text, from);
    if behind == from {
        return None;
    }
    let end = line_end(text, behind)?;
    Some((number, end))
}

// The index at an offset, after any number of blanks, and the offset after it, which is `from` if there is no index.
// Two words are returned in registers; an option would not be.
#[cold]
fn spaced_index_at(text: &[u8], from: usize) -> (usize, usize)
    requires { from ≤ length text.now }
    ensures inside { result.1 ≤ length text.now }
    ensures index { result.1 ≢ from
        → IsIndexAt (drop from text.now) result.0 (drop result.1 text.now) }
{
    let start = skip_blanks(text, from);
    let (number, end) = digits_at(text, start);
    if end == start || !ends_word(text_from(text, end)) {
        return (0, from);
    }
    (number, end)
}

// The offset of the first byte that is not a blank, from an offset on.
#[inline(always)]
fn skip_blanks(text: &[u8], from: usize) -> usize
    requires { from ≤ length text.now }
    ensures inside { result ≤ length text.now }
    ensures rest { drop result text.now ≡ after is_blank (drop from text.now) }
{
    let mut at = from;
    while at < text.len() && is_blank(text[at]) {
        at += 1;
    }
    at
}

// The offset after the sign at an offset, or that offset if there is no sign.
#[inline(always)]
fn after_sign_at(text: &[u8], at: usize) -> usize
    requires { at ≤ length text.now }
    ensures inside { result ≤ length text.now }
    ensures rest { drop result text.now ≡ without_leading_sign (drop at text.now) }
{
    let is_signed = at < text.len() && ((text[at] == b'+') | (text[at] == b'-'));
    at + usize::from(is_signed)
}

// The offset of the line's end, if a word ends at an offset and only blanks come before the line's end.
#[inline(always)]
fn number_end(text: &[u8], from: usize) -> Option<usize>
    requires { from ≤ length text.now }
    ensures inside { MatchOption result (Unit {0}) (λ end. end ≤ length text.now) }
    ensures word { MatchOption result (Unit {0})
        (λ end. ends_word (drop from text.now) ≡ true) }
    ensures line { MatchOption result (Unit {0})
        (λ end. IsEndAt (drop from text.now) (drop end text.now)) }
{
    let rest = text_from(text, from);
    if ends_line(rest) {
        return Some(from);
    }
    if !ends_word(rest) {
        return None;
    }
    line_end(text, from)
}

// The offset of the line's end, if only blanks come before it.
#[cold]
fn line_end(text: &[u8], from: usize) -> Option<usize>
    requires { from ≤ length text.now }
    ensures inside { MatchOption result (Unit {0}) (λ end. end ≤ length text.now) }
    ensures line { MatchOption result (Unit {0})
        (λ end. IsEndAt (drop from text.now) (drop end text.now)) }
{
    let end = skip_blanks(text, from);
    if ends_line(text_from(text, end)) {
        Some(end)
    } else {
        None
    }
}
