//! Parsing a data line into its numbers.

ghost use Rattle.std.specs.Prelude.{◌≡◌, IsTrue, false, true, MatchOption, Ok};
ghost use Rattle.sparse_parser.specs.declared.data_lines.Found.TheVariants as found;
ghost use Rattle.sparse_parser.specs.Bytes.{is_blank, leading, after};
ghost use Rattle.sparse_parser.specs.InnerBytes.{is_solid};
ghost use Rattle.sparse_parser.specs.Grammar.{is_integer, is_number, is_entry};
ghost use Rattle.sparse_parser.specs.Meaning.{integer_of, number_of};
ghost use Rattle.sparse_parser.specs.InnerReading.{found as found_read, line_words};
ghost use Rattle.sparse_parser.specs.InnerLines.{is_plain, is_whole, IsNumber};
ghost use Rattle.sparse_parser.specs.InnerLines.{IsFound, IsLine, StartsWord};

use crate::error::Cause;
use crate::lines::{after_blanks, ends_line, ends_word, split_solid};
use crate::numbers::{
    after_sign, integer, is_number, leading_number, starts_with_minus, with_sign,
};

/// The kinds of numbers.
#[derive(Clone, Copy)]
pub enum NumberKind {
    /// Digits alone.
    Index,
    /// A sign and digits.
    Signed,
    /// Digits with a point, an exponent or both.
    Other,
}

/// A number of a data line: its word, and the value of its digits if it is an integer and they fit in 64 bits.
#[derive(Clone, Copy)]
pub struct Number<'a> {
    word: &'a [u8],
    digits: Option<usize>,
    kind: NumberKind,
}

/// The first word of a line, or the line's end.
#[derive(Clone, Copy)]
pub enum Found<'a> {
    /// A number, and the text after it.
    Number(Number<'a>, &'a [u8]),
    /// No word is left on the line. The text from the line's end on.
    End(&'a [u8]),
    /// A word that is not a number.
    Fault,
}

/// The numbers of a data line.
#[derive(Clone, Copy)]
pub enum Line<'a> {
    One(Number<'a>),
    Two(Number<'a>, Number<'a>),
    Three(Number<'a>, Number<'a>, Number<'a>),
    Four(Number<'a>, Number<'a>, Number<'a>, Number<'a>),
}

impl Number<'_> {
    /// Returns whether the number is an index, a run of digits.
    #[inline(always)]
    pub fn is_index(&self) -> bool
        ensures { result ≡ is_plain self.now.kind }
    {
        matches!(self.kind, NumberKind::Index)
    }

    /// Returns the value of an index, or an error if it exceeds `usize`.
    #[inline(always)]
    pub fn index(&self) -> Result<usize, Cause>
        requires number { IsNumber self.now }
        requires index { is_plain self.now.kind ≡ true }
        ensures { found_read result ≡ number_of self.now.word.now }
    {
        self.digits.ok_or(Cause::IndexTooLarge)
    }

    /// Returns the value of an integer, or an error if the number is not an integer or exceeds `i128`.
    #[tactic(auto, unfolding(crate::specs::Meaning::integer_of))]
    #[inline(always)]
    pub fn integer(&self) -> Result<i128, Cause>
        requires { IsNumber self.now }
        ensures { found_read result ≡ integer_of self.now.word.now }
    {
        match (self.kind, self.short_integer()) {
            (NumberKind::Other, _) => Err(Cause::NotAnI128),
            (_, Some(value)) => Ok(i128::from(value)),
            (_, None) => long_integer(self.word),
        }
    }

    // The value of an integer, if its digits fit in 63 bits.
    #[inline(always)]
    fn short_integer(&self) -> Option<i64>
        requires { IsNumber self.now }
        ensures { MatchOption result (Unit {0}) (λ value. IsTrue (is_whole self.now.kind)
            → integer_of self.now.word.now ≡ Ok value) }
    {
        let digits = self.digits?;
        with_sign(digits, starts_with_minus(self.word))
    }
}

/// Parses the first line of a text as a data line. Returns its numbers and the text from the line's end on, or `None`
/// if it is not a data line.
#[tactic(auto, unfolding(crate::specs::Grammar::is_entry))]
#[inline(never)]
pub fn data_line(text: &[u8]) -> Option<(Line<'_>, &[u8])>
    ensures { MatchOption result (is_entry (line_words text.now) ≡ false)
        (λ found. IsLine text.now found.0 found.1.now) }
{
    let (a, rest) = match next_number(text) {
        Found::Number(a, rest) => (a, rest),
        Found::End(_) | Found::Fault => return None,
    };
    let (b, rest) = match next_number(rest) {
        Found::Number(b, rest) => (b, rest),
        Found::End(after) => return Some((Line::One(a), after)),
        Found::Fault => return None,
    };
    let (c, rest) = match next_number(rest) {
        Found::Number(c, rest) => (c, rest),
        Found::End(after) => return Some((Line::Two(a, b), after)),
        Found::Fault => return None,
    };
    if !a.is_index() || !b.is_index() {
        return None;
    }
    let (d, rest) = match next_number(rest) {
        Found::Number(d, rest) => (d, rest),
        Found::End(after) => return Some((Line::Three(a, b, c), after)),
        Found::Fault => return None,
    };
    match next_number(rest) {
        Found::End(after) => Some((Line::Four(a, b, c, d), after)),
        Found::Number(_, _) | Found::Fault => None,
    }
}

// The first word of a line, or the line's end, after leading blanks.
fn next_number(text: &[u8]) -> Found<'_>
    ensures { IsFound text.now result }
{
    if let Some((number, rest)) = leading_integer(text) {
        return Found::Number(number, rest);
    }
    let text = after_blanks(text);
    if ends_line(text) {
        return Found::End(text);
    }
    other_number(text)
}

// The first word of a line if it is an integer, and the text after it. Leading blanks are skipped.
#[inline(always)]
fn leading_integer(text: &[u8]) -> Option<(Number<'_>, &[u8])>
    ensures { MatchOption result (is_integer (leading is_solid (after is_blank text.now)) ≡ false)
        (λ x. IsFound text.now (found.Number x.0 x.1)) }
{
    let text = after_blanks(text);
    let unsigned = after_sign(text);
    let (digits, rest) = leading_number(unsigned);
    if rest.len() == unsigned.len() || !ends_word(rest) {
        return None;
    }
    let word = &text[..text.len() - rest.len()];
    let kind = if unsigned.len() == text.len() {
        NumberKind::Index
    } else {
        NumberKind::Signed
    };
    Some((Number { word, digits, kind }, rest))
}

// The first word of a text, which is not an integer, as a number with a point or an exponent.
#[cold]
fn other_number(text: &[u8]) -> Found<'_>
    requires start { StartsWord text.now }
    requires no_integer { is_integer (leading is_solid text.now) ≡ false }
    ensures { IsFound text.now result }
{
    let (word, rest) = split_solid(text);
    if !is_number(word) {
        return Found::Fault;
    }
    let number = Number {
        word,
        digits: None,
        kind: NumberKind::Other,
    };
    Found::Number(number, rest)
}

// The value of an integer whose digits exceed 63 bits.
#[tactic(auto, unfolding(crate::specs::Meaning::integer_of))]
#[cold]
fn long_integer(word: &[u8]) -> Result<i128, Cause>
    requires { IsTrue (is_integer word.now) }
    ensures { found_read result ≡ integer_of word.now }
{
    integer(word).ok_or(Cause::NotAnI128)
}
