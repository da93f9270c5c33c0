//! Numbers at the start of a text.

ghost use Rattle.std.specs.Prelude.{◌≡◌, ◌<◌, ◌+◌, ◌*◌, ◌^◌, ◌||◌, IsTrue, FitsSigned, count_by};
ghost use Rattle.std.specs.Prelude.{pos, if◌then◌else◌, MatchOption};
ghost use Rattle.std.specs.Option.{SomeIff};
ghost use Rattle.std.specs.List.{list_all, list_any};
ghost use Rattle.std.specs.Char.{is_ascii_digit};
ghost use Rattle.std.specs.Str.Parse.{without_leading_sign, digits_value, digits_value_after};
ghost use Rattle.std.specs.Str.Parse.{signed_digits_value, starts_with_minus};
ghost use Rattle.std.specs.Int.{w128};
ghost use lib.IntN.{neg_ℤ};
ghost use Rattle.sparse_parser.specs.Grammar.{is_index, is_integer, is_mantissa, is_exponent};
ghost use Rattle.sparse_parser.specs.Grammar.{is_number};
ghost use Rattle.sparse_parser.specs.Bytes.{leading, after, is_exponent_letter, is_point};

use crate::digit_runs::{SHORT, first_digits_at};
use crate::lines::{split_prefix, text_from};

/// Parses all leading digits. Returns their value, or `None` if it exceeds 64 bits, and the rest of the text.
pub fn leading_number(text: &[u8]) -> (Option<usize>, &[u8])
    ensures number { SomeIff result.0
        (digits_value 10 (leading is_ascii_digit text.now) < 2 ^ 64)
        (digits_value 10 (leading is_ascii_digit text.now)) }
    ensures rest { result.1.now ≡ after is_ascii_digit text.now }
{
    let (number, end) = first_digits_at(text, 0);
    let rest = text_from(text, end);
    if end == SHORT {
        return long_number(number, rest);
    }
    (Some(number), rest)
}

// The same for a text whose digits continue a number with the value `before`.
#[cold]
fn long_number(before: usize, text: &[u8]) -> (Option<usize>, &[u8])
    ensures number { SomeIff result.0
        (digits_value_after 10 before (leading is_ascii_digit text.now) < 2 ^ 64)
        (digits_value_after 10 before (leading is_ascii_digit text.now)) }
    ensures rest { result.1.now ≡ after is_ascii_digit text.now }
{
    let mut number = before;
    let mut at = 0;
    while at < text.len() && text[at].is_ascii_digit() {
        match with_digit(number, text[at] - b'0') {
            Some(longer) => number = longer,
            None => return (None, after_digits(&text[at..])),
        }
        at += 1;
    }
    (Some(number), &text[at..])
}

// The value of a number with one more digit, if it fits in 64 bits.
fn with_digit(number: usize, digit: u8) -> Option<usize>
    ensures { SomeIff result (number * 10 + digit < 2 ^ 64) (number * 10 + digit) }
{
    number.checked_mul(10)?.checked_add(usize::from(digit))
}

// The text without its leading digits.
fn after_digits(text: &[u8]) -> &[u8]
    ensures { result.now ≡ after is_ascii_digit text.now }
{
    let (_, rest) = split_prefix(text, |byte| byte.is_ascii_digit());
    rest
}

/// Returns whether a text starts with a minus.
#[inline(always)]
pub fn starts_with_minus(text: &[u8]) -> bool
    ensures { result ≡ starts_with_minus text.now }
{
    match text {
        [first, ..] => *first == b'-',
        [] => false,
    }
}

/// Returns a number or its negative, or `None` if the number exceeds `i64`.
///
/// The sign is selected without a branch, since signs are hard to predict.
#[inline(always)]
pub fn with_sign(number: usize, is_negative: bool) -> Option<i64>
    ensures { MatchOption result (Unit {0})
        (λ value. value ≡ (if is_negative then neg_ℤ (pos number) else pos number)) }
{
    match i64::try_from(number) {
        Ok(value) => Some(if is_negative { -value } else { value }),
        Err(_) => None,
    }
}

/// Returns the value of an integer, or `None` if it exceeds `i128`.
#[cold]
pub fn integer(word: &[u8]) -> Option<i128>
    requires { IsTrue (is_integer word.now) }
    ensures { SomeIff result (FitsSigned w128 (signed_digits_value 10 word.now))
        (signed_digits_value 10 word.now) }
{
    std::str::from_utf8(word).unwrap().parse().ok()
}

/// Returns whether a word is a number: an optional sign, digits with at most one point, and an optional exponent.
#[tactic(auto, unfolding(crate::specs::Grammar::is_number))]
pub fn is_number(word: &[u8]) -> bool
    ensures { result ≡ is_number word.now }
{
    let (mantissa, exponent) = split_prefix(after_sign(word), |byte| !is_exponent_letter(byte));
    is_mantissa(mantissa) && is_exponent(exponent)
}

// Whether a word consists of digits with at most one point, and has at least one digit.
fn is_mantissa(word: &[u8]) -> bool
    ensures { result ≡ is_mantissa word.now }
{
    is_unscaled(word) && has_digit(word) && points(word) < 2
}

// Whether all bytes are digits or points.
fn is_unscaled(word: &[u8]) -> bool
    ensures { result ≡ list_all (λ b. is_ascii_digit b || is_point b) word.now }
{
    word.iter()
        .all(|byte| byte.is_ascii_digit() || *byte == b'.')
}

fn has_digit(word: &[u8]) -> bool
    ensures { result ≡ list_any is_ascii_digit word.now }
{
    word.iter().any(|byte| byte.is_ascii_digit())
}

fn points(word: &[u8]) -> usize
    ensures { result ≡ count_by is_point word.now }
{
    word.iter().filter(|byte| **byte == b'.').count()
}

// Whether a text is empty or an exponent: a letter and an integer.
fn is_exponent(text: &[u8]) -> bool
    ensures { result ≡ is_exponent text.now }
{
    match text {
        [] => true,
        [_, power @ ..] => is_index(after_sign(power)),
    }
}

fn is_exponent_letter(byte: u8) -> bool
    ensures { result ≡ is_exponent_letter byte }
{
    byte == b'e' || byte == b'E'
}

/// Returns the text without its leading sign, if it has one.
#[inline(always)]
pub fn after_sign(text: &[u8]) -> &[u8]
    ensures { result.now ≡ without_leading_sign text.now }
{
    let is_signed = match text {
        [first, ..] => (*first == b'+') | (*first == b'-'),
        [] => false,
    };
    &text[usize::from(is_signed)..]
}

/// Returns whether a word is an index, a nonempty run of digits.
pub fn is_index(word: &[u8]) -> bool
    ensures { result ≡ is_index word.now }
{
    !word.is_empty() && all_digits(word)
}

/// Returns the value of an index, or `None` if it exceeds `usize`.
pub fn index(word: &[u8]) -> Option<usize>
    requires { IsTrue (is_index word.now) }
    ensures { SomeIff result (digits_value 10 word.now < 2 ^ 64) (digits_value 10 word.now) }
{
    let (number, _) = leading_number(word);
    number
}

fn all_digits(word: &[u8]) -> bool
    ensures { result ≡ list_all is_ascii_digit word.now }
{
    word.iter().all(|byte| byte.is_ascii_digit())
}
