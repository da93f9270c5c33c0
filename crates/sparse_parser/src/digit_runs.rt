//! Runs of digits at a byte offset of a text.

ghost use Rattle.std.specs.Prelude.{◌≤◌, ◌+◌, MatchOption, length, drop};
ghost use Rattle.sparse_parser.specs.InnerNumbers.{IsNumberRead, HasStopped};

use crate::lines::text_from;
use core::dec2flt::read_digits;

/// 19 digits always fit in 64 bits.
pub const SHORT: usize = 19;

/// Returns the value of at most 19 digits at an offset, and the offset after them.
#[inline(always)]
pub fn digits_at(text: &[u8], from: usize) -> (usize, usize)
    requires { from ≤ length text.now }
    ensures inside { result.1 ≤ length text.now }
    ensures read { IsNumberRead (drop from text.now) result.0 (drop result.1 text.now) }
{
    if from >= 5 && text.len() - from >= 7 {
        if let Some((number, end)) = few_digits_at(text, from) {
            return (number, end);
        }
    }
    many_digits_at(text, from)
}

// The value of at most six digits at an offset, and the offset after them, or `None` if there are more.
//
// No branch depends on the number of digits: where fewer than eight bytes are left in a slice of at least twelve,
// `read_digits` has no loop. The slice therefore begins five bytes before the digits.
#[inline(always)]
fn few_digits_at(text: &[u8], from: usize) -> Option<(usize, usize)>
    requires before { 5 ≤ from }
    requires behind { from + 7 ≤ length text.now }
    ensures inside { MatchOption result (Unit {0}) (λ found. found.1 ≤ length text.now) }
    ensures read { MatchOption result (Unit {0})
        (λ found. IsNumberRead (drop from text.now) found.0 (drop found.1 text.now)) }
{
    let before = text_from(text, from - 5);
    let (window, _) = before.split_at(12);
    let (end, number) = read_digits(window, 5, 0);
    if end < 12 {
        Some((number as usize, from + (end - 5)))
    } else {
        None
    }
}

// The value of at most 19 digits at an offset, and the offset after them, where more than six digits may follow.
#[cold]
fn many_digits_at(text: &[u8], from: usize) -> (usize, usize)
    requires { from ≤ length text.now }
    ensures inside { result.1 ≤ length text.now }
    ensures read { IsNumberRead (drop from text.now) result.0 (drop result.1 text.now) }
{
    long_digits_at(text, from)
}

/// Returns the same as [`digits_at`], for numbers that are often long: up to 24 bytes are read, eight at a time.
#[inline(always)]
pub fn long_digits_at(text: &[u8], from: usize) -> (usize, usize)
    requires { from ≤ length text.now }
    ensures inside { result.1 ≤ length text.now }
    ensures read { IsNumberRead (drop from text.now) result.0 (drop result.1 text.now) }
{
    let rest = text_from(text, from);
    if rest.len() >= 24 {
        let (first, _) = rest.split_at(24);
        let (count, number) = read_digits(first, 0, 0);
        if count <= SHORT {
            return (number as usize, from + count);
        }
    }
    first_digits_at(text, from)
}

/// Returns the value of at most 19 digits at an offset, read one by one, and the offset after them.
#[inline(always)]
pub fn first_digits_at(text: &[u8], from: usize) -> (usize, usize)
    requires { from ≤ length text.now }
    ensures inside { result.1 ≤ length text.now }
    ensures read { IsNumberRead (drop from text.now) result.0 (drop result.1 text.now) }
    ensures stopped { HasStopped (drop from text.now) (drop result.1 text.now) }
{
    let end = from + (text.len() - from).min(SHORT);
    let mut number = 0;
    let mut at = from;
    while at < end && text[at].is_ascii_digit() {
        number = number * 10 + usize::from(text[at] - b'0');
        at += 1;
    }
    (number, at)
}
