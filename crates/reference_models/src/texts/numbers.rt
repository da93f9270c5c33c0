//! The words of numbers.
//!
//! The tests of words repeat those of `numbers.rt` of `sparse_parser` on purpose: tests compare the parser with this
//! reference model. It shares only `split_prefix` and the values of words with the parser.

ghost use Rattle.std.specs.Prelude.{◌≡◌, ◌||◌, IsTrue, count_by, true};
ghost use Rattle.std.specs.List.{list_all, list_any};
ghost use Rattle.std.specs.Char.{is_ascii_digit};
ghost use Rattle.std.specs.Str.Parse.{without_leading_sign};
ghost use Rattle.sparse_parser.specs.Bytes.{is_point, is_exponent_letter};
ghost use Rattle.sparse_parser.specs.Grammar.{is_index, is_integer, is_mantissa, is_exponent};
ghost use Rattle.sparse_parser.specs.Grammar.{is_number};
ghost use Rattle.sparse_parser.specs.Meaning.{number_of, integer_of};

use sparse_parser::error::MatrixMarketErrorKind;
use sparse_parser::lines::split_prefix;
use sparse_parser::numbers;

/// Whether a word is a run of digits.
pub fn is_index(word: &[u8]) -> bool
    ensures { result ≡ is_index word.now }
{
    !word.is_empty() && all_digits(word)
}

fn all_digits(word: &[u8]) -> bool
    ensures { result ≡ list_all is_ascii_digit word.now }
{
    word.iter().all(|byte| byte.is_ascii_digit())
}

fn is_integer(word: &[u8]) -> bool
    ensures { result ≡ is_integer word.now }
{
    is_index(without_sign(word))
}

fn without_sign(word: &[u8]) -> &[u8]
    ensures { result.now ≡ without_leading_sign word.now }
{
    match word {
        [b'+' | b'-', digits @ ..] => digits,
        _ => word,
    }
}

/// Whether a word is a number.
#[tactic(auto, unfolding(sparse_parser::specs::Grammar::is_number))]
pub fn is_number(word: &[u8]) -> bool
    ensures { result ≡ is_number word.now }
{
    let (mantissa, exponent) = split_prefix(without_sign(word), |byte| !is_exponent_letter(byte));
    is_mantissa(mantissa) && is_exponent(exponent)
}

fn is_exponent_letter(byte: u8) -> bool
    ensures { result ≡ is_exponent_letter byte }
{
    byte == b'e' || byte == b'E'
}

fn is_mantissa(word: &[u8]) -> bool
    ensures { result ≡ is_mantissa word.now }
{
    all_digits_or_points(word) && has_digit(word) && points(word) < 2
}

fn all_digits_or_points(word: &[u8]) -> bool
    ensures { result ≡ list_all (λ b. is_ascii_digit b || is_point b) word.now }
{
    word.iter()
        .all(|byte| byte.is_ascii_digit() || *byte == b'.')
}

fn has_digit(word: &[u8]) -> bool
    ensures { result ≡ list_any is_ascii_digit word.now }
{
    word.iter().any(|byte| byte.is_ascii_digit())
}

fn points(word: &[u8]) -> usize
    ensures { result ≡ count_by is_point word.now }
{
    word.iter().filter(|byte| **byte == b'.').count()
}

fn is_exponent(text: &[u8]) -> bool
    ensures { result ≡ is_exponent text.now }
{
    match text {
        [] => true,
        [_, power @ ..] => is_integer(power),
    }
}

/// Returns the number of an index, where it is a usize.
#[tactic(auto, unfolding(sparse_parser::specs::Meaning::number_of))]
pub fn number(word: &[u8]) -> Result<usize, MatrixMarketErrorKind>
    requires { IsTrue (is_index word.now) }
    ensures { result ≡ number_of word.now }
{
    match numbers::index(word) {
        Some(number) => Ok(number),
        None => Err(MatrixMarketErrorKind::ParsingError),
    }
}

/// Returns the integer that a word writes, where it is an i128.
#[tactic(auto, unfolding(sparse_parser::specs::Meaning::integer_of))]
pub fn integer(word: &[u8]) -> Result<i128, MatrixMarketErrorKind>
    ensures { result ≡ integer_of word.now }
{
    if !is_integer(word) {
        return Err(MatrixMarketErrorKind::ParsingError);
    }
    match numbers::integer(word) {
        Some(number) => Ok(number),
        None => Err(MatrixMarketErrorKind::ParsingError),
    }
}
