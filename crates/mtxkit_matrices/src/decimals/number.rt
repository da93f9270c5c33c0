//! Multiplies a word's number by a power of ten, exactly.

ghost use Rattle.std.specs.Prelude.{◌≡◌, IfOk, IfErr, IsTrue, MatchResult};
ghost use Rattle.std.specs.Int.{w128};
ghost use Rattle.std.specs.Int.RustNames.{FitsSigned};
ghost use Rattle.sparse_parser.specs.Grammar.{is_exponent, is_number};
ghost use Rattle.mtxkit_matrices.specs.Decimals.{IsMisfit, IsScaled, places_behind};
ghost use Rattle.mtxkit_matrices.specs.Decimals.{mantissa_of, exponent_of};
ghost use Rattle.mtxkit_matrices.specs.declared.decimals.number.Misfit.TheVariants.{Range};
ghost use Rattle.mtxkit_matrices.specs.InnerPowers.{HasPower, signed};

use crate::decimals::magnitude::{Power, magnitude};
use crate::decimals::mantissa::read_digits;
use sparse_parser::lines::split_prefix;
use sparse_parser::numbers::{after_sign, index, starts_with_minus};

/// Why a number times a power of ten is refused.
#[derive(Clone, Copy, Debug)]
pub enum Misfit {
    /// It is not an integer. The least exponent of ten that makes it one, if that is at least 0 and below 2^32.
    Fraction(Option<u32>),
    /// It is an integer that does not fit in 128 bits.
    Range,
}

/// Returns the value of a word times `10^scale`, if it is an integer of 128 bits.
pub(crate) fn scaled(word: &[u8], scale: u32) -> Result<i128, Misfit>
    requires { IsTrue (is_number word.now) }
    ensures value { IfOk result (IsScaled scale word.now) }
    ensures refused { IfErr result (λ why. IsMisfit why scale word.now) }
{
    let (mantissa, exponent) = split_exponent(word);
    let behind = places_behind(mantissa);
    match magnitude(read_digits(mantissa), behind, scale, power(exponent)) {
        Ok(magnitude) => with_sign(magnitude, starts_with_minus(word)),
        Err(why) => Err(why),
    }
}

// Splits a number, without its sign, into its mantissa and its exponent.
fn split_exponent(word: &[u8]) -> (&[u8], &[u8])
    ensures mantissa { result.0.now ≡ mantissa_of word.now }
    ensures exponent { result.1.now ≡ exponent_of word.now }
{
    split_prefix(after_sign(word), |byte| byte != b'e' && byte != b'E')
}

// Returns the number of digits after the point of a mantissa.
fn places_behind(mantissa: &[u8]) -> usize
    ensures { result ≡ places_behind mantissa.now }
{
    let (_, rest) = split_prefix(mantissa, |byte| byte != b'.');
    rest.len().saturating_sub(1)
}

// Returns the exponent of ten that the text of an exponent gives; an empty one is 0.
fn power(exponent: &[u8]) -> Power
    requires { IsTrue (is_exponent exponent.now) }
    ensures { HasPower exponent.now result.is_negative result.size }
{
    match exponent {
        [] => Power {
            is_negative: false,
            size: Some(0),
        },
        [_, power @ ..] => Power {
            is_negative: starts_with_minus(power),
            size: index(after_sign(power)),
        },
    }
}

// Returns the number with this magnitude and sign, or `Range` if it exceeds 128 bits.
fn with_sign(magnitude: u128, is_negative: bool) -> Result<i128, Misfit>
    ensures { MatchResult result (λ value. value ≡ signed is_negative magnitude)
        (λ why. (why ≡ Range) × (FitsSigned w128 (signed is_negative magnitude) → ⊥)) }
{
    match i128::try_from(magnitude) {
        Ok(value) => Ok(if is_negative { -value } else { value }),
        Err(_) if is_negative && magnitude == 1 << 127 => Ok(i128::MIN),
        Err(_) => Err(Misfit::Range),
    }
}
