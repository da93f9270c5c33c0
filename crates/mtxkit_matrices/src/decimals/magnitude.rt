//! Multiplies natural numbers by powers of ten.

ghost use Rattle.std.specs.Prelude.{◌≡◌, ◌≢◌, ◌<◌, ◌+◌, ◌*◌, ◌^◌, ℕ, nat_eq, IfOk, IfErr, MatchResult};
ghost use Rattle.std.specs.Option.{SomeIff};
ghost use Rattle.mtxkit_matrices.specs.InnerDigits.{IsTrimmed};
ghost use Rattle.mtxkit_matrices.specs.InnerPowers.{HasNoMagnitude, IsMagnitude, extreme, up};
ghost use Rattle.mtxkit_matrices.specs.declared.decimals.number.Misfit.TheVariants.{Range};

use crate::decimals::mantissa::{Digits, raised};
use crate::decimals::number::Misfit;

/// An exponent of ten: its sign, and its magnitude if that fits in 64 bits.
#[derive(Clone, Copy)]
pub(crate) struct Power {
    pub is_negative: bool,
    pub size: Option<usize>,
}

/// Returns the number with these digits, of which `behind` are after the point, times `10^scale` and the power.
pub(crate) fn magnitude(
    digits: Digits,
    behind: usize,
    scale: u32,
    power: Power,
) -> Result<u128, Misfit>
    requires zeros { digits.zeros < 2 ^ 63 }
    requires behind { behind < 2 ^ 63 }
    ensures value { (total size : ℕ) → IsTrimmed total digits.part digits.zeros
        → SomeIff power.size (size < 2 ^ 64) size
        → IfOk result (IsMagnitude total behind scale power.is_negative size) }
    ensures refused { (total size : ℕ) → IsTrimmed total digits.part digits.zeros
        → SomeIff power.size (size < 2 ^ 64) size
        → IfErr result (λ why. HasNoMagnitude why total behind scale power.is_negative size) }
{
    if is_zero(digits.part) {
        return Ok(0);
    }
    match power.size {
        Some(size) => shifted(digits, behind, scale, power.is_negative, size),
        None => Err(extreme(power.is_negative)),
    }
}

// Returns whether a part is zero.
fn is_zero(part: Option<u128>) -> bool
    ensures { (value : ℕ) → SomeIff part (value < 2 ^ 128) value → result ≡ nat_eq value 0 }
{
    match part {
        Some(part) => part == 0,
        None => false,
    }
}

// As `magnitude`, for digits that are not all zero and an exponent that fits in 64 bits.
fn shifted(
    digits: Digits,
    behind: usize,
    scale: u32,
    is_negative: bool,
    size: usize,
) -> Result<u128, Misfit>
    ensures value { (total : ℕ) → IsTrimmed total digits.part digits.zeros
        → IfOk result (IsMagnitude total behind scale is_negative size) }
    ensures refused { (total : ℕ) (t : IsTrimmed total digits.part digits.zeros) → t.value ≢ 0
        → IfErr result (λ why. HasNoMagnitude why total behind scale is_negative size) }
{
    let gain = (digits.zeros as u128) + u128::from(scale) + up(is_negative, size);
    let loss = (behind as u128) + up(!is_negative, size);
    if gain < loss {
        return Err(Misfit::Fraction(raised_scale(scale, loss - gain)));
    }
    raised_part(digits.part, gain - loss)
}

// Returns a scale plus the number of places that it is too small by, if that fits in 32 bits.
fn raised_scale(scale: u32, more: u128) -> Option<u32>
    ensures { SomeIff result (scale + more < 2 ^ 32) (scale + more) }
{
    match u128::from(scale).checked_add(more) {
        Some(scale) => u32::try_from(scale).ok(),
        None => None,
    }
}

// Returns why a nonzero number times a power of ten whose exponent exceeds 64 bits is refused.
fn extreme(is_negative: bool) -> Misfit
    ensures { result ≡ extreme is_negative }
{
    if is_negative {
        Misfit::Fraction(None)
    } else {
        Misfit::Range
    }
}

// Returns the magnitude of the exponent if it is not negative, and otherwise 0.
fn up(is_negative: bool, size: usize) -> u128
    ensures { result ≡ up is_negative size }
{
    if is_negative { 0 } else { size as u128 }
}

// Returns the part followed by this many zeros.
fn raised_part(part: Option<u128>, zeros: u128) -> Result<u128, Misfit>
    ensures { (value : ℕ) → SomeIff part (value < 2 ^ 128) value
        → MatchResult result (λ m. m ≡ value * 10 ^ zeros)
        (λ why. (why ≡ Range) × (value * 10 ^ zeros < 2 ^ 128 → ⊥)) }
{
    let Some(part) = part else {
        return Err(Misfit::Range);
    };
    raised(part, zeros).ok_or(Misfit::Range)
}
