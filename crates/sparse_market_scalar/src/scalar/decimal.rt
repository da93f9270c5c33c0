//! The decimal text of an integer of at most 64 bits.

ghost use Rattle.std.specs.Prelude.{◌≡◌, ◌++◌, OnOk, string_bytes};
ghost use Rattle.std.specs.Fmt.{decimal, signed_decimal};

use itoa::Buffer;
use std::alloc::AllocError;

// Appends the digits of a number. One digit, the most frequent case, needs no buffer.
#[tactic(auto, using(std::proofs::lemmas::Fmt::decimal_digit))]
#[inline(always)]
fn push_digits(out: &mut String, number: u64) -> Result<(), AllocError>
    ensures { OnOk result (string_bytes out.new ≡ string_bytes out.old ++ decimal number) }
{
    if number < 10 {
        return out.push(char::from(b'0' + number as u8));
    }
    let mut digits = Buffer::new();
    out.push_str(digits.format(number))
}

// Appends a minus if the number is negative, and its digits.
#[inline(always)]
pub(super) fn push_integer(out: &mut String, number: i64) -> Result<(), AllocError>
    ensures { OnOk result
        (string_bytes out.new ≡ string_bytes out.old ++ signed_decimal number) }
{
    if number < 0 {
        out.push('-')?;
    }
    push_digits(out, number.unsigned_abs())
}
