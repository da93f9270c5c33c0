//! Reads the digits of a mantissa.

ghost use Rattle.std.specs.Prelude.{◌≡◌, ◌<◌, ◌≤◌, ◌+◌, ◌*◌, ◌^◌, ℕ, length};
ghost use Rattle.std.specs.Option.{SomeIff};
ghost use Rattle.mtxkit_matrices.specs.Decimals.{number_of_digits};
ghost use Rattle.mtxkit_matrices.specs.InnerDigits.{IsTrimmed};

/// The digits of a mantissa as a number: a part that does not end in 0, followed by a number of zeros.
#[derive(Clone, Copy)]
pub(crate) struct Digits {
    /// The part, if it fits in 128 bits.
    pub part: Option<u128>,
    pub zeros: usize,
}

/// Returns the digits of a mantissa; the point is skipped.
pub(crate) fn read_digits(mantissa: &[u8]) -> Digits
    ensures number { IsTrimmed (number_of_digits mantissa.now) result.part result.zeros }
    ensures few { result.zeros ≤ length mantissa.now }
{
    let mut part = Some(0);
    let mut zeros = 0;
    for byte in mantissa {
        if *byte == b'0' {
            zeros += 1;
        } else if byte.is_ascii_digit() {
            part = with_digit(part, zeros, *byte - b'0');
            zeros = 0;
        }
    }
    Digits { part, zeros }
}

// Returns the part followed by zeros and one more digit, if that fits in 128 bits.
fn with_digit(part: Option<u128>, zeros: usize, digit: u8) -> Option<u128>
    requires { zeros < usize.MAX }
    ensures { (value : ℕ) → SomeIff part (value < 2 ^ 128) value → SomeIff result
        (value * 10 ^ (zeros + 1) + digit < 2 ^ 128) (value * 10 ^ (zeros + 1) + digit) }
{
    raised(part?, (zeros + 1) as u128)?.checked_add(u128::from(digit))
}

/// Returns a number times `10^zeros`, or `None` if that exceeds 128 bits.
pub(crate) fn raised(number: u128, zeros: u128) -> Option<u128>
    ensures { SomeIff result (number * 10 ^ zeros < 2 ^ 128) (number * 10 ^ zeros) }
{
    if number == 0 {
        return Some(0);
    }
    let mut raised = number;
    for _ in 0..zeros {
        raised = raised.checked_mul(10)?;
    }
    Some(raised)
}
