//! Why a text is not scaled.

ghost use Rattle.std.specs.Prelude.{◌≡◌};
ghost use Rattle.mtxkit_matrices.specs.ScaleFailures.{faulty_line};

use sparse_faults::Location;
use std::alloc::{AllocError, AllocFailed};
use std::error::Error;
use std::fmt::{self, Display, Formatter, Write};

/// Why the numbers of a text are not scaled by `10^K`. Lines are counted from 1; `Display` does not write their
/// numbers.
#[derive(Clone, Copy, Debug)]
pub enum ScaleError {
    /// This line, the first that is not blank, is not a header, or names the symmetry `hermitian`.
    Header(Location),
    /// The header in this line names the field `complex` or `pattern`.
    Field(usize),
    /// This line is not a size line for the header.
    Sizes(Location),
    /// This line is not a data line for the header.
    Entry(usize),
    /// The value in this line, scaled, is not an integer. The least scale at which it is one, if there is one.
    Fraction(usize, Option<u32>),
    /// The value in this line, scaled, does not fit in 128 bits.
    Range(usize),
    /// The text ends before its size line.
    Ended,
    /// An allocation failed.
    OutOfMemory,
}

impl ScaleError {
    /// Returns the number of the line at fault, if one is.
    pub fn line(self) -> Option<usize>
        ensures { result ≡ faulty_line self }
    {
        match self {
            ScaleError::Header(at) | ScaleError::Sizes(at) => Some(at.line),
            ScaleError::Field(number)
            | ScaleError::Entry(number)
            | ScaleError::Fraction(number, _)
            | ScaleError::Range(number) => Some(number),
            ScaleError::Ended | ScaleError::OutOfMemory => None,
        }
    }

    // Returns the message, without the word at fault.
    fn reason(self) -> &'static str {
        match self {
            ScaleError::Header(at) | ScaleError::Sizes(at) => at.fault.words(),
            ScaleError::Field(_) =>
                "the values are not decimal numbers but complex ones or a pattern",
            ScaleError::Entry(_) => "no data line that fits the header",
            ScaleError::Fraction(_, _) => "the value times 10^K is not an integer",
            ScaleError::Range(_) => "the value times 10^K does not fit in 128 bits",
            ScaleError::Ended => "the text ends before its size line",
            ScaleError::OutOfMemory => "out of memory",
        }
    }
}

impl Display for ScaleError {
    fn fmt<W: Write>(&self, f: &mut Formatter<W>) -> fmt::Result {
        match self {
            ScaleError::Header(at) | ScaleError::Sizes(at) => Display::fmt(at, f),
            _ => f.write_str(self.reason()),
        }
    }
}

impl Error for ScaleError {}

impl From<AllocError> for ScaleError {
    ghost use Rattle.std.specs.Prelude.{◌≡◌};
    ghost use Rattle.mtxkit_matrices.specs.declared.decimals.error.ScaleError.TheVariants.{OutOfMemory};

    ghost from_gives = { λ _ e. e ≡ OutOfMemory };

    fn from(_refused: AllocError) -> ScaleError {
        ScaleError::OutOfMemory
    }
}

impl<T: Drop> From<AllocFailed<T>> for ScaleError {
    ghost use Rattle.std.specs.Prelude.{◌≡◌};
    ghost use Rattle.mtxkit_matrices.specs.declared.decimals.error.ScaleError.TheVariants.{OutOfMemory};

    ghost from_gives = { λ _ e. e ≡ OutOfMemory };

    fn from(_refused: AllocFailed<T>) -> ScaleError {
        ScaleError::OutOfMemory
    }
}
