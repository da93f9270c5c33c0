//! Why a command fails.

ghost use Rattle.std.specs.Prelude.{◌≡◌};
ghost use Rattle.mtxkit_texts.specs.Statuses.{status_of};

use mtxkit_matrices::{Coordinates, Dimensions, Pivot};
use sparse_faults::Location;
use sparse_parser::error::MatrixMarketErrorKind;
use std::alloc::{AllocError, AllocFailed};
use std::error::Error;
use std::fmt::{self, Debug, Display, Formatter, Write};
use std::io;

/// Why a command fails. Files are given by their numbers in the command, counted from 1; `Display` does not write
/// these.
#[derive(Clone, Copy)]
pub enum Failure {
    /// The file with this number cannot be opened or read, or is not UTF-8.
    Unread(usize, io::Error),
    /// The text with this number has an error of this kind, at this line and with this fault.
    Input(usize, MatrixMarketErrorKind, Location),
    /// The text with this number has real or complex values, and the command needs values.
    NotSupported(usize),
    /// An integer of the text with this number, or a sum of integers with the same row and column, does not fit in 64
    /// bits.
    Wide(usize),
    /// A sum of integers with the same row and column in the text with this number does not fit in 128 bits.
    Overflow(usize),
    /// The matrix of the first text is not square: it has these numbers of rows and columns.
    NotSquare(Dimensions),
    /// The matrix of the first text has another value than its transpose; row by row, at first here.
    NotSymmetric(Coordinates),
    /// A, with these numbers of rows and columns, is not square, or B, with these, has another number of rows.
    Shapes(Dimensions, Dimensions),
    /// A X does not exist or has another shape than B; the numbers of rows and columns of A, X and B.
    ProductShapes(Dimensions, Dimensions, Dimensions),
    /// The matrix of the first text has no factorisation L D L^T in the order that was asked for, over the integers
    /// modulo this number, or modulo 2^64 if there is none: this is the first pivot without an inverse.
    NoFactors(Option<u64>, Pivot),
    /// A X has another value than B; row by row, at first here.
    NotSolution(Coordinates),
    /// The program is not built for this modulus.
    Modulus,
    /// The words of the command line are not a command.
    Usage,
    /// The output file cannot be created or written.
    Unsaved(io::Error),
    /// A write to the output failed.
    Write(io::ErrorKind),
    /// An allocation failed.
    OutOfMemory,
}

impl Failure {
    /// Returns the exit status: 2 for wrong usage, and otherwise 1.
    pub fn status(self) -> u8
        ensures { result ≡ status_of self }
    {
        match self {
            Failure::Usage => 2,
            _ => 1,
        }
    }

    // Returns the message, without the error that is the cause, and without numbers.
    fn reason(self) -> &'static str {
        match self {
            Failure::Unread(_, _) => "the file cannot be read",
            Failure::Input(_, _, _) => "the text is at fault",
            Failure::NotSupported(_) =>
                "real and complex values are not carried, only their pattern",
            Failure::Wide(_) => "a value or a sum of repeated entries does not fit in 64 bits",
            Failure::Overflow(_) => "a sum of repeated entries does not fit in 128 bits",
            Failure::NotSquare(_) => "not square",
            Failure::NotSymmetric(_) =>
                "not symmetric; row by row, the first value that differs from its mirror image",
            Failure::Shapes(_, _) | Failure::ProductShapes(_, _, _) => "shapes do not fit",
            Failure::NoFactors(_, _) => "another --mod or --order may have one",
            Failure::NotSolution(_) => "A X is not B; row by row, the first value that differs",
            Failure::Modulus => "no such modulus; see mtxkit solve --help",
            Failure::Usage => "no command; see mtxkit --help",
            Failure::Unsaved(_) => "the file cannot be written",
            Failure::Write(_) => "write failed",
            Failure::OutOfMemory => "out of memory",
        }
    }
}

/// Writes the error that is the cause, if there is one, and otherwise the message. Rows, columns and pivots count from
/// 1.
impl Display for Failure {
    fn fmt<W: Write>(&self, f: &mut Formatter<W>) -> fmt::Result {
        let reason = self.reason();
        match self {
            Failure::Unread(_, error) | Failure::Unsaved(error) => write!(f, "{error}"),
            Failure::Input(_, _, location) => Display::fmt(location, f),
            Failure::NotSquare(size) => write!(f, "{reason}: {size}"),
            Failure::NotSymmetric(at) | Failure::NotSolution(at) => {
                write!(f, "{reason} is in {at}")
            }
            Failure::Shapes(a, b) => write!(f, "{reason}: A is {a}, B is {b}"),
            Failure::ProductShapes(a, x, b) => {
                write!(f, "{reason}: A is {a}, X is {x}, B is {b}")
            }
            Failure::NoFactors(modulus, pivot) => {
                write!(
                    f,
                    "{pivot} has no inverse modulo {}; {reason}",
                    Modulus(*modulus)
                )
            }
            Failure::Write(kind) => write!(f, "{reason}: {kind}"),
            _ => f.write_str(reason),
        }
    }
}

// A modulus, or 2^64 if there is none.
#[derive(Clone, Copy)]
struct Modulus(Option<u64>);

impl Display for Modulus {
    fn fmt<W: Write>(&self, f: &mut Formatter<W>) -> fmt::Result {
        match self.0 {
            Some(modulus) => write!(f, "{modulus}"),
            None => f.write_str("2^64"),
        }
    }
}

impl Debug for Failure {
    fn fmt<W: Write>(&self, f: &mut Formatter<W>) -> fmt::Result {
        Display::fmt(self, f)
    }
}

impl Error for Failure {}

impl From<AllocError> for Failure {
    ghost use Rattle.std.specs.Prelude.{◌≡◌};
    ghost use Rattle.mtxkit_texts.specs.declared.failure.Failure.TheVariants.{OutOfMemory};

    ghost from_gives = { λ _ e. e ≡ OutOfMemory };

    fn from(_refused: AllocError) -> Failure {
        Failure::OutOfMemory
    }
}

impl<T: Drop> From<AllocFailed<T>> for Failure {
    ghost use Rattle.std.specs.Prelude.{◌≡◌};
    ghost use Rattle.mtxkit_texts.specs.declared.failure.Failure.TheVariants.{OutOfMemory};

    ghost from_gives = { λ _ e. e ≡ OutOfMemory };

    fn from(_refused: AllocFailed<T>) -> Failure {
        Failure::OutOfMemory
    }
}
