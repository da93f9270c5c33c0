//! Reads the program's arguments.

ghost use Rattle.std.specs.Prelude.{◌≡◌, IfErr, IfOk, Err};
ghost use Rattle.std.specs.IoError.{error_kind};
ghost use Rattle.std.specs.Vec.Iter.{into_iter_items};
ghost use Rattle.mtxkit_arguments.specs.Given.{argument_fault};
ghost use Rattle.mtxkit_arguments.specs.declared.given.ArgumentError.TheVariants.{OutOfMemory};

use std::alloc::{AllocError, AllocFailed, Global};
use std::env::Args;
use std::io;

/// An error in reading the program's arguments.
#[derive(Clone, Copy, Debug)]
pub enum ArgumentError {
    /// An argument is not UTF-8.
    NotText,
    /// An allocation failed.
    OutOfMemory,
}

impl From<AllocError> for ArgumentError {
    ghost use Rattle.std.specs.Prelude.{◌≡◌};
    ghost use Rattle.mtxkit_arguments.specs.declared.given.ArgumentError.TheVariants.{OutOfMemory};

    ghost from_gives = { λ _ e. e ≡ OutOfMemory };

    fn from(_refused: AllocError) -> ArgumentError {
        ArgumentError::OutOfMemory
    }
}

impl<T: Drop> From<AllocFailed<T>> for ArgumentError {
    ghost use Rattle.std.specs.Prelude.{◌≡◌};
    ghost use Rattle.mtxkit_arguments.specs.declared.given.ArgumentError.TheVariants.{OutOfMemory};

    ghost from_gives = { λ _ e. e ≡ OutOfMemory };

    fn from(_refused: AllocFailed<T>) -> ArgumentError {
        ArgumentError::OutOfMemory
    }
}

/// Returns the arguments in order.
///
/// # Errors
///
/// Returns `NotText` if an argument is not UTF-8, and `OutOfMemory` if an allocation fails.
pub fn given_words(alloc: Global, arguments: io::Result<Args>) -> Result<Vec<String>, ArgumentError>
    ensures given { IfOk arguments (λ args. IfOk result
        (λ words. words.items ≡ into_iter_items args)) }
    ensures refused { IfOk arguments (λ _. IfErr result (λ e. e ≡ OutOfMemory)) }
    ensures unread { IfErr arguments (λ e. result ≡ Err (argument_fault (error_kind e))) }
{
    match arguments {
        Ok(arguments) => listed(alloc, arguments),
        Err(error) => Err(unread_arguments(error.kind())),
    }
}

// Returns the arguments in order.
fn listed(alloc: Global, arguments: Args) -> Result<Vec<String>, ArgumentError>
    ensures given { IfOk result (λ words. words.items ≡ into_iter_items arguments) }
    ensures refused { IfErr result (λ e. e ≡ OutOfMemory) }
{
    let mut words = Vec::with_capacity(alloc, arguments.len())?;
    for word in arguments {
        words.push(word)?;
    }
    Ok(words)
}

// Returns the error for an error in reading the arguments.
fn unread_arguments(kind: io::ErrorKind) -> ArgumentError
    ensures { result ≡ argument_fault kind }
{
    match kind {
        io::ErrorKind::OutOfMemory => ArgumentError::OutOfMemory,
        _ => ArgumentError::NotText,
    }
}
