//! Matches the arguments with the command line, by `clap`.

ghost use Rattle.clap.specs.Values.{kind_of};
ghost use Rattle.clap.specs.declared.error.kind.ErrorKind.TheVariants as kind;
ghost use Rattle.std.specs.Prelude.{◌≡◌, ◌<◌, ◌+◌, IfErr, IfOk, length};
ghost use Rattle.mtxkit_arguments.specs.Explained.{HasMessage, IsExplained};
ghost use Rattle.mtxkit_arguments.specs.declared.parsing.Explanation.TheVariants.{OutOfMemory};

use crate::command_line::command_line;
use clap::{ArgMatches, Error};
use std::alloc::{AllocError, Global};

const NEGATIVE_SCALE: &str =
    "\nK is 0 or more: mtxkit multiplies the numbers by 10^K, and does not divide them.\n";

/// What is said in place of running a command, in a text that is not empty.
#[derive(Debug, Drop)]
pub enum Explanation {
    /// Help or the version, which the arguments ask for.
    Help(String),
    /// Why the arguments are wrong.
    Mistake(String),
    /// An allocation failed.
    OutOfMemory,
}

/// Returns what `clap` matches in the arguments. The first argument is the program's name.
///
/// # Errors
///
/// Returns what is said in place of running a command if `clap` does not accept the arguments, if they ask for help or
/// for the version, or if an allocation fails.
pub fn parse<'a>(alloc: Global, words: &'a [String]) -> Result<ArgMatches<'a>, Explanation>
    ensures { IfErr result HasMessage }
{
    match matched(alloc, words) {
        Ok(matches) => Ok(matches),
        Err(error) => Err(explanation_of(alloc, &error)),
    }
}

// Returns what `clap` matches in the arguments, or its error.
fn matched<'a>(alloc: Global, words: &'a [String]) -> Result<ArgMatches<'a>, Error> {
    let line = command_line(alloc)?;
    line.try_get_matches_from(words)
}

// Returns what an error of `clap` says.
fn explanation_of(alloc: Global, error: &Error) -> Explanation
    ensures explained { IsExplained (kind_of error.now) result }
    ensures memory { kind_of error.now ≡ kind.OutOfMemory → result ≡ OutOfMemory }
    ensures some { HasMessage result }
{
    match explained(alloc, error) {
        Ok(explanation) => explanation,
        Err(AllocError) => Explanation::OutOfMemory,
    }
}

// Returns the same, or an error if an allocation fails.
fn explained(alloc: Global, error: &Error) -> Result<Explanation, AllocError>
    ensures explained { IfOk result (IsExplained (kind_of error.now)) }
    ensures memory { IfOk result (λ e. kind_of error.now ≡ kind.OutOfMemory → e ≡ OutOfMemory) }
    ensures some { IfOk result HasMessage }
{
    if error.kind() == clap::error::ErrorKind::OutOfMemory {
        return Ok(Explanation::OutOfMemory);
    }
    let mut text = format!(in alloc; "{error}")?;
    text.push_str(line_end(text.as_str()))?;
    if error.use_stderr() {
        text.push_str(addition(text.as_str()))?;
        return Ok(Explanation::Mistake(text));
    }
    Ok(Explanation::Help(text))
}

// Returns the line end that is added to an empty message.
fn line_end(message: &str) -> &'static str
    ensures { 0 < length message.now + length result.now }
{
    if message.is_empty() { "\n" } else { "" }
}

// Returns what is added to a message of `clap`: one about a negative power of ten says what is done with it.
fn addition(message: &str) -> &'static str {
    if message.contains("'--scale <K>': -") {
        NEGATIVE_SCALE
    } else {
        ""
    }
}
