//! The command `mtxkit integer`, which scales decimal numbers, and the lines of its errors.

ghost use Rattle.std.specs.Prelude.{◌≡◌, IfOk, IfErr, Some, string_bytes};
ghost use Rattle.mtxkit_matrices.specs.ScaleFailures.{faulty_line};
ghost use Rattle.mtxkit_commands.specs.Answers.{IsScaleAnswer};
ghost use Rattle.mtxkit_commands.specs.Failures.{IsScaleError, IsUnscaledText};
ghost use Rattle.mtxkit_commands.specs.Names.{with_line};
ghost use Rattle.mtxkit_commands.specs.Reports.{IsErrorLine, IsReported};

use crate::command_error::CommandError;
use crate::failure_lines::{push_name, write_line};
use crate::inputs::read_text;
use file_readings::Texts;
use mtxkit_matrices::{ScaleError, least_scale, scaled_text};
use mtxkit_texts::Failure;
use sparse_io::Sink;
use std::alloc::{AllocError, Global};
use std::fmt::{self, Display, Formatter, Write};

/// Reads the file, and returns its text with each number multiplied by `10^scale`, as a text of integers.
pub(crate) fn scaled_of<T: Texts>(
    alloc: Global,
    texts: &mut T,
    file: &str,
    scale: u32,
) -> Result<Vec<u8>, CommandError>
    ensures answer { IfOk result (λ answer. IsScaleAnswer scale file.now
        (T.readings texts.old) (T.readings texts.new) answer.items) }
    ensures failed { IfErr result
        (IsScaleError scale file.now (T.readings texts.old) (T.readings texts.new)) }
{
    let text = read_text(texts, 1, file)?;
    let bytes = text.as_str().as_bytes();
    match scaled_text(alloc, scale, bytes) {
        Ok(written) => Ok(written),
        Err(error) => Err(unscaled(alloc, bytes, error)),
    }
}

// Returns the error of the command for a text that is not scaled.
fn unscaled(alloc: Global, text: &[u8], error: ScaleError) -> CommandError
    ensures { IsUnscaledText text.now error result }
{
    match error {
        ScaleError::OutOfMemory => CommandError::Failed(Failure::OutOfMemory),
        ScaleError::Fraction(_, _) => match least_scale(alloc, text) {
            Ok(least) => CommandError::Unscaled(error, least),
            Err(AllocError) => CommandError::Failed(Failure::OutOfMemory),
        },
        error => CommandError::Unscaled(error, None),
    }
}

/// Writes the line for a file whose numbers are not scaled, and returns the exit status. An error in writing the line
/// is ignored.
pub(crate) fn report_unscaled<E: Sink>(
    alloc: Global,
    file: &str,
    error: ScaleError,
    least: Option<u32>,
    err: &mut E,
) -> u8
    ensures status { result ≡ 1 }
    ensures reported { IsReported (with_line (Some file.now) (faulty_line error))
        (E.accepted err.old) (E.accepted err.new) (E.failures err.old) (E.failures err.new) }
{
    write_line(unscaled_line(alloc, file, error, least), err);
    1
}

// Returns the line for a file whose numbers are not scaled: the program, the file, the number of the line with the
// fault, if there is one, and the message.
fn unscaled_line(
    alloc: Global,
    file: &str,
    error: ScaleError,
    least: Option<u32>,
) -> Result<String, AllocError>
    ensures { IfOk result (λ line. IsErrorLine
        (with_line (Some file.now) (faulty_line error)) (string_bytes line)) }
{
    let mut line = String::new(alloc);
    push_name(alloc, &mut line, Some(file), error.line())?;
    let why = format!(in alloc; ": {error}{}\n", Hint(error, least))?;
    line.push_str(why.as_str())?;
    Ok(line)
}

// The least scale that a message names: that of the file, or else that of the value.
#[derive(Clone, Copy)]
struct Hint(ScaleError, Option<u32>);

impl Display for Hint {
    fn fmt<W: Write>(&self, f: &mut Formatter<W>) -> fmt::Result {
        match (self.0, self.1) {
            (ScaleError::Fraction(_, _), Some(least)) => {
                write!(f, "; the least K for the file is {least}")
            }
            (ScaleError::Fraction(_, Some(least)), None) => write!(
                f,
                "; the least K for this value is {least}, and the file has none"
            ),
            (ScaleError::Fraction(_, None), None) => f.write_str(" for any K"),
            _ => Ok(()),
        }
    }
}
