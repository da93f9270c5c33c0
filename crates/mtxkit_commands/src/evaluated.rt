//! The command `mtxkit eval`, and the lines of its errors.

ghost use Rattle.std.specs.Prelude.{◌≡◌, ◌⊎◌, IfOk, IfErr, None, map, string_bytes};
ghost use Rattle.mtxkit_arguments.specs.Files.{paths};
ghost use Rattle.mtxkit_commands.specs.Answers.{IsEvalAnswer};
ghost use Rattle.mtxkit_commands.specs.Failures.{IsEvalError};
ghost use Rattle.file_readings.specs.Readings.{AreRead};
ghost use Rattle.mtxkit_commands.specs.Inputs.{IsFirstUnread};
ghost use Rattle.mtxkit_commands.specs.Reports.{IsErrorLine, IsReported};
ghost use Rattle.mtxkit_texts.specs.declared.failure.Failure.TheVariants.{OutOfMemory};

use crate::command_error::CommandError;
use crate::failure_lines::{push_name, write_line};
use crate::inputs::read_text;
use file_readings::Texts;
use mtxkit_eval::{EvalError, eval_text};
use mtxkit_texts::Failure;
use sparse_expr::Form;
use sparse_io::Sink;
use std::alloc::{AllocError, Global};

/// Reads the files in order, and returns the text of the value of an expression over their matrices.
pub(crate) fn evaluated_of<T: Texts>(
    alloc: Global,
    texts: &mut T,
    modulus: Option<u64>,
    order: Form,
    words: &str,
    files: &[&str],
) -> Result<Vec<u8>, CommandError>
    ensures answer { IfOk result (λ answer. IsEvalAnswer modulus order words.now (paths files.now)
        (T.readings texts.old) (T.readings texts.new) answer.items) }
    ensures failed { IfErr result (IsEvalError modulus words.now (paths files.now)
        (T.readings texts.old) (T.readings texts.new)) }
{
    let contents = read_all(alloc, texts, files)?;
    Ok(eval_text(alloc, modulus, order, words, &contents)?.into_bytes())
}

// Reads the files in order.
fn read_all<T: Texts>(alloc: Global, texts: &mut T, files: &[&str]) -> Result<Vec<String>, Failure>
    ensures read { IfOk result (λ contents. AreRead (paths files.now)
        (map string_bytes contents.items) (T.readings texts.old) (T.readings texts.new)) }
    ensures unread { IfErr result (λ failure. (failure ≡ OutOfMemory)
        ⊎ IsFirstUnread (paths files.now) (T.readings texts.old) (T.readings texts.new) failure) }
{
    let mut contents = Vec::with_capacity(alloc, files.len())?;
    for (index, file) in files.iter().enumerate() {
        let content = read_text(texts, index + 1, file)?;
        contents.push(content)?;
    }
    Ok(contents)
}

/// Writes the line for an expression that has no value, and returns the exit status. An error in writing the line is
/// ignored.
pub(crate) fn report_unevaluated<E: Sink>(alloc: Global, error: EvalError, err: &mut E) -> u8
    ensures status { result ≡ 1 }
    ensures reported { IsReported None (E.accepted err.old) (E.accepted err.new)
        (E.failures err.old) (E.failures err.new) }
{
    write_line(unevaluated_line(alloc, error), err);
    1
}

// Returns the line for an expression that has no value: the program and the message.
fn unevaluated_line(alloc: Global, error: EvalError) -> Result<String, AllocError>
    ensures { IfOk result (λ line. IsErrorLine None (string_bytes line)) }
{
    let mut line = String::new(alloc);
    push_name(alloc, &mut line, None, None)?;
    let why = format!(in alloc; "{error}\n")?;
    line.push_str(why.as_str())?;
    Ok(line)
}
