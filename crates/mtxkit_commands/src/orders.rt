//! The commands `mtxkit order`, `permute` and `fill`, and the lines of their errors.

ghost use Rattle.std.specs.Prelude.{◌≡◌, IfOk, IfErr, Some, None, string_bytes};
ghost use Rattle.std.specs.Option.{option_map};
ghost use Rattle.mtxkit_commands.specs.OrderCommands.{IsOrderAnswer, IsPermuteAnswer, IsFillAnswer};
ghost use Rattle.mtxkit_commands.specs.OrderCommands.{IsOrderError, IsPermuteError, IsFillError};
ghost use Rattle.mtxkit_commands.specs.OrderCommands.{IsFillErrorInOrder};
ghost use Rattle.mtxkit_commands.specs.OrderCommands.{IsFillAnswerAlone, IsFillAnswerInOrder};
ghost use Rattle.mtxkit_commands.specs.Names.{order_number, with_line};
ghost use Rattle.mtxkit_commands.specs.Reports.{IsErrorLine, IsReported};

use crate::command_error::CommandError;
use crate::failure_lines::{push_name, write_line};
use crate::inputs::read_text;
use file_readings::Texts;
use mtxkit_arguments::FillOrder;
use mtxkit_facts::ReportFormat;
use mtxkit_patterns::{
    Method, OrderError, fill_text, fill_text_in_order, order_text, permute_text,
};
use sparse_io::Sink;
use std::alloc::{AllocError, Global};

/// Reads the file, and returns the text of an order of its rows and columns.
pub(crate) fn ordered_of<T: Texts>(
    alloc: Global,
    texts: &mut T,
    file: &str,
    method: Method,
) -> Result<Vec<u8>, CommandError>
    ensures answer { IfOk result (λ answer. IsOrderAnswer file.now (T.readings texts.old)
        (T.readings texts.new) answer.items) }
    ensures failed { IfErr result
        (IsOrderError file.now (T.readings texts.old) (T.readings texts.new)) }
{
    let text = read_text(texts, 1, file)?;
    Ok(order_text(alloc, method, text.as_str())?.into_bytes())
}

/// Reads the file of the order and that of the matrix, and returns the text of the permuted matrix.
pub(crate) fn permuted_of<T: Texts>(
    alloc: Global,
    texts: &mut T,
    order: &str,
    file: &str,
) -> Result<Vec<u8>, CommandError>
    ensures answer { IfOk result (λ answer. IsPermuteAnswer order.now file.now
        (T.readings texts.old) (T.readings texts.new) answer.items) }
    ensures failed { IfErr result
        (IsPermuteError order.now file.now (T.readings texts.old) (T.readings texts.new)) }
{
    let first = read_text(texts, 1, order)?;
    let second = read_text(texts, 2, file)?;
    Ok(permute_text(alloc, first.as_str(), second.as_str())?.into_bytes())
}

/// Reads the file of the order, if there is one, and that of the matrix, and returns the facts about its fill.
pub(crate) fn filled_of<T: Texts>(
    alloc: Global,
    texts: &mut T,
    file: &str,
    order: FillOrder<'_>,
    form: ReportFormat,
) -> Result<Vec<u8>, CommandError>
    ensures answer { IfOk result (λ answer. IsFillAnswer order.entry form file.now
        (T.readings texts.old) (T.readings texts.new) answer.items) }
    ensures failed { IfErr result
        (IsFillError order.entry file.now (T.readings texts.old) (T.readings texts.new)) }
{
    match order {
        FillOrder::Natural => filled_alone(alloc, texts, file, None, form),
        FillOrder::Computed(method) => filled_alone(alloc, texts, file, Some(method), form),
        FillOrder::File(path) => filled_in_order(alloc, texts, path, file, form),
    }
}

// Reads the file, and returns the facts about its fill.
fn filled_alone<T: Texts>(
    alloc: Global,
    texts: &mut T,
    file: &str,
    method: Option<Method>,
    form: ReportFormat,
) -> Result<Vec<u8>, CommandError>
    ensures answer { IfOk result (λ answer. IsFillAnswerAlone method form file.now
        (T.readings texts.old) (T.readings texts.new) answer.items) }
    ensures failed { IfErr result
        (IsOrderError file.now (T.readings texts.old) (T.readings texts.new)) }
{
    let text = read_text(texts, 1, file)?;
    Ok(fill_text(alloc, form, method, text.as_str())?.into_bytes())
}

// Reads both files, and returns the facts about the fill of the matrix in this order.
fn filled_in_order<T: Texts>(
    alloc: Global,
    texts: &mut T,
    order: &str,
    file: &str,
    form: ReportFormat,
) -> Result<Vec<u8>, CommandError>
    ensures answer { IfOk result (λ answer. IsFillAnswerInOrder form order.now file.now
        (T.readings texts.old) (T.readings texts.new) answer.items) }
    ensures failed { IfErr result
        (IsFillErrorInOrder order.now file.now (T.readings texts.old) (T.readings texts.new)) }
{
    let first = read_text(texts, 1, order)?;
    let second = read_text(texts, 2, file)?;
    Ok(fill_text_in_order(alloc, form, first.as_str(), second.as_str())?.into_bytes())
}

/// Returns the number of the file that an error of an order is about, counted from 1.
pub(crate) fn order_number(error: OrderError) -> usize
    ensures { result ≡ order_number error }
{
    match error {
        OrderError::Failed(_) => 1,
        OrderError::NotSquare(number)
        | OrderError::NotColumn(number)
        | OrderError::OutOfRange(number, _)
        | OrderError::Repeated(number, _)
        | OrderError::OtherLength(number) => number,
    }
}

/// Writes the line of an error of an order, which names this file, and returns the exit status. An error in writing the
/// line is ignored.
pub(crate) fn report_misordered<E: Sink>(
    alloc: Global,
    file: Option<&str>,
    error: OrderError,
    err: &mut E,
) -> u8
    ensures status { result ≡ 1 }
    ensures reported { IsReported
        (with_line (option_map (λ path. path.now) file.entry) None) (E.accepted err.old)
        (E.accepted err.new) (E.failures err.old) (E.failures err.new) }
{
    write_line(misordered_line(alloc, file, error), err);
    1
}

// Returns the line of an error of an order: the program, the file, if there is one, and the message.
fn misordered_line(
    alloc: Global,
    file: Option<&str>,
    error: OrderError,
) -> Result<String, AllocError>
    ensures { IfOk result (λ line. IsErrorLine
        (with_line (option_map (λ path. path.now) file.entry) None) (string_bytes line)) }
{
    let mut line = String::new(alloc);
    push_name(alloc, &mut line, file, None)?;
    let why = format!(in alloc; ": {error}\n")?;
    line.push_str(why.as_str())?;
    Ok(line)
}
