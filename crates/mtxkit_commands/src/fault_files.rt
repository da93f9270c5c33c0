//! Reports the failures of commands, with the files that they are about.

ghost use Rattle.std.specs.Prelude.{◌≡◌, ◌++◌, IfOk, OnOk, Some, string_bytes};
ghost use Rattle.std.specs.Option.{option_map};
ghost use Rattle.mtxkit_texts.specs.Statuses.{status_of};
ghost use Rattle.mtxkit_texts.specs.declared.failure.Failure.TheVariants.{OutOfMemory};
ghost use Rattle.mtxkit_commands.specs.Names.{after_comma, fault_file, fault_line, fault_names};
ghost use Rattle.mtxkit_commands.specs.Names.{file_names, is_shared, with_line};
ghost use Rattle.mtxkit_commands.specs.Reports.{IsReported, IsWritten, memory_line};

use crate::failure_lines::{report, write_line};
use mtxkit_arguments::Command;
use mtxkit_texts::Failure;
use sparse_io::Sink;
use std::alloc::{AllocError, Global};

/// Writes the line of a failure of a command, and returns the failure's exit status. The line names the file that the
/// failure is about, or all files of the command, separated by commas, if it is about their matrices together. An error
/// in writing the line is ignored.
pub(crate) fn report_failure<E: Sink>(
    alloc: Global,
    command: Command<'_>,
    failure: Failure,
    err: &mut E,
) -> u8
    ensures status { result ≡ status_of failure }
    ensures reported { IsReported
        (with_line (fault_names command.entry failure) (fault_line failure))
        (E.accepted err.old) (E.accepted err.new) (E.failures err.old) (E.failures err.new) }
    ensures memory { failure ≡ OutOfMemory → IsWritten memory_line (E.accepted err.old)
        (E.accepted err.new) (E.failures err.old) (E.failures err.new) }
{
    if is_shared(failure) {
        report_shared(alloc, command, failure, err)
    } else {
        report(alloc, file_at_fault(command, failure), failure, err)
    }
}

// Returns the path of the file that a failure of the command is about, if it is about one alone.
fn file_at_fault<'a>(command: Command<'a>, failure: Failure) -> Option<&'a str>
    ensures { option_map (λ path. path.now) result ≡ fault_file command.entry failure }
{
    match failure {
        Failure::Unread(number, _)
        | Failure::Input(number, _, _)
        | Failure::NotSupported(number)
        | Failure::Wide(number)
        | Failure::Overflow(number) => command.file(number),
        Failure::NotSquare(_) | Failure::NotSymmetric(_) | Failure::NoFactors(_, _) => {
            command.file(1)
        }
        Failure::Unsaved(_) => command.path(),
        _ => None,
    }
}

// Returns whether a failure is about the matrices of all files of a command together.
fn is_shared(failure: Failure) -> bool
    ensures { result ≡ is_shared failure }
{
    match failure {
        Failure::Shapes(_, _) | Failure::ProductShapes(_, _, _) | Failure::NotSolution(_) => true,
        _ => false,
    }
}

// Writes the line of a failure that names all files of the command, and returns the failure's exit status.
fn report_shared<E: Sink>(alloc: Global, command: Command<'_>, failure: Failure, err: &mut E) -> u8
    ensures status { result ≡ status_of failure }
    ensures reported { IsReported
        (with_line (Some (file_names command.entry)) (fault_line failure))
        (E.accepted err.old) (E.accepted err.new) (E.failures err.old) (E.failures err.new) }
{
    match file_names(alloc, command) {
        Ok(names) => report(alloc, Some(names.as_str()), failure, err),
        Err(refused) => {
            write_line(Err(refused), err);
            failure.status()
        }
    }
}

// Returns the paths of the files of a command whose files have names, in order, separated by commas.
fn file_names(alloc: Global, command: Command<'_>) -> Result<String, AllocError>
    ensures { IfOk result (λ names. string_bytes names ≡ file_names command.entry) }
{
    let mut names = String::from_str(alloc, command.first_file())?;
    push_path(&mut names, command.second_file())?;
    push_path(&mut names, command.third_file())?;
    Ok(names)
}

// Appends a comma and the path, if there is one.
fn push_path(names: &mut String, path: Option<&str>) -> Result<(), AllocError>
    ensures { OnOk result (string_bytes names.new ≡ string_bytes names.old
        ++ after_comma (option_map (λ path. path.now) path.entry)) }
{
    match path {
        Some(path) => {
            names.push_str(", ")?;
            names.push_str(path)
        }
        None => Ok(()),
    }
}
