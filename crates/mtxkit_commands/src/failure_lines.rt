//! Writes the lines of errors.

ghost use Rattle.std.specs.Prelude.{◌≡◌, ◌≢◌, ◌⊎◌, ◌++◌, None, IfOk, IfErr, OnOk, codes};
ghost use Rattle.std.specs.Prelude.{string_bytes};
ghost use Rattle.std.specs.Fmt.{decimal};
ghost use Rattle.std.specs.Option.{option_map};
ghost use Rattle.mtxkit_texts.specs.Statuses.{status_of};
ghost use Rattle.mtxkit_texts.specs.declared.failure.Failure.TheVariants.{OutOfMemory};
ghost use Rattle.mtxkit_commands.specs.Names.{fault_line, with_line, name_text};
ghost use Rattle.mtxkit_commands.specs.Outcomes.{write_status};
ghost use Rattle.mtxkit_commands.specs.Reports.{IsErrorLine, IsReported, IsWritten};
ghost use Rattle.mtxkit_commands.specs.Reports.{IsWriteReported, Tells, memory_line};

use mtxkit_texts::Failure;
use sparse_io::{Sink, write_all_to};
use std::alloc::{AllocError, Global};
use std::fmt::{self, Display, Formatter, Write};
use std::io::ErrorKind;

const OUT_OF_MEMORY: &str = "mtxkit: out of memory\n";

// The status that a shell shows for a program that SIGPIPE stops: 128 and the number of the signal.
const STOPPED: u8 = 141;

/// Writes the line of a failure, which names this file, and returns the failure's exit status. An error in writing the
/// line is ignored.
pub fn report<E: Sink>(alloc: Global, file: Option<&str>, failure: Failure, err: &mut E) -> u8
    ensures status { result ≡ status_of failure }
    ensures reported { IsReported
        (with_line (option_map (λ path. path.now) file.entry) (fault_line failure))
        (E.accepted err.old) (E.accepted err.new) (E.failures err.old) (E.failures err.new) }
    ensures memory { failure ≡ OutOfMemory → IsWritten memory_line (E.accepted err.old)
        (E.accepted err.new) (E.failures err.old) (E.failures err.new) }
{
    write_line(line_in_memory(alloc, file, failure), err);
    failure.status()
}

// Returns the line of a failure, or an error if the failure is that an allocation failed.
fn line_in_memory(alloc: Global, file: Option<&str>, failure: Failure) -> Result<String, AllocError>
    ensures line { IfOk result (λ line. IsErrorLine
        (with_line (option_map (λ path. path.now) file.entry) (fault_line failure))
        (string_bytes line)) }
    ensures memory { IfOk result (λ _. failure ≢ OutOfMemory) }
{
    match failure {
        Failure::OutOfMemory => Err(AllocError),
        failure => failure_line(alloc, file, failure),
    }
}

/// Reports a failed write to the output, and returns the exit status. Where the reader of the output has closed it,
/// nothing is written, and the status is that of a program which is stopped so.
pub(crate) fn report_write<E: Sink>(alloc: Global, kind: ErrorKind, err: &mut E) -> u8
    ensures status { result ≡ write_status kind }
    ensures statuses { (result ≡ 1) ⊎ (result ≡ 141) }
    ensures told { IsWriteReported kind (E.accepted err.old) (E.accepted err.new)
        (E.failures err.old) (E.failures err.new) }
    ensures tells { Tells (IsReported None) result (E.accepted err.old) (E.accepted err.new)
        (E.failures err.old) (E.failures err.new) }
{
    match kind {
        ErrorKind::BrokenPipe => STOPPED,
        _ => report(alloc, None, Failure::Write(kind), err),
    }
}

/// Writes this line, or one that says that an allocation failed if there was no memory for it. An error in writing is
/// ignored.
pub(crate) fn write_line<E: Sink>(line: Result<String, AllocError>, err: &mut E)
    ensures line { IfOk line (λ text. IsWritten (string_bytes text) (E.accepted err.old)
        (E.accepted err.new) (E.failures err.old) (E.failures err.new)) }
    ensures memory { IfErr line (λ _. IsWritten memory_line (E.accepted err.old) (E.accepted err.new) (E.failures err.old) (E.failures err.new)) }
{
    match line {
        Ok(line) => write_message(line.as_bytes(), err),
        Err(_) => write_message(OUT_OF_MEMORY.as_bytes(), err),
    }
}

/// Writes a text. An error in writing it is ignored.
pub(crate) fn write_message<E: Sink>(text: &[u8], err: &mut E)
    ensures { IsWritten text.now (E.accepted err.old) (E.accepted err.new) (E.failures err.old)
        (E.failures err.new) }
{
    match write_all_to(err, text) {
        Ok(()) => {}
        Err(_) => {}
    }
}

/// Returns the line of a failure: the program, the file and the number of its line, as far as they are known, and the
/// message.
///
/// Fails only if an allocation fails.
pub fn failure_line(
    alloc: Global,
    file: Option<&str>,
    failure: Failure,
) -> Result<String, AllocError>
    ensures { IfOk result (λ line. IsErrorLine
        (with_line (option_map (λ path. path.now) file.entry) (fault_line failure))
        (string_bytes line)) }
{
    let mut line = String::new(alloc);
    push_name(alloc, &mut line, file, line_of(failure))?;
    let why = match (file, failure) {
        (None, Failure::Write(kind)) => format!(in alloc; "write failed: {}\n", Reason(kind))?,
        (None, _) => format!(in alloc; "{failure}\n")?,
        (Some(_), _) => format!(in alloc; ": {failure}\n")?,
    };
    line.push_str(why.as_str())?;
    Ok(line)
}

// Returns the number of the line that a failure is about, if it is about one.
fn line_of(failure: Failure) -> Option<usize>
    ensures { result ≡ fault_line failure }
{
    match failure {
        Failure::Input(_, _, location) => Some(location.line),
        _ => None,
    }
}

/// Appends the name of the program, the path of the file, and the number of the file's line, as far as they are known.
pub(crate) fn push_name(
    alloc: Global,
    line: &mut String,
    file: Option<&str>,
    number: Option<usize>,
) -> Result<(), AllocError>
    ensures { OnOk result (string_bytes line.new ≡ string_bytes line.old ++ (codes "mtxkit: "
        ++ name_text (with_line (option_map (λ path. path.now) file.entry) number))) }
{
    line.push_str("mtxkit: ")?;
    match (file, number) {
        (Some(path), Some(number)) => {
            line.push_str(path)?;
            push_number(alloc, line, number)
        }
        (Some(path), None) => line.push_str(path),
        (None, _) => Ok(()),
    }
}

// Appends a colon and the number of a line.
fn push_number(alloc: Global, line: &mut String, number: usize) -> Result<(), AllocError>
    ensures { OnOk result
        (string_bytes line.new ≡ string_bytes line.old ++ (codes ":" ++ decimal number)) }
{
    let text = format!(in alloc; ":{number}")?;
    line.push_str(text.as_str())
}

// The message for a failed write to the output.
#[derive(Clone, Copy)]
struct Reason(ErrorKind);

impl Display for Reason {
    // An output that is closed has the kind `Uncategorized`.
    fn fmt<W: Write>(&self, f: &mut Formatter<W>) -> fmt::Result {
        match self.0 {
            ErrorKind::Uncategorized => f.write_str("the output is closed or cannot be written to"),
            kind => Display::fmt(&kind, f),
        }
    }
}
