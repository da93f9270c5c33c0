//! Reports arguments that cannot be read.

ghost use Rattle.std.specs.Prelude.{◌≡◌, None};
ghost use Rattle.mtxkit_commands.specs.Usage.{argument_status};
ghost use Rattle.mtxkit_commands.specs.Reports.{IsErrorLine, IsReported};

use crate::failure_lines::write_message;
use mtxkit_arguments::ArgumentError;
use sparse_io::Sink;

/// Writes the line of the error, and returns its exit status. An error in writing the line is ignored.
pub(crate) fn report_unread<E: Sink>(error: ArgumentError, err: &mut E) -> u8
    ensures status { result ≡ argument_status error }
    ensures reported { IsReported None (E.accepted err.old) (E.accepted err.new)
        (E.failures err.old) (E.failures err.new) }
{
    write_message(unread_line(error).as_bytes(), err);
    unread_status(error)
}

// Returns the line of the error.
fn unread_line(error: ArgumentError) -> &'static str
    ensures { IsErrorLine None result.now }
{
    match error {
        ArgumentError::NotText => "mtxkit: an argument is not UTF-8; see mtxkit --help\n",
        ArgumentError::OutOfMemory => "mtxkit: out of memory\n",
    }
}

// Returns the exit status; that of an argument that is not UTF-8 is the one of wrong usage.
fn unread_status(error: ArgumentError) -> u8
    ensures { result ≡ argument_status error }
{
    match error {
        ArgumentError::NotText => 2,
        ArgumentError::OutOfMemory => 1,
    }
}
