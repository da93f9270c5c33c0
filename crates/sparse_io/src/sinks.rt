//! Byte sinks.

ghost use Rattle.std.specs.Prelude.{◌≡◌, ℕ, ◌+◌, List, OnOk, OnErr, IfErr, Option, None, Some};
ghost use Rattle.std.specs.Io.{WritesAtMost};
ghost use Rattle.std.specs.Io.KnownBytes.{Appends, WriteAppends};
ghost use Rattle.sparse_io.specs.Sink.{failure_of, CountsFailure, AppendsSome};

use std::io::ErrorKind;

/// A byte sink. Each write accepts a prefix of the slice.
///
/// A write fails if it returns an error, or if it accepts nothing of a nonempty slice, which is a failure of the kind
/// `WriteZero`. Contracts cite the bytes accepted, where the type determines them, and the number of failures.
pub trait Sink {
    ghost use Rattle.std.specs.declared.io.ErrorKind.{ErrorKind};

    // The bytes accepted so far, if the type determines them.
    ghost accepted: { Self → Option (List ℕ) } = { λ _. None };

    // How many writes failed.
    ghost failures: { Self → ℕ };

    // The kind of the last failure.
    ghost last: { Self → Option ErrorKind };

    /// Accepts a prefix of the bytes, and returns its length. A write that fails accepts nothing.
    fn write(&mut self, bytes: &[u8]) -> Result<usize, ErrorKind>
        ensures bound { WritesAtMost result bytes.now }
        ensures bytes { WriteAppends (accepted self.old) (accepted self.new) result bytes.now }
        ensures failed { CountsFailure (failure_of result bytes.now) (failures self.old)
            (failures self.new)
            (last self.old) (last self.new) };
}

/// Writes all bytes. Short writes are continued. Returns the kind of the first write that fails, which is not tried
/// again.
pub fn write_all_to<W: Sink>(sink: &mut W, bytes: &[u8]) -> Result<(), ErrorKind>
    ensures unfailed { OnOk result (W.failures sink.new ≡ W.failures sink.old) }
    ensures all { OnOk result (Appends (W.accepted sink.old) (W.accepted sink.new) bytes.now) }
    ensures one_failed { OnErr result (W.failures sink.new ≡ W.failures sink.old + 1) }
    ensures kind { IfErr result (λ kind. W.last sink.new ≡ Some kind) }
    ensures prefix { OnErr result (AppendsSome (W.accepted sink.old) (W.accepted sink.new) bytes.now) }
{
    let mut rest = bytes;
    while !rest.is_empty() {
        match sink.write(rest) {
            Ok(0) => return Err(ErrorKind::WriteZero),
            Ok(count) => rest = &rest[count..],
            Err(kind) => return Err(kind),
        }
    }
    Ok(())
}
