//! A sink over a writer.

ghost use Rattle.std.specs.Prelude.{◌≡◌, ◌+◌, None, Some, false};
ghost use Rattle.std.specs.Prelude.{is_ok, IfErr, IsErrAnd, IfOk, IsOk};
ghost use Rattle.std.specs.Io.{WritesAtMost};
ghost use Rattle.std.specs.Io.KnownBytes.{Keeps, WriteAppends};
ghost use Rattle.std.specs.IoError.{error_kind};
ghost use Rattle.sparse_io.specs.Out.{out_state};
ghost use Rattle.sparse_io.specs.Sink.{failure_of, CountsFailure};

use crate::sinks::Sink;
use sparse_coo_dense::steps::Steps;
use std::io::{self, ErrorKind, Write};
use std::marker::Model;

/// A [`Sink`] over any [`Write`].
///
/// Its bytes are those of the writer. It keeps the kind of the last failure, and whether the writer was flushed since
/// the last write. No call returns these: contracts cite them, and the number of failed writes, which takes no memory
/// at run time.
#[derive(Drop)]
pub struct Out<W> {
    inner: W,
    last: Option<ErrorKind>,
    flushed: bool,
    failures: Steps,
}

impl<W> Model for Out<W> {
    ghost use Rattle.sparse_io.specs.Out.{OutState, out_state};

    ghost Value = { OutState W };

    ghost view = { λ out. out_state out.inner out.failures out.last out.flushed };
}

impl<W> Out<W> {
    /// Returns a sink over the writer, without a failure so far.
    pub fn new(inner: W) -> Out<W>
        ensures { result ≡ out_state inner 0 None false }
    {
        Out {
            inner,
            last: None,
            flushed: false,
            failures: Steps::new(),
        }
    }

    /// Returns the writer.
    pub fn into_inner(self) -> W
        ensures { result ≡ self.inner }
    {
        let Out {
            inner,
            last: _,
            flushed: _,
            failures: _,
        } = self;
        inner
    }

    fn fail(&mut self, kind: ErrorKind)
        ensures { self.new
            ≡ out_state self.old.inner (self.old.failures + 1) (Some kind) self.old.flushed }
    {
        self.failures.tick();
        self.last = Some(kind);
    }

    // Records whether a flush of the writer succeeded. Returns the kind of its error if it failed.
    fn settle(&mut self, answer: io::Result<()>) -> Result<(), ErrorKind>
        ensures recorded { self.new
            ≡ out_state self.old.inner self.old.failures self.old.last (is_ok answer) }
        ensures flushed { IfOk answer (λ _. IsOk result) }
        ensures refused { IfErr answer (λ e. IsErrAnd result (λ kind. kind ≡ error_kind e)) }
    {
        match answer {
            Ok(()) => {
                self.flushed = true;
                Ok(())
            }
            Err(error) => {
                self.flushed = false;
                Err(error.kind())
            }
        }
    }
}

impl<W: Write> Out<W> {
    /// Flushes the writer. A flush that fails returns the kind of its error; it is not counted as a failed write.
    pub fn flush(&mut self) -> Result<(), ErrorKind>
        ensures flushed { self.new.flushed ≡ is_ok result }
        ensures failures { self.new.failures ≡ self.old.failures }
        ensures last { self.new.last ≡ self.old.last }
        ensures bytes { Keeps (W.contents self.old.inner) (W.contents self.new.inner) }
    {
        let answer = self.inner.flush();
        self.settle(answer)
    }
}

impl<W: Write> Sink for Out<W> {
    ghost accepted = { λ out. W.contents out.inner };

    ghost failures = { λ out. out.failures };

    ghost last = { λ out. out.last };

    /// Writes to the writer, which is then not flushed.
    fn write(&mut self, bytes: &[u8]) -> Result<usize, ErrorKind>
        ensures bound { WritesAtMost result bytes.now }
        ensures bytes { WriteAppends (W.contents self.old.inner) (W.contents self.new.inner) result
            bytes.now }
        ensures failed { CountsFailure (failure_of result bytes.now) self.old.failures
            self.new.failures self.old.last self.new.last }
        ensures unflushed { self.new.flushed ≡ false }
    {
        self.flushed = false;
        match self.inner.write(bytes) {
            Ok(count) => {
                if count == 0 && !bytes.is_empty() {
                    self.fail(ErrorKind::WriteZero);
                }
                Ok(count)
            }
            Err(error) => {
                let kind = error.kind();
                self.fail(kind);
                Err(kind)
            }
        }
    }
}
