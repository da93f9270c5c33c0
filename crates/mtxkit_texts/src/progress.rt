//! Shows the progress of reading a large file on a terminal.

ghost use Rattle.std.specs.Prelude.{◌≡◌, ◌<◌, IfOk, IfSome, IsFalse, string_bytes};
ghost use Rattle.std.specs.Io.{ReadsAtMost};
ghost use Rattle.std.specs.Io.KnownBytes.{ReadConsumes};
ghost use Rattle.mtxkit_texts.specs.Progress.{progress_text};

use std::alloc::{AllocError, Global};
use std::io::{self, IsTerminal, Read, Stderr, Write};

// The number of bytes of a megabyte.
const MEGABYTE: u64 = 1_000_000;

/// A stream that knows whether it is a terminal.
pub trait Terminal {
    ghost use Rattle.std.specs.Prelude.{Bool};

    // The answers that the stream can give.
    ghost may_answer: { Self → Bool → Type 0 };

    /// Returns whether the stream is a terminal.
    fn answer(&self) -> bool
        ensures { may_answer self.now result };
}

impl Terminal for Stderr {
    ghost use Rattle.std.specs.Prelude.{⊤};

    // No contract of the standard library says what the system answers, so each answer is possible.
    ghost may_answer = { λ _ _. ⊤ };

    fn answer(&self) -> bool {
        self.is_terminal()
    }
}

/// A stream that shows how much of a file was read. Nothing is written to it unless it is a terminal.
#[derive(Drop)]
pub struct Screen<W> {
    /// The stream.
    pub out: W,
    // Whether the stream is a terminal.
    is_terminal: bool,
    /// The size of the smallest file whose progress is shown, in bytes.
    pub least: u64,
    /// The number of bytes between two lines.
    pub step: u64,
}

impl<W: Terminal> Screen<W> {
    /// Returns a screen that writes to this stream, for files of 64 MB and more. A line is shown after each 16 MB.
    pub fn of(out: W) -> Screen<W>
        ensures out { result.out ≡ out }
        ensures asked { W.may_answer out result.is_terminal }
        ensures least { result.least ≡ 64000000 }
        ensures step { result.step ≡ 16000000 }
    {
        Screen::new(out, 64 * MEGABYTE, 16 * MEGABYTE)
    }

    /// Returns a screen that writes to this stream, for files of at least `least` bytes. A line is shown after each
    /// `step` bytes.
    pub fn new(out: W, least: u64, step: u64) -> Screen<W>
        ensures out { result.out ≡ out }
        ensures asked { W.may_answer out result.is_terminal }
        ensures least { result.least ≡ least }
        ensures step { result.step ≡ step }
    {
        Screen {
            is_terminal: out.answer(),
            out,
            least,
            step,
        }
    }
}

impl Screen<io::Sink> {
    /// Returns a screen that shows nothing.
    pub fn none() -> Screen<io::Sink>
        ensures { IsFalse result.is_terminal }
    {
        Screen {
            out: io::sink(),
            is_terminal: false,
            least: 0,
            step: 0,
        }
    }
}

/// A reader of a file that shows on a screen how much of it was read.
#[derive(Drop)]
struct Watched<'a, R, W> {
    reader: R,
    progress: Progress<'a, W>,
}

impl<R: Read, W: Write> Read for Watched<'_, R, W> {
    ghost remaining = { λ watched. R.remaining watched.reader };

    fn read(&mut self, buf: &mut [u8]) -> io::Result<usize>
        ensures bound { ReadsAtMost result buf.new }
        ensures bytes { ReadConsumes (R.remaining self.old.reader) (R.remaining self.new.reader)
            result buf.new }
    {
        let count = self.reader.read(buf)?;
        self.progress.add(count);
        Ok(count)
    }
}

/// How much of a file was read, and the screen that shows it.
#[derive(Drop)]
struct Progress<'a, W> {
    alloc: Global,
    screen: &'a mut Screen<W>,
    path: &'a str,
    whole: u64,
    done: u64,
    // The next line is shown once more than this number of bytes was read.
    next: u64,
}

impl<W: Write> Progress<'_, W> {
    // Adds to the number of bytes that were read, and shows a line if one is due.
    fn add(&mut self, count: usize) {
        self.done = self.done.saturating_add(count as u64);
        if self.done > self.next {
            self.next = self.next.saturating_add(self.screen.step);
            self.show();
        }
    }

    // Writes a line over the last one. Errors of the write and failed allocations are ignored.
    fn show(&mut self) {
        let _ = match progress_line(self.alloc, self.path, self.done, self.whole) {
            Ok(line) => self.screen.out.write_all(line.as_bytes()),
            Err(_) => Ok(()),
        };
    }

    // Writes the last line and a line end.
    fn end(&mut self) {
        self.show();
        let _ = self.screen.out.write_all(b"\n");
    }
}

/// Returns the line that says how many megabytes of a file were read. It begins with a carriage return and has no line
/// end, so that the next line replaces it on a terminal.
///
/// Fails only if an allocation fails.
pub fn progress_line(alloc: Global, path: &str, done: u64, whole: u64) -> Result<String, AllocError>
    ensures { IfOk result (λ line. string_bytes line ≡ progress_text path.now done whole) }
{
    let (done, whole) = (done / MEGABYTE, whole / MEGABYTE);
    format!(in alloc; "\rmtxkit: {path}: {done} of {whole} MB read")
}

/// Reads a file to its end and returns its text. The screen shows how much was read, if it is a terminal and the file
/// is large enough.
///
/// `size` is the number of bytes of the file, or 0 if it is not known; this many bytes are allocated first. The path is
/// part of the line that is shown.
///
/// # Errors
///
/// Returns the error of a read that fails, and `InvalidData` if the file is not UTF-8. Errors in showing the progress
/// are ignored. Otherwise fails only if an allocation fails.
pub fn read_shown<R, W>(
    alloc: Global,
    reader: R,
    path: &str,
    size: u64,
    screen: &mut Screen<W>,
) -> io::Result<String>
where
    R: Read + Drop,
    W: Write,
    ensures text { IfOk result
        (λ text. IfSome (R.remaining reader) (λ bytes. string_bytes text ≡ bytes)) }
    ensures silent { IsFalse screen.old.is_terminal → screen.new ≡ screen.old }
    ensures small { size < screen.old.least → screen.new ≡ screen.old }
{
    let mut reader = reader;
    if !screen.is_terminal || size < screen.least {
        return text_of(alloc, &mut reader, size);
    }
    let next = screen.step;
    let progress = Progress {
        alloc,
        screen,
        path,
        whole: size,
        done: 0,
        next,
    };
    let mut watched = Watched { reader, progress };
    let text = text_of(alloc, &mut watched, size);
    watched.progress.end();
    text
}

// Reads to the end and returns the text, of about `size` bytes.
fn text_of<R: Read>(alloc: Global, reader: &mut R, size: u64) -> io::Result<String>
    ensures { IfOk result
        (λ text. IfSome (R.remaining reader.old) (λ bytes. string_bytes text ≡ bytes)) }
{
    // One more byte than `size`, for the read that finds the end of the file.
    let room = (size as usize).saturating_add(1);
    let mut text = String::with_capacity(alloc, room)?;
    reader.read_to_string(&mut text)?;
    Ok(text)
}
