//! What a screen shows while a file is read.

use crate::files::matrix;
use crate::mtxkit::{BROKEN_PIPE, Closed, arguments};
use mtxkit_commands::answer;
use mtxkit_texts::{Screen, Terminal, progress_line, read_shown};
use sparse_io::Out;
use std::alloc::{AllocError, Global};
use std::io::{self, ErrorKind, Read, Write};
use std::process::ExitCode;

const MEGABYTE: u64 = 1_000_000;

/// A stream that is a terminal, or not.
#[derive(Drop)]
struct Stream<W> {
    to: W,
    is_terminal: bool,
}

impl<W> Terminal for Stream<W> {
    ghost use Rattle.std.specs.Prelude.{◌≡◌};

    ghost may_answer = { λ stream yes. yes ≡ stream.is_terminal };

    fn answer(&self) -> bool {
        self.is_terminal
    }
}

impl<W: Write> Write for Stream<W> {
    fn write(&mut self, buf: &[u8]) -> io::Result<usize> {
        self.to.write(buf)
    }

    fn flush(&mut self) -> io::Result<()> {
        self.to.flush()
    }
}

// The screen of a terminal, for files of at least this size, with a line after each `step` bytes.
fn terminal<W>(to: W, least: u64, step: u64) -> Screen<Stream<W>> {
    let is_terminal = true;
    Screen::new(Stream { to, is_terminal }, least, step)
}

impl Read for Closed {
    fn read(&mut self, _buf: &mut [u8]) -> io::Result<usize> {
        Err(io::Error::from(ErrorKind::ConnectionReset))
    }
}

// The bytes that were read, those of the file, and the line.
const LINES: [(u64, u64, &str); 3] = [
    (0, 64 * MEGABYTE, "\rmtxkit: a.mtx: 0 of 64 MB read"),
    (999_999, 2_999_999, "\rmtxkit: a.mtx: 0 of 2 MB read"),
    (
        512 * MEGABYTE,
        2048 * MEGABYTE,
        "\rmtxkit: a.mtx: 512 of 2048 MB read",
    ),
];

// Whether a line is written so.
fn is_line(alloc: Global, &(done, whole, wanted): &(u64, u64, &str)) -> bool {
    match progress_line(alloc, "a.mtx", done, whole) {
        Ok(line) => line.as_str() == wanted,
        Err(AllocError) => false,
    }
}

#[test]
fn a_line_names_the_file_and_counts_megabytes(rt: HostRuntime) {
    for case in &LINES {
        assert!(rt; is_line(rt.alloc(), case), "{}", case.2);
    }
}

const ALL_LINES: &str =
    "\rmtxkit: a.mtx: 1 of 3 MB read\rmtxkit: a.mtx: 2 of 3 MB read\rmtxkit: a.mtx: 3 of 3 MB read\n";

// Whether the stream is a terminal, the smallest size that is shown, and what is shown of a file of three megabytes.
const SCREENS: [(bool, u64, &str); 3] = [
    (true, 3 * MEGABYTE, ALL_LINES),
    (true, 3 * MEGABYTE + 1, ""),
    (false, 0, ""),
];

// Whether a file of three megabytes is read whole, and this is shown.
fn is_shown(rt: &HostRuntime, &(is_terminal, least, wanted): &(bool, u64, &str)) -> bool {
    let mut shown = Vec::new(rt.alloc());
    let to = &mut shown;
    let mut screen = Screen::new(Stream { to, is_terminal }, least, MEGABYTE);
    let file = io::repeat(b'1').take(3 * MEGABYTE);
    let count = match read_shown(rt.alloc(), file, "a.mtx", 3 * MEGABYTE, &mut screen) {
        Ok(text) => text.len(),
        Err(_) => 0,
    };
    count == 3_000_000 && shown.as_slice() == wanted.as_bytes()
}

#[test]
fn large_files_are_shown_on_terminals_alone(rt: HostRuntime) {
    for case in &SCREENS {
        assert!(rt; is_shown(&rt, case), "{}", case.1);
    }
}

// Whether a file whose second megabyte cannot be read ends so, and its progress is shown. The line of the error begins
// below.
fn is_torn(rt: &HostRuntime) -> bool {
    let mut shown = Vec::new(rt.alloc());
    let mut screen = terminal(&mut shown, 0, MEGABYTE);
    let file = io::repeat(b'1').take(MEGABYTE).chain(Closed(BROKEN_PIPE));
    let is_reset = match read_shown(rt.alloc(), file, "a.mtx", 2 * MEGABYTE, &mut screen) {
        Ok(_) => false,
        Err(error) => error.kind() == ErrorKind::ConnectionReset,
    };
    is_reset && shown.as_slice() == b"\rmtxkit: a.mtx: 1 of 2 MB read\n".as_slice()
}

#[test]
fn a_failed_read_ends_the_line(rt: HostRuntime) {
    assert!(rt; is_torn(&rt));
}

// Whether a text is read although the screen takes nothing.
fn is_read_unseen(rt: &HostRuntime) -> bool {
    let mut screen = terminal(Closed(BROKEN_PIPE), 0, 1);
    let file: &[u8] = b"text";
    match read_shown(rt.alloc(), file, "a.mtx", 4, &mut screen) {
        Ok(text) => text.as_str() == "text",
        Err(_) => false,
    }
}

#[test]
fn a_screen_that_fails_is_no_error(rt: HostRuntime) {
    assert!(rt; is_read_unseen(&rt));
}

// Whether a command shows the path of its file.
fn is_path_shown(rt: &HostRuntime) -> io::Result<bool> {
    let path = matrix(rt, 0, "1 1 0\n")?;
    let given = arguments(rt.alloc(), &["info"], &[path])?;
    let mut shown = Vec::new(rt.alloc());
    let screen = terminal(&mut shown, 1, 1000);
    let stdin: &[u8] = &[];
    let (mut out, mut err) = (Out::new(io::sink()), Out::new(io::sink()));
    let status = answer(rt, Ok(given.into_iter()), stdin, &mut out, &mut err, screen);
    let wanted = b"\rmtxkit: 0.mtx: 0 of 0 MB read\n".as_slice();
    Ok(status == ExitCode::SUCCESS && shown.as_slice() == wanted)
}

#[test]
fn a_command_shows_the_path_of_its_file(rt: HostRuntime) {
    assert!(rt; matches!(is_path_shown(&rt), Ok(true)));
}
