//! What `mtxkit` writes and answers.

mod cases;
mod eval_cases;
mod failures;
mod help;
mod info_cases;
mod json_cases;
mod line_cases;
mod one_file;
mod order_cases;
mod place_cases;
mod progress;
mod refusals;
mod refused;
mod several_files;
mod system_cases;

use mtxkit_commands::answer;
use mtxkit_texts::Screen;
use sparse_io::Out;
use std::alloc::{AllocError, Global};
use std::env::Args;
use std::io::{self, Write};
use std::process::ExitCode;

/// What a command did: its status, its output, and what it wrote to standard error.
#[derive(Drop)]
struct Answer<W> {
    status: ExitCode,
    out: W,
    err: Vec<u8>,
}

/// A writer that fails with this error of the system.
#[derive(Drop)]
struct Closed(i32);

impl Write for Closed {
    fn write(&mut self, _buf: &[u8]) -> io::Result<usize> {
        Err(io::Error::from_raw_os_error(self.0))
    }

    fn flush(&mut self) -> io::Result<()> {
        Err(io::Error::from_raw_os_error(self.0))
    }
}

// The errors of a descriptor that is closed, of a full disk, and of a pipe whose reader has closed it.
const BAD_DESCRIPTOR: i32 = 9;

const FULL_DISK: i32 = 28;

const BROKEN_PIPE: i32 = 32;

// The arguments of the program: its name, these words, and these paths.
fn arguments(alloc: Global, words: &[&str], paths: &[String]) -> Result<Vec<String>, AllocError> {
    let mut given = Vec::new(alloc);
    given.push(String::from_str(alloc, "mtxkit")?)?;
    for word in words {
        given.push(String::from_str(alloc, word)?)?;
    }
    for path in paths {
        given.push(String::from_str(alloc, path.as_str())?)?;
    }
    Ok(given)
}

// What the program answers with these bytes on standard input, over this output.
fn answered_to<W: Write + Drop>(
    rt: &HostRuntime,
    given: io::Result<Args>,
    stdin: &[u8],
    to: W,
) -> Answer<W> {
    let (mut out, mut err) = (Out::new(to), Out::new(Vec::new(rt.alloc())));
    let status = answer(rt, given, stdin, &mut out, &mut err, Screen::none());
    let (out, err) = (out.into_inner(), err.into_inner());
    Answer { status, out, err }
}

// What the program answers to these words and paths, with these bytes on standard input.
fn answered(
    rt: &HostRuntime,
    words: &[&str],
    paths: &[String],
    stdin: &[u8],
) -> Result<Answer<Vec<u8>>, AllocError> {
    let given = arguments(rt.alloc(), words, paths)?;
    Ok(answered_to(rt, Ok(given.into_iter()), stdin, Vec::new(rt.alloc())))
}

// Whether a command wrote this text, and nothing else, with status 0.
fn has_written(answer: Answer<Vec<u8>>, text: &str) -> bool {
    answer.out.as_slice() == text.as_bytes()
        && answer.err.is_empty()
        && answer.status == ExitCode::SUCCESS
}

// Whether a command wrote this line to standard error, and nothing else, with status 1.
fn has_failed(answer: Answer<Vec<u8>>, line: &str) -> bool {
    answer.out.is_empty()
        && answer.err.as_slice() == line.as_bytes()
        && answer.status == ExitCode::FAILURE
}
