//! Reads the files of a command.

ghost use Rattle.std.specs.Prelude.{◌≡◌, ◌≢◌, ◌∷◌, [], Ok, Err, IfOk, IfErr, codes, string_bytes};
ghost use Rattle.file_readings.specs.Readings.{IsRead};
ghost use Rattle.mtxkit_commands.specs.Inputs.{input_fault, IsUnread};
ghost use Rattle.mtxkit_commands.specs.Logs.{input_of, readings_of};
ghost use Rattle.mtxkit_commands.specs.Standard.{TakesAll};

use file_readings::{Record, Texts};
use mtxkit_texts::{Failure, Screen, read_shown};
use std::alloc::Global;
use std::fs::{File, OpenFile};
use std::io;
use std::rt::Files;

/// The files of the system; the path `-` is standard input. The record of the files that were read occupies no memory.
#[derive(Drop)]
pub struct Inputs<'a, R, I, W> {
    rt: &'a R,
    stdin: &'a mut I,
    screen: &'a mut Screen<W>,
    log: Record,
}

impl<'a, R, I, W> Inputs<'a, R, I, W> {
    /// Returns the files of `rt`, of which none was read. The screen shows the progress of reading.
    pub fn new(rt: &'a R, stdin: &'a mut I, screen: &'a mut Screen<W>) -> Inputs<'a, R, I, W>
        ensures { readings_of result ≡ [] }
    {
        Inputs {
            rt,
            stdin,
            screen,
            log: Record::new(),
        }
    }
}

impl<'a, R, I, W> Texts for Inputs<'a, R, I, W>
where
    R: Files + AllocGlobal,
    I: io::Read,
    W: io::Write,
{
    ghost readings = { readings_of };

    /// Returns `InvalidData` if the file is not UTF-8. The text of the path `-` is all that is left of standard input.
    fn read(&mut self, path: &str) -> io::Result<String>
        ensures text { IfOk result (λ text. readings_of self.new
            ≡ (path.now, Ok (string_bytes text)) ∷ readings_of self.old) }
        ensures failed { IfErr result (λ error. readings_of self.new
            ≡ (path.now, Err error) ∷ readings_of self.old) }
        ensures standard { path.now ≡ codes "-" → IfOk result (λ text.
            TakesAll (input_of I.remaining self.old) (input_of I.remaining self.new)
            (string_bytes text)) }
        ensures other { path.now ≢ codes "-"
            → input_of I.remaining self.new ≡ input_of I.remaining self.old }
    {
        let read = content_of(self.rt, self.stdin, self.screen, path);
        self.log = self.log.with(path.as_bytes(), &read);
        read
    }
}

// Returns the text of the file with this path, or what is left of standard input if the path is `-`. No contract says
// what a file contains.
fn content_of<R, I, W>(
    rt: &R,
    stdin: &mut I,
    screen: &mut Screen<W>,
    path: &str,
) -> io::Result<String>
where
    R: Files + AllocGlobal,
    I: io::Read,
    W: io::Write,
    ensures standard { path.now ≡ codes "-" → IfOk result (λ text.
        TakesAll (I.remaining stdin.old) (I.remaining stdin.new) (string_bytes text)) }
    ensures other { path.now ≢ codes "-" → stdin.new ≡ stdin.old }
{
    if path == "-" {
        return read_rest(rt.alloc(), stdin);
    }
    let file = File::open(rt, path)?;
    let size = file_size(&file);
    read_shown(rt.alloc(), file, path, size, screen)
}

// Returns the text of all that is left of the reader.
fn read_rest<I: io::Read>(alloc: Global, reader: &mut I) -> io::Result<String>
    ensures { IfOk result (λ text.
        TakesAll (I.remaining reader.old) (I.remaining reader.new) (string_bytes text)) }
{
    let mut text = String::new(alloc);
    reader.read_to_string(&mut text)?;
    Ok(text)
}

// Returns the number of bytes of an open file, or 0 if it is not known.
fn file_size<F: OpenFile>(file: &F) -> u64 {
    match file.metadata() {
        Ok(metadata) => metadata.len(),
        Err(_) => 0,
    }
}

/// Reads the file with this path. `number` is that of the file in the command, counted from 1.
///
/// # Errors
///
/// Returns `Unread` with this number and the error if the file cannot be opened or read, or is not UTF-8.
/// Otherwise fails only if an allocation fails.
pub fn read_text<T: Texts>(texts: &mut T, number: usize, path: &str) -> Result<String, Failure>
    ensures read { IfOk result (λ text. IsRead path.now (T.readings texts.old)
        (T.readings texts.new) (string_bytes text)) }
    ensures unread { IfErr result
        (IsUnread number path.now (T.readings texts.old) (T.readings texts.new)) }
{
    match texts.read(path) {
        Ok(text) => Ok(text),
        Err(error) => Err(unreadable(number, error)),
    }
}

// Returns the failure for the file with this number, which cannot be opened or read.
fn unreadable(number: usize, error: io::Error) -> Failure
    ensures { result ≡ input_fault number error }
{
    match error.kind() {
        io::ErrorKind::OutOfMemory => Failure::OutOfMemory,
        _ => Failure::Unread(number, error),
    }
}
