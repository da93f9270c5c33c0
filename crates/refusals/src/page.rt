//! A writer that asks for no memory.

use crate::outcome::{Failure, Outcome, checksum_of_bytes, of_error};
use nalgebra_sparse::io::Out;
use std::io::{self, Write};

// The most bytes that a writer takes.
const ROOM: usize = 1024;

/// A writer with room of its own.
#[derive(Drop)]
pub struct Page {
    bytes: [u8; ROOM],
    count: usize,
}

impl Page {
    /// Returns an empty page.
    pub fn new() -> Page {
        Page {
            bytes: [0; ROOM],
            count: 0,
        }
    }

    /// Returns the bytes that were taken.
    pub fn taken(&self) -> &[u8] {
        &self.bytes[..self.count.min(ROOM)]
    }
}

impl Write for Page {
    fn write(&mut self, bytes: &[u8]) -> io::Result<usize> {
        let start = self.count.min(ROOM);
        let count = bytes.len().min(ROOM - start);
        self.bytes[start..start + count].copy_from_slice(&bytes[..count]);
        self.count = start + count;
        Ok(count)
    }

    fn flush(&mut self) -> io::Result<()> {
        Ok(())
    }
}

/// Returns the outcome of a call that writes, given what the page took in a call before. After a refusal a prefix of it
/// was written.
pub fn written<E: Failure + Drop>(answer: Result<(), E>, out: Out<Page>, whole: &Page) -> Outcome {
    let page = out.into_inner();
    match answer {
        Ok(()) => Outcome::Answered(checksum_of_bytes(page.taken())),
        Err(error) => of_error(&error).leaving(whole.taken().starts_with(page.taken())),
    }
}
