//! A writer that fails.

use std::alloc::Global;
use std::io::{self, ErrorKind, Write};

/// A writer that takes some bytes and then fails, and whose flush fails.
#[derive(Drop)]
pub(crate) struct Short {
    pub(crate) bytes: Vec<u8>,
    room: usize,
}

impl Write for Short {
    fn write(&mut self, buf: &[u8]) -> io::Result<usize> {
        if self.room == 0 {
            return Err(io::Error::from(ErrorKind::BrokenPipe));
        }
        let count = self.room.min(buf.len());
        self.bytes.extend_from_slice(&buf[..count])?;
        self.room -= count;
        Ok(count)
    }

    fn flush(&mut self) -> io::Result<()> {
        Err(io::Error::from(ErrorKind::BrokenPipe))
    }
}

/// Returns one that takes this many bytes.
pub(crate) fn with_room(alloc: Global, room: usize) -> Short {
    Short {
        bytes: Vec::new(alloc),
        room,
    }
}
