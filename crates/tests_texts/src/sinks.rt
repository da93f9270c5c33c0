//! Writers below a sink: how many bytes each write is given, and what a flush answers.

use crate::matrices::antidiagonal;
use crate::writing::CAPACITY;
use sparse_io::{Out, save_to_matrix_market};
use std::alloc::{AllocError, Global};
use std::io;
use std::io::{ErrorKind, Write};
use std::test::Fail;

/// A writer that keeps the number of writes and the length of the longest.
#[derive(Drop)]
struct Lengths {
    count: usize,
    most: usize,
}

impl Write for Lengths {
    fn write(&mut self, bytes: &[u8]) -> io::Result<usize> {
        self.count = self.count.saturating_add(1);
        self.most = self.most.max(bytes.len());
        Ok(bytes.len())
    }

    fn flush(&mut self) -> io::Result<()> {
        Ok(())
    }
}

// The number of writes that the square list of this order takes, and the length of the longest.
fn writes_of(alloc: Global, order: usize) -> Result<Option<(usize, usize)>, AllocError> {
    let matrix = antidiagonal(alloc, order)?;
    let mut out = Out::new(Lengths { count: 0, most: 0 });
    if save_to_matrix_market(alloc, &mut out, &matrix).is_err() {
        return Ok(None);
    }
    let Lengths { count, most } = out.into_inner();
    Ok(Some((count, most)))
}

#[test]
fn the_buffer_is_emptied_before_it_is_full(rt: HostRuntime) -> Result<(), Fail> {
    // The lines of 100,000 entries have about 15 bytes each.
    let (count, most) = writes_of(rt.alloc(), 100_000)?.ok_or("a refusal")?;
    assert!(rt; most <= CAPACITY && most > CAPACITY / 2, "{most}");
    assert!(rt; count >= 20 && count < 40, "{count}");
    Ok(())
}

/// A writer that takes everything, and whose flush fails with an error of this kind, if there is one.
#[derive(Drop)]
struct Unflushed {
    fault: Option<ErrorKind>,
}

impl Write for Unflushed {
    fn write(&mut self, bytes: &[u8]) -> io::Result<usize> {
        Ok(bytes.len())
    }

    fn flush(&mut self) -> io::Result<()> {
        match self.fault {
            Some(kind) => Err(io::Error::from(kind)),
            None => Ok(()),
        }
    }
}

#[test]
fn a_flush_answers_what_the_writer_answers(rt: HostRuntime) {
    for fault in [
        None,
        Some(ErrorKind::StorageFull),
        Some(ErrorKind::OutOfMemory),
    ] {
        let mut out = Out::new(Unflushed { fault });
        assert!(rt; out.flush().err() == fault);
    }
}
