//! Writes the output files of commands.

ghost use Rattle.std.specs.Prelude.{◌≡◌, ◌∷◌, [], List};
ghost use Rattle.mtxkit_commands.specs.Logs.{savings_of};

use crate::save_record::SaveRecord;
use std::rt::Files;
use std::{fs, io};

/// Writes files. Contracts see which bytes were to be written to which file, and in which order.
pub trait Saves {
    ghost use Rattle.mtxkit_commands.specs.Savings.{Saving};

    // The paths of the files that were to be written so far, and the bytes, the last ones first.
    ghost savings: { Self → List Saving };

    /// Creates or truncates the file with this path, and writes the bytes to it.
    fn save(&mut self, path: &str, bytes: &[u8]) -> io::Result<()>
        ensures { savings self.new ≡ (path.now, bytes.now) ∷ savings self.old };
}

/// The files of the system. The record of the files that were written occupies no memory.
#[derive(Drop)]
pub struct Outputs<'a, R> {
    rt: &'a R,
    log: SaveRecord,
}

impl<'a, R> Outputs<'a, R> {
    /// Returns the files of `rt`, of which none was written.
    pub fn new(rt: &'a R) -> Outputs<'a, R>
        ensures { savings_of result ≡ [] }
    {
        Outputs {
            rt,
            log: SaveRecord::new(),
        }
    }
}

impl<'a, R: Files> Saves for Outputs<'a, R> {
    ghost savings = { savings_of };

    /// No contract says what a file of the system has.
    fn save(&mut self, path: &str, bytes: &[u8]) -> io::Result<()> {
        self.log = self.log.with(path.as_bytes(), bytes);
        fs::write(self.rt, path, bytes)
    }
}
