//! A list of readings that exists only in contracts.

ghost use Rattle.std.specs.Prelude.{◌≡◌, List, [], ◌∷◌};
ghost use base.Fml.{ftrue};
ghost use Rattle.file_readings.specs.Readings.{Reading, reading_of};

use std::io;
use std::marker::Model;

/// The files that were read so far, the last one first. It occupies no memory at run time, and code cannot read it.
#[derive(Drop)]
pub struct Record {
    pub ghost readings: { List Reading },
}

impl Model for Record {
    ghost also_owns = { λ _. ftrue };
}

impl Record {
    /// Returns an empty record.
    pub fn new() -> Record
        ensures { result.readings ≡ [] }
    {
        Record {}
    }

    /// Returns this record with one more file: its path, and the text or the error that reading it returned.
    pub fn with(&self, _path: &[u8], _read: &io::Result<String>) -> Record
        ensures { result.readings ≡ reading_of _path.now _read.now ∷ self.now.readings }
    {
        Record {}
    }
}

const _: () = prove!(size_of::<Record>() == 0);
