//! A list of written files that exists only in contracts.

ghost use Rattle.std.specs.Prelude.{◌≡◌, List, [], ◌∷◌};
ghost use base.Fml.{ftrue};
ghost use Rattle.mtxkit_commands.specs.Savings.{Saving};

use std::marker::Model;

/// The files that were to be written so far, the last one first. It occupies no memory at run time, and code cannot
/// read it.
#[derive(Drop)]
pub(crate) struct SaveRecord {
    pub(crate) ghost savings: { List Saving },
}

impl Model for SaveRecord {
    ghost also_owns = { λ _. ftrue };
}

impl SaveRecord {
    /// Returns an empty record.
    pub(crate) fn new() -> SaveRecord
        ensures { result.savings ≡ [] }
    {
        SaveRecord {}
    }

    /// Returns this record with one more file: its path, and the bytes that were to be written to it.
    pub(crate) fn with(&self, _path: &[u8], _bytes: &[u8]) -> SaveRecord
        ensures { result.savings ≡ (_path.now, _bytes.now) ∷ self.now.savings }
    {
        SaveRecord {}
    }
}

const _: () = prove!(size_of::<SaveRecord>() == 0);
