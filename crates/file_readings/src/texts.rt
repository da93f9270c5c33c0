//! What reads files by their paths.

ghost use Rattle.std.specs.Prelude.{◌≡◌, ◌∷◌, List, Ok, Err, IfOk, IfErr, string_bytes};

use std::io;

/// Reads files. Contracts see which files were read, in which order, and the text or the error of each.
pub trait Texts {
    ghost use Rattle.file_readings.specs.Readings.{Reading};

    // The files that were read so far and their texts or errors, the last one first.
    ghost readings: { Self → List Reading };

    /// Reads the file with this path.
    fn read(&mut self, path: &str) -> io::Result<String>
        ensures text { IfOk result (λ text. readings self.new
            ≡ (path.now, Ok (string_bytes text)) ∷ readings self.old) }
        ensures failed { IfErr result (λ error. readings self.new
            ≡ (path.now, Err error) ∷ readings self.old) };
}
