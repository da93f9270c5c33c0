//! The lines of Matrix Market texts that have a fault.

ghost use Rattle.std.specs.Prelude.{◌≡◌, ◌≢◌, pos, IsUtf8};
ghost use Rattle.sparse_c.specs.Texts.{IsFaultLine};
ghost use Rattle.c_arrays.specs.Statuses.{number_of};
ghost use Rattle.c_arrays.specs.declared.refusal.Refusal.TheVariants.{Unreadable};

use c_arrays::refusal::Refusal;
use sparse_faults::{ValueType, text_fault};
use std::str;

/// Writes the number of the first line with a fault of a text in Matrix Market format, counted from 1, or 0 if the text
/// has no error.
#[unsafe(no_mangle)]
pub extern "C" fn nalgebra_sparse_text_fault(text: &[u8], out_line: &mut usize) -> i32
    ensures line { result ≡ pos 0 → IsFaultLine text.now out_line.new }
    ensures untouched { result ≢ pos 0 → out_line.new ≡ out_line.old }
    ensures refused { result ≢ pos 0 → (result ≡ number_of Unreadable) × (IsUtf8 text.now → ⊥) }
{
    match str::from_utf8(text) {
        Ok(text) => {
            *out_line = line_of_fault(text);
            0
        }
        Err(_fault) => Refusal::Unreadable.status(),
    }
}

// Returns the number of the first line with a fault, or 0 if the text has no error.
fn line_of_fault(text: &str) -> usize
    ensures { IsFaultLine text.now result }
{
    match text_fault(text, ValueType::Wrapping) {
        Some(location) => location.line,
        None => 0,
    }
}
