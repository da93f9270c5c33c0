//! Texts written into buffers that C passes.

ghost use Rattle.std.specs.Prelude.{◌≡◌, ◌≢◌, ◌<◌, length, pos};
ghost use Rattle.std.specs.Prelude.{string_bytes, IfOk, MatchResult, OnErr};
ghost use Rattle.c_arrays.specs.Lists.{HoldsText};
ghost use Rattle.c_arrays.specs.Rests.{KeepsBehind};
ghost use Rattle.c_arrays.specs.Statuses.{number_of};
ghost use Rattle.c_arrays.specs.declared.refusal.Refusal.TheVariants.{TooSmall};

use crate::refusal::Refusal;
use crate::scalars::put_items;

/// Writes the text of an answer into a buffer, and its length in bytes into `size`. Returns the status of the call: 0,
/// or the status of the error; the buffer is then unchanged. If the buffer is too small, only the length is written.
///
/// The buffer may be longer than the text.
pub fn finish_text(answer: Result<String, Refusal>, buffer: &mut [u8], size: &mut usize) -> i32
    ensures written { result ≡ pos 0 → MatchResult answer
        (λ text. HoldsText (string_bytes text) buffer.new size.new) (λ _. ⊥) }
    ensures rest { result ≡ pos 0 → KeepsBehind size.new buffer.old buffer.new }
    ensures untouched { result ≢ pos 0 → buffer.new ≡ buffer.old }
    ensures needed { result ≢ pos 0 → IfOk answer (λ text. size.new ≡ length (string_bytes text)) }
    ensures kept { OnErr answer (size.new ≡ size.old) }
    ensures refused { result ≢ pos 0 → MatchResult answer
        (λ text. (result ≡ number_of TooSmall) × (length buffer.old < length (string_bytes text)))
        (λ refusal. result ≡ number_of refusal) }
{
    match answer {
        Ok(text) => write_bytes(text.as_bytes(), buffer, size),
        Err(refusal) => refusal.status(),
    }
}

// Writes the number of bytes, and the bytes if the buffer is not too small. Returns 0, or the status of a buffer that
// is too small.
fn write_bytes(bytes: &[u8], buffer: &mut [u8], size: &mut usize) -> i32
    ensures written { result ≡ pos 0 → HoldsText bytes.now buffer.new size.new }
    ensures rest { result ≡ pos 0 → KeepsBehind size.new buffer.old buffer.new }
    ensures untouched { result ≢ pos 0 → buffer.new ≡ buffer.old }
    ensures counted { size.new ≡ length bytes.now }
    ensures small { result ≢ pos 0 → length buffer.old < length bytes.now }
    ensures status { result ≢ pos 0 → result ≡ number_of TooSmall }
{
    *size = bytes.len();
    if buffer.len() < bytes.len() {
        return Refusal::TooSmall.status();
    }
    put_items(buffer, bytes);
    0
}
