//! Matrix Market texts, read into handles and written from the matrices that handles hold.

ghost use Rattle.std.specs.Prelude.{◌≡◌, Err, None, IfErr, IfOk, OnOk, OnErr};
ghost use Rattle.std.specs.Prelude.{length, string_bytes};
ghost use Rattle.sparse_algebra.specs.WrappingValues.{w64_value};
ghost use Rattle.c_arrays.specs.Arrays.{ring64};
ghost use Rattle.c_arrays.specs.Lists.{HoldsText};
ghost use Rattle.c_arrays.specs.Refused.{IsOutOfMemoryOr};
ghost use Rattle.c_arrays.specs.Rests.{KeepsBehind};
ghost use Rattle.c_arrays.specs.declared.refusal.Refusal.TheVariants.{EmptyHandle};
ghost use Rattle.sparse_compressed.specs.PlainOfLanes.{plain_of_rows};
ghost use Rattle.c_handles.specs.Held.{plain_held, IsEmpty};
ghost use Rattle.c_handles.specs.Texts.{text_of_plain, HoldsMeaning, IsTextError, IsTextFault};
ghost use Rattle.c_handles.specs.Texts.{IsTextUnwritten, TellsLength};

use crate::handle::MatrixHandle;
use crate::held::{put, shared};
use c_arrays::refusal::Refusal;
use c_arrays::scalars::put_items;
use sparse_algebra::recall;
use sparse_algebra::scalar::W64;
use sparse_convert::serial::convert_coo_csr;
use sparse_coo_dense::coo::CooMatrix;
use sparse_csr_csc::csr::CsrMatrix;
use sparse_io::{Banner, load_coo_from_matrix_market_str, save_to_matrix_market_str_with};
use std::alloc::{AllocError, Global};
use std::str;

/// Stores in `out` the matrix of a text in Matrix Market format. Values with the same row and column are added.
///
/// # Errors
///
/// Returns `Unreadable` if the bytes are not UTF-8, and the first error of the text, if it has one. Otherwise fails
/// only if an allocation fails. On an error `out` is unchanged.
pub fn put_text(alloc: Global, text: &[u8], out: &mut MatrixHandle) -> Result<(), Refusal>
    ensures done { OnOk result (HoldsMeaning out.new.value text.now) }
    ensures unchanged { OnErr result (out.new.value ≡ out.old.value) }
    ensures fault { IfErr result (IsOutOfMemoryOr (IsTextFault text.now)) }
{
    match str::from_utf8(text) {
        Ok(text) => put_lines(alloc, text, out),
        Err(_fault) => Err(Refusal::Unreadable),
    }
}

// Stores in `out` the matrix of a text.
fn put_lines(alloc: Global, text: &str, out: &mut MatrixHandle) -> Result<(), Refusal>
    ensures done { OnOk result (HoldsMeaning out.new.value text.now) }
    ensures unchanged { OnErr result (out.new.value ≡ out.old.value) }
    ensures fault { IfErr result (IsOutOfMemoryOr (IsTextError text.now)) }
{
    let list: CooMatrix<W64> = load_coo_from_matrix_market_str(alloc, text)?;
    let matrix = convert_coo_csr(alloc, &list)?;
    put(alloc, matrix, out)
}

/// Writes the matrix that `a` holds as a text in Matrix Market format into a buffer, and the length of the text to
/// `size`. The text has a line for each entry.
///
/// # Errors
///
/// Returns `EmptyHandle` if `a` is empty, and `TooSmall` if the buffer is shorter than the text; `size` is then the
/// length of the text. Otherwise fails only if an allocation fails. On an error the buffer is unchanged, and on any
/// error but `TooSmall` so is `size`.
pub fn write_text(
    alloc: Global,
    a: &mut MatrixHandle,
    buffer: &mut [u8],
    size: &mut usize,
) -> Result<(), Refusal>
    ensures kept { a.new.value ≡ a.old.value }
    ensures missing { a.old.value ≡ None → result ≡ Err EmptyHandle }
    ensures written { OnOk result
        (HoldsText (text_of_plain (plain_held a.old.value)) buffer.new size.new) }
    ensures rest { OnOk result (KeepsBehind size.new buffer.old buffer.new) }
    ensures unchanged { OnErr result (buffer.new ≡ buffer.old) }
    ensures told { IfErr result (λ refusal. TellsLength refusal
        (length (text_of_plain (plain_held a.old.value))) size.old size.new) }
    ensures fault { IfErr result (IsOutOfMemoryOr (IsTextUnwritten a.old.value buffer.old)) }
{
    let text = text_of(alloc, a)?;
    let bytes = text.as_bytes();
    *size = bytes.len();
    if buffer.len() < bytes.len() {
        return Err(Refusal::TooSmall);
    }
    put_items(buffer, bytes);
    Ok(())
}

// Returns the text of the matrix that `a` holds.
fn text_of(alloc: Global, a: &mut MatrixHandle) -> Result<String, Refusal>
    ensures kept { a.new.value ≡ a.old.value }
    ensures missing { a.old.value ≡ None → result ≡ Err EmptyHandle }
    ensures text { IfOk result
        (λ text. string_bytes text ≡ text_of_plain (plain_held a.old.value)) }
    ensures empty { IfErr result (IsOutOfMemoryOr (IsEmpty a.old.value)) }
{
    let a = shared(alloc, a)?;
    Ok(text_of_rows(alloc, &a)?)
}

// Returns the text of a matrix.
fn text_of_rows(alloc: Global, a: &CsrMatrix<W64>) -> Result<String, AllocError>
    ensures { IfOk result
        (λ text. string_bytes text ≡ text_of_plain (plain_of_rows ring64 w64_value a.now)) }
{
    recall(a.values());
    Ok(save_to_matrix_market_str_with(alloc, a, Banner::MixedCase)?)
}
