//! Matrix Market texts, read into handles and written from the matrices that handles hold.

ghost use Rattle.std.specs.Prelude.{◌≡◌, None};
ghost use Rattle.c_arrays.specs.Statuses.{number_of};
ghost use Rattle.c_arrays.specs.declared.refusal.Refusal.TheVariants.{EmptyHandle};
ghost use Rattle.c_handles.specs.Held.{Answers};
ghost use Rattle.c_handles.specs.Texts.{HoldsMeaning, IsTextFault, WritesText};

use crate::status::status;
use c_handles::handle::MatrixHandle;
use c_handles::texts::{put_text, write_text};
use std::alloc::Global;

/// Stores the matrix of a text in Matrix Market format in a handle.
#[unsafe(no_mangle)]
pub extern "C" fn nalgebra_sparse_matrix_from_text(
    alloc: Global,
    text: &[u8],
    out: &mut MatrixHandle,
) -> i32
    ensures { Answers result (IsTextFault text.now) (out.new.value ≡ out.old.value)
        (HoldsMeaning out.new.value text.now) }
{
    status!(put_text(alloc, text, out))
}

/// Writes the text of the matrix that a handle holds in Matrix Market format, and its length.
#[unsafe(no_mangle)]
pub extern "C" fn nalgebra_sparse_matrix_to_text(
    alloc: Global,
    a: &mut MatrixHandle,
    out_text: &mut [u8],
    out_length: &mut usize,
) -> i32
    ensures kept { a.new.value ≡ a.old.value }
    ensures missing { a.old.value ≡ None → result ≡ number_of EmptyHandle }
    ensures answer { WritesText result a.old.value out_text.old out_text.new
        out_length.old out_length.new }
{
    status!(write_text(alloc, a, out_text, out_length))
}
