//! Matrix Market texts written from coordinate lists.

ghost use Rattle.std.specs.Prelude.{◌≡◌, ◌≢◌, ◌<◌, length, pos, string_bytes, IfOk, IfErr, OnOk};
ghost use Rattle.sparse_coo_dense.specs.Coo.{AreParts};
ghost use Rattle.sparse_c.specs.Texts.{text_of_lists};
ghost use Rattle.c_arrays.specs.Lists.{HoldsText};
ghost use Rattle.c_arrays.specs.Refused.{IsFaultOfList, IsOutOfMemoryOr, IsRefusedFor};
ghost use Rattle.c_arrays.specs.Rests.{KeepsBehind};
ghost use Rattle.c_arrays.specs.Statuses.{number_of, FindsNoFault};
ghost use Rattle.c_arrays.specs.Untouched.{KeepsSize};
ghost use Rattle.c_arrays.specs.declared.refusal.Refusal.TheVariants.{TooSmall};

use c_arrays::refusal::Refusal;
use c_arrays::texts::finish_text;
use sparse_coo_dense::coo::CooMatrix;
use sparse_io::{Banner, save_to_matrix_market_str_with};
use std::alloc::Global;

/// Writes the length of the text of a list of triplets in Matrix Market format.
#[unsafe(no_mangle)]
pub extern "C" fn nalgebra_sparse_write_length(
    alloc: Global,
    rows: usize,
    cols: usize,
    row_indices: &[usize],
    col_indices: &[usize],
    values: &[i64],
    out_length: &mut usize,
) -> i32
    ensures counted { result ≡ pos 0 → out_length.new
        ≡ length (text_of_lists rows cols row_indices.now col_indices.now values.now) }
    ensures sound { FindsNoFault result
        → AreParts rows cols row_indices.now col_indices.now values.now }
    ensures untouched { result ≢ pos 0 → out_length.new ≡ out_length.old }
    ensures refused { result ≢ pos 0 → IsRefusedFor
        (IsFaultOfList rows cols row_indices.now col_indices.now values.now) ⊥ result }
{
    match text_of_list(alloc, (rows, cols), row_indices, col_indices, values) {
        Ok(text) => {
            *out_length = text.as_bytes().len();
            0
        }
        Err(refusal) => refusal.status(),
    }
}

/// Writes the text of a list of triplets in Matrix Market format, and its length.
#[unsafe(no_mangle)]
pub extern "C" fn nalgebra_sparse_write(
    alloc: Global,
    rows: usize,
    cols: usize,
    row_indices: &[usize],
    col_indices: &[usize],
    values: &[i64],
    out_text: &mut [u8],
    out_length: &mut usize,
) -> i32
    ensures written { result ≡ pos 0 → HoldsText
        (text_of_lists rows cols row_indices.now col_indices.now values.now)
        out_text.new out_length.new }
    ensures rest { result ≡ pos 0 → KeepsBehind out_length.new out_text.old out_text.new }
    ensures sound { FindsNoFault result
        → AreParts rows cols row_indices.now col_indices.now values.now }
    ensures untouched { result ≢ pos 0
        → (out_text.new ≡ out_text.old) × KeepsSize result out_length.old out_length.new }
    ensures needed { result ≡ number_of TooSmall → out_length.new
        ≡ length (text_of_lists rows cols row_indices.now col_indices.now values.now) }
    ensures refused { result ≢ pos 0 → IsRefusedFor
        (IsFaultOfList rows cols row_indices.now col_indices.now values.now)
        (length out_text.old
        < length (text_of_lists rows cols row_indices.now col_indices.now values.now)) result }
{
    let answer = text_of_list(alloc, (rows, cols), row_indices, col_indices, values);
    finish_text(answer, out_text, out_length)
}

// Returns the text of a list of triplets.
fn text_of_list(
    alloc: Global,
    shape: (usize, usize),
    row_indices: &[usize],
    col_indices: &[usize],
    values: &[i64],
) -> Result<String, Refusal>
    ensures text { IfOk result (λ text. string_bytes text
        ≡ text_of_lists shape.0 shape.1 row_indices.now col_indices.now values.now) }
    ensures sound { OnOk result
        (AreParts shape.0 shape.1 row_indices.now col_indices.now values.now) }
    ensures fault { IfErr result (IsOutOfMemoryOr
        (IsFaultOfList shape.0 shape.1 row_indices.now col_indices.now values.now)) }
{
    let (rows, cols) = shape;
    let row_indices = row_indices.to_vec(alloc)?;
    let col_indices = col_indices.to_vec(alloc)?;
    let values = values.to_vec(alloc)?;
    let list = CooMatrix::try_from_triplets(rows, cols, row_indices, col_indices, values)?;
    Ok(save_to_matrix_market_str_with(alloc, &list, Banner::MixedCase)?)
}
