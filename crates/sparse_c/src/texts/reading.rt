//! Coordinate lists read from Matrix Market texts.

ghost use Rattle.std.specs.Prelude.{◌≡◌, ◌≢◌, pos, IfOk, IfErr};
ghost use Rattle.sparse_algebra.specs.Numbers.{w64_number};
ghost use Rattle.sparse_parser.specs.Meaning.{values_of};
ghost use Rattle.sparse_c.specs.Texts.{CountsText, IsErrorOfText, IsFaultOfText};
ghost use Rattle.sparse_c.specs.Texts.{IsTextOf, IsTextTooLong};
ghost use Rattle.sparse_c.specs.Texts.{SizesText, WritesTriplets};
ghost use Rattle.c_arrays.specs.Lists.{list_output_arrays};
ghost use Rattle.c_arrays.specs.Refused.{IsOutOfMemoryOr, IsRefusedFor};
ghost use Rattle.c_arrays.specs.Rests.{KeepsListRest};
ghost use Rattle.c_arrays.specs.Statuses.{number_of};
ghost use Rattle.c_arrays.specs.Untouched.{IsListUntouched};
ghost use Rattle.c_arrays.specs.declared.refusal.Refusal.TheVariants.{TooSmall};

use c_arrays::lists::finish_list;
use c_arrays::refusal::Refusal;
use sparse_algebra::scalar::W64;
use sparse_coo_dense::coo::CooMatrix;
use sparse_io::load_coo_from_matrix_market_str;
use std::alloc::Global;
use std::str;

/// Writes the numbers of rows, columns and triplets of a text in Matrix Market format.
#[unsafe(no_mangle)]
pub extern "C" fn nalgebra_sparse_read_sizes(
    alloc: Global,
    text: &[u8],
    out_rows: &mut usize,
    out_cols: &mut usize,
    out_triplets: &mut usize,
) -> i32
    ensures read { result ≡ pos 0
        → SizesText text.now out_rows.new out_cols.new out_triplets.new }
    ensures untouched { result ≢ pos 0 → (out_rows.new ≡ out_rows.old)
        × (out_cols.new ≡ out_cols.old) × (out_triplets.new ≡ out_triplets.old) }
    ensures refused { result ≢ pos 0 → IsRefusedFor (IsFaultOfText text.now) ⊥ result }
{
    match list_of_text(alloc, text) {
        Ok(list) => {
            *out_rows = list.nrows();
            *out_cols = list.ncols();
            *out_triplets = list.nnz();
            0
        }
        Err(refusal) => refusal.status(),
    }
}

/// Writes the triplets of a text in Matrix Market format, in the order of the text. In a text of a symmetric or
/// skew-symmetric matrix each triplet off the diagonal is followed by its mirrored one.
#[unsafe(no_mangle)]
pub extern "C" fn nalgebra_sparse_read(
    alloc: Global,
    text: &[u8],
    out_row_indices: &mut [usize],
    out_col_indices: &mut [usize],
    out_values: &mut [i64],
    out_triplets: &mut usize,
) -> i32
    ensures written { result ≡ pos 0 → WritesTriplets text.now (list_output_arrays
        out_row_indices.new out_col_indices.new out_values.new out_triplets.new) }
    ensures rest { result ≡ pos 0 → KeepsListRest (list_output_arrays
        out_row_indices.old out_col_indices.old out_values.old out_triplets.old) (list_output_arrays
        out_row_indices.new out_col_indices.new out_values.new out_triplets.new) }
    ensures untouched { result ≢ pos 0 → IsListUntouched result (list_output_arrays
        out_row_indices.old out_col_indices.old out_values.old out_triplets.old) (list_output_arrays
        out_row_indices.new out_col_indices.new out_values.new out_triplets.new) }
    ensures needed { result ≡ number_of TooSmall → CountsText text.now out_triplets.new }
    ensures refused { result ≢ pos 0 → IsRefusedFor (IsFaultOfText text.now)
        (IsTextTooLong text.now (list_output_arrays
        out_row_indices.old out_col_indices.old out_values.old out_triplets.old)) result }
{
    let answer = list_of_text(alloc, text);
    finish_list(
        answer,
        out_row_indices,
        out_col_indices,
        out_values,
        out_triplets,
    )
}

// Returns the triplets of a text that is given as bytes.
fn list_of_text(alloc: Global, text: &[u8]) -> Result<CooMatrix<W64>, Refusal>
    ensures means { IfOk result (λ m. IsTextOf text.now (values_of w64_number m)) }
    ensures fault { IfErr result (IsOutOfMemoryOr (IsFaultOfText text.now)) }
{
    match str::from_utf8(text) {
        Ok(text) => triplets_of(alloc, text),
        Err(_fault) => Err(Refusal::Unreadable),
    }
}

// Returns the triplets of a text.
fn triplets_of(alloc: Global, text: &str) -> Result<CooMatrix<W64>, Refusal>
    ensures means { IfOk result (λ m. IsTextOf text.now (values_of w64_number m)) }
    ensures fault { IfErr result (IsOutOfMemoryOr (IsErrorOfText text.now)) }
{
    Ok(load_coo_from_matrix_market_str(alloc, text)?)
}
