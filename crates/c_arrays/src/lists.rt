//! Coordinate lists written into arrays that C passes.

ghost use Rattle.std.specs.Prelude.{◌≡◌, ◌≢◌, length, pos, IfOk, MatchResult, OnErr};
ghost use Rattle.sparse_algebra.specs.Numbers.{w64_number};
ghost use Rattle.sparse_parser.specs.Meaning.{values_of};
ghost use Rattle.c_arrays.specs.Lists.{list_output_arrays, HoldsList, IsListTooSmall};
ghost use Rattle.c_arrays.specs.Rests.{KeepsListRest};
ghost use Rattle.c_arrays.specs.Statuses.{number_of};
ghost use Rattle.c_arrays.specs.declared.refusal.Refusal.TheVariants.{TooSmall};

use crate::refusal::Refusal;
use crate::scalars::{put_items, put_numbers};
use sparse_algebra::scalar::W64;
use sparse_coo_dense::coo::CooMatrix;

/// Writes the triplets of an answer into arrays, and their number into `count`. Returns the status of the call: 0, or
/// the status of the error; the arrays are then unchanged. If an array is too small, only the number is written.
///
/// An array may be longer than the list needs.
pub fn finish_list(
    answer: Result<CooMatrix<W64>, Refusal>,
    rows: &mut [usize],
    cols: &mut [usize],
    values: &mut [i64],
    count: &mut usize,
) -> i32
    ensures written { result ≡ pos 0 → MatchResult answer (λ m. HoldsList (values_of w64_number m)
        (list_output_arrays rows.new cols.new values.new count.new)) (λ _. ⊥) }
    ensures rest { result ≡ pos 0 → KeepsListRest
        (list_output_arrays rows.old cols.old values.old count.old)
        (list_output_arrays rows.new cols.new values.new count.new) }
    ensures untouched { result ≢ pos 0 → list_output_arrays rows.new cols.new values.new count.old
        ≡ list_output_arrays rows.old cols.old values.old count.old }
    ensures needed { result ≢ pos 0 → IfOk answer (λ m. count.new ≡ length (values_of w64_number m).triplets) }
    ensures kept { OnErr answer (count.new ≡ count.old) }
    ensures refused { result ≢ pos 0 → MatchResult answer
        (λ m. (result ≡ number_of TooSmall) × IsListTooSmall (values_of w64_number m)
        (list_output_arrays rows.old cols.old values.old count.old))
        (λ refusal. result ≡ number_of refusal) }
{
    match answer {
        Ok(list) => write_list(&list, rows, cols, values, count),
        Err(refusal) => refusal.status(),
    }
}

// Writes the number of triplets, and the triplets if no array is too small. Returns 0, or the status of arrays that are
// too small.
fn write_list(
    list: &CooMatrix<W64>,
    rows: &mut [usize],
    cols: &mut [usize],
    values: &mut [i64],
    count: &mut usize,
) -> i32
    ensures written { result ≡ pos 0 → HoldsList (values_of w64_number list.now)
        (list_output_arrays rows.new cols.new values.new count.new) }
    ensures rest { result ≡ pos 0 → KeepsListRest
        (list_output_arrays rows.old cols.old values.old count.old)
        (list_output_arrays rows.new cols.new values.new count.new) }
    ensures untouched { result ≢ pos 0 → list_output_arrays rows.new cols.new values.new count.old
        ≡ list_output_arrays rows.old cols.old values.old count.old }
    ensures counted { count.new ≡ length (values_of w64_number list.now).triplets }
    ensures small { result ≢ pos 0 → IsListTooSmall (values_of w64_number list.now)
        (list_output_arrays rows.old cols.old values.old count.old) }
    ensures status { result ≢ pos 0 → result ≡ number_of TooSmall }
{
    let triplets = list.nnz();
    *count = triplets;
    if rows.len() < triplets {
        return Refusal::TooSmall.status();
    }
    if cols.len() < triplets {
        return Refusal::TooSmall.status();
    }
    if values.len() < triplets {
        return Refusal::TooSmall.status();
    }
    put_items(rows, list.row_indices());
    put_items(cols, list.col_indices());
    put_numbers(values, list.values());
    0
}
