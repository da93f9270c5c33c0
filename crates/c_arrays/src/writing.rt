//! Results written into arrays that C passes, and the status of the call.

ghost use Rattle.std.specs.Prelude.{◌≡◌, ◌≢◌, ◌*◌, ◌<◌, length, pos, IfOk, MatchResult, OnErr};
ghost use Rattle.sparse_compressed.specs.PlainOfLanes.{plain_of_rows};
ghost use Rattle.sparse_coo_dense.specs.DensePlain.{plain_of_dense};
ghost use Rattle.c_arrays.specs.Arrays.{place_count, output_arrays, HoldsDense, HoldsRows};
ghost use Rattle.c_arrays.specs.Reduced.{FirstAre};
ghost use Rattle.c_arrays.specs.Refused.{IsTooSmall};
ghost use Rattle.c_arrays.specs.Rests.{KeepsBehind, KeepsRest};
ghost use Rattle.c_arrays.specs.Statuses.{number_of};
ghost use Rattle.c_arrays.specs.declared.refusal.Refusal.TheVariants.{TooSmall};

use crate::number::Number;
use crate::refusal::Refusal;
use crate::scalars::{put_items, put_scalars};
use sparse_coo_dense::dense::DMatrix;
use sparse_csr_csc::csr::CsrMatrix;

/// Writes the matrix of an answer into arrays by rows, and its number of entries into `places`. Returns the status of
/// the call: 0, or the status of the error; the arrays are then unchanged. If an array is too small, only `places` is
/// written.
///
/// An array may be longer than the matrix needs.
pub fn finish_rows<T: Number>(
    answer: Result<CsrMatrix<T>, Refusal>,
    offsets: &mut [usize],
    indices: &mut [usize],
    values: &mut [i64],
    places: &mut usize,
) -> i32
    ensures written { result ≡ pos 0 → MatchResult answer
        (λ m. HoldsRows (plain_of_rows T.ring T.value m)
        (output_arrays offsets.new indices.new values.new places.new)) (λ _. ⊥) }
    ensures rest { result ≡ pos 0 → MatchResult answer (λ m. KeepsRest m.pattern.major_dim
        (output_arrays offsets.old indices.old values.old places.old)
        (output_arrays offsets.new indices.new values.new places.new)) (λ _. ⊥) }
    ensures shown { result ≡ pos 0 → FirstAre T.is_shown places.new values.new }
    ensures untouched { result ≢ pos 0 → output_arrays offsets.new indices.new values.new places.old
        ≡ output_arrays offsets.old indices.old values.old places.old }
    ensures needed { result ≢ pos 0
        → IfOk answer (λ m. places.new ≡ place_count (plain_of_rows T.ring T.value m)) }
    ensures kept { OnErr answer (places.new ≡ places.old) }
    ensures refused { result ≢ pos 0 → MatchResult answer
        (λ m. (result ≡ number_of TooSmall) × IsTooSmall (plain_of_rows T.ring T.value m)
        (output_arrays offsets.old indices.old values.old places.old))
        (λ refusal. result ≡ number_of refusal) }
{
    match answer {
        Ok(matrix) => write_rows_or_count(&matrix, offsets, indices, values, places),
        Err(refusal) => refusal.status(),
    }
}

/// Writes a matrix into arrays by rows, and its number of entries into `places`. Returns 0, or the status of
/// [`Refusal::TooSmall`] if an array is too small; the arrays and `places` are then unchanged.
pub fn write_rows<T: Number>(
    matrix: &CsrMatrix<T>,
    offsets: &mut [usize],
    indices: &mut [usize],
    values: &mut [i64],
    places: &mut usize,
) -> i32
    ensures written { result ≡ pos 0
        → HoldsRows (plain_of_rows T.ring T.value matrix.now)
        (output_arrays offsets.new indices.new values.new places.new) }
    ensures rest { result ≡ pos 0 → KeepsRest matrix.now.pattern.major_dim
        (output_arrays offsets.old indices.old values.old places.old)
        (output_arrays offsets.new indices.new values.new places.new) }
    ensures shown { result ≡ pos 0 → FirstAre T.is_shown places.new values.new }
    ensures untouched { result ≢ pos 0 → output_arrays offsets.new indices.new values.new places.new
        ≡ output_arrays offsets.old indices.old values.old places.old }
    ensures small { result ≢ pos 0 → IsTooSmall (plain_of_rows T.ring T.value matrix.now)
        (output_arrays offsets.old indices.old values.old places.old) }
    ensures status { result ≢ pos 0 → result ≡ number_of TooSmall }
{
    let (from_offsets, from_indices, from_values) = matrix.csr_data();
    let count = from_values.len();
    if offsets.len() < from_offsets.len() {
        return Refusal::TooSmall.status();
    }
    if indices.len() < count {
        return Refusal::TooSmall.status();
    }
    if values.len() < count {
        return Refusal::TooSmall.status();
    }
    put_items(offsets, from_offsets);
    put_items(indices, from_indices);
    put_scalars(values, from_values);
    *places = count;
    0
}

/// Writes a matrix by rows as [`write_rows`] does. If an array is too small, writes only the number of entries, from
/// which the caller knows the size that is needed.
pub fn write_rows_or_count<T: Number>(
    matrix: &CsrMatrix<T>,
    offsets: &mut [usize],
    indices: &mut [usize],
    values: &mut [i64],
    places: &mut usize,
) -> i32
    ensures written { result ≡ pos 0
        → HoldsRows (plain_of_rows T.ring T.value matrix.now)
        (output_arrays offsets.new indices.new values.new places.new) }
    ensures rest { result ≡ pos 0 → KeepsRest matrix.now.pattern.major_dim
        (output_arrays offsets.old indices.old values.old places.old)
        (output_arrays offsets.new indices.new values.new places.new) }
    ensures shown { result ≡ pos 0 → FirstAre T.is_shown places.new values.new }
    ensures untouched { result ≢ pos 0 → output_arrays offsets.new indices.new values.new places.old
        ≡ output_arrays offsets.old indices.old values.old places.old }
    ensures needed { result ≢ pos 0
        → places.new ≡ place_count (plain_of_rows T.ring T.value matrix.now) }
    ensures small { result ≢ pos 0 → IsTooSmall (plain_of_rows T.ring T.value matrix.now)
        (output_arrays offsets.old indices.old values.old places.old) }
    ensures status { result ≢ pos 0 → result ≡ number_of TooSmall }
{
    let status = write_rows(matrix, offsets, indices, values, places);
    if status != 0 {
        *places = matrix.nnz();
    }
    status
}

/// Writes the dense matrix of an answer into an array, column by column. Returns the status of the call: 0, or the
/// status of the error; the array is then unchanged.
///
/// The array may be longer than the matrix needs.
pub fn finish_dense<T: Number>(answer: Result<DMatrix<T>, Refusal>, values: &mut [i64]) -> i32
    ensures written { result ≡ pos 0 → MatchResult answer
        (λ d. HoldsDense (plain_of_dense T.ring T.value d) values.new) (λ _. ⊥) }
    ensures rest { result ≡ pos 0 → MatchResult answer
        (λ d. KeepsBehind (d.nrows * d.ncols) values.old values.new) (λ _. ⊥) }
    ensures shown { result ≡ pos 0 → MatchResult answer
        (λ d. FirstAre T.is_shown (d.nrows * d.ncols) values.new) (λ _. ⊥) }
    ensures untouched { result ≢ pos 0 → values.new ≡ values.old }
    ensures refused { result ≢ pos 0 → MatchResult answer
        (λ d. (result ≡ number_of TooSmall) × (length values.old < d.nrows * d.ncols))
        (λ refusal. result ≡ number_of refusal) }
{
    match answer {
        Ok(matrix) => write_dense(&matrix, values),
        Err(refusal) => refusal.status(),
    }
}

// Writes a dense matrix into an array, column by column. Returns 0, or the status of an array that is too small.
fn write_dense<T: Number>(matrix: &DMatrix<T>, values: &mut [i64]) -> i32
    ensures written { result ≡ pos 0
        → HoldsDense (plain_of_dense T.ring T.value matrix.now) values.new }
    ensures rest { result ≡ pos 0
        → KeepsBehind (matrix.now.nrows * matrix.now.ncols) values.old values.new }
    ensures shown { result ≡ pos 0
        → FirstAre T.is_shown (matrix.now.nrows * matrix.now.ncols) values.new }
    ensures untouched { result ≢ pos 0 → values.new ≡ values.old }
    ensures small { result ≢ pos 0 → length values.old < matrix.now.nrows * matrix.now.ncols }
    ensures status { result ≢ pos 0 → result ≡ number_of TooSmall }
{
    let source = matrix.as_slice();
    if values.len() < source.len() {
        return Refusal::TooSmall.status();
    }
    put_scalars(values, source);
    0
}
