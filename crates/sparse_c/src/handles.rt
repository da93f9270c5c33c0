//! Handles of matrices: construction, reading, sharing and freeing.

ghost use Rattle.std.specs.Prelude.{◌≡◌, None, pos};
ghost use Rattle.sparse_compressed.specs.Compressed.{arrays_of, IsSound};
ghost use Rattle.sparse_coo_dense.specs.Coo.{AreParts};
ghost use Rattle.c_arrays.specs.Arrays.{place_count, plain_by_rows, plain_of_lists};
ghost use Rattle.c_arrays.specs.Arrays.{ring64, output_arrays, HoldsRows};
ghost use Rattle.c_arrays.specs.Refused.{IsFaultOf, IsFaultOfList};
ghost use Rattle.c_arrays.specs.Rests.{KeepsRest};
ghost use Rattle.c_arrays.specs.Statuses.{number_of};
ghost use Rattle.c_arrays.specs.declared.refusal.Refusal.TheVariants.{EmptyHandle};
ghost use Rattle.c_handles.specs.Held.{plain_held, Answers, Holds, IsEmpty, IsUnwritten};
ghost use Rattle.c_handles.specs.Narrow.{HoldsNarrow, IsUnwrittenNarrow};

pub(crate) mod operations;
pub(crate) mod orders;
pub(crate) mod rings;
pub(crate) mod systems;
pub(crate) mod texts;

use crate::arguments::lanes;
use crate::status::status;
use c_arrays::lanes::Lanes;
use c_handles::from_arrays::{put_rows, put_triplets};
use c_handles::handle::MatrixHandle;
use c_handles::held::{clear, share};
use c_handles::narrow::read_narrow;
use c_handles::reading::{read, sizes};
use std::alloc::Global;

/// Stores the matrix with these CSR arrays in a handle.
#[unsafe(no_mangle)]
pub extern "C" fn nalgebra_sparse_matrix_from_rows(
    alloc: Global,
    rows: usize,
    cols: usize,
    offsets: &[usize],
    indices: &[usize],
    values: &[i64],
    out: &mut MatrixHandle,
) -> i32
    ensures sound { result ≡ pos 0
        → IsSound (arrays_of rows cols offsets.now indices.now values.now) }
    ensures answer { let a = arrays_of rows cols offsets.now indices.now values.now in
        Answers result (IsFaultOf a) (out.new.value ≡ out.old.value)
        (Holds out.new.value (plain_by_rows ring64 a)) }
{
    status!(put_rows(alloc, lanes!(rows, cols, offsets, indices, values), out))
}

/// Stores the matrix of a list of triplets in a handle. The values of triplets with the same row and column are added.
#[unsafe(no_mangle)]
pub extern "C" fn nalgebra_sparse_matrix_from_triplets(
    alloc: Global,
    rows: usize,
    cols: usize,
    row_indices: &[usize],
    col_indices: &[usize],
    values: &[i64],
    out: &mut MatrixHandle,
) -> i32
    ensures sound { result ≡ pos 0
        → AreParts rows cols row_indices.now col_indices.now values.now }
    ensures answer { Answers result
        (IsFaultOfList rows cols row_indices.now col_indices.now values.now)
        (out.new.value ≡ out.old.value) (Holds out.new.value
        (plain_of_lists ring64 rows cols row_indices.now col_indices.now values.now)) }
{
    status!(put_triplets(alloc, (rows, cols), row_indices, col_indices, values, out))
}

/// Writes the numbers of rows, columns and entries of the matrix that a handle holds.
#[unsafe(no_mangle)]
pub extern "C" fn nalgebra_sparse_matrix_sizes(
    alloc: Global,
    a: &mut MatrixHandle,
    out_rows: &mut usize,
    out_cols: &mut usize,
    out_places: &mut usize,
) -> i32
    ensures kept { a.new.value ≡ a.old.value }
    ensures missing { a.old.value ≡ None → result ≡ number_of EmptyHandle }
    ensures answer { let m = plain_held a.old.value in
        Answers result (IsEmpty a.old.value)
        ((out_rows.new ≡ out_rows.old) × (out_cols.new ≡ out_cols.old)
        × (out_places.new ≡ out_places.old))
        ((out_rows.new ≡ m.rows) × (out_cols.new ≡ m.cols) × (out_places.new ≡ place_count m)) }
{
    match sizes(alloc, a) {
        Ok((rows, cols, places)) => {
            *out_rows = rows;
            *out_cols = cols;
            *out_places = places;
            0
        }
        Err(refusal) => refusal.status(),
    }
}

/// Writes the CSR arrays of the matrix that a handle holds, and its number of entries.
#[unsafe(no_mangle)]
pub extern "C" fn nalgebra_sparse_matrix_read(
    alloc: Global,
    a: &mut MatrixHandle,
    out_offsets: &mut [usize],
    out_indices: &mut [usize],
    out_values: &mut [i64],
    out_places: &mut usize,
) -> i32
    ensures kept { a.new.value ≡ a.old.value }
    ensures missing { a.old.value ≡ None → result ≡ number_of EmptyHandle }
    ensures answer { let before =
        output_arrays out_offsets.old out_indices.old out_values.old out_places.old in
        let after = output_arrays out_offsets.new out_indices.new out_values.new out_places.new in
        Answers result (IsUnwritten a.old.value before) (after ≡ before)
        (HoldsRows (plain_held a.old.value) after
        × KeepsRest (plain_held a.old.value).rows before after) }
{
    status!(read(alloc, a, out_offsets, out_indices, out_values, out_places))
}

/// Writes those arrays, with offsets and indices below 2^31 in 32 bits, and the number of entries.
#[unsafe(no_mangle)]
pub extern "C" fn nalgebra_sparse_matrix_read_32(
    alloc: Global,
    a: &mut MatrixHandle,
    out_offsets: &mut [u32],
    out_indices: &mut [u32],
    out_values: &mut [i64],
    out_places: &mut usize,
) -> i32
    ensures kept { a.new.value ≡ a.old.value }
    ensures missing { a.old.value ≡ None → result ≡ number_of EmptyHandle }
    ensures answer { let before =
        output_arrays out_offsets.old out_indices.old out_values.old out_places.old in
        let after = output_arrays out_offsets.new out_indices.new out_values.new out_places.new in
        Answers result (IsUnwrittenNarrow a.old.value before) (after ≡ before)
        (HoldsNarrow a.old.value × HoldsRows (plain_held a.old.value) after
        × KeepsRest (plain_held a.old.value).rows before after) }
{
    status!(read_narrow(alloc, a, out_offsets, out_indices, out_values, out_places))
}

/// Stores in `out` the matrix that `a` holds: both handles share it.
#[unsafe(no_mangle)]
pub extern "C" fn nalgebra_sparse_matrix_clone(
    alloc: Global,
    a: &mut MatrixHandle,
    out: &mut MatrixHandle,
) -> i32
    ensures kept { a.new.value ≡ a.old.value }
    ensures missing { a.old.value ≡ None → result ≡ number_of EmptyHandle }
    ensures answer { Answers result (IsEmpty a.old.value) (out.new.value ≡ out.old.value)
        (out.new.value ≡ a.old.value) }
{
    status!(share(alloc, a, out))
}

/// Empties a handle, and drops the matrix that it holds, if it holds one.
#[unsafe(no_mangle)]
pub extern "C" fn nalgebra_sparse_matrix_free(alloc: Global, a: &mut MatrixHandle)
    ensures { a.new.value ≡ None }
{
    clear(alloc, a);
}
