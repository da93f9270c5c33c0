//! Handles of matrices over the residues modulo a listed number: construction, reading, sharing and freeing.

ghost use Rattle.std.specs.Prelude.{◌≡◌, length, None};
ghost use Rattle.sparse_algebra.specs.Moduli.{mod_ring};
ghost use Rattle.sparse_compressed.specs.Compressed.{arrays_of, IsSound};
ghost use Rattle.sparse_coo_dense.specs.Coo.{AreParts};
ghost use Rattle.sparse_c.specs.HeldRings.{WritesHeldRows};
ghost use Rattle.sparse_c.specs.Moduli.{moduli, IsFaultModulo, IsNoneOf};
ghost use Rattle.sparse_c.specs.Rooms.{Shows};
ghost use Rattle.c_arrays.specs.Arrays.{plain_by_rows, plain_of_lists, output_arrays};
ghost use Rattle.c_arrays.specs.Reduced.{IsReduced};
ghost use Rattle.c_arrays.specs.Refused.{IsFaultOf, IsFaultOfList};
ghost use Rattle.c_arrays.specs.Statuses.{number_of};
ghost use Rattle.c_arrays.specs.declared.refusal.Refusal.TheVariants.{EmptyHandle, UnknownChoice};
ghost use Rattle.c_handles.specs.Held.{Answers, IsEmpty};
ghost use Rattle.c_handles.specs.Rings.{arrays_held, modulus_held, HoldsModulo};

pub(crate) mod dense;
pub(crate) mod operations;
pub(crate) mod tasks;

use crate::arguments::{lanes, room, triplets};
use crate::handles::rings::tasks::{Task, store};
use crate::moduli::by_modulus;
use crate::status::status;
use c_handles::handle::RingHandle;
use c_handles::held::{clear, share, shared};
use c_handles::held_rings::ring_sizes;
use std::alloc::Global;

/// Stores the matrix with these CSR arrays over the residues modulo a listed number in a handle.
#[unsafe(no_mangle)]
pub extern "C" fn nalgebra_sparse_ring_matrix_from_rows(
    alloc: Global,
    modulus: u64,
    rows: usize,
    cols: usize,
    offsets: &[usize],
    indices: &[usize],
    values: &[i64],
    out: &mut RingHandle,
) -> i32
    ensures answer { let a = arrays_of rows cols offsets.now indices.now values.now in
        Answers result (IsFaultModulo modulus (IsFaultOf a)) (out.new.value ≡ out.old.value)
        (IsSound a × HoldsModulo modulus out.new.value (plain_by_rows (mod_ring modulus) a)) }
    ensures unlisted { IsNoneOf moduli modulus → result ≡ number_of UnknownChoice }
{
    let task = Task::Rows(lanes!(rows, cols, offsets, indices, values));
    store(alloc, modulus, task, out)
}

/// Stores the matrix of a list of triplets over the residues modulo a listed number in a handle. The values of triplets
/// with the same row and column are added.
#[unsafe(no_mangle)]
pub extern "C" fn nalgebra_sparse_ring_matrix_from_triplets(
    alloc: Global,
    modulus: u64,
    rows: usize,
    cols: usize,
    row_indices: &[usize],
    col_indices: &[usize],
    values: &[i64],
    out: &mut RingHandle,
) -> i32
    ensures answer { Answers result (IsFaultModulo modulus
        (IsFaultOfList rows cols row_indices.now col_indices.now values.now))
        (out.new.value ≡ out.old.value)
        (AreParts rows cols row_indices.now col_indices.now values.now
        × HoldsModulo modulus out.new.value (plain_of_lists (mod_ring modulus) rows cols
        row_indices.now col_indices.now values.now)) }
    ensures unlisted { IsNoneOf moduli modulus → result ≡ number_of UnknownChoice }
{
    let task = Task::Assemble(triplets!(Rows, rows, cols, row_indices, col_indices, values));
    store(alloc, modulus, task, out)
}

/// Writes the modulus and the numbers of rows, columns and entries of the matrix that a handle holds.
#[unsafe(no_mangle)]
pub extern "C" fn nalgebra_sparse_ring_matrix_sizes(
    alloc: Global,
    a: &mut RingHandle,
    out_modulus: &mut u64,
    out_rows: &mut usize,
    out_cols: &mut usize,
    out_places: &mut usize,
) -> i32
    ensures kept { a.new.value ≡ a.old.value }
    ensures missing { a.old.value ≡ None → result ≡ number_of EmptyHandle }
    ensures answer { let m = arrays_held a.old.value in
        Answers result (IsEmpty a.old.value)
        ((out_modulus.new ≡ out_modulus.old) × (out_rows.new ≡ out_rows.old)
        × (out_cols.new ≡ out_cols.old) × (out_places.new ≡ out_places.old))
        ((out_modulus.new ≡ modulus_held a.old.value) × (out_rows.new ≡ m.pattern.major_dim)
        × (out_cols.new ≡ m.pattern.minor_dim) × (out_places.new ≡ length m.values)) }
{
    match ring_sizes(alloc, a) {
        Ok(sizes) => {
            *out_modulus = sizes.modulus;
            *out_rows = sizes.rows;
            *out_cols = sizes.cols;
            *out_places = sizes.places;
            0
        }
        Err(refusal) => refusal.status(),
    }
}

/// Writes the CSR arrays of the matrix that a handle holds, with values from 0 to below the modulus, and its number of
/// entries.
#[unsafe(no_mangle)]
pub extern "C" fn nalgebra_sparse_ring_matrix_read(
    alloc: Global,
    a: &mut RingHandle,
    out_offsets: &mut [usize],
    out_indices: &mut [usize],
    out_values: &mut [i64],
    out_places: &mut usize,
) -> i32
    ensures kept { a.new.value ≡ a.old.value }
    ensures missing { a.old.value ≡ None → result ≡ number_of EmptyHandle }
    ensures answered { WritesHeldRows a.old.value
        (output_arrays out_offsets.old out_indices.old out_values.old out_places.old)
        (output_arrays out_offsets.new out_indices.new out_values.new out_places.new) result }
    ensures reduced { Shows (IsReduced (modulus_held a.old.value)) out_places.new out_values.new result }
{
    match shared(alloc, a) {
        Ok(a) => {
            let mut room = room!(out_offsets, out_indices, out_values, out_places);
            by_modulus(alloc, a.modulus, Task::Rows(a.lanes()), &mut room)
        }
        Err(refusal) => refusal.status(),
    }
}

/// Stores in `out` the matrix that `a` holds: both handles share it.
#[unsafe(no_mangle)]
pub extern "C" fn nalgebra_sparse_ring_matrix_clone(
    alloc: Global,
    a: &mut RingHandle,
    out: &mut RingHandle,
) -> i32
    ensures kept { a.new.value ≡ a.old.value }
    ensures missing { a.old.value ≡ None → result ≡ number_of EmptyHandle }
    ensures answer { Answers result (IsEmpty a.old.value) (out.new.value ≡ out.old.value)
        (out.new.value ≡ a.old.value) }
{
    status!(share(alloc, a, out))
}

/// Empties a handle, and drops the matrix that it holds, if it holds one.
#[unsafe(no_mangle)]
pub extern "C" fn nalgebra_sparse_ring_matrix_free(alloc: Global, a: &mut RingHandle)
    ensures { a.new.value ≡ None }
{
    clear(alloc, a);
}
