//! Assembly of matrices from triplets, modulo 2^64 and modulo a listed number.

ghost use Rattle.std.specs.Prelude.{◌≡◌, pos};
ghost use Rattle.sparse_algebra.specs.Moduli.{mod_ring};
ghost use Rattle.sparse_coo_dense.specs.Coo.{AreParts};
ghost use Rattle.sparse_c.specs.Moduli.{moduli, IsFaultModulo, IsNoneOf};
ghost use Rattle.sparse_c.specs.Rooms.{Shows};
ghost use Rattle.c_arrays.specs.Arrays.{plain_of_lists, ring64, output_arrays};
ghost use Rattle.c_arrays.specs.Refused.{IsFaultOfList};
ghost use Rattle.c_arrays.specs.Written.{WritesCols, WritesRows};
ghost use Rattle.c_arrays.specs.Reduced.{IsReduced};
ghost use Rattle.c_arrays.specs.Statuses.{number_of};
ghost use Rattle.c_arrays.specs.declared.refusal.Refusal.TheVariants.{UnknownChoice};

pub(crate) mod assembling;

use crate::arguments::{room, triplets};
use crate::moduli::{Call, by_modulus};
use sparse_algebra::scalar::W64;
use std::alloc::Global;

/// Writes the CSR matrix of a list of triplets. The values of triplets with the same row and column are added.
#[unsafe(no_mangle)]
pub extern "C" fn nalgebra_sparse_assemble_csr(
    alloc: Global,
    rows: usize,
    cols: usize,
    row_indices: &[usize],
    col_indices: &[usize],
    values: &[i64],
    out_offsets: &mut [usize],
    out_indices: &mut [usize],
    out_values: &mut [i64],
    out_places: &mut usize,
) -> i32
    ensures answered { WritesRows (AreParts rows cols row_indices.now col_indices.now values.now)
        (IsFaultOfList rows cols row_indices.now col_indices.now values.now)
        (plain_of_lists ring64 rows cols row_indices.now col_indices.now values.now)
        (output_arrays out_offsets.old out_indices.old out_values.old out_places.old)
        (output_arrays out_offsets.new out_indices.new out_values.new out_places.new) result }
{
    let triplets = triplets!(Rows, rows, cols, row_indices, col_indices, values);
    let mut room = room!(out_offsets, out_indices, out_values, out_places);
    triplets.run::<W64>(alloc, &mut room)
}

/// Writes the CSC matrix of a list of triplets. The values of triplets with the same row and column are added.
#[unsafe(no_mangle)]
pub extern "C" fn nalgebra_sparse_assemble_csc(
    alloc: Global,
    rows: usize,
    cols: usize,
    row_indices: &[usize],
    col_indices: &[usize],
    values: &[i64],
    out_offsets: &mut [usize],
    out_indices: &mut [usize],
    out_values: &mut [i64],
    out_places: &mut usize,
) -> i32
    ensures answered { WritesCols (AreParts rows cols row_indices.now col_indices.now values.now)
        (IsFaultOfList rows cols row_indices.now col_indices.now values.now)
        (plain_of_lists ring64 rows cols row_indices.now col_indices.now values.now)
        (output_arrays out_offsets.old out_indices.old out_values.old out_places.old)
        (output_arrays out_offsets.new out_indices.new out_values.new out_places.new) result }
{
    let triplets = triplets!(Columns, rows, cols, row_indices, col_indices, values);
    let mut room = room!(out_offsets, out_indices, out_values, out_places);
    triplets.run::<W64>(alloc, &mut room)
}

/// Writes the CSR matrix of a list of triplets over the residues modulo a listed number.
#[unsafe(no_mangle)]
pub extern "C" fn nalgebra_sparse_assemble_csr_mod(
    alloc: Global,
    modulus: u64,
    rows: usize,
    cols: usize,
    row_indices: &[usize],
    col_indices: &[usize],
    values: &[i64],
    out_offsets: &mut [usize],
    out_indices: &mut [usize],
    out_values: &mut [i64],
    out_places: &mut usize,
) -> i32
    ensures answered { WritesRows (AreParts rows cols row_indices.now col_indices.now values.now)
        (IsFaultModulo modulus
        (IsFaultOfList rows cols row_indices.now col_indices.now values.now))
        (plain_of_lists (mod_ring modulus) rows cols row_indices.now col_indices.now values.now)
        (output_arrays out_offsets.old out_indices.old out_values.old out_places.old)
        (output_arrays out_offsets.new out_indices.new out_values.new out_places.new) result }
    ensures reduced { Shows (IsReduced modulus) out_places.new out_values.new result }
    ensures unlisted { IsNoneOf moduli modulus → result ≡ number_of UnknownChoice }
{
    let triplets = triplets!(Rows, rows, cols, row_indices, col_indices, values);
    let mut room = room!(out_offsets, out_indices, out_values, out_places);
    by_modulus(alloc, modulus, triplets, &mut room)
}

/// Writes the CSC matrix of a list of triplets over the residues modulo a listed number.
#[unsafe(no_mangle)]
pub extern "C" fn nalgebra_sparse_assemble_csc_mod(
    alloc: Global,
    modulus: u64,
    rows: usize,
    cols: usize,
    row_indices: &[usize],
    col_indices: &[usize],
    values: &[i64],
    out_offsets: &mut [usize],
    out_indices: &mut [usize],
    out_values: &mut [i64],
    out_places: &mut usize,
) -> i32
    ensures answered { WritesCols (AreParts rows cols row_indices.now col_indices.now values.now)
        (IsFaultModulo modulus
        (IsFaultOfList rows cols row_indices.now col_indices.now values.now))
        (plain_of_lists (mod_ring modulus) rows cols row_indices.now col_indices.now values.now)
        (output_arrays out_offsets.old out_indices.old out_values.old out_places.old)
        (output_arrays out_offsets.new out_indices.new out_values.new out_places.new) result }
    ensures reduced { Shows (IsReduced modulus) out_places.new out_values.new result }
    ensures unlisted { IsNoneOf moduli modulus → result ≡ number_of UnknownChoice }
{
    let triplets = triplets!(Columns, rows, cols, row_indices, col_indices, values);
    let mut room = room!(out_offsets, out_indices, out_values, out_places);
    by_modulus(alloc, modulus, triplets, &mut room)
}
