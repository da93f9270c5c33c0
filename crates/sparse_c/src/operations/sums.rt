//! Sums and differences, modulo 2^64 and modulo a listed number.

ghost use Rattle.std.specs.Prelude.{◌≡◌, pos};
ghost use Rattle.sparse_algebra.specs.Integers.{element_of};
ghost use Rattle.sparse_algebra.specs.Plain.{plain_sum, plain_difference, plain_scaled};
ghost use Rattle.sparse_algebra.specs.Moduli.{mod_ring};
ghost use Rattle.sparse_compressed.specs.Compressed.{arrays_of, IsSound};
ghost use Rattle.sparse_c.specs.Moduli.{moduli, IsFaultModulo, IsNoneOf};
ghost use Rattle.sparse_c.specs.Rooms.{Shows};
ghost use Rattle.c_arrays.specs.Arrays.{plain_by_rows, ring64, output_arrays};
ghost use Rattle.c_arrays.specs.Refused.{IsFaultOfPair};
ghost use Rattle.c_arrays.specs.Written.{WritesRows};
ghost use Rattle.c_arrays.specs.Reduced.{IsReduced};
ghost use Rattle.c_arrays.specs.Statuses.{number_of};
ghost use Rattle.c_arrays.specs.declared.refusal.Refusal.TheVariants.{UnknownChoice};

use crate::arguments::{lanes, pair, room};
use crate::moduli::{Call, by_modulus};
use sparse_algebra::scalar::W64;
use std::alloc::Global;

/// Writes the sum `a + b` of two CSR matrices. Its pattern is the union of their patterns.
#[unsafe(no_mangle)]
pub extern "C" fn nalgebra_sparse_add(
    alloc: Global,
    rows: usize,
    cols: usize,
    a_offsets: &[usize],
    a_indices: &[usize],
    a_values: &[i64],
    b_offsets: &[usize],
    b_indices: &[usize],
    b_values: &[i64],
    out_offsets: &mut [usize],
    out_indices: &mut [usize],
    out_values: &mut [i64],
    out_places: &mut usize,
) -> i32
    ensures answered { let a = arrays_of rows cols a_offsets.now a_indices.now a_values.now in
        let b = arrays_of rows cols b_offsets.now b_indices.now b_values.now in
        WritesRows (IsSound a × IsSound b) (IsFaultOfPair a b)
        (plain_sum ring64 (plain_by_rows ring64 a) (plain_by_rows ring64 b))
        (output_arrays out_offsets.old out_indices.old out_values.old out_places.old)
        (output_arrays out_offsets.new out_indices.new out_values.new out_places.new) result }
{
    let a = lanes!(rows, cols, a_offsets, a_indices, a_values);
    let b = lanes!(rows, cols, b_offsets, b_indices, b_values);
    let mut room = room!(out_offsets, out_indices, out_values, out_places);
    pair!(Sum, a, b).run::<W64>(alloc, &mut room)
}

/// Writes the difference `a - b` of two CSR matrices. Its pattern is the union of their patterns.
#[unsafe(no_mangle)]
pub extern "C" fn nalgebra_sparse_subtract(
    alloc: Global,
    rows: usize,
    cols: usize,
    a_offsets: &[usize],
    a_indices: &[usize],
    a_values: &[i64],
    b_offsets: &[usize],
    b_indices: &[usize],
    b_values: &[i64],
    out_offsets: &mut [usize],
    out_indices: &mut [usize],
    out_values: &mut [i64],
    out_places: &mut usize,
) -> i32
    ensures answered { let a = arrays_of rows cols a_offsets.now a_indices.now a_values.now in
        let b = arrays_of rows cols b_offsets.now b_indices.now b_values.now in
        WritesRows (IsSound a × IsSound b) (IsFaultOfPair a b)
        (plain_difference ring64 (plain_by_rows ring64 a) (plain_by_rows ring64 b))
        (output_arrays out_offsets.old out_indices.old out_values.old out_places.old)
        (output_arrays out_offsets.new out_indices.new out_values.new out_places.new) result }
{
    let a = lanes!(rows, cols, a_offsets, a_indices, a_values);
    let b = lanes!(rows, cols, b_offsets, b_indices, b_values);
    let mut room = room!(out_offsets, out_indices, out_values, out_places);
    pair!(Difference, a, b).run::<W64>(alloc, &mut room)
}

/// Writes the sum of multiples `alpha * a + beta * b` of two CSR matrices. Its pattern is the union of their patterns.
#[unsafe(no_mangle)]
pub extern "C" fn nalgebra_sparse_add_scaled(
    alloc: Global,
    rows: usize,
    cols: usize,
    alpha: i64,
    a_offsets: &[usize],
    a_indices: &[usize],
    a_values: &[i64],
    beta: i64,
    b_offsets: &[usize],
    b_indices: &[usize],
    b_values: &[i64],
    out_offsets: &mut [usize],
    out_indices: &mut [usize],
    out_values: &mut [i64],
    out_places: &mut usize,
) -> i32
    ensures answered { let a = arrays_of rows cols a_offsets.now a_indices.now a_values.now in
        let b = arrays_of rows cols b_offsets.now b_indices.now b_values.now in
        WritesRows (IsSound a × IsSound b) (IsFaultOfPair a b)
        (plain_sum ring64 (plain_scaled ring64 (element_of ring64 alpha) (plain_by_rows ring64 a))
        (plain_scaled ring64 (element_of ring64 beta) (plain_by_rows ring64 b)))
        (output_arrays out_offsets.old out_indices.old out_values.old out_places.old)
        (output_arrays out_offsets.new out_indices.new out_values.new out_places.new) result }
{
    let a = lanes!(rows, cols, a_offsets, a_indices, a_values);
    let b = lanes!(rows, cols, b_offsets, b_indices, b_values);
    let mut room = room!(out_offsets, out_indices, out_values, out_places);
    pair!(Multiples, alpha, a, beta, b).run::<W64>(alloc, &mut room)
}

/// Writes the sum `a + b` over the residues modulo a listed number.
#[unsafe(no_mangle)]
pub extern "C" fn nalgebra_sparse_add_mod(
    alloc: Global,
    modulus: u64,
    rows: usize,
    cols: usize,
    a_offsets: &[usize],
    a_indices: &[usize],
    a_values: &[i64],
    b_offsets: &[usize],
    b_indices: &[usize],
    b_values: &[i64],
    out_offsets: &mut [usize],
    out_indices: &mut [usize],
    out_values: &mut [i64],
    out_places: &mut usize,
) -> i32
    ensures answered { let a = arrays_of rows cols a_offsets.now a_indices.now a_values.now in
        let b = arrays_of rows cols b_offsets.now b_indices.now b_values.now in
        let ring = mod_ring modulus in
        WritesRows (IsSound a × IsSound b) (IsFaultModulo modulus (IsFaultOfPair a b))
        (plain_sum ring (plain_by_rows ring a) (plain_by_rows ring b))
        (output_arrays out_offsets.old out_indices.old out_values.old out_places.old)
        (output_arrays out_offsets.new out_indices.new out_values.new out_places.new) result }
    ensures reduced { Shows (IsReduced modulus) out_places.new out_values.new result }
    ensures unlisted { IsNoneOf moduli modulus → result ≡ number_of UnknownChoice }
{
    let a = lanes!(rows, cols, a_offsets, a_indices, a_values);
    let b = lanes!(rows, cols, b_offsets, b_indices, b_values);
    let mut room = room!(out_offsets, out_indices, out_values, out_places);
    by_modulus(alloc, modulus, pair!(Sum, a, b), &mut room)
}

/// Writes the difference `a - b` over the residues modulo a listed number.
#[unsafe(no_mangle)]
pub extern "C" fn nalgebra_sparse_subtract_mod(
    alloc: Global,
    modulus: u64,
    rows: usize,
    cols: usize,
    a_offsets: &[usize],
    a_indices: &[usize],
    a_values: &[i64],
    b_offsets: &[usize],
    b_indices: &[usize],
    b_values: &[i64],
    out_offsets: &mut [usize],
    out_indices: &mut [usize],
    out_values: &mut [i64],
    out_places: &mut usize,
) -> i32
    ensures answered { let a = arrays_of rows cols a_offsets.now a_indices.now a_values.now in
        let b = arrays_of rows cols b_offsets.now b_indices.now b_values.now in
        let ring = mod_ring modulus in
        WritesRows (IsSound a × IsSound b) (IsFaultModulo modulus (IsFaultOfPair a b))
        (plain_difference ring (plain_by_rows ring a) (plain_by_rows ring b))
        (output_arrays out_offsets.old out_indices.old out_values.old out_places.old)
        (output_arrays out_offsets.new out_indices.new out_values.new out_places.new) result }
    ensures reduced { Shows (IsReduced modulus) out_places.new out_values.new result }
    ensures unlisted { IsNoneOf moduli modulus → result ≡ number_of UnknownChoice }
{
    let a = lanes!(rows, cols, a_offsets, a_indices, a_values);
    let b = lanes!(rows, cols, b_offsets, b_indices, b_values);
    let mut room = room!(out_offsets, out_indices, out_values, out_places);
    by_modulus(alloc, modulus, pair!(Difference, a, b), &mut room)
}

/// Writes the sum of multiples `alpha * a + beta * b` over the residues modulo a listed number.
#[unsafe(no_mangle)]
pub extern "C" fn nalgebra_sparse_add_scaled_mod(
    alloc: Global,
    modulus: u64,
    rows: usize,
    cols: usize,
    alpha: i64,
    a_offsets: &[usize],
    a_indices: &[usize],
    a_values: &[i64],
    beta: i64,
    b_offsets: &[usize],
    b_indices: &[usize],
    b_values: &[i64],
    out_offsets: &mut [usize],
    out_indices: &mut [usize],
    out_values: &mut [i64],
    out_places: &mut usize,
) -> i32
    ensures answered { let a = arrays_of rows cols a_offsets.now a_indices.now a_values.now in
        let b = arrays_of rows cols b_offsets.now b_indices.now b_values.now in
        let ring = mod_ring modulus in
        WritesRows (IsSound a × IsSound b) (IsFaultModulo modulus (IsFaultOfPair a b))
        (plain_sum ring (plain_scaled ring (element_of ring alpha) (plain_by_rows ring a))
        (plain_scaled ring (element_of ring beta) (plain_by_rows ring b)))
        (output_arrays out_offsets.old out_indices.old out_values.old out_places.old)
        (output_arrays out_offsets.new out_indices.new out_values.new out_places.new) result }
    ensures reduced { Shows (IsReduced modulus) out_places.new out_values.new result }
    ensures unlisted { IsNoneOf moduli modulus → result ≡ number_of UnknownChoice }
{
    let a = lanes!(rows, cols, a_offsets, a_indices, a_values);
    let b = lanes!(rows, cols, b_offsets, b_indices, b_values);
    let mut room = room!(out_offsets, out_indices, out_values, out_places);
    by_modulus(
        alloc,
        modulus,
        pair!(Multiples, alpha, a, beta, b),
        &mut room,
    )
}
