//! Products of CSR matrices, and their numbers of entries.

ghost use Rattle.std.specs.Prelude.{◌≡◌, ◌≢◌, pos};
ghost use Rattle.sparse_compressed.specs.Compressed.{arrays_of, IsSound};
ghost use Rattle.sparse_algebra.specs.Moduli.{mod_ring};
ghost use Rattle.sparse_algebra.specs.Plain.{plain_product};
ghost use Rattle.sparse_pattern.specs.Raw.{raw_of, IsValid};
ghost use Rattle.sparse_c.specs.Moduli.{moduli, IsFaultModulo, IsNoneOf};
ghost use Rattle.sparse_c.specs.Rooms.{Shows};
ghost use Rattle.sparse_c.specs.Patterns.{CountsProduct, IsPatternPairRefused};
ghost use Rattle.c_arrays.specs.Arrays.{plain_by_rows, ring64, output_arrays};
ghost use Rattle.c_arrays.specs.Reduced.{IsReduced};
ghost use Rattle.c_arrays.specs.Refused.{IsFaultOfPair};
ghost use Rattle.c_arrays.specs.Statuses.{number_of, FindsNoFault};
ghost use Rattle.c_arrays.specs.Written.{WritesRows};
ghost use Rattle.c_arrays.specs.declared.refusal.Refusal.TheVariants.{UnknownChoice};

use crate::arguments::{lanes, pair, room};
use crate::moduli::{Call, by_modulus};
use c_arrays::lanes::pattern_of;
use c_arrays::refusal::Refusal;
use sparse_algebra::scalar::W64;
use sparse_products::serial::spmm_csr_pattern;
use std::alloc::Global;

/// Writes the number of entries of the product of two CSR matrices with these patterns.
#[unsafe(no_mangle)]
pub extern "C" fn nalgebra_sparse_multiply_places(
    alloc: Global,
    rows: usize,
    inner: usize,
    cols: usize,
    a_offsets: &[usize],
    a_indices: &[usize],
    b_offsets: &[usize],
    b_indices: &[usize],
    out_places: &mut usize,
) -> i32
    ensures counted { result ≡ pos 0 → CountsProduct (raw_of rows inner a_offsets.now a_indices.now)
        (raw_of inner cols b_offsets.now b_indices.now) out_places.new }
    ensures sound { FindsNoFault result → IsValid (raw_of rows inner a_offsets.now a_indices.now)
        × IsValid (raw_of inner cols b_offsets.now b_indices.now) }
    ensures untouched { result ≢ pos 0 → out_places.new ≡ out_places.old }
    ensures refused { result ≢ pos 0 → IsPatternPairRefused
        (raw_of rows inner a_offsets.now a_indices.now)
        (raw_of inner cols b_offsets.now b_indices.now) result }
{
    let a = match pattern_of(alloc, rows, inner, a_offsets, a_indices) {
        Ok(a) => a,
        Err(refusal) => return refusal.status(),
    };
    let b = match pattern_of(alloc, inner, cols, b_offsets, b_indices) {
        Ok(b) => b,
        Err(refusal) => return refusal.status(),
    };
    match spmm_csr_pattern(alloc, &a, &b) {
        Ok(product) => {
            *out_places = product.nnz();
            0
        }
        Err(_refused) => Refusal::OutOfMemory.status(),
    }
}

/// Writes the product `a * b` of two CSR matrices: `a` with `rows` rows and `inner` columns, `b` with `inner` rows and
/// `cols` columns.
#[unsafe(no_mangle)]
pub extern "C" fn nalgebra_sparse_multiply(
    alloc: Global,
    rows: usize,
    inner: usize,
    cols: usize,
    a_offsets: &[usize],
    a_indices: &[usize],
    a_values: &[i64],
    b_offsets: &[usize],
    b_indices: &[usize],
    b_values: &[i64],
    out_offsets: &mut [usize],
    out_indices: &mut [usize],
    out_values: &mut [i64],
    out_places: &mut usize,
) -> i32
    ensures answered { let a = arrays_of rows inner a_offsets.now a_indices.now a_values.now in
        let b = arrays_of inner cols b_offsets.now b_indices.now b_values.now in
        WritesRows (IsSound a × IsSound b) (IsFaultOfPair a b)
        (plain_product ring64 (plain_by_rows ring64 a) (plain_by_rows ring64 b))
        (output_arrays out_offsets.old out_indices.old out_values.old out_places.old)
        (output_arrays out_offsets.new out_indices.new out_values.new out_places.new) result }
{
    let a = lanes!(rows, inner, a_offsets, a_indices, a_values);
    let b = lanes!(inner, cols, b_offsets, b_indices, b_values);
    let mut room = room!(out_offsets, out_indices, out_values, out_places);
    pair!(Product, a, b).run::<W64>(alloc, &mut room)
}

/// Writes the product `a * b` over the residues modulo a listed number.
#[unsafe(no_mangle)]
pub extern "C" fn nalgebra_sparse_multiply_mod(
    alloc: Global,
    modulus: u64,
    rows: usize,
    inner: usize,
    cols: usize,
    a_offsets: &[usize],
    a_indices: &[usize],
    a_values: &[i64],
    b_offsets: &[usize],
    b_indices: &[usize],
    b_values: &[i64],
    out_offsets: &mut [usize],
    out_indices: &mut [usize],
    out_values: &mut [i64],
    out_places: &mut usize,
) -> i32
    ensures answered { let a = arrays_of rows inner a_offsets.now a_indices.now a_values.now in
        let b = arrays_of inner cols b_offsets.now b_indices.now b_values.now in
        let ring = mod_ring modulus in
        WritesRows (IsSound a × IsSound b) (IsFaultModulo modulus (IsFaultOfPair a b))
        (plain_product ring (plain_by_rows ring a) (plain_by_rows ring b))
        (output_arrays out_offsets.old out_indices.old out_values.old out_places.old)
        (output_arrays out_offsets.new out_indices.new out_values.new out_places.new) result }
    ensures reduced { Shows (IsReduced modulus) out_places.new out_values.new result }
    ensures unlisted { IsNoneOf moduli modulus → result ≡ number_of UnknownChoice }
{
    let a = lanes!(rows, inner, a_offsets, a_indices, a_values);
    let b = lanes!(inner, cols, b_offsets, b_indices, b_values);
    let mut room = room!(out_offsets, out_indices, out_values, out_places);
    by_modulus(alloc, modulus, pair!(Product, a, b), &mut room)
}
