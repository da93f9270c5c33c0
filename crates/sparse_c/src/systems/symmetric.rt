//! Solves of symmetric systems, by the exact factorisation L D Lᵀ.

ghost use Rattle.std.specs.Prelude.{◌≡◌, ◌*◌, pos};
ghost use Rattle.sparse_algebra.specs.ModNumbers.{mod_value};
ghost use Rattle.sparse_algebra.specs.Moduli.{mod_ring};
ghost use Rattle.sparse_algebra.specs.WrappingValues.{w64_value};
ghost use Rattle.sparse_compressed.specs.Compressed.{arrays_of};
ghost use Rattle.sparse_c.specs.Dense.{WritesValues};
ghost use Rattle.sparse_c.specs.Moduli.{moduli, IsFaultModulo, IsNoneOf};
ghost use Rattle.sparse_c.specs.Rooms.{Shows};
ghost use Rattle.sparse_c.specs.Symmetric.{HoldsSymmetricSolution, IsFaultOfSymmetric};
ghost use Rattle.sparse_c.specs.Symmetric.{IsSymmetricSolutionTooLong};
ghost use Rattle.c_arrays.specs.Arrays.{plain_by_values, ring64};
ghost use Rattle.c_arrays.specs.Reduced.{IsReduced};
ghost use Rattle.c_arrays.specs.Refused.{IsSystemSound};
ghost use Rattle.c_arrays.specs.Statuses.{number_of};
ghost use Rattle.c_arrays.specs.declared.refusal.Refusal.TheVariants.{UnknownChoice};

use crate::arguments::{Equation, Numbers, System, lanes};
use crate::moduli::{Call, by_modulus};
use sparse_algebra::scalar::W64;
use std::alloc::Global;

/// Writes the X for which `A X = B`.
///
/// A is the symmetric matrix whose entries on and above the diagonal are those of a square CSC matrix. B and X are
/// dense matrices with `cols` columns, stored column by column.
#[unsafe(no_mangle)]
pub extern "C" fn nalgebra_sparse_solve_symmetric(
    alloc: Global,
    size: usize,
    cols: usize,
    offsets: &[usize],
    indices: &[usize],
    values: &[i64],
    b_values: &[i64],
    out_values: &mut [i64],
) -> i32
    ensures answered { let a = arrays_of size size offsets.now indices.now values.now in
        let b = plain_by_values ring64 size cols b_values.now in
        WritesValues (IsSystemSound a size cols b_values.now)
        (IsFaultOfSymmetric ring64 w64_value a size cols b_values.now)
        (HoldsSymmetricSolution ring64 w64_value a b size cols)
        (IsSymmetricSolutionTooLong ring64 w64_value a b size cols)
        (size * cols) out_values.old out_values.new result }
{
    let system = System {
        equation: Equation::Symmetric,
        matrix: lanes!(size, size, offsets, indices, values),
        size,
        cols,
        b: b_values,
    };
    let mut out = Numbers { values: out_values };
    system.run::<W64>(alloc, &mut out)
}

/// Writes the X for which `A X = B` over the residues modulo a listed number.
#[unsafe(no_mangle)]
pub extern "C" fn nalgebra_sparse_solve_symmetric_mod(
    alloc: Global,
    modulus: u64,
    size: usize,
    cols: usize,
    offsets: &[usize],
    indices: &[usize],
    values: &[i64],
    b_values: &[i64],
    out_values: &mut [i64],
) -> i32
    ensures answered { let a = arrays_of size size offsets.now indices.now values.now in
        let ring = mod_ring modulus in
        let value = mod_value {m = modulus} in
        let b = plain_by_values ring size cols b_values.now in
        WritesValues (IsSystemSound a size cols b_values.now)
        (IsFaultModulo modulus (IsFaultOfSymmetric ring value a size cols b_values.now))
        (HoldsSymmetricSolution ring value a b size cols)
        (IsSymmetricSolutionTooLong ring value a b size cols)
        (size * cols) out_values.old out_values.new result }
    ensures reduced { Shows (IsReduced modulus) (size * cols) out_values.new result }
    ensures unlisted { IsNoneOf moduli modulus → result ≡ number_of UnknownChoice }
{
    let system = System {
        equation: Equation::Symmetric,
        matrix: lanes!(size, size, offsets, indices, values),
        size,
        cols,
        b: b_values,
    };
    let mut out = Numbers { values: out_values };
    by_modulus(alloc, modulus, system, &mut out)
}
