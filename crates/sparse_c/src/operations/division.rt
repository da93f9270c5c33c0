//! Division of a CSR matrix by an integer.

ghost use Rattle.std.specs.Prelude.{◌≡◌, pos, IfOk, IfErr, OnOk};
ghost use Rattle.sparse_algebra.specs.ModNumbers.{mod_value};
ghost use Rattle.sparse_algebra.specs.Moduli.{mod_ring};
ghost use Rattle.sparse_algebra.specs.WrappingValues.{w64_value};
ghost use Rattle.sparse_compressed.specs.Compressed.{arrays_of, IsSound};
ghost use Rattle.sparse_compressed.specs.PlainOfLanes.{plain_of_rows};
ghost use Rattle.sparse_c.specs.InnerModulusLaws.{quotient_listed, quotient_unlisted};
ghost use Rattle.sparse_c.specs.Moduli.{moduli, IsFaultModulo, IsNoneOf};
ghost use Rattle.sparse_c.specs.Rooms.{Shows};
ghost use Rattle.sparse_c.specs.Solved.{Divides, DividesIn, IsFaultOfQuotient, IsQuotientBy};
ghost use Rattle.c_arrays.specs.Arrays.{plain_by_rows, ring64, output_arrays};
ghost use Rattle.sparse_algebra.specs.Integers.{element_of};
ghost use Rattle.c_arrays.specs.Reduced.{IsReduced};
ghost use Rattle.c_arrays.specs.Refused.{IsOutOfMemoryOr};
ghost use Rattle.c_arrays.specs.Statuses.{number_of};
ghost use Rattle.c_arrays.specs.declared.refusal.Refusal.TheVariants.{UnknownChoice};

use crate::arguments::{OutputArrays, Quotient, lanes, room};
use crate::moduli::{Call, by_modulus};
use c_arrays::lanes::Lanes;
use c_arrays::number::Number;
use c_arrays::refusal::Refusal;
use c_arrays::writing::finish_rows;
use sparse_algebra::scalar::W64;
use sparse_csr_csc::csr::CsrMatrix;
use sparse_dense_ops::div_scalar_csr;
use std::alloc::Global;

/// Writes the quotient of a CSR matrix and an integer: each value times the inverse of the integer, on the same
/// pattern.
#[unsafe(no_mangle)]
pub extern "C" fn nalgebra_sparse_divide(
    alloc: Global,
    rows: usize,
    cols: usize,
    offsets: &[usize],
    indices: &[usize],
    values: &[i64],
    divisor: i64,
    out_offsets: &mut [usize],
    out_indices: &mut [usize],
    out_values: &mut [i64],
    out_places: &mut usize,
) -> i32
    ensures answered { let a = arrays_of rows cols offsets.now indices.now values.now in
        Divides ring64 (IsFaultOfQuotient ring64 w64_value a divisor) a divisor
        (output_arrays out_offsets.old out_indices.old out_values.old out_places.old)
        (output_arrays out_offsets.new out_indices.new out_values.new out_places.new) result }
{
    let quotient = Quotient {
        a: lanes!(rows, cols, offsets, indices, values),
        divisor,
    };
    let mut room = room!(out_offsets, out_indices, out_values, out_places);
    quotient.run::<W64>(alloc, &mut room)
}

/// Writes the quotient of a CSR matrix and an integer over the residues modulo a listed number.
#[unsafe(no_mangle)]
pub extern "C" fn nalgebra_sparse_divide_mod(
    alloc: Global,
    modulus: u64,
    rows: usize,
    cols: usize,
    offsets: &[usize],
    indices: &[usize],
    values: &[i64],
    divisor: i64,
    out_offsets: &mut [usize],
    out_indices: &mut [usize],
    out_values: &mut [i64],
    out_places: &mut usize,
) -> i32
    ensures answered { let a = arrays_of rows cols offsets.now indices.now values.now in
        let ring = mod_ring modulus in
        Divides ring (IsFaultModulo modulus
        (IsFaultOfQuotient ring (mod_value {m = modulus}) a divisor)) a divisor
        (output_arrays out_offsets.old out_indices.old out_values.old out_places.old)
        (output_arrays out_offsets.new out_indices.new out_values.new out_places.new) result }
    ensures reduced { Shows (IsReduced modulus) out_places.new out_values.new result }
    ensures unlisted { IsNoneOf moduli modulus → result ≡ number_of UnknownChoice }
{
    let quotient = Quotient {
        a: lanes!(rows, cols, offsets, indices, values),
        divisor,
    };
    let mut room = room!(out_offsets, out_indices, out_values, out_places);
    by_modulus(alloc, modulus, quotient, &mut room)
}

impl<'a> Call<OutputArrays<'a>> for Quotient<'_> {
    ghost does = { DividesIn };

    /// Writes the quotient.
    fn run<T: Number>(self, alloc: Global, out: &mut OutputArrays<'a>) -> i32 {
        let Quotient { a, divisor, .. } = self;
        let answer = quotient_of::<T>(alloc, a, divisor);
        finish_rows(answer, out.offsets, out.indices, out.values, out.places)
    }

    ghost listed = { quotient_listed };

    ghost unlisted = { quotient_unlisted };
}

// Returns the quotient of a CSR matrix and an integer.
fn quotient_of<T: Number>(
    alloc: Global,
    a: Lanes<'_>,
    divisor: i64,
) -> Result<CsrMatrix<T>, Refusal>
    ensures quotient { IfOk result (λ m. IsQuotientBy T.ring (element_of T.ring divisor)
        (plain_of_rows T.ring T.value m) (plain_by_rows T.ring a.entry)) }
    ensures sound { OnOk result (IsSound a.entry) }
    ensures fault { IfErr result (IsOutOfMemoryOr
        (IsFaultOfQuotient T.ring T.value a.entry divisor)) }
{
    let a = a.rows::<T>(alloc)?;
    Ok(div_scalar_csr(alloc, &a, T::from_number(divisor))?)
}
