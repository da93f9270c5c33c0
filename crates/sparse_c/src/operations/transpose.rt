//! The transpose of a CSR matrix.

ghost use Rattle.std.specs.Prelude.{◌≡◌, IfOk, IfErr, OnOk};
ghost use Rattle.sparse_compressed.specs.Compressed.{arrays_of, IsSound};
ghost use Rattle.sparse_compressed.specs.PlainOfLanes.{plain_of_rows};
ghost use Rattle.sparse_algebra.specs.Plain.{plain_transpose};
ghost use Rattle.sparse_algebra.specs.WrappingValues.{w64_value};
ghost use Rattle.c_arrays.specs.Arrays.{plain_by_rows, ring64, output_arrays};
ghost use Rattle.c_arrays.specs.Refused.{IsFaultOf, IsOutOfMemoryOr};
ghost use Rattle.c_arrays.specs.Written.{WritesRows};

use crate::arguments::lanes;
use c_arrays::lanes::Lanes;
use c_arrays::refusal::Refusal;
use c_arrays::writing::finish_rows;
use sparse_algebra::scalar::W64;
use sparse_csr_csc::csr::CsrMatrix;
use sparse_products::transposes::transposed_csr;
use std::alloc::Global;

/// Writes the transpose of a CSR matrix, as a CSR matrix.
#[unsafe(no_mangle)]
pub extern "C" fn nalgebra_sparse_transpose(
    alloc: Global,
    rows: usize,
    cols: usize,
    offsets: &[usize],
    indices: &[usize],
    values: &[i64],
    out_offsets: &mut [usize],
    out_indices: &mut [usize],
    out_values: &mut [i64],
    out_places: &mut usize,
) -> i32
    ensures answered { let a = arrays_of rows cols offsets.now indices.now values.now in
        WritesRows (IsSound a) (IsFaultOf a) (plain_transpose ring64 (plain_by_rows ring64 a))
        (output_arrays out_offsets.old out_indices.old out_values.old out_places.old)
        (output_arrays out_offsets.new out_indices.new out_values.new out_places.new) result }
{
    let a = lanes!(rows, cols, offsets, indices, values);
    let answer = transposed(alloc, a);
    finish_rows(answer, out_offsets, out_indices, out_values, out_places)
}

// Returns the transpose of a CSR matrix.
fn transposed(alloc: Global, a: Lanes<'_>) -> Result<CsrMatrix<W64>, Refusal>
    ensures plain { IfOk result (λ m. plain_of_rows ring64 w64_value m
        ≡ plain_transpose ring64 (plain_by_rows ring64 a.entry)) }
    ensures sound { OnOk result (IsSound a.entry) }
    ensures fault { IfErr result (IsOutOfMemoryOr (IsFaultOf a.entry)) }
{
    let a = a.rows(alloc)?;
    Ok(transposed_csr(alloc, &a)?)
}
