//! The arrays of matrices held by handles, with indices of 32 bits.

ghost use Rattle.std.specs.Prelude.{◌≡◌, ◌≤◌, ◌↔◌, ◌⊎◌, length, take, drop, Err, None, IfErr};
ghost use Rattle.std.specs.Prelude.{OnOk, OnErr, IsTrue};
ghost use Rattle.std.specs.List.{All};
ghost use Rattle.sparse_algebra.specs.WrappingValues.{w64_value};
ghost use Rattle.c_arrays.specs.Arrays.{ring64, output_arrays, HoldsRows};
ghost use Rattle.c_arrays.specs.Refused.{IsOutOfMemoryOr, IsTooSmall};
ghost use Rattle.c_arrays.specs.Rests.{KeepsRest};
ghost use Rattle.c_arrays.specs.declared.refusal.Refusal.TheVariants.{EmptyHandle, TooSmall};
ghost use Rattle.sparse_compressed.specs.PlainOfLanes.{plain_of_rows};
ghost use Rattle.c_handles.specs.Held.{plain_held};
ghost use Rattle.c_handles.specs.Narrow.{HasNarrowIndices, HoldsNarrow, IsNarrow};
ghost use Rattle.c_handles.specs.Narrow.{IsTooWide, IsUnwrittenNarrow};

use crate::handle::MatrixHandle;
use crate::held::shared;
use c_arrays::refusal::Refusal;
use c_arrays::scalars::put_scalars;
use sparse_algebra::scalar::W64;
use sparse_csr_csc::csr::CsrMatrix;
use std::alloc::Global;

/// Writes the CSR arrays of the matrix that `a` holds, and its number of entries to `places`, as [`read`] does, with
/// offsets and indices of 32 bits. They are below 2^31, so that they may be read with or without a sign.
///
/// # Errors
///
/// Returns `EmptyHandle` if `a` is empty, `IndexOutOfBounds` if an offset or an index is not below 2^31, and `TooSmall`
/// if an array is too small. Otherwise fails only if the matrix has too many owners (`OutOfMemory`). On an error the
/// arrays and `places` are unchanged.
///
/// [`read`]: crate::reading::read
pub fn read_narrow(
    alloc: Global,
    a: &mut MatrixHandle,
    offsets: &mut [u32],
    indices: &mut [u32],
    values: &mut [i64],
    places: &mut usize,
) -> Result<(), Refusal>
    ensures kept { a.new.value ≡ a.old.value }
    ensures missing { a.old.value ≡ None → result ≡ Err EmptyHandle }
    ensures narrow { OnOk result (HoldsNarrow a.old.value) }
    ensures written { OnOk result (HoldsRows (plain_held a.old.value)
        (output_arrays offsets.new indices.new values.new places.new)) }
    ensures rest { OnOk result (KeepsRest (plain_held a.old.value).rows
        (output_arrays offsets.old indices.old values.old places.old)
        (output_arrays offsets.new indices.new values.new places.new)) }
    ensures unchanged { OnErr result (output_arrays offsets.new indices.new values.new places.new
        ≡ output_arrays offsets.old indices.old values.old places.old) }
    ensures fault { IfErr result (IsOutOfMemoryOr (IsUnwrittenNarrow a.old.value
        (output_arrays offsets.old indices.old values.old places.old))) }
{
    let a = shared(alloc, a)?;
    write_narrow(&a, offsets, indices, values, places)
}

// Writes the arrays of a matrix, and its number of entries.
fn write_narrow(
    matrix: &CsrMatrix<W64>,
    offsets: &mut [u32],
    indices: &mut [u32],
    values: &mut [i64],
    places: &mut usize,
) -> Result<(), Refusal>
    ensures narrow { OnOk result (HasNarrowIndices matrix.now) }
    ensures written { OnOk result (HoldsRows (plain_of_rows ring64 w64_value matrix.now)
        (output_arrays offsets.new indices.new values.new places.new)) }
    ensures rest { OnOk result (KeepsRest matrix.now.pattern.major_dim
        (output_arrays offsets.old indices.old values.old places.old)
        (output_arrays offsets.new indices.new values.new places.new)) }
    ensures unchanged { OnErr result (output_arrays offsets.new indices.new values.new places.new
        ≡ output_arrays offsets.old indices.old values.old places.old) }
    ensures fault { IfErr result (λ refusal. IsTooWide matrix.now refusal
        ⊎ (HasNarrowIndices matrix.now × (refusal ≡ TooSmall)
        × IsTooSmall (plain_of_rows ring64 w64_value matrix.now)
        (output_arrays offsets.old indices.old values.old places.old))) }
{
    let (from_offsets, from_indices, from_values) = matrix.csr_data();
    if !are_narrow(from_offsets) {
        return Err(Refusal::IndexOutOfBounds);
    }
    if !are_narrow(from_indices) {
        return Err(Refusal::IndexOutOfBounds);
    }
    let count = from_values.len();
    if offsets.len() < from_offsets.len() {
        return Err(Refusal::TooSmall);
    }
    if indices.len() < count {
        return Err(Refusal::TooSmall);
    }
    if values.len() < count {
        return Err(Refusal::TooSmall);
    }
    put_narrow(offsets, from_offsets);
    put_narrow(indices, from_indices);
    put_scalars(values, from_values);
    *places = count;
    Ok(())
}

// Returns whether all numbers are below 2^31.
fn are_narrow(numbers: &[usize]) -> bool
    ensures { IsTrue result ↔ All IsNarrow numbers.now }
{
    numbers.iter().all(|number| *number < 2147483648)
}

// Copies numbers below 2^31 to the beginning of a slice, which must have room for them.
fn put_narrow(target: &mut [u32], source: &[usize])
    requires room { length source.now ≤ length target.old }
    requires narrow { All IsNarrow source.now }
    ensures written { take (length source.now) target.new ≡ source.now }
    ensures rest { drop (length source.now) target.new ≡ drop (length source.now) target.old }
{
    for at in 0..source.len() {
        target[at] = source[at] as u32;
    }
}
