//! Fill: the pattern of the factor L of a symmetric matrix.

ghost use Rattle.std.specs.Prelude.{◌≡◌, ◌≢◌, pos, Err, IfOk, IfErr, OnOk};
ghost use Rattle.sparse_pattern.specs.Raw.{raw_of, IsValid};
ghost use Rattle.sparse_c.specs.Fills.{triangle_number, CountsFill, IsFaultOfFill, IsFillOf};
ghost use Rattle.sparse_c.specs.Fills.{IsFillTooSmall, IsNoTriangle, NamesNoTriangle, WritesFill};
ghost use Rattle.c_arrays.specs.Arrays.{pattern_output_arrays};
ghost use Rattle.c_arrays.specs.Refused.{IsOutOfMemoryOr, IsRefusedFor};
ghost use Rattle.c_arrays.specs.Rests.{KeepsPatternRest};
ghost use Rattle.c_arrays.specs.Statuses.{number_of, FindsNoFault};
ghost use Rattle.c_arrays.specs.Untouched.{IsPatternUntouched};
ghost use Rattle.c_arrays.specs.declared.refusal.Refusal.TheVariants.{TooSmall};
ghost use Rattle.c_arrays.specs.declared.refusal.Refusal.TheVariants.{UnknownChoice};

use c_arrays::lanes::pattern_of;
use c_arrays::patterns::finish_pattern;
use c_arrays::refusal::Refusal;
use sparse_factor::factorization::{CscSymbolicCholesky, Triangle};
use sparse_pattern::pattern::SparsityPattern;
use std::alloc::Global;

/// Writes the number of entries of the factor L of the symmetric matrix that a triangle of a square pattern by columns
/// gives. `triangle` is 0 for the upper triangle, 1 for the lower one, and 2 for the union of both.
#[unsafe(no_mangle)]
pub extern "C" fn nalgebra_sparse_fill_places(
    alloc: Global,
    size: usize,
    triangle: i32,
    offsets: &[usize],
    indices: &[usize],
    out_places: &mut usize,
) -> i32
    ensures counted { let pattern = raw_of size size offsets.now indices.now in
        result ≡ pos 0 → CountsFill triangle pattern out_places.new }
    ensures sound { FindsNoFault result → IsValid (raw_of size size offsets.now indices.now) }
    ensures unknown { NamesNoTriangle triangle → result ≡ number_of UnknownChoice }
    ensures untouched { result ≢ pos 0 → out_places.new ≡ out_places.old }
    ensures refused { let pattern = raw_of size size offsets.now indices.now in
        result ≢ pos 0 → IsRefusedFor (IsFaultOfFill triangle pattern) ⊥ result }
{
    match fill_of(alloc, size, triangle, offsets, indices) {
        Ok(fill) => {
            *out_places = fill.nnz();
            0
        }
        Err(refusal) => refusal.status(),
    }
}

/// Writes the pattern of this factor L, by columns.
#[unsafe(no_mangle)]
pub extern "C" fn nalgebra_sparse_fill(
    alloc: Global,
    size: usize,
    triangle: i32,
    offsets: &[usize],
    indices: &[usize],
    out_offsets: &mut [usize],
    out_indices: &mut [usize],
    out_places: &mut usize,
) -> i32
    ensures written { let pattern = raw_of size size offsets.now indices.now in
        result ≡ pos 0 → WritesFill triangle pattern
        (pattern_output_arrays out_offsets.new out_indices.new out_places.new) }
    ensures rest { result ≡ pos 0 → KeepsPatternRest size
        (pattern_output_arrays out_offsets.old out_indices.old out_places.old)
        (pattern_output_arrays out_offsets.new out_indices.new out_places.new) }
    ensures sound { FindsNoFault result → IsValid (raw_of size size offsets.now indices.now) }
    ensures unknown { NamesNoTriangle triangle → result ≡ number_of UnknownChoice }
    ensures untouched { result ≢ pos 0 → IsPatternUntouched result
        (pattern_output_arrays out_offsets.old out_indices.old out_places.old)
        (pattern_output_arrays out_offsets.new out_indices.new out_places.new) }
    ensures needed { let pattern = raw_of size size offsets.now indices.now in
        result ≡ number_of TooSmall → CountsFill triangle pattern out_places.new }
    ensures refused { let pattern = raw_of size size offsets.now indices.now in
        result ≢ pos 0 → IsRefusedFor (IsFaultOfFill triangle pattern)
        (IsFillTooSmall triangle pattern
        (pattern_output_arrays out_offsets.old out_indices.old out_places.old)) result }
{
    let answer = fill_of(alloc, size, triangle, offsets, indices);
    finish_pattern(answer, out_offsets, out_indices, out_places)
}

// Returns the pattern of the factor L of the symmetric matrix that a triangle of a square pattern by columns gives.
fn fill_of(
    alloc: Global,
    size: usize,
    triangle: i32,
    offsets: &[usize],
    indices: &[usize],
) -> Result<SparsityPattern, Refusal>
    ensures fill { IfOk result (IsFillOf triangle (raw_of size size offsets.now indices.now)) }
    ensures sound { OnOk result (IsValid (raw_of size size offsets.now indices.now)) }
    ensures unknown { NamesNoTriangle triangle → result ≡ Err UnknownChoice }
    ensures fault { IfErr result (IsOutOfMemoryOr
        (IsFaultOfFill triangle (raw_of size size offsets.now indices.now))) }
{
    let triangle = triangle_of(triangle)?;
    let pattern = pattern_of(alloc, size, size, offsets, indices)?;
    let factor = CscSymbolicCholesky::factor_triangle(alloc, pattern, triangle)?;
    Ok(factor.into_l_pattern())
}

// Returns the triangle with this number.
fn triangle_of(number: i32) -> Result<Triangle, Refusal>
    ensures is { IfOk result (λ triangle. number ≡ triangle_number triangle) }
    ensures unknown { IfErr result (IsNoTriangle number) }
{
    match number {
        0 => Ok(Triangle::Upper),
        1 => Ok(Triangle::Lower),
        2 => Ok(Triangle::Both),
        _ => Err(Refusal::UnknownChoice),
    }
}
