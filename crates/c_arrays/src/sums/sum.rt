//! The sum of multiples of two matrices in arrays that C passes.

ghost use Rattle.std.specs.Prelude.{◌≡◌, ◌≢◌, ◌+◌, ◌<◌, ◌≤◌, length, pos, IfOk, IfErr, OnOk};
ghost use Rattle.sparse_algebra.specs.Plain.{plain_sum, plain_scaled};
ghost use Rattle.sparse_compressed.specs.Compressed.{IsSound};
ghost use Rattle.c_arrays.specs.Arrays.{plain_by_rows, output_arrays, HoldsRows};
ghost use Rattle.c_arrays.specs.Reduced.{FirstAre};
ghost use Rattle.c_arrays.specs.Refused.{IsFaultOf, IsFaultOfPair};
ghost use Rattle.c_arrays.specs.Rests.{KeepsRest};
ghost use Rattle.c_arrays.specs.Statuses.{number_of};
ghost use Rattle.c_arrays.specs.declared.refusal.Refusal.{Refusal};

use crate::lanes::Lanes;
use crate::number::Number;
use crate::refusal::Refusal;
use crate::sums::rows::{ScaledMatrix, write_rows};
use sparse_compressed::CsView;

/// Two matrices by rows, and the scales of their values.
#[derive(Drop)]
pub struct Multiples<'a, T> {
    /// The scale of the first matrix.
    pub alpha: T,
    /// The arrays of the first matrix.
    pub a: Lanes<'a>,
    /// The scale of the second matrix.
    pub beta: T,
    /// The arrays of the second matrix.
    pub b: Lanes<'a>,
}

/// Writes the sum of two scaled matrices into arrays by rows, and its number of entries into `places`. Returns the
/// status of the call: 0, or the status of the first fault of the operands; the arrays and `places` are then unchanged.
///
/// The sum has an entry wherever either matrix has one, even if its value is zero. Both matrices must have the same
/// shape, and the arrays must have room for the entries of both.
///
/// One pass over each operand validates it, and a merge of two sorted rows for each row writes the sum. Allocates
/// nothing.
pub fn write_sum<T: Number>(
    multiples: Multiples<'_, T>,
    offsets: &mut [usize],
    indices: &mut [usize],
    values: &mut [i64],
    places: &mut usize,
) -> i32
    requires rows { multiples.a.pattern.major_dim ≡ multiples.b.pattern.major_dim }
    requires cols { multiples.a.pattern.minor_dim ≡ multiples.b.pattern.minor_dim }
    requires offsets_room { multiples.a.pattern.major_dim < length offsets.old }
    requires room { length multiples.a.pattern.indices + length multiples.b.pattern.indices
        ≤ length indices.old }
    requires values_room { length multiples.a.pattern.indices
        + length multiples.b.pattern.indices ≤ length values.old }
    ensures written { result ≡ pos 0 → HoldsRows (plain_sum T.ring
        (plain_scaled T.ring (T.value multiples.entry.alpha)
        (plain_by_rows T.ring multiples.entry.a))
        (plain_scaled T.ring (T.value multiples.entry.beta)
        (plain_by_rows T.ring multiples.entry.b)))
        (output_arrays offsets.new indices.new values.new places.new) }
    ensures rest { result ≡ pos 0 → KeepsRest multiples.entry.a.pattern.major_dim
        (output_arrays offsets.old indices.old values.old places.old)
        (output_arrays offsets.new indices.new values.new places.new) }
    ensures shown { result ≡ pos 0 → FirstAre T.is_shown places.new values.new }
    ensures sound { result ≡ pos 0 → IsSound multiples.entry.a × IsSound multiples.entry.b }
    ensures untouched { result ≢ pos 0 → output_arrays offsets.new indices.new values.new places.new
        ≡ output_arrays offsets.old indices.old values.old places.old }
    ensures fault { result ≢ pos 0 → (e : Refusal) × (result ≡ number_of e)
        × IsFaultOfPair multiples.entry.a multiples.entry.b e }
{
    let Multiples { alpha, a, beta, b } = multiples;
    let first = match term(alpha, a) {
        Ok(first) => first,
        Err(refusal) => return refusal.status(),
    };
    let second = match term(beta, b) {
        Ok(second) => second,
        Err(refusal) => return refusal.status(),
    };
    *places = write_rows(&first, &second, offsets, indices, values);
    0
}

// Returns the matrix in these arrays with its scale, or the error for their first fault. The arrays are not copied.
fn term<'a, T: Number>(scale: T, lanes: Lanes<'a>) -> Result<ScaledMatrix<'a, T>, Refusal>
    ensures scale { IfOk result (λ t. t.scale ≡ scale) }
    ensures matrix { IfOk result (λ t. t.matrix ≡ lanes.entry) }
    ensures sound { OnOk result (IsSound lanes.entry) }
    ensures fault { IfErr result (IsFaultOf lanes.entry) }
{
    let Lanes {
        major_dim,
        minor_dim,
        offsets,
        indices,
        values,
    } = lanes;
    match CsView::try_from_slices(major_dim, minor_dim, offsets, indices, values) {
        Ok(matrix) => Ok(ScaledMatrix { scale, matrix }),
        Err(fault) => Err(Refusal::of_format(fault.kind())),
    }
}
