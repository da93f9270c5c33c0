//! The rows of a sum of two scaled matrices.

ghost use Rattle.std.specs.Prelude.{◌≡◌, ◌+◌, ◌<◌, ◌≤◌, length, slice_range};
ghost use Rattle.sparse_algebra.specs.Plain.{plain_sum, plain_scaled};
ghost use Rattle.sparse_pattern.specs.Raw.{start_of, end_of, lane_of};
ghost use Rattle.sparse_compressed.specs.Compressed.{IsSound};
ghost use Rattle.sparse_sums.specs.InnerAdding.{IsLane};
ghost use Rattle.c_arrays.specs.Arrays.{plain_by_rows, output_arrays, HoldsRows};
ghost use Rattle.c_arrays.specs.Reduced.{FirstAre};
ghost use Rattle.c_arrays.specs.Rests.{KeepsRest};

use crate::number::Number;
use crate::sums::lane::ScaledLane;
use crate::sums::output::EntryArrays;
use sparse_compressed::CsView;
use sparse_sums::merge_lanes;

// A matrix by rows and the scale of its values: a term of the sum.
#[derive(Drop)]
pub(crate) struct ScaledMatrix<'a, T> {
    pub(crate) scale: T,
    pub(crate) matrix: CsView<'a, i64>,
}

// Returns row i of a term.
#[inline(always)]
fn row<'a, T: Number>(term: &ScaledMatrix<'a, T>, i: usize) -> ScaledLane<'a, T>
    requires { i < term.now.matrix.pattern.major_dim }
    ensures scale { result.scale ≡ term.now.scale }
    ensures indices { result.indices.now ≡ lane_of term.now.matrix.pattern i }
    ensures values { result.values.now ≡ slice_range term.now.matrix.values
        (start_of term.now.matrix.pattern i) (end_of term.now.matrix.pattern i) }
    ensures lane { IsLane result.indices.now result.values.now }
{
    let (indices, values) = term.matrix.lane(i);
    ScaledLane {
        scale: term.scale,
        indices,
        values,
    }
}

// Writes the sum of two terms into arrays. The sum has an entry wherever either matrix has one. Returns the number of
// its entries.
pub(crate) fn write_rows<T: Number>(
    a: &ScaledMatrix<'_, T>,
    b: &ScaledMatrix<'_, T>,
    offsets: &mut [usize],
    indices: &mut [usize],
    values: &mut [i64],
) -> usize
    requires first { IsSound a.now.matrix }
    requires second { IsSound b.now.matrix }
    requires rows { a.now.matrix.pattern.major_dim ≡ b.now.matrix.pattern.major_dim }
    requires cols { a.now.matrix.pattern.minor_dim ≡ b.now.matrix.pattern.minor_dim }
    requires offsets_room { a.now.matrix.pattern.major_dim < length offsets.old }
    requires room { length a.now.matrix.pattern.indices + length b.now.matrix.pattern.indices
        ≤ length indices.old }
    requires values_room { length a.now.matrix.pattern.indices
        + length b.now.matrix.pattern.indices ≤ length values.old }
    ensures written { HoldsRows (plain_sum T.ring
        (plain_scaled T.ring (T.value a.now.scale) (plain_by_rows T.ring a.now.matrix))
        (plain_scaled T.ring (T.value b.now.scale) (plain_by_rows T.ring b.now.matrix)))
        (output_arrays offsets.new indices.new values.new result) }
    ensures rest { KeepsRest a.now.matrix.pattern.major_dim
        (output_arrays offsets.old indices.old values.old result)
        (output_arrays offsets.new indices.new values.new result) }
    ensures shown { FirstAre T.is_shown result values.new }
{
    offsets[0] = 0;
    let mut entries = EntryArrays {
        indices,
        values,
        end: 0,
    };
    for i in 0..a.matrix.major_dim() {
        merge_lanes(&row(a, i), &row(b, i), &mut entries);
        offsets[i + 1] = entries.end;
    }
    entries.end
}
