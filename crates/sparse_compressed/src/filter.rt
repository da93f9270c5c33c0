//! Selection of entries by a predicate.

ghost use Rattle.std.specs.Prelude.{◌≡◌, ℕ, Bool, OnOk, IfOk, length};
ghost use Rattle.std.specs.List.{filter, zip};
ghost use Rattle.sparse_compressed.specs.Compressed.{IsSound, lane_triplets};
ghost use Rattle.sparse_compressed.specs.Filter.{Answers, AnswersAs, HasShapeOf, IsKept};
ghost use Rattle.sparse_compressed.specs.InnerFilter.{AreKeptLanes, IsGrown};

use crate::CsMatrix;
use sparse_pattern::pattern::SparsityPattern;
use std::alloc::{AllocError, Global};

impl<T: Copy> CsMatrix<T> {
    /// Returns a matrix of the same shape with the entries (lane, index, value) for which `predicate` returns `true`.
    ///
    /// The predicate is called once for each entry, including those whose value is zero, lane by lane, indices
    /// increasing. It must be callable with any arguments. Linear in lanes and entries; the memory is proportional to
    /// the lanes and the entries kept. Fails only if an allocation fails.
    pub fn filter<P>(&self, alloc: Global, predicate: P) -> Result<Self, AllocError>
    where
        P: Fn(usize, usize, &T) -> bool,
        requires { P.IsAlwaysCallable predicate }
        ensures same_shape { IfOk result (HasShapeOf self.now) }
        ensures kept { IfOk result
            (λ m. IsKept (Answers P.Fn predicate) (lane_triplets self.now) (lane_triplets m)) }
        ensures tested { (test : ℕ × ℕ × T → Bool) → AnswersAs P.Fn predicate test
            → IfOk result (λ m. lane_triplets m ≡ filter test (lane_triplets self.now)) }
        ensures sound { IfOk result IsSound }
    {
        let (offsets, indices, values) = keep_lanes(alloc, self, &predicate)?;
        let pattern = self.pattern();
        let kept = SparsityPattern::from_offset_and_indices_unchecked(
            pattern.major_dim(),
            pattern.minor_dim(),
            offsets,
            indices,
        );
        Ok(CsMatrix::from_pattern_and_values(kept, values))
    }
}

// Returns the offsets, the indices and the values of the entries for which the predicate returns `true`.
fn keep_lanes<T: Copy, P: Fn(usize, usize, &T) -> bool>(
    alloc: Global,
    matrix: &CsMatrix<T>,
    predicate: &P,
) -> Result<(Vec<usize>, Vec<usize>, Vec<T>), AllocError>
    requires { P.IsAlwaysCallable predicate.now }
    ensures { IfOk result (λ r. AreKeptLanes (Answers P.Fn predicate.now) matrix.now r.0.items
        r.1.items r.2.items matrix.now.pattern.major_dim) }
{
    let mut offsets = Vec::with_capacity(alloc, matrix.pattern().major_offsets().len())?;
    let mut indices = Vec::new(alloc);
    let mut values = Vec::new(alloc);
    offsets.push_reserved(0);
    for lane in 0..matrix.pattern().major_dim() {
        let places = matrix.lane(lane);
        keep_lane(
            lane,
            places.minor_indices(),
            places.values(),
            predicate,
            &mut indices,
            &mut values,
        )?;
        offsets.push_reserved(indices.len());
    }
    Ok((offsets, indices, values))
}

// Appends the indices and the values of the entries of a lane for which the predicate returns `true`.
fn keep_lane<T: Copy, P: Fn(usize, usize, &T) -> bool>(
    lane: usize,
    indices: &[usize],
    values: &[T],
    predicate: &P,
    kept_indices: &mut Vec<usize>,
    kept_values: &mut Vec<T>,
) -> Result<(), AllocError>
    requires count { length values.now ≡ length indices.now }
    requires callable { P.IsAlwaysCallable predicate.now }
    ensures { OnOk result
        (IsGrown (λ p b. Answers P.Fn predicate.now (lane, p.0, p.1) b) (zip indices.now values.now)
        kept_indices.old.items kept_values.old.items kept_indices.new.items kept_values.new.items) }
{
    for at in 0..indices.len() {
        let index = indices[at];
        let value = values[at];
        if predicate(lane, index, &value) {
            kept_indices.push(index)?;
            kept_values.push(value)?;
        }
    }
    Ok(())
}
