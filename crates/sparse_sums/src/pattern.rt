//! The pattern of a sum. A pattern is a matrix over the zero ring, so patterns are added by the merge of matrices.

ghost use Rattle.std.specs.Prelude.{◌≡◌, IfOk};
ghost use Rattle.sparse_pattern.specs.Raw.{IsValid};
ghost use Rattle.sparse_sums.specs.PatternSums.{IsUnionOf};

use crate::merge::append_sum;
use sparse_algebra::scalar::NoValue;
use sparse_pattern::pattern::SparsityPattern;
use std::alloc::{AllocError, Global};

/// Returns the pattern of the sum of two matrices, which is the union of their patterns.
///
/// Both patterns must have the same shape.
///
/// Merges two sorted lanes for each lane of the result. Time is linear in the number of entries and lanes. Memory for
/// the indices is allocated once, for as many as both patterns have together. Fails only if an allocation fails.
#[tactic(auto, using(sparse_algebra::proofs::EarlyReturns::early_return))]
pub fn spadd_pattern(
    alloc: Global,
    a: &SparsityPattern,
    b: &SparsityPattern,
) -> Result<SparsityPattern, AllocError>
    requires lanes { a.now.major_dim ≡ b.now.major_dim }
    requires width { a.now.minor_dim ≡ b.now.minor_dim }
    ensures major { IfOk result (λ p. p.major_dim ≡ a.now.major_dim) }
    ensures minor { IfOk result (λ p. p.minor_dim ≡ a.now.minor_dim) }
    ensures entries { IfOk result (λ p. IsUnionOf p a.now b.now) }
    ensures valid { IfOk result IsValid }
{
    let room = a.minor_indices().len() + b.minor_indices().len();
    let none = vec![in alloc; NoValue; room]?;
    let mut offsets = Vec::with_capacity(alloc, a.major_offsets().len())?;
    let mut indices = Vec::with_capacity(alloc, room)?;
    let mut sums = Vec::with_capacity(alloc, room)?;
    offsets.push(0)?;
    for i in 0..a.major_dim() {
        let (first, second) = (a.lane(i), b.lane(i));
        let (first_none, second_none) = (&none[..first.len()], &none[..second.len()]);
        append_sum::<NoValue, false>(
            first,
            first_none,
            second,
            second_none,
            &mut indices,
            &mut sums,
        )?;
        offsets.push(indices.len())?;
    }
    Ok(SparsityPattern::from_offset_and_indices_unchecked(
        a.major_dim(),
        a.minor_dim(),
        offsets,
        indices,
    ))
}
