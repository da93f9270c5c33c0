//! Sums of lanes, appended to two vectors.

ghost use Rattle.std.specs.Prelude.{◌≡◌, ◌+◌, ◌-◌, ◌≤◌, ◌⊎◌, length, map, min, vec_len, vec_capacity};
ghost use Rattle.std.specs.Prelude.{Contains, OnOk};
ghost use Rattle.std.specs.List.Sorted.{IsStrictlyIncreasing};
ghost use Rattle.sparse_compressed.specs.InnerLaneValue.{lane_value};
ghost use Rattle.sparse_sums.specs.InnerSigns.{signed};
ghost use Rattle.sparse_sums.specs.InnerAdding.{IsLane, GainsEntries, GainsSum};
ghost use Rattle.sparse_sums.specs.InnerExtensions.{IsExtended, extended_none, extended_then};

use super::merge_lanes;
use super::operand::{Operand, SignedLane};
use super::output::Output;
use sparse_algebra::scalar::Ring;
use std::alloc::AllocError;

// The vectors of the indices and the values, borrowed.
#[derive(Drop)]
struct Vectors<'a, T> {
    indices: &'a mut Vec<usize>,
    values: &'a mut Vec<T>,
}

impl<T: Ring> Output<T> for Vectors<'_, T> {
    ghost use Rattle.std.specs.Prelude.{refl};
    ghost use Rattle.std.proofs.Common.{◌∙◌};

    ghost indices = { λ s. s.indices.now.items };

    ghost elements = { λ R f s. map f s.values.now.items };

    ghost room = { λ s. min (vec_capacity s.indices.now - vec_len s.indices.now)
        (vec_capacity s.values.now - vec_len s.values.now) };

    ghost keeps = { λ s t. (t.indices.ghost_name ≡ s.indices.ghost_name)
        × (t.values.ghost_name ≡ s.values.ghost_name)
        × IsExtended s.values.now.items t.values.now.items };

    #[inline(always)]
    fn push(&mut self, index: usize, value: T) {
        self.indices.push_reserved(index);
        self.values.push_reserved(value);
    }

    ghost keeps_same = { λ s. (refl, refl, extended_none s.values.now.items) };

    ghost keeps_then = { λ s t u a b. (b.0 ∙ a.0, b.1 ∙ a.1, extended_then a.2 b.2) };
}

// Appends the sum of two lanes to vectors with enough reserved memory.
#[inline(always)]
fn merge_into<T: Ring, A: Operand<T>, B: Operand<T>>(
    a: &A,
    b: &B,
    indices: &mut Vec<usize>,
    values: &mut Vec<T>,
)
    requires a_lane { IsLane (A.indices a.now) (A.elements T.ring T.value a.now) }
    requires b_lane { IsLane (B.indices b.now) (B.elements T.ring T.value b.now) }
    requires room { vec_len indices.old + (length (A.indices a.now) + length (B.indices b.now))
        ≤ vec_capacity indices.old }
    requires values_room { vec_len values.old
        + (length (A.indices a.now) + length (B.indices b.now)) ≤ vec_capacity values.old }
    ensures gained { GainsSum T.ring indices.old.items indices.new.items
        (map T.value values.old.items) (map T.value values.new.items)
        (A.indices a.now) (A.elements T.ring T.value a.now)
        (B.indices b.now) (B.elements T.ring T.value b.now) }
    ensures extended { IsExtended values.old.items values.new.items }
{
    merge_lanes(a, b, &mut Vectors { indices, values });
}

// Appends the sum of two lanes, or their difference if `NEGATE`: one entry for each index that either lane has, in
// increasing order of index. Values with the same index are added.
//
// Fails only if an allocation fails.
#[tactic(auto, using(sparse_algebra::proofs::EarlyReturns::early_return))]
#[inline(never)]
pub(crate) fn append_sum<T: Ring, const NEGATE: bool>(
    a: &[usize],
    a_values: &[T],
    b: &[usize],
    b_values: &[T],
    indices: &mut Vec<usize>,
    values: &mut Vec<T>,
) -> Result<(), AllocError>
    requires a_count { length a_values.now ≡ length a.now }
    requires b_count { length b_values.now ≡ length b.now }
    requires a_rising { IsStrictlyIncreasing a.now }
    requires b_rising { IsStrictlyIncreasing b.now }
    ensures gained { OnOk result (GainsEntries T.ring T.value indices.old.items indices.new.items
        values.old.items values.new.items
        (λ j. Contains a.now j ⊎ Contains b.now j)
        (λ j. T.ring.add (lane_value T.ring T.value a.now a_values.now j)
        (lane_value T.ring (λ x. signed T.ring NEGATE (T.value x)) b.now b_values.now j))) }
{
    let most = a.len() + b.len();
    indices.reserve(most)?;
    values.reserve(most)?;
    let first = SignedLane::<T, false> {
        indices: a,
        values: a_values,
    };
    let second = SignedLane::<T, NEGATE> {
        indices: b,
        values: b_values,
    };
    merge_into(&first, &second, indices, values);
    Ok(())
}
