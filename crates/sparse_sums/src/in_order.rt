//! Sums into the pattern of a given matrix, lane by lane, without a transpose. Both lanes are sorted, so one pass over
//! the lane of the target finds each entry of the operand's lane.

ghost use Rattle.std.specs.Prelude.{◌≡◌, ℕ, ◌+◌, ◌<◌, ◌≤◌, ◌⊎◌, ◌↔◌, false, IsTrue, length};
ghost use Rattle.std.specs.Prelude.{slice_index, slice_index_or};
ghost use Rattle.std.specs.List.Sorted.{IsStrictlyIncreasing};
ghost use Rattle.sparse_compressed.specs.Compressed.{IsOffset};
ghost use Rattle.sparse_compressed.specs.InnerLaneValue.{lane_value};
ghost use Rattle.sparse_compressed.specs.PlainOfLanes.{plain_of_rows};
ghost use Rattle.sparse_sums.specs.InnerTargets.{HasIndicesOf, ContainsPatternOf};

use sparse_algebra::recall;
use sparse_algebra::scalar::Ring;
use sparse_compressed::CsMatrix;
use sparse_pattern::pattern::SparsityPattern;

// Returns whether the pattern of the target contains that of the operand.
pub(crate) fn covers_lanes(target: &SparsityPattern, a: &SparsityPattern) -> bool
    requires { a.now.major_dim ≡ target.now.major_dim }
    ensures { IsTrue result ↔ ContainsPatternOf target.now false a.now }
{
    recall(target.major_offsets());
    recall(a.major_offsets());
    for i in 0..a.major_dim() {
        if !covers_lane(target.lane(i), a.lane(i)) {
            return false;
        }
    }
    true
}

// Returns whether the target lane has each index of the lane.
fn covers_lane(target: &[usize], lane: &[usize]) -> bool
    requires target_rising { IsStrictlyIncreasing target.now }
    requires rising { IsStrictlyIncreasing lane.now }
    ensures { IsTrue result ↔ HasIndicesOf target.now lane.now }
{
    let mut k = 0;
    for p in 0..target.len() {
        if k < lane.len() && target[p] == lane[k] {
            k += 1;
        }
    }
    k == lane.len()
}

// Adds `alpha` times each entry of the operand to the entry of the target with the same row and column.
pub(crate) fn add_in_order<T: Ring>(
    target: &SparsityPattern,
    values: &mut [T],
    alpha: T,
    a: &CsMatrix<T>,
)
    requires count { length values.old ≡ length target.now.indices }
    requires lanes { a.now.pattern.major_dim ≡ target.now.major_dim }
    requires covered { ContainsPatternOf target.now false a.now.pattern }
    ensures count { length values.new ≡ length values.old }
    ensures added { (i j p : ℕ) → IsOffset target.now i j p
        → T.value (slice_index_or values.new p T.zero_value)
        ≡ T.ring.add (T.value (slice_index_or values.old p T.zero_value))
        (T.ring.mul (T.value alpha) ((plain_of_rows T.ring T.value a.now).value i j)) }
{
    for i in 0..a.pattern().major_dim() {
        let start = target.major_offsets()[i];
        let lane = a.lane(i);
        add_lane(
            target.lane(i),
            start,
            values,
            alpha,
            lane.minor_indices(),
            lane.values(),
        );
    }
}

// Adds `alpha` times the values of a lane to those of the target lane with the same indices. The values of the target
// lane begin at the offset `start`.
fn add_lane<T: Ring>(
    target: &[usize],
    start: usize,
    values: &mut [T],
    alpha: T,
    lane: &[usize],
    lane_values: &[T],
)
    requires inside { start + length target.now ≤ length values.old }
    requires count { length lane_values.now ≡ length lane.now }
    requires target_rising { IsStrictlyIncreasing target.now }
    requires rising { IsStrictlyIncreasing lane.now }
    requires covered { HasIndicesOf target.now lane.now }
    ensures count { length values.new ≡ length values.old }
    ensures added { (m : ℕ) → m < length target.now
        → T.value (slice_index_or values.new (start + m) T.zero_value)
        ≡ T.ring.add (T.value (slice_index_or values.old (start + m) T.zero_value))
        (T.ring.mul (T.value alpha)
        (lane_value T.ring T.value lane.now lane_values.now (slice_index target.now m))) }
    ensures kept { (x : ℕ) → (x < start) ⊎ (start + length target.now ≤ x)
        → slice_index_or values.new x T.zero_value ≡ slice_index_or values.old x T.zero_value }
{
    let mut k = 0;
    for p in 0..target.len() {
        if k < lane.len() && target[p] == lane[k] {
            values[start + p] = values[start + p].add(alpha.mul(lane_values[k]));
            k += 1;
        }
    }
}
