//! The merge of two lanes of entries into one, which all sums share.

ghost use Rattle.std.specs.Prelude.{◌≡◌, ◌+◌, ◌<◌, ◌≤◌, ◌⊎◌, ◌++◌, length, drop};
ghost use Rattle.sparse_sums.specs.InnerAdding.{GainsSum, IsAdding, IsLane};

mod operand;
mod output;
mod vectors;

pub use operand::Operand;
pub use output::Output;
use sparse_algebra::scalar::Ring;
pub(crate) use vectors::append_sum;

/// Appends the sum of two lanes: one entry for each index that either lane has, in increasing order of index. Values
/// with the same index are added.
#[inline(always)]
pub fn merge_lanes<T: Ring, A: Operand<T>, B: Operand<T>, O: Output<T>>(
    a: &A,
    b: &B,
    output: &mut O,
)
    requires a_lane { IsLane (A.indices a.now) (A.elements T.ring T.value a.now) }
    requires b_lane { IsLane (B.indices b.now) (B.elements T.ring T.value b.now) }
    requires room { length (A.indices a.now) + length (B.indices b.now) ≤ O.room output.old }
    ensures gained { GainsSum T.ring (O.indices output.old) (O.indices output.new)
        (O.elements T.ring T.value output.old) (O.elements T.ring T.value output.new)
        (A.indices a.now) (A.elements T.ring T.value a.now)
        (B.indices b.now) (B.elements T.ring T.value b.now) }
    ensures room { O.room output.old
        ≤ O.room output.new + (length (A.indices a.now) + length (B.indices b.now)) }
    ensures kept { O.keeps output.old output.new }
{
    let (p, q) = merge_until_end(a, b, output);
    append_rest(a, p, output);
    append_rest(b, q, output);
}

// Appends the entries of a lane from entry `from` on.
#[inline(always)]
fn append_rest<T: Ring, A: Operand<T>, O: Output<T>>(a: &A, from: usize, output: &mut O)
    requires count { length (A.elements T.ring T.value a.now) ≡ length (A.indices a.now) }
    requires from { from ≤ length (A.indices a.now) }
    requires room { length (A.indices a.now) ≤ O.room output.old + from }
    ensures indices { O.indices output.new ≡ O.indices output.old ++ drop from (A.indices a.now) }
    ensures elements { O.elements T.ring T.value output.new
        ≡ O.elements T.ring T.value output.old ++ drop from (A.elements T.ring T.value a.now) }
    ensures room { O.room output.old + from ≡ O.room output.new + length (A.indices a.now) }
    ensures kept { O.keeps output.old output.new }
{
    let indices = a.indices();
    for k in from..indices.len() {
        output.push(indices[k], a.value(k));
    }
}

// Returns the value at the smaller of two indices, or the sum of both values where these are equal.
//
// The sum is computed in any case, so that the compiler selects the result without a branch.
#[inline(always)]
fn merged_value<T: Ring>(j: usize, first: T, k: usize, second: T) -> T
    ensures first { j < k → result ≡ first }
    ensures second { k < j → result ≡ second }
    ensures sum { j ≡ k → T.value result ≡ T.ring.add (T.value first) (T.value second) }
{
    let sum = first.add(second);
    if j < k {
        first
    } else if k < j {
        second
    } else {
        sum
    }
}

// Merges both lanes until one of them ends. Returns how many entries of each were merged. The only branch is the test of
// the loop: one that depends on indices would be mispredicted.
#[inline(always)]
fn merge_until_end<T: Ring, A: Operand<T>, B: Operand<T>, O: Output<T>>(
    a: &A,
    b: &B,
    output: &mut O,
) -> (usize, usize)
    requires a_lane { IsLane (A.indices a.now) (A.elements T.ring T.value a.now) }
    requires b_lane { IsLane (B.indices b.now) (B.elements T.ring T.value b.now) }
    requires room { length (A.indices a.now) + length (B.indices b.now) ≤ O.room output.old }
    ensures first { result.0 ≤ length (A.indices a.now) }
    ensures second { result.1 ≤ length (B.indices b.now) }
    ensures end { (result.0 ≡ length (A.indices a.now)) ⊎ (result.1 ≡ length (B.indices b.now)) }
    ensures room { O.room output.old ≤ O.room output.new + (result.0 + result.1) }
    ensures added { IsAdding T.ring (O.indices output.old) (O.indices output.new)
        (O.elements T.ring T.value output.old) (O.elements T.ring T.value output.new)
        (A.indices a.now) (A.elements T.ring T.value a.now)
        (B.indices b.now) (B.elements T.ring T.value b.now) result.0 result.1 }
    ensures kept { O.keeps output.old output.new }
{
    let (a_indices, b_indices) = (a.indices(), b.indices());
    let (mut p, mut q) = (0, 0);
    while p < a_indices.len() && q < b_indices.len() {
        let (j, k) = (a_indices[p], b_indices[q]);
        let (first, second) = (a.value(p), b.value(q));
        output.push(j.min(k), merged_value(j, first, k, second));
        if j <= k {
            p += 1;
        }
        if k <= j {
            q += 1;
        }
    }
    (p, q)
}
