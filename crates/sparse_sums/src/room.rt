//! How many entries to reserve memory for in a sum. Only the use of memory depends on the estimate.

ghost use Rattle.std.specs.Prelude.{◌≡◌, ◌+◌, ◌≤◌, length};

use sparse_pattern::pattern::SparsityPattern;

// How many pairs of lanes are sampled.
const SAMPLED_LANES: usize = 64;

// Returns an estimate of how many entries the union of two patterns has, extrapolated from evenly spaced lanes.
//
// The estimate is the number of entries of both, less seven eighths of those that they share by the sample. For
// patterns with fewer than 64 lanes it is the number of entries of both.
pub(crate) fn estimated_union(a: &SparsityPattern, b: &SparsityPattern) -> usize
    requires lanes { a.now.major_dim ≡ b.now.major_dim }
    ensures most { result ≤ length a.now.indices + length b.now.indices }
{
    let both = a.minor_indices().len() + b.minor_indices().len();
    let (seen, shared) = sample(a, b);
    if seen == 0 {
        return both;
    }
    let spared = (both / seen).saturating_mul(shared);
    both.saturating_sub(spared - spared / 8)
}

// Returns how many entries 64 evenly spaced pairs of lanes have, and how many indices both lanes of a pair have.
// Returns zeros if there are fewer than 64 lanes.
fn sample(a: &SparsityPattern, b: &SparsityPattern) -> (usize, usize)
    requires { a.now.major_dim ≡ b.now.major_dim }
    ensures { result.1 ≤ result.0 }
{
    let step = a.major_dim() / SAMPLED_LANES;
    if step == 0 {
        return (0, 0);
    }
    let (mut seen, mut shared): (usize, usize) = (0, 0);
    for k in 0..SAMPLED_LANES {
        let i = k * step;
        let (lane, other) = (a.lane(i), b.lane(i));
        seen = seen.saturating_add(lane.len() + other.len());
        shared = shared.saturating_add(shared_count(lane, other));
    }
    (seen, shared)
}

// Returns the number of indices that both lanes have. The only branch is the test of the loop.
fn shared_count(a: &[usize], b: &[usize]) -> usize
    ensures { result ≤ length a.now }
{
    let (mut p, mut q, mut shared) = (0, 0, 0);
    while p < a.len() && q < b.len() {
        let (j, k) = (a[p], b[q]);
        if j == k {
            shared += 1;
        }
        if j <= k {
            p += 1;
        }
        if k <= j {
            q += 1;
        }
    }
    shared
}
