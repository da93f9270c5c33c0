//! A test that reads the lanes of the second factor that a long lane of the first one lists, before they are walked.
//!
//! These lanes are far apart in memory. The test reads the first and the last index of each without waiting for those of
//! the others, so that the walk finds them in the cache: 0.6 to 0.8 of the time of a product whose rows have ten entries
//! in random columns.

ghost use Rattle.std.specs.Prelude.{◌≡◌, ◌<◌, [], All, IsTrue};
ghost use Rattle.sparse_pattern.specs.Raw.{lane_of};

use sparse_algebra::recall;
use sparse_pattern::pattern::SparsityPattern;

// The greatest length of a lane for which the processor by itself reads ahead the lanes that it lists.
const SHORT_LANE: usize = 6;

// Whether `lane` is long and each lane of `b` that it lists is empty.
#[inline(always)]
pub(super) fn lists_only_empty_lanes(lane: &[usize], b: &SparsityPattern) -> bool
    requires { All (λ k. k < b.now.major_dim) lane.now }
    ensures { IsTrue result → All (λ k. lane_of b.now k ≡ []) lane.now }
{
    lane.len() > SHORT_LANE && width_of_lanes(lane, b) == 0
}

// Returns the greatest index of lane k of `b` for each k in `lane`, plus one, or zero if they have no index.
fn width_of_lanes(lane: &[usize], b: &SparsityPattern) -> usize
    requires { All (λ k. k < b.now.major_dim) lane.now }
    ensures { result ≡ 0 → All (λ k. lane_of b.now k ≡ []) lane.now }
{
    let mut width = 0usize;
    for k in lane {
        width = width.max(width_of_lane(b, *k));
    }
    width
}

// Returns the last index of lane k plus one, or zero if the lane is empty. The first index is read, too, since it may be
// in another line of the cache.
#[inline(always)]
fn width_of_lane(b: &SparsityPattern, k: usize) -> usize
    requires { k < b.now.major_dim }
    ensures { result ≡ 0 → lane_of b.now k ≡ [] }
{
    recall(b.minor_dim());
    let (offsets, indices) = (b.major_offsets(), b.minor_indices());
    let (begin, end) = (offsets[k], offsets[k + 1]);
    if begin == end {
        return 0;
    }
    indices[begin].max(indices[end - 1]) + 1
}
