//! Counts the lanes of a pattern by their numbers of entries.

ghost use Rattle.std.specs.Prelude.{◌≡◌, ℕ, ◌+◌, ◌*◌, ◌^◌, ◌<◌, ◌≤◌, ◌⊎◌, IfOk, length, sum};
ghost use Rattle.std.specs.Prelude.{slice_index};
ghost use Rattle.mtxkit_matrices.specs.Lanes.{count_below, has_size_in, size_of};
ghost use Rattle.mtxkit_matrices.specs.Lanes.{longest_below, line_width};

use sparse_pattern::pattern::SparsityPattern;
use std::alloc::{AllocError, Global};

/// The number of lines of a [`Histogram`].
pub const LINES: usize = 10;

/// A histogram of the lanes of a pattern by their numbers of entries.
///
/// Line b counts the lanes with at least b * `width` and fewer than (b + 1) * `width` entries.
#[derive(Debug, Drop)]
pub struct Histogram {
    /// The number of values that a line covers.
    pub width: usize,
    /// The number of lanes of each line.
    pub counts: Vec<usize>,
}

/// Returns the number of lanes with at least `from` and fewer than `to` entries.
pub fn count_lanes(pattern: &SparsityPattern, from: usize, to: usize) -> usize
    ensures count { result ≡ count_below pattern.now.major_dim (has_size_in pattern.now from to) }
    ensures within { result ≤ pattern.now.major_dim }
{
    let mut count = 0;
    for lane in 0..pattern.major_dim() {
        let size = pattern.lane(lane).len();
        if from <= size && size < to {
            count += 1;
        }
    }
    count
}

/// Returns the number of entries of the longest lane.
pub fn longest_lane(pattern: &SparsityPattern) -> usize
    ensures longest { result ≡ longest_below pattern.now pattern.now.major_dim }
    ensures bound { (k : ℕ) → k < pattern.now.major_dim → size_of pattern.now k ≤ result }
    ensures reached { (result ≡ 0)
        ⊎ ((k : ℕ) × (k < pattern.now.major_dim) × (size_of pattern.now k ≡ result)) }
    ensures fits { result < 2 ^ 60 }
{
    let mut longest = 0;
    for lane in 0..pattern.major_dim() {
        longest = longest.max(pattern.lane(lane).len());
    }
    longest
}

/// Returns the histogram of the lanes by their numbers of entries, in ten lines. Its width is n / 10 + 1, rounded down,
/// if the longest lane has n entries.
pub fn counted_lanes(alloc: Global, pattern: &SparsityPattern) -> Result<Histogram, AllocError>
    ensures width { IfOk result (λ h. h.width ≡ line_width pattern.now) }
    ensures lines { IfOk result (λ h. length h.counts.items ≡ 10) }
    ensures each { IfOk result (λ h. (b : ℕ) → b < 10 → slice_index h.counts.items b
        ≡ count_below pattern.now.major_dim
        (has_size_in pattern.now (b * h.width) ((b + 1) * h.width))) }
    ensures total { IfOk result (λ h. sum h.counts.items ≡ pattern.now.major_dim) }
{
    let width = longest_lane(pattern) / LINES + 1;
    let mut counts = Vec::with_capacity(alloc, LINES)?;
    for line in 0..LINES {
        counts.push(count_lanes(pattern, line * width, (line + 1) * width))?;
    }
    Ok(Histogram { width, counts })
}
