//! Patterns written into arrays that C passes.

ghost use Rattle.std.specs.Prelude.{◌≡◌, ◌≢◌, length, pos, IfOk, MatchResult, OnErr};
ghost use Rattle.c_arrays.specs.Arrays.{pattern_output_arrays, HoldsPattern};
ghost use Rattle.c_arrays.specs.Refused.{IsPatternTooSmall};
ghost use Rattle.c_arrays.specs.Rests.{KeepsPatternRest};
ghost use Rattle.c_arrays.specs.Statuses.{number_of};
ghost use Rattle.c_arrays.specs.declared.refusal.Refusal.TheVariants.{TooSmall};

use crate::refusal::Refusal;
use crate::scalars::put_items;
use sparse_pattern::pattern::SparsityPattern;

/// Writes the pattern of an answer into arrays, and its number of entries into `places`. Returns the status of the
/// call: 0, or the status of the error; the arrays are then unchanged. If an array is too small, only `places` is
/// written.
///
/// An array may be longer than the pattern needs.
pub fn finish_pattern(
    answer: Result<SparsityPattern, Refusal>,
    offsets: &mut [usize],
    indices: &mut [usize],
    places: &mut usize,
) -> i32
    ensures written { result ≡ pos 0 → MatchResult answer
        (λ d. HoldsPattern d (pattern_output_arrays offsets.new indices.new places.new)) (λ _. ⊥) }
    ensures rest { result ≡ pos 0 → MatchResult answer (λ d. KeepsPatternRest d.major_dim
        (pattern_output_arrays offsets.old indices.old places.old)
        (pattern_output_arrays offsets.new indices.new places.new)) (λ _. ⊥) }
    ensures untouched { result ≢ pos 0 → pattern_output_arrays offsets.new indices.new places.old
        ≡ pattern_output_arrays offsets.old indices.old places.old }
    ensures needed { result ≢ pos 0 → IfOk answer (λ d. places.new ≡ length d.indices) }
    ensures kept { OnErr answer (places.new ≡ places.old) }
    ensures refused { result ≢ pos 0 → MatchResult answer
        (λ d. (result ≡ number_of TooSmall)
        × IsPatternTooSmall d (pattern_output_arrays offsets.old indices.old places.old))
        (λ refusal. result ≡ number_of refusal) }
{
    match answer {
        Ok(pattern) => write_pattern(&pattern, offsets, indices, places),
        Err(refusal) => refusal.status(),
    }
}

// Writes the number of entries of a pattern, and the pattern if no array is too small. Returns 0, or the status of
// arrays that are too small.
fn write_pattern(
    pattern: &SparsityPattern,
    offsets: &mut [usize],
    indices: &mut [usize],
    places: &mut usize,
) -> i32
    ensures written { result ≡ pos 0
        → HoldsPattern pattern.now (pattern_output_arrays offsets.new indices.new places.new) }
    ensures rest { result ≡ pos 0 → KeepsPatternRest pattern.now.major_dim
        (pattern_output_arrays offsets.old indices.old places.old)
        (pattern_output_arrays offsets.new indices.new places.new) }
    ensures untouched { result ≢ pos 0 → pattern_output_arrays offsets.new indices.new places.old
        ≡ pattern_output_arrays offsets.old indices.old places.old }
    ensures counted { places.new ≡ length pattern.now.indices }
    ensures small { result ≢ pos 0 → IsPatternTooSmall pattern.now
        (pattern_output_arrays offsets.old indices.old places.old) }
    ensures status { result ≢ pos 0 → result ≡ number_of TooSmall }
{
    let (from_offsets, from_indices) = (pattern.major_offsets(), pattern.minor_indices());
    let count = from_indices.len();
    *places = count;
    if offsets.len() < from_offsets.len() {
        return Refusal::TooSmall.status();
    }
    if indices.len() < count {
        return Refusal::TooSmall.status();
    }
    put_items(offsets, from_offsets);
    put_items(indices, from_indices);
    0
}
