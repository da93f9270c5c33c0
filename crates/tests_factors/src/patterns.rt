//! All small raw data of patterns.

use reference_models::pattern_faults::pattern_fault;
use sparse_pattern::pattern::{SparsityPattern, SparsityPatternFormatError};
use std::alloc::{AllocError, Global};

// The eight digits of a number in base 4, the lowest first.
fn digits(number: usize) -> [usize; 8] {
    let mut left = number;
    let mut digits = [0; 8];
    for digit in &mut digits {
        *digit = left % 4;
        left /= 4;
    }
    digits
}

// The fault that the data is refused with, or `None` where it is taken.
fn refusal(
    alloc: Global,
    major_dim: usize,
    minor_dim: usize,
    offsets: &[usize],
    indices: &[usize],
) -> Result<Option<SparsityPatternFormatError>, AllocError> {
    let offsets = offsets.to_vec(alloc)?;
    let indices = indices.to_vec(alloc)?;
    let answer = SparsityPattern::try_from_offsets_and_indices(
        major_dim, minor_dim, offsets, indices,
    );
    Ok(answer.err())
}

// Whether the data is taken or refused with its first fault: up to three offsets, and up to three indices.
fn agrees(
    alloc: Global,
    major_dim: usize,
    minor_dim: usize,
    digits: &[usize; 8],
) -> Result<bool, AllocError> {
    let offset_count = digits[0].min(3);
    let index_count = digits[1].min(3);
    let offsets = &digits[2..2 + offset_count];
    let indices = &digits[5..5 + index_count];
    let wanted = pattern_fault(major_dim, minor_dim, offsets, indices).err();
    Ok(refusal(alloc, major_dim, minor_dim, offsets, indices)? == wanted)
}

#[test]
fn all_small_patterns(rt: HostRuntime) {
    for &(major_dim, minor_dim) in &[(0, 2), (1, 3), (2, 2), (2, 3)] {
        for number in 0..65536 {
            let agrees = agrees(rt.alloc(), major_dim, minor_dim, &digits(number));
            assert!(rt; matches!(agrees, Ok(true)), "{number}");
        }
    }
}
