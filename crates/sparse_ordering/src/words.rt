//! Arrays of numbers that may be read and written at any index.
//!
//! The algorithms of this crate use only indices within bounds. That is tested, not proved, so each access compares its
//! index with the length: a read out of bounds gives 0, and a write out of bounds does nothing.

use sparse_pattern::pattern::SparsityPattern;
use std::alloc::{AllocError, Global};

/// An element of an array: `u32` where it suffices, `usize` otherwise.
pub trait Word: Copy {
    /// Returns the greatest number that fits.
    fn greatest() -> usize;

    /// Returns the element of a number, which must be at most the greatest one; otherwise of its low bits.
    fn of(number: usize) -> Self;

    /// Returns the number.
    fn get(self) -> usize;
}

impl Word for u32 {
    #[inline(always)]
    fn greatest() -> usize {
        u32::MAX as usize
    }

    #[inline(always)]
    fn of(number: usize) -> u32 {
        (number & 0xffff_ffff) as u32
    }

    #[inline(always)]
    fn get(self) -> usize {
        self as usize
    }
}

impl Word for usize {
    #[inline(always)]
    fn greatest() -> usize {
        usize::MAX
    }

    #[inline(always)]
    fn of(number: usize) -> usize {
        number
    }

    #[inline(always)]
    fn get(self) -> usize {
        self
    }
}

// Returns whether the numbers that the orders of a pattern need fit in 32 bits. The greatest are offsets into lists of
// at most 2.4 times as many elements as there are entries, and stamps, which need three times the number of lanes.
pub(crate) fn fits_in_32_bits(pattern: &SparsityPattern) -> bool {
    pattern.nnz().saturating_add(pattern.major_dim()) < 1 << 30
}

// Returns an array of equal numbers. Fails only if the allocation fails.
pub(crate) fn filled<W: Word>(
    alloc: Global,
    size: usize,
    number: usize,
) -> Result<Vec<W>, AllocError> {
    let mut words = Vec::with_capacity(alloc, size)?;
    words.resize(size, W::of(number))?;
    Ok(words)
}

#[inline(always)]
pub(crate) fn at<W: Word>(words: &[W], index: usize) -> usize {
    if index < words.len() {
        words[index].get()
    } else {
        0
    }
}

#[inline(always)]
pub(crate) fn set<W: Word>(words: &mut [W], index: usize, number: usize) {
    if index < words.len() {
        words[index] = W::of(number);
    }
}

// Returns the `count` elements from `begin` on, or none if there are fewer.
#[inline(always)]
pub(crate) fn run_of<W: Word>(words: &[W], begin: usize, count: usize) -> &[W] {
    let end = begin.saturating_add(count);
    if end <= words.len() {
        &words[begin..end]
    } else {
        &words[..0]
    }
}
