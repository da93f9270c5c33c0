//! Patterns by their shapes.

ghost use Rattle.std.specs.Prelude.{◌≡◌, IfOk};

use sparse_pattern::pattern::SparsityPattern;
use std::alloc::{AllocError, Global};
use std::test::Fail;

// The pairs of four rows, each with a number that has one bit.
const SMALL_PAIRS: [(usize, usize, usize); 6] = [
    (0, 1, 1),
    (0, 2, 2),
    (1, 2, 4),
    (0, 3, 8),
    (1, 3, 16),
    (2, 3, 32),
];

// Where a pattern has entries.
#[derive(Clone, Copy, Debug)]
pub(crate) enum Shape {
    // Nowhere.
    Empty,
    // Everywhere.
    Full,
    // Beside the diagonal.
    Path,
    // On the diagonal and above it, as `Path`.
    UpperPath,
    // In the first row and column.
    Star,
    // At the neighbours in a grid of this width.
    Grid(usize),
    // In blocks of this size on the diagonal.
    Blocks(usize),
    // At those of `SMALL_PAIRS` whose bits are set, and at the mirrored ones.
    Small(usize),
    // At about one of this many pairs, which are scattered.
    Scattered(usize),
}

impl Shape {
    fn has_entry(self, row: usize, column: usize) -> bool {
        let apart = row.abs_diff(column);
        match self {
            Shape::Empty => false,
            Shape::Full => true,
            Shape::Path => apart == 1,
            Shape::UpperPath => row <= column && apart <= 1,
            Shape::Star => row.min(column) == 0,
            Shape::Grid(width) => apart == width
                || (apart == 1 && is_in_one_block(row, column, width)),
            Shape::Blocks(width) => is_in_one_block(row, column, width),
            Shape::Small(set) => is_in_set(row, column, set),
            Shape::Scattered(share) => is_scattered(row.min(column), row.max(column), share),
        }
    }
}

fn is_in_one_block(row: usize, column: usize, width: usize) -> bool {
    row.checked_div(width) == column.checked_div(width)
}

fn is_in_set(row: usize, column: usize, set: usize) -> bool {
    let (low, high) = (row.min(column), row.max(column));
    SMALL_PAIRS.iter().any(|pair| pair.0 == low && pair.1 == high && set & pair.2 != 0)
}

// The upper half of a product with an odd number (Fibonacci hashing).
fn is_scattered(low: usize, high: usize, share: usize) -> bool {
    let number = low.wrapping_mul(10_007).wrapping_add(high);
    let hash = number.wrapping_mul(0x9e37_79b9_7f4a_7c15) >> 32;
    hash.checked_rem(share) == Some(0)
}

// Returns the square pattern of a shape.
pub(crate) fn pattern_of(alloc: Global, size: usize, shape: Shape) -> Result<SparsityPattern, Fail>
    ensures square { IfOk result (λ p. p.major_dim ≡ p.minor_dim) }
{
    let mut offsets = Vec::with_capacity(alloc, size.saturating_add(1))?;
    let mut indices = Vec::new(alloc);
    offsets.push(0)?;
    for row in 0..size {
        push_row(&mut indices, size, row, shape)?;
        offsets.push(indices.len())?;
    }
    Ok(SparsityPattern::try_from_offsets_and_indices(size, size, offsets, indices)?)
}

fn push_row(
    indices: &mut Vec<usize>,
    size: usize,
    row: usize,
    shape: Shape,
) -> Result<(), AllocError> {
    for column in 0..size {
        if shape.has_entry(row, column) {
            indices.push(column)?;
        }
    }
    Ok(())
}
