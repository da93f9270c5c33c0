//! What an order is worth.

use sparse_pattern::pattern::SparsityPattern;
use std::alloc::{AllocError, Global};

// Returns whether an order lists each index below its length once.
pub(crate) fn is_permutation(alloc: Global, order: &[usize]) -> Result<bool, AllocError> {
    let inverse = inverse_of(alloc, order)?;
    Ok((0..order.len()).all(|index| at(order, at(&inverse, index)) == index))
}

// Returns the step at which each index is listed.
fn inverse_of(alloc: Global, order: &[usize]) -> Result<Vec<usize>, AllocError> {
    let mut inverse = vec![in alloc; 0; order.len()]?;
    for (step, index) in order.iter().enumerate() {
        set(&mut inverse, *index, step);
    }
    Ok(inverse)
}

// Returns the greatest difference of the steps of two indices that have an entry.
pub(crate) fn bandwidth(
    alloc: Global,
    pattern: &SparsityPattern,
    order: &[usize],
) -> Result<usize, AllocError> {
    let inverse = inverse_of(alloc, order)?;
    let mut width = 0;
    for (row, column) in pattern.entries() {
        width = at(&inverse, row).abs_diff(at(&inverse, column)).max(width);
    }
    Ok(width)
}

// The elimination tree of the rows up to some step.
#[derive(Drop)]
struct Climbs {
    // The parent of each step, or a number that is no step.
    parents: Vec<usize>,
    // The last row that has an entry in each column, or a number that is no row.
    marks: Vec<usize>,
}

// Returns the number of entries of the Cholesky factor of a symmetric pattern in an order, those on the diagonal
// included. The entries of a row are found by climbs in the elimination tree.
pub(crate) fn factor_entries(
    alloc: Global,
    pattern: &SparsityPattern,
    order: &[usize],
) -> Result<usize, AllocError> {
    let inverse = inverse_of(alloc, order)?;
    let mut climbs = Climbs {
        parents: vec![in alloc; usize::MAX; order.len()]?,
        marks: vec![in alloc; usize::MAX; order.len()]?,
    };
    let mut count: usize = order.len();
    for (step, index) in order.iter().enumerate() {
        let lane = pattern.get_lane(*index).unwrap_or(&[]);
        count = count.saturating_add(climb_all(&mut climbs, lane, &inverse, step));
    }
    Ok(count)
}

// Returns the number of new entries of a row of the factor, given the indices of its entries.
fn climb_all(climbs: &mut Climbs, lane: &[usize], inverse: &[usize], row: usize) -> usize {
    let mut count: usize = 0;
    for index in lane {
        count = count.saturating_add(climbs.climb(at(inverse, *index), row));
    }
    count
}

impl Climbs {
    // Marks the columns from this one up to a marked one or the diagonal. Returns their number.
    fn climb(&mut self, column: usize, row: usize) -> usize {
        let mut from = column;
        for count in 0..row {
            if row <= from || at(&self.marks, from) == row {
                return count;
            }
            set(&mut self.marks, from, row);
            let parent = at(&self.parents, from).min(row);
            set(&mut self.parents, from, parent);
            from = parent;
        }
        row
    }
}

fn at(words: &[usize], index: usize) -> usize {
    words.get(index).copied().unwrap_or(0)
}

fn set(words: &mut [usize], index: usize, number: usize) {
    if index < words.len() {
        words[index] = number;
    }
}
