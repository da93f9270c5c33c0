//! P A Pᵀ of every small pattern in every order, beside the definition.

use sparse_pattern::pattern::SparsityPattern;
use sparse_permutation::permutation::Permutation;
use sparse_permutation::symmetric::permute_symmetric_pattern;
use std::alloc::{AllocError, Global};
use std::test::Fail;

// The digits of a number in base `size`, the lowest first. Each order of `size` indices is the list of one number.
fn digits(alloc: Global, size: usize, number: usize) -> Result<Vec<usize>, AllocError> {
    let mut digits = Vec::new(alloc);
    let mut rest = number;
    for _ in 0..size {
        digits.push(rest.checked_rem(size).unwrap_or(0))?;
        rest = rest.checked_div(size).unwrap_or(0);
    }
    Ok(digits)
}

fn has(pattern: &SparsityPattern, i: usize, j: usize) -> bool {
    match pattern.get_lane(i) {
        Some(lane) => lane.contains(&j),
        None => false,
    }
}

// Whether `permuted` has an entry at (i, j) exactly where `pattern` has one at (order[i], order[j]).
fn is_permuted(permuted: &SparsityPattern, pattern: &SparsityPattern, order: &[usize]) -> bool {
    for (i, p) in order.iter().enumerate() {
        for (j, q) in order.iter().enumerate() {
            if has(permuted, i, j) != has(pattern, *p, *q) {
                return false;
            }
        }
    }
    permuted.nnz() == pattern.nnz()
}

// The square pattern whose entries are the bits of a number, row by row.
fn of_bits(alloc: Global, size: usize, bits: u32) -> Result<SparsityPattern, Fail> {
    let mut offsets = Vec::from_slice(alloc, &[0])?;
    let mut indices = Vec::new(alloc);
    let mut rest = bits;
    for _ in 0..size {
        rest = push_bits(&mut indices, size, rest)?;
        offsets.push(indices.len())?;
    }
    Ok(SparsityPattern::try_from_offsets_and_indices(size, size, offsets, indices)?)
}

// Pushes the numbers of the lowest `size` bits that are set, and returns the other bits.
fn push_bits(indices: &mut Vec<usize>, size: usize, bits: u32) -> Result<u32, AllocError> {
    let mut rest = bits;
    for index in 0..size {
        if rest & 1 == 1 {
            indices.push(index)?;
        }
        rest >>= 1;
    }
    Ok(rest)
}

// Whether the pattern of these bits is permuted as the definition says.
fn agrees(alloc: Global, bits: u32, order: &Permutation) -> Result<bool, Fail> {
    let pattern = of_bits(alloc, order.len(), bits)?;
    match permute_symmetric_pattern(alloc, &pattern, order) {
        Ok(permuted) => Ok(is_permuted(&permuted, &pattern, order.order())),
        Err(_) => Ok(false),
    }
}

// The patterns that are tried in one order: those from the number `first` on, `stride` apart, below `count`.
#[derive(Clone, Copy)]
struct Sweep {
    first: u32,
    stride: usize,
    count: u32,
}

fn all_agree(alloc: Global, order: &Permutation, sweep: Sweep) -> Result<bool, Fail> {
    for bits in (sweep.first..sweep.count).step_by(sweep.stride.max(1)) {
        if !agrees(alloc, bits, order)? {
            return Ok(false);
        }
    }
    Ok(true)
}

// The number of orders of a size in which the patterns are permuted so, or `None` if one is not.
fn agreeing_orders(
    alloc: Global,
    size: usize,
    lists: usize,
    sweep: Sweep,
) -> Result<Option<u32>, Fail> {
    let mut orders = 0u32;
    let mut sweep = sweep;
    for number in 0..lists {
        if let Ok(order) = Permutation::try_from_order(alloc, digits(alloc, size, number)?) {
            if !all_agree(alloc, &order, sweep)? {
                return Ok(None);
            }
            orders = orders.saturating_add(1);
            // Of many patterns the next order is tried with others.
            sweep.first = if sweep.stride == 1 { 0 } else { orders };
        }
    }
    Ok(Some(orders))
}

// The size, the number of lists of that length, the stride, the number of patterns, and the number of orders. Every
// pattern of four rows is tried in one order at least, and every order with one pattern in 23.
const SIZES: &[(usize, usize, usize, u32, u32)] = &[
    (0, 1, 1, 1, 1),
    (1, 1, 1, 2, 1),
    (2, 4, 1, 16, 2),
    (3, 27, 1, 512, 6),
    (4, 256, 23, 65_536, 24),
];

#[test]
fn small_patterns_are_permuted_in_every_order(rt: HostRuntime) -> Result<(), Fail> {
    for &(size, lists, stride, count, orders) in SIZES {
        let sweep = Sweep {
            first: 0,
            stride,
            count,
        };
        let found = agreeing_orders(rt.alloc(), size, lists, sweep)?;
        assert!(rt; found == Some(orders), "size {size}");
    }
    Ok(())
}
