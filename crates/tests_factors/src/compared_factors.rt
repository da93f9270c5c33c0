//! The factor, of a pattern and of each triangle, beside a slow program that follows the definition.

ghost use Rattle.std.specs.Prelude.{◌≡◌};

use crate::square_patterns::Columns;
use reference_models::fill::fill_by_pairs;
use sparse_factor::factorization::{CscSymbolicCholesky, Triangle};
use sparse_pattern::pattern::SparsityPattern;
use std::alloc::{AllocError, Global};

// Whether each column of the pattern has the rows that the pairs (row, column) name, and no others. The pairs are
// distinct.
fn stores(l_pattern: &SparsityPattern, pairs: &[(usize, usize)]) -> bool {
    for (row, column) in pairs {
        match l_pattern.get_lane(*column) {
            Some(lane) => {
                if !lane.contains(row) {
                    return false;
                }
            }
            None => return false,
        }
    }
    l_pattern.nnz() == pairs.len()
}

// Whether the factor of a pattern, or of a triangle of it, stores these pairs.
fn has_fill(
    alloc: Global,
    pattern: SparsityPattern,
    triangle: Option<Triangle>,
    pairs: &[(usize, usize)],
) -> Result<bool, AllocError>
    requires { pattern.major_dim ≡ pattern.minor_dim }
{
    let factor = match triangle {
        Some(triangle) => CscSymbolicCholesky::factor_triangle(alloc, pattern, triangle),
        None => CscSymbolicCholesky::factor(alloc, pattern),
    }?;
    Ok(stores(factor.l_pattern(), pairs))
}

// Whether the columns are those of a square pattern whose factor stores the fill of its triangle: of the upper one, if
// none is named.
fn agrees(
    alloc: Global,
    columns: Columns,
    size: usize,
    triangle: Option<Triangle>,
) -> Result<bool, AllocError> {
    let Ok(pattern) = columns.square(size) else {
        return Ok(false);
    };
    let pairs = fill_by_pairs(alloc, &pattern, triangle.unwrap_or(Triangle::Upper))?;
    has_fill(alloc, pattern, triangle, &pairs)
}

// Adds a column whose entries are the lowest bits of a number. Returns the bits that are left.
fn push_bits(columns: &mut Columns, size: usize, bits: u32) -> Result<u32, AllocError> {
    let mut rest = bits;
    for row in 0..size {
        if rest % 2 == 1 {
            columns.push(row)?;
        }
        rest /= 2;
    }
    columns.end()?;
    Ok(rest)
}

// The square pattern whose entries are the bits of a number, column by column.
fn of_bits(alloc: Global, size: usize, bits: u32) -> Result<Columns, AllocError> {
    let mut columns = Columns::new(alloc)?;
    let mut rest = bits;
    for _ in 0..size {
        rest = push_bits(&mut columns, size, rest)?;
    }
    Ok(columns)
}

// Adds a column with about one entry in five, from a linear congruential generator (Knuth's MMIX). Returns its new
// state.
fn push_random(columns: &mut Columns, size: usize, seed: u64) -> Result<u64, AllocError> {
    let mut state = seed;
    for row in 0..size {
        state = state
            .wrapping_mul(6_364_136_223_846_793_005)
            .wrapping_add(1_442_695_040_888_963_407);
        if (state >> 33) % 5 == 0 {
            columns.push(row)?;
        }
    }
    columns.end()?;
    Ok(state)
}

// The columns of a square pattern with about one entry in five.
fn random(alloc: Global, size: usize, seed: u64) -> Result<Columns, AllocError> {
    let mut columns = Columns::new(alloc)?;
    let mut state = seed;
    for _ in 0..size {
        state = push_random(&mut columns, size, state)?;
    }
    Ok(columns)
}

// Whether all patterns of this size agree.
fn all_agree(
    alloc: Global,
    size: usize,
    count: u32,
    triangle: Option<Triangle>,
) -> Result<bool, AllocError> {
    for bits in 0..count {
        if !agrees(alloc, of_bits(alloc, size, bits)?, size, triangle)? {
            return Ok(false);
        }
    }
    Ok(true)
}

// Whether all patterns up to 4 by 4 agree.
fn all_small_agree(alloc: Global, triangle: Option<Triangle>) -> Result<bool, AllocError> {
    for &(size, count) in &[(0, 1), (1, 2), (2, 16), (3, 512), (4, 65_536)] {
        if !all_agree(alloc, size, count, triangle)? {
            return Ok(false);
        }
    }
    Ok(true)
}

#[test]
fn every_small_pattern_has_its_fill(rt: HostRuntime) {
    assert!(rt; matches!(all_small_agree(rt.alloc(), None), Ok(true)));
}

#[test]
fn every_small_upper_triangle_has_its_fill(rt: HostRuntime) {
    assert!(rt; matches!(all_small_agree(rt.alloc(), Some(Triangle::Upper)), Ok(true)));
}

#[test]
fn every_small_lower_triangle_has_its_fill(rt: HostRuntime) {
    assert!(rt; matches!(all_small_agree(rt.alloc(), Some(Triangle::Lower)), Ok(true)));
}

#[test]
fn every_small_pattern_of_both_triangles_has_its_fill(rt: HostRuntime) {
    assert!(rt; matches!(all_small_agree(rt.alloc(), Some(Triangle::Both)), Ok(true)));
}

const TRIANGLES: [Option<Triangle>; 4] = [
    None,
    Some(Triangle::Upper),
    Some(Triangle::Lower),
    Some(Triangle::Both),
];

// Whether the random pattern of this seed, of 10 columns, has its fill.
fn random_agrees(alloc: Global, seed: u64, triangle: Option<Triangle>) -> Result<bool, AllocError> {
    agrees(alloc, random(alloc, 10, seed)?, 10, triangle)
}

#[test]
fn larger_patterns_have_their_fill(rt: HostRuntime) {
    for seed in 0..40 {
        for triangle in TRIANGLES {
            let agrees = random_agrees(rt.alloc(), seed, triangle);
            assert!(rt; matches!(agrees, Ok(true)), "seed {seed}");
        }
    }
}

// Whether the factorisation of a pattern is that of its upper triangle.
fn is_upper(alloc: Global, pattern: SparsityPattern) -> Result<bool, AllocError>
    requires { pattern.major_dim ≡ pattern.minor_dim }
{
    let copy = pattern.clone(alloc)?;
    let factor = CscSymbolicCholesky::factor(alloc, copy)?;
    Ok(factor == CscSymbolicCholesky::factor_triangle(alloc, pattern, Triangle::Upper)?)
}

// Whether the bits are those of a square pattern of 3 columns whose factorisation is that of its upper triangle.
fn is_upper_of(alloc: Global, bits: u32) -> Result<bool, AllocError> {
    match of_bits(alloc, 3, bits)?.square(3) {
        Ok(pattern) => is_upper(alloc, pattern),
        Err(_) => Ok(false),
    }
}

#[test]
fn factors_are_those_of_the_upper_triangle(rt: HostRuntime) {
    for bits in 0..512 {
        assert!(rt;
            matches!(is_upper_of(rt.alloc(), bits), Ok(true)),
            "bits {bits}"
        );
    }
}
