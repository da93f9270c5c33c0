//! The fill of a pattern, by its definition.

ghost use Rattle.std.specs.Prelude.{◌≡◌, ◌≢◌, ℕ, ◌<◌, ◌↔◌, IfOk, IsTrue, MatchOption};
ghost use Rattle.std.specs.List.{Contains, AllPairs};
ghost use Rattle.sparse_pattern.specs.Raw.{IsValid};
ghost use Rattle.sparse_factor.specs.Fill.{InFill, TriangleBase};
ghost use Rattle.reference_models.specs.Pairs.{pair};
ghost use Rattle.reference_models.specs.InnerClosure.{IsOfTriangle, base_pair, HasPlacesOf, HasFillOf};
ghost use Rattle.reference_models.specs.InnerClosure.{IsWhole, IsLacking};
ghost use Rattle.reference_models.specs.InnerClosure.{IsLackingPlace, IsLackingFill};

use sparse_algebra::recall;
use sparse_factor::factorization::Triangle;
use sparse_pattern::pattern::SparsityPattern;
use std::alloc::{AllocError, Global};

/// Returns the pairs (row, column) of the fill of a pattern's triangle, each once.
///
/// Adds a missing pair until none is missing, and searches all pairs of pairs for each. Fails only if
/// an allocation fails.
pub fn fill_by_pairs(
    alloc: Global,
    pattern: &SparsityPattern,
    triangle: Triangle,
) -> Result<Vec<(usize, usize)>, AllocError>
    ensures fill { IfOk result (λ pairs. (i j : ℕ)
        → Contains pairs.items (pair i j) ↔ InFill (TriangleBase triangle pattern.now) i j) }
    ensures once { IfOk result (λ pairs. AllPairs (λ x y. x ≢ y) pairs.items) }
{
    let mut set = Vec::new(alloc);
    while let Some(pair) = lacking(pattern, triangle, &set) {
        set.push(pair)?;
    }
    Ok(set)
}

// Returns a pair that is missing in the set: one of the triangle, or one that fill implies.
fn lacking(
    pattern: &SparsityPattern,
    triangle: Triangle,
    set: &[(usize, usize)],
) -> Option<(usize, usize)>
    ensures valid { IsValid pattern.now }
    ensures cases { MatchOption result (IsWhole triangle pattern.now set.now)
        (IsLacking triangle pattern.now set.now) }
{
    recall(pattern.major_offsets());
    for column in 0..pattern.major_dim() {
        match lacking_place(pattern.lane(column), column, triangle, set) {
            Some(pair) => return Some(pair),
            None => {}
        }
    }
    for &(i, k) in set {
        match lacking_fill(i, k, set) {
            Some(pair) => return Some(pair),
            None => {}
        }
    }
    None
}

// Returns the pair of an entry of the column that is missing in the set.
fn lacking_place(
    lane: &[usize],
    column: usize,
    triangle: Triangle,
    set: &[(usize, usize)],
) -> Option<(usize, usize)>
    ensures { MatchOption result (HasPlacesOf triangle lane.now column set.now)
        (IsLackingPlace triangle lane.now column set.now) }
{
    for &row in lane {
        let (i, j) = (row.max(column), row.min(column));
        if is_of_triangle(triangle, row, column) && !has(set, i, j) {
            return Some((i, j));
        }
    }
    None
}

// Whether an entry in this row and column belongs to the triangle.
fn is_of_triangle(triangle: Triangle, row: usize, column: usize) -> bool
    ensures { IsTrue result ↔ IsOfTriangle triangle row column }
{
    match triangle {
        Triangle::Upper => row <= column,
        Triangle::Lower => column <= row,
        Triangle::Both => true,
    }
}

// Returns a missing pair that the pair (i, k) and another pair of column k imply.
fn lacking_fill(i: usize, k: usize, set: &[(usize, usize)]) -> Option<(usize, usize)>
    ensures { MatchOption result (HasFillOf i k set.now) (IsLackingFill i k set.now) }
{
    for &(j, l) in set {
        if l == k && k < j && j <= i && !has(set, i, j) {
            return Some((i, j));
        }
    }
    None
}

// Whether the set contains the pair (i, j).
fn has(set: &[(usize, usize)], i: usize, j: usize) -> bool
    ensures { IsTrue result ↔ Contains set.now (pair i j) }
{
    for &(a, b) in set {
        if a == i && b == j {
            return true;
        }
    }
    false
}
