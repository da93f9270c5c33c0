//! Columns of a pattern that are nested in the next column: their rows behind the first are its first rows.

ghost use Rattle.std.specs.Prelude.{◌<◌, All, IfOk, IsTrue, length};
ghost use Rattle.sparse_factor.specs.InnerNested.{AreFour, AreNested, IsNested, IsRestFirst};

use sparse_pattern::pattern::SparsityPattern;
use std::alloc::{AllocError, Global};

// Returns for each column whether it is nested in the next one.
pub fn nested_columns(alloc: Global, pattern: &SparsityPattern) -> Result<Vec<bool>, AllocError>
    ensures { IfOk result (λ nested. AreNested pattern.now nested.items) }
{
    let count = pattern.major_dim();
    let mut nested = Vec::with_capacity(alloc, count)?;
    for k in 0..count {
        nested.push(is_nested(pattern, k))?;
    }
    Ok(nested)
}

// Returns whether a column is nested in the next one.
fn is_nested(pattern: &SparsityPattern, k: usize) -> bool
    requires { k < pattern.now.major_dim }
    ensures { IsTrue result → IsNested pattern.now k }
{
    let count = pattern.major_dim();
    k + 1 < count && begins_with_rest(pattern.lane(k + 1), pattern.lane(k))
}

// Returns whether the rows behind the first one are the first of `next`.
fn begins_with_rest(next: &[usize], rows: &[usize]) -> bool
    ensures { IsTrue result → IsRestFirst rows.now next.now }
{
    if rows.len() > next.len() + 1 {
        return false;
    }
    for at in 1..rows.len() {
        if rows[at] != next[at - 1] {
            return false;
        }
    }
    true
}

// Returns whether entry q of `row` and the three behind it are columns one after the other, each of the first three
// nested in the next, and not the last of the row.
#[inline(always)]
pub fn takes_four(nested: &[bool], row: &[usize], q: usize) -> bool
    requires entry { q < length row.now }
    requires inside { All (λ k. k < length nested.now) row.now }
    ensures { IsTrue result → AreFour nested.now row.now q }
{
    let k = row[q];
    q + 4 < row.len() && row[q + 3] == k + 3 && nested[k] && nested[k + 1] && nested[k + 2]
}
