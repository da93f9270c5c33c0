//! Facts about the columns of a factor: its multiplications, and its elimination tree.

ghost use Rattle.std.specs.Prelude.{◌≡◌, IfOk};
ghost use Rattle.sparse_pattern.specs.Raw.{entries_of};
ghost use Rattle.mtxkit_patterns.specs.Columns.{IsHeight, IsLower, count_lower, products_below};
ghost use Rattle.mtxkit_patterns.specs.Columns.{below_diagonal};
ghost use Rattle.mtxkit_patterns.specs.InnerDepths.{HasDepth, depth_above};

use sparse_algebra::recall;
use sparse_pattern::pattern::SparsityPattern;
use std::alloc::{AllocError, Global};

/// Returns the number of entries (i, j) of a pattern with i <= j: read by columns, those on and below the diagonal.
pub fn count_lower(pattern: &SparsityPattern) -> usize
    ensures { result ≡ count_lower (entries_of pattern.now) }
{
    // Tells the prover that the number of entries fits.
    recall(pattern.minor_indices());
    let mut count = 0;
    for (col, row) in pattern.entries() {
        if col <= row {
            count += 1;
        }
    }
    count
}

/// Returns the number of products L(i, k) D(k) L(j, k) with i >= j > k that a factorisation L D L^T subtracts, for the
/// pattern of L by columns. A column with n entries below the diagonal has n (n + 1) / 2.
pub fn multiplications(factor: &SparsityPattern) -> u128
    ensures { result ≡ products_below factor.now factor.now.major_dim }
{
    recall(factor.minor_indices());
    let mut products = 0;
    for col in 0..factor.major_dim() {
        let rows = below_diagonal(factor.lane(col), col).len() as u128;
        products += rows * (rows + 1) / 2;
    }
    products
}

/// Returns the height of the elimination tree of a factor, given its pattern by columns: the number of columns of the
/// longest path from a column to its root. The parent of a column is its first row below the diagonal.
///
/// Linear in the number of columns. Fails only if an allocation fails.
pub fn tree_height(alloc: Global, factor: &SparsityPattern) -> Result<usize, AllocError>
    requires square { factor.now.minor_dim ≡ factor.now.major_dim }
    requires lower { IsLower factor.now }
    ensures { IfOk result (IsHeight factor.now) }
{
    recall(factor.major_offsets());
    let count = factor.major_dim();
    let mut depths = vec![in alloc; 0; count]?;
    let mut height = 0;
    for done in 0..count {
        let col = count - 1 - done;
        let depth = depth_above(below_diagonal(factor.lane(col), col), &depths);
        depths[col] = depth;
        if height < depth {
            height = depth;
        }
    }
    Ok(height)
}

// Returns the depth of a column with these rows below the diagonal, given the depths of the columns behind it.
fn depth_above(rows: &[usize], depths: &[usize]) -> usize
    requires { HasDepth rows.now depths.now }
    ensures { result ≡ depth_above rows.now depths.now }
{
    match rows {
        [parent, ..] => depths[*parent] + 1,
        [] => 1,
    }
}

// Returns the rows of a column of a factor below the diagonal: the column without its diagonal entry, if it has one.
fn below_diagonal(rows: &[usize], col: usize) -> &[usize]
    ensures { result.now ≡ below_diagonal col rows.now }
{
    match rows {
        [first, others @ ..] if *first == col => others,
        _ => rows,
    }
}
