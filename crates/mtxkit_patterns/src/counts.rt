//! Counts what a factorisation of a square pattern fills in.

ghost use Rattle.std.specs.Prelude.{◌≡◌, IfOk};
ghost use Rattle.mtxkit_patterns.specs.Fills.{AreFillCounts};

use crate::columns::{count_lower, multiplications, tree_height};
use crate::square::{factor_of, symmetrised};
use mtxkit_matrices::longest_lane;
use sparse_pattern::pattern::SparsityPattern;
use std::alloc::{AllocError, Global};

/// What a factorisation L D L^T of a square pattern A fills in. A pattern that is not symmetric is read as the union of
/// itself and its transpose.
#[derive(Clone, Copy, Debug)]
pub struct FillCounts {
    /// The number of places of A.
    pub places: usize,
    /// The number of places on and below the diagonal of A, or of the union.
    pub lower: usize,
    /// The number of places of L.
    pub factor: usize,
    /// The number of products that the factorisation subtracts.
    pub products: u128,
    /// The number of places of the longest column of L.
    pub longest: usize,
    /// The height of the elimination tree.
    pub height: usize,
}

/// Returns what a factorisation of a square pattern fills in.
///
/// The cost is that of the symbolic factor. Fails only if an allocation fails.
pub fn fill_counts(alloc: Global, pattern: SparsityPattern) -> Result<FillCounts, AllocError>
    requires { pattern.major_dim ≡ pattern.minor_dim }
    ensures { IfOk result (AreFillCounts pattern) }
{
    let places = pattern.nnz();
    let lower = count_lower(&symmetrised(alloc, &pattern)?);
    let factor = factor_of(alloc, pattern)?;
    Ok(FillCounts {
        places,
        lower,
        factor: factor.nnz(),
        products: multiplications(&factor),
        longest: longest_lane(&factor),
        height: tree_height(alloc, &factor)?,
    })
}
