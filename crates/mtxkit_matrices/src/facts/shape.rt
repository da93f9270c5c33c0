//! The bandwidth and the symmetry of a pattern.

ghost use Rattle.std.specs.Prelude.{◌≡◌, ℕ, ◌≤◌, ◌⊎◌, ◌↔◌, IfOk, IsTrue};
ghost use Rattle.std.specs.Int.{abs_diff};
ghost use Rattle.sparse_pattern.specs.Raw.{IsEntry};
ghost use Rattle.mtxkit_matrices.specs.Shapes.{IsSymmetricPattern};

use sparse_pattern::pattern::SparsityPattern;
use std::alloc::{AllocError, Global};

/// Returns the largest |i - j| over the entries (i, j) of a pattern, or 0 if it has none.
pub fn bandwidth(pattern: &SparsityPattern) -> usize
    ensures bound { (i j : ℕ) → IsEntry pattern.now i j → abs_diff i j ≤ result }
    ensures reached { (result ≡ 0)
        ⊎ ((i : ℕ) × (j : ℕ) × IsEntry pattern.now i j × (abs_diff i j ≡ result)) }
{
    let mut widest = 0;
    for (row, col) in pattern.entries() {
        let distance = row.abs_diff(col);
        if widest < distance {
            widest = distance;
        }
    }
    widest
}

/// Returns whether the pattern is square and has the entry (j, i) for each entry (i, j).
pub fn is_symmetric(alloc: Global, pattern: &SparsityPattern) -> Result<bool, AllocError>
    ensures { IfOk result (λ answer. IsTrue answer ↔ IsSymmetricPattern pattern.now) }
{
    let transposed = pattern.transpose(alloc)?;
    Ok(*pattern == transposed)
}
