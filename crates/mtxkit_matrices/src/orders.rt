//! Orders in which the rows and columns of a symmetric matrix are eliminated.

ghost use Rattle.std.specs.Prelude.{◌≡◌, IfOk, length};
ghost use Rattle.sparse_algebra.specs.Plain.{below};
ghost use Rattle.mtxkit_matrices.specs.declared.orders.EliminationOrder.TheVariants.{Natural};

use sparse_ordering::minimum_degree::minimum_degree;
use sparse_ordering::reverse_cuthill_mckee::reverse_cuthill_mckee;
use sparse_pattern::pattern::SparsityPattern;
use sparse_permutation::permutation::Permutation;
use std::alloc::{AllocError, Global};

/// The order in which the rows and columns of a symmetric matrix are eliminated.
#[derive(Clone, Copy, Debug)]
pub enum EliminationOrder {
    /// From the first to the last.
    Natural,
    /// Approximate minimum degree, which reduces the fill.
    MinimumDegree,
    /// Reverse Cuthill-McKee, which reduces the bandwidth.
    ReverseCuthillMckee,
}

/// Returns the order of the rows and columns of a square pattern.
///
/// Fails only if an allocation fails.
pub(crate) fn permutation_by(
    alloc: Global,
    order: EliminationOrder,
    pattern: &SparsityPattern,
) -> Result<Permutation, AllocError>
    requires { pattern.now.major_dim ≡ pattern.now.minor_dim }
    ensures count { IfOk result (λ p. length p ≡ pattern.now.major_dim) }
    ensures natural { IfOk result (λ p. order ≡ Natural → p ≡ below pattern.now.major_dim) }
{
    match order {
        EliminationOrder::Natural => Permutation::identity(alloc, pattern.major_dim()),
        EliminationOrder::MinimumDegree => minimum_degree(alloc, pattern),
        EliminationOrder::ReverseCuthillMckee => reverse_cuthill_mckee(alloc, pattern),
    }
}
