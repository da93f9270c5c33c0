//! Square patterns: orders of their rows and columns, and their factors.

ghost use Rattle.std.specs.Prelude.{◌≡◌, IfOk, length};
ghost use Rattle.sparse_permutation.specs.PermutedPatterns.{IsPermutedPattern};
ghost use Rattle.mtxkit_patterns.specs.Columns.{IsLower};
ghost use Rattle.mtxkit_patterns.specs.Factors.{IsFactor, IsSymmetrised};

use sparse_factor::factorization::{CscSymbolicCholesky, Triangle};
use sparse_ordering::minimum_degree::minimum_degree;
use sparse_ordering::reverse_cuthill_mckee::reverse_cuthill_mckee;
use sparse_pattern::pattern::SparsityPattern;
use sparse_permutation::permutation::Permutation;
use sparse_permutation::symmetric::permute_symmetric_pattern;
use sparse_sums::spadd_pattern;
use std::alloc::{AllocError, Global};

/// How an order is computed.
#[derive(Clone, Copy, Debug)]
pub enum Method {
    /// Approximate minimum degree, which reduces the fill.
    MinimumDegree,
    /// Reverse Cuthill-McKee, which reduces the bandwidth.
    ReverseCuthillMckee,
}

/// Returns an order of the rows and columns of a square pattern.
///
/// Fails only if an allocation fails.
pub(crate) fn order_of(
    alloc: Global,
    method: Method,
    pattern: &SparsityPattern,
) -> Result<Permutation, AllocError>
    requires { pattern.now.major_dim ≡ pattern.now.minor_dim }
    ensures { IfOk result (λ p. length p ≡ pattern.now.major_dim) }
{
    match method {
        Method::MinimumDegree => minimum_degree(alloc, pattern),
        Method::ReverseCuthillMckee => reverse_cuthill_mckee(alloc, pattern),
    }
}

/// Returns the pattern P A P^T of a square pattern with as many rows as the permutation is long.
///
/// Fails only if an allocation fails.
pub(crate) fn permuted_pattern(
    alloc: Global,
    pattern: &SparsityPattern,
    order: &Permutation,
) -> Result<SparsityPattern, AllocError>
    requires square { pattern.now.major_dim ≡ pattern.now.minor_dim }
    requires rows { pattern.now.major_dim ≡ length order.now }
    ensures { IfOk result (IsPermutedPattern order.now pattern.now) }
{
    match permute_symmetric_pattern(alloc, pattern, order) {
        Ok(permuted) => Ok(permuted),
        Err(_) => Err(AllocError),
    }
}

/// Returns the union of a square pattern and its transpose.
///
/// Fails only if an allocation fails.
pub(crate) fn symmetrised(
    alloc: Global,
    pattern: &SparsityPattern,
) -> Result<SparsityPattern, AllocError>
    requires { pattern.now.major_dim ≡ pattern.now.minor_dim }
    ensures { IfOk result (IsSymmetrised pattern.now) }
{
    let transposed = pattern.transpose(alloc)?;
    let union = spadd_pattern(alloc, pattern, &transposed)?;
    Ok(union)
}

/// Returns the pattern of the factor of a square pattern, by columns.
///
/// Fails only if an allocation fails.
pub(crate) fn factor_of(
    alloc: Global,
    pattern: SparsityPattern,
) -> Result<SparsityPattern, AllocError>
    requires { pattern.major_dim ≡ pattern.minor_dim }
    ensures factor { IfOk result (IsFactor pattern) }
    ensures square { IfOk result (λ l. l.minor_dim ≡ l.major_dim) }
    ensures lower { IfOk result IsLower }
{
    let factor = CscSymbolicCholesky::factor_triangle(alloc, pattern, Triangle::Both)?;
    Ok(factor.into_l_pattern())
}
