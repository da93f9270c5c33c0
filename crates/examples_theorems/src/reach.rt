//! Reachability: the pairs that a walk of at most k steps joins, by powers of a pattern.

ghost use Rattle.std.specs.Prelude.{◌≡◌, IfOk};
ghost use Rattle.examples_theorems.specs.Walking.{IsDiagonal, HoldsReachable};
ghost use Rattle.examples_theorems.specs.Walking.{HoldsWalks, TakesSteps};

use crate::example::{holds, three_rows};
use nalgebra_sparse::csr::CsrMatrix;
use nalgebra_sparse::laws::compressed::stands_law;
use nalgebra_sparse::ops::serial::{spadd_pattern, spmm_csr_pattern};
use nalgebra_sparse::pattern::SparsityPattern;
use nalgebra_sparse::scalar::W64;
use std::alloc::{AllocError, Global};
use std::test::Fail;

// Returns the diagonal of order n.
fn diagonal(alloc: Global, n: usize) -> Result<SparsityPattern, AllocError>
    ensures major { IfOk result (λ p. p.major_dim ≡ n) }
    ensures minor { IfOk result (λ p. p.minor_dim ≡ n) }
    ensures diagonal { IfOk result (λ p. IsDiagonal p n) }
{
    stands_law::<W64>();
    let identity = CsrMatrix::<W64>::identity(alloc, n)?;
    let copy = identity.pattern().clone(alloc)?;
    Ok(copy)
}

// Multiplies by `step` from the left, `steps` times.
fn take_steps(
    alloc: Global,
    step: &SparsityPattern,
    start: SparsityPattern,
    steps: usize,
) -> Result<SparsityPattern, AllocError>
    requires square { step.now.minor_dim ≡ step.now.major_dim }
    requires lanes { start.major_dim ≡ step.now.major_dim }
    ensures major { IfOk result (λ p. p.major_dim ≡ start.major_dim) }
    ensures minor { IfOk result (λ p. p.minor_dim ≡ start.minor_dim) }
    ensures steps { IfOk result (TakesSteps step.now start steps) }
{
    let mut reached = start;
    for length in 0..steps {
        reached = spmm_csr_pattern(alloc, step, &reached)?;
    }
    Ok(reached)
}

// Returns the pairs (i, j) for which a walk of at most `steps` steps along entries of the pattern leads from i to j.
fn reach(
    alloc: Global,
    pattern: &SparsityPattern,
    steps: usize,
) -> Result<SparsityPattern, AllocError>
    requires { pattern.now.major_dim ≡ pattern.now.minor_dim }
    ensures major { IfOk result (λ p. p.major_dim ≡ pattern.now.major_dim) }
    ensures minor { IfOk result (λ p. p.minor_dim ≡ pattern.now.major_dim) }
    ensures walks { IfOk result (HoldsWalks pattern.now steps) }
{
    let start = diagonal(alloc, pattern.major_dim())?;
    let step = spadd_pattern(alloc, &start, pattern)?;
    let reached = take_steps(alloc, &step, start, steps)?;
    Ok(reached)
}

// Returns the pairs (i, j) for which some walk along entries of the pattern leads from i to j, however long. A shortest
// walk repeats no index, so it has fewer steps than the pattern has lanes.
fn closure(alloc: Global, pattern: &SparsityPattern) -> Result<SparsityPattern, AllocError>
    requires { pattern.now.major_dim ≡ pattern.now.minor_dim }
    ensures major { IfOk result (λ p. p.major_dim ≡ pattern.now.major_dim) }
    ensures minor { IfOk result (λ p. p.minor_dim ≡ pattern.now.major_dim) }
    ensures walks { IfOk result (HoldsReachable pattern.now) }
{
    let reached = reach(alloc, pattern, pattern.major_dim())?;
    Ok(reached)
}

// Steps on the cycle 0 -> 1 -> 2 -> 0, and the indices that walks of at most that many steps reach from each.
const WALKS: &[(usize, &[usize])] = &[
    (0, &[0, 1, 2]),
    (1, &[0, 1, 1, 2, 0, 2]),
    (2, &[0, 1, 2, 0, 1, 2, 0, 1, 2]),
];

// Whether walks of at most `steps` steps on the cycle reach these indices.
fn joins(alloc: Global, steps: usize, indices: &[usize]) -> Result<bool, Fail> {
    let cycle = three_rows(alloc, &[0, 1, 0, 0, 0, 1, 1, 0, 0])?;
    Ok(reach(alloc, cycle.pattern(), steps)?.minor_indices() == indices)
}

// Whether the closure of the path 0 -> 1 -> 2 joins each index with those from it on.
fn joins_all(alloc: Global) -> Result<bool, Fail> {
    let path = three_rows(alloc, &[0, 1, 0, 0, 0, 1, 0, 0, 0])?;
    Ok(closure(alloc, path.pattern())?.minor_indices() == [0, 1, 2, 1, 2, 2].as_slice())
}

#[test]
fn walks(rt: HostRuntime) {
    for &(steps, indices) in WALKS {
        assert!(rt; holds(&rt, joins(rt.alloc(), steps, indices)), "{steps}");
    }
    assert!(rt; holds(&rt, joins_all(rt.alloc())));
}
