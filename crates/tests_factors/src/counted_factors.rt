//! Counted factorisations: the steps are at most as many as the pattern and its factor have entries.

ghost use Rattle.std.specs.Prelude.{◌≡◌, ◌+◌, ◌≤◌, IfOk, IsTrue};

use crate::square_patterns::Columns;
use sparse_coo_dense::steps::Steps;
use sparse_factor::factorization::CscSymbolicCholesky;
use sparse_pattern::pattern::SparsityPattern;
use std::alloc::{AllocError, Global};

// The entries of a square pattern and of its factor. The steps are counted: they are at most as many as both have
// entries.
fn counted_places(
    alloc: Global,
    pattern: SparsityPattern,
    steps: &mut Steps,
) -> Result<(usize, usize), AllocError>
    requires { pattern.major_dim ≡ pattern.minor_dim }
    ensures { IfOk result (λ places. steps.new ≤ steps.old + (places.0 + places.1)) }
{
    let nnz = pattern.nnz();
    let factor = CscSymbolicCholesky::factor_counted(alloc, pattern, steps)?;
    Ok((nnz, factor.l_pattern().nnz()))
}

/// Returns whether the columns are those of a square pattern with `places.0` entries whose factor has `places.1`. The
/// steps are then at most the sum.
pub fn has_places(
    alloc: Global,
    columns: Columns,
    size: usize,
    places: (usize, usize),
    steps: &mut Steps,
) -> Result<bool, AllocError>
    ensures { IfOk result (λ same. IsTrue same
        → steps.new ≤ steps.old + (places.0 + places.1)) }
{
    let Ok(pattern) = columns.square(size) else {
        return Ok(false);
    };
    let (read, found) = counted_places(alloc, pattern, steps)?;
    Ok(read == places.0 && found == places.1)
}

/// Columns of a square pattern: their offsets and indices, and the numbers of entries of the pattern and of its factor.
type Case = (&'static [usize], &'static [usize], (usize, usize));

const CASES: &[Case] = &[
    // Two columns that share the rows 2 and 4.
    (
        &[0, 3, 6, 9, 10, 13],
        &[0, 2, 4, 1, 2, 4, 0, 1, 2, 3, 0, 1, 4],
        (13, 10),
    ),
    // A diagonal that is not stored, and two empty columns.
    (&[0, 0, 0, 2], &[0, 1], (2, 3)),
    // Entries below the diagonal beside the diagonal.
    (&[0, 3, 4, 5], &[0, 1, 2, 1, 2], (5, 3)),
    // The first row full.
    (&[0, 1, 3, 5, 7], &[0, 0, 1, 0, 2, 0, 3], (7, 10)),
    // The last row full.
    (&[0, 1, 2, 3, 7], &[0, 1, 2, 0, 1, 2, 3], (7, 7)),
];

// Whether the factor of a case is computed in counted steps, and has as many entries.
fn is_counted(alloc: Global, &(offsets, indices, places): &Case) -> Result<bool, AllocError> {
    let columns = Columns::from_slices(alloc, offsets, indices)?;
    let size = offsets.len().saturating_sub(1);
    has_places(alloc, columns, size, places, &mut Steps::new())
}

#[test]
fn steps_are_bounded(rt: HostRuntime) {
    for (row, case) in CASES.iter().enumerate() {
        assert!(rt;
            matches!(is_counted(rt.alloc(), case), Ok(true)),
            "row {row}"
        );
    }
}
