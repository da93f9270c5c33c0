//! Large patterns: work that is not counted, or counted twice, would not come to an end.

ghost use Rattle.std.specs.Prelude.{◌<◌};

use crate::counted_factors::has_places;
use crate::square_patterns::Columns;
use sparse_coo_dense::steps::Steps;
use sparse_factor::factorization::CscSymbolicCholesky;
use std::alloc::{AllocError, Global};

// Adds a column of the cycle: the diagonal and the entries beside it, and in the last column the corner.
fn push_on_cycle(columns: &mut Columns, size: usize, column: usize) -> Result<(), AllocError>
    requires { column < size }
{
    if column + 1 == size {
        columns.push(0)?;
    }
    if 0 < column {
        columns.push(column - 1)?;
    }
    columns.push(column)?;
    columns.end()
}

// The diagonal and the entries beside it, and the two corners.
fn cycle(alloc: Global, size: usize) -> Result<Columns, AllocError> {
    let mut columns = Columns::new(alloc)?;
    for column in 0..size {
        push_on_cycle(&mut columns, size, column)?;
    }
    Ok(columns)
}

// Adds a column of the arrow: the first row and the diagonal.
fn push_on_arrow(columns: &mut Columns, column: usize) -> Result<(), AllocError> {
    if 0 < column {
        columns.push(0)?;
    }
    columns.push(column)?;
    columns.end()
}

// The diagonal and the first row.
fn arrow(alloc: Global, size: usize) -> Result<Columns, AllocError> {
    let mut columns = Columns::new(alloc)?;
    for column in 0..size {
        push_on_arrow(&mut columns, column)?;
    }
    Ok(columns)
}

// Whether the columns are those of a square pattern with `places.0` entries whose factor has `places.1`.
fn has_factor(
    alloc: Global,
    columns: Columns,
    size: usize,
    places: (usize, usize),
) -> Result<bool, AllocError> {
    let Ok(pattern) = columns.square(size) else {
        return Ok(false);
    };
    let read = pattern.nnz();
    let factor = CscSymbolicCholesky::factor(alloc, pattern)?;
    Ok(read == places.0 && factor.l_pattern().nnz() == places.1)
}

const CYCLE: (usize, usize) = (400_000, 599_997);

fn a_cycle_is_factored(alloc: Global) -> Result<bool, AllocError> {
    has_factor(alloc, cycle(alloc, 200_000)?, 200_000, CYCLE)
}

// The same in at most as many steps as both have entries, which is proved of `has_places`.
fn a_cycle_is_factored_in_steps(alloc: Global) -> Result<bool, AllocError> {
    has_places(
        alloc,
        cycle(alloc, 200_000)?,
        200_000,
        CYCLE,
        &mut Steps::new(),
    )
}

#[test]
fn a_cycle_comes_to_its_end(rt: HostRuntime) {
    assert!(rt; matches!(a_cycle_is_factored(rt.alloc()), Ok(true)));
    assert!(rt; matches!(a_cycle_is_factored_in_steps(rt.alloc()), Ok(true)));
}

const ARROW: (usize, usize) = (5_999, 4_501_500);

fn an_arrow_is_factored(alloc: Global) -> Result<bool, AllocError> {
    has_factor(alloc, arrow(alloc, 3_000)?, 3_000, ARROW)
}

// The same in at most as many steps as both have entries.
fn an_arrow_is_factored_in_steps(alloc: Global) -> Result<bool, AllocError> {
    has_places(alloc, arrow(alloc, 3_000)?, 3_000, ARROW, &mut Steps::new())
}

#[test]
fn an_arrow_comes_to_its_end(rt: HostRuntime) {
    assert!(rt; matches!(an_arrow_is_factored(rt.alloc()), Ok(true)));
    assert!(rt; matches!(an_arrow_is_factored_in_steps(rt.alloc()), Ok(true)));
}
