//! Tests: that orders are permutations and reduce the fill and the bandwidth, which no contract says.

use crate::counts::{bandwidth, factor_entries, is_permutation};
use crate::narrow::Narrow;
use crate::shapes::{Shape, pattern_of};
use sparse_ordering::minimum_degree::{eliminate_all, least_degree_indices};
use sparse_ordering::reverse_cuthill_mckee::narrow_indices;
use std::alloc::Global;
use std::process::Abort;
use std::test::Fail;

// Asserts that both orders of a pattern are permutations of all indices.
fn expect_permutations(
    rt: &impl Abort,
    alloc: Global,
    size: usize,
    shape: Shape,
) -> Result<(), Fail> {
    let pattern = pattern_of(alloc, size, shape)?;
    for order in [
        least_degree_indices(alloc, &pattern)?,
        narrow_indices(alloc, &pattern)?,
    ] {
        assert_eq!(rt; order.len(), size, "{shape:?}");
        assert!(rt;
            is_permutation(alloc, &order)?,
            "{size} {shape:?} {order:?}"
        );
    }
    Ok(())
}

// A list that keeps a vertex that was merged, or loses one.
#[test]
fn orders_of_all_symmetric_patterns_of_four_rows_are_permutations(
    rt: HostRuntime,
) -> Result<(), Fail> {
    for size in 0..5 {
        for set in 0..64 {
            expect_permutations(&rt, rt.alloc(), size, Shape::Small(set))?;
        }
    }
    Ok(())
}

// A dense row that is also listed by its degree, or a component that is searched twice.
#[test]
fn orders_of_shapes_are_permutations(rt: HostRuntime) -> Result<(), Fail> {
    let shapes = [
        (1, Shape::Full),
        (20, Shape::Full),
        (30, Shape::Empty),
        (50, Shape::UpperPath),
        (400, Shape::Star),
        (23, Shape::Blocks(5)),
        (300, Shape::Scattered(1000)),
        (300, Shape::Scattered(40)),
    ];
    for (size, shape) in shapes {
        expect_permutations(&rt, rt.alloc(), size, shape)?;
    }
    Ok(())
}

// Degrees that are not updated, or variables that are compared wrongly, give more fill. The numbers are those of
// SuiteSparse's AMD, counted by another program.
#[test]
fn minimum_degree_has_the_fill_of_amd(rt: HostRuntime) -> Result<(), Fail> {
    let fills = [
        (100, Shape::Path, 199),
        (400, Shape::Star, 799),
        (23, Shape::Blocks(5), 66),
        (20, Shape::Full, 210),
        (100, Shape::Grid(10), 648),
        (300, Shape::Scattered(40), 11666),
        (1000, Shape::Grid(25), 11156),
    ];
    for (size, shape, entries) in fills {
        let pattern = pattern_of(rt.alloc(), size, shape)?;
        let order = least_degree_indices(rt.alloc(), &pattern)?;
        let found = factor_entries(rt.alloc(), &pattern, &order)?;
        assert_eq!(rt; found, entries, "{size} {shape:?}");
    }
    Ok(())
}

// A dense row that does not come last, or a postorder that reverses its roots.
#[test]
fn a_dense_row_comes_last(rt: HostRuntime) -> Result<(), Fail> {
    let star = pattern_of(rt.alloc(), 400, Shape::Star)?;
    let order = least_degree_indices(rt.alloc(), &star)?;
    assert_eq!(rt; order.last().copied(), Some(0));
    Ok(())
}

// Neighbours in another order, or another first vertex. The numbers are those of a program that sorts the neighbours at
// each vertex.
#[test]
fn reverse_cuthill_mckee_has_the_known_bandwidth(rt: HostRuntime) -> Result<(), Fail> {
    let bands = [
        (100, Shape::Path, 1),
        (23, Shape::Blocks(5), 4),
        (100, Shape::Grid(10), 10),
        (300, Shape::Scattered(40), 164),
        (500, Shape::Scattered(100), 226),
    ];
    for (size, shape, width) in bands {
        let pattern = pattern_of(rt.alloc(), size, shape)?;
        let order = narrow_indices(rt.alloc(), &pattern)?;
        assert_eq!(rt;
            bandwidth(rt.alloc(), &pattern, &order)?,
            width,
            "{size} {shape:?}"
        );
    }
    Ok(())
}

// An entry below the diagonal that is read only if it is above, too.
#[test]
fn a_pattern_is_ordered_as_the_union_with_its_transpose(rt: HostRuntime) -> Result<(), Fail> {
    let upper = pattern_of(rt.alloc(), 50, Shape::UpperPath)?;
    let whole = pattern_of(rt.alloc(), 50, Shape::Path)?;
    let of_upper = least_degree_indices(rt.alloc(), &upper)?;
    assert!(rt; of_upper == least_degree_indices(rt.alloc(), &whole)?);
    let of_upper = narrow_indices(rt.alloc(), &upper)?;
    assert!(rt; of_upper == narrow_indices(rt.alloc(), &whole)?);
    Ok(())
}

// Lists that are lost where memory is collected, and stamps that run out of 13 bits and then mean something else.
#[test]
fn neither_room_nor_width_changes_an_order(rt: HostRuntime) -> Result<(), Fail> {
    for (size, shape) in [(900, Shape::Grid(30)), (300, Shape::Scattered(40))] {
        let pattern = pattern_of(rt.alloc(), size, shape)?;
        let order = eliminate_all::<u32>(rt.alloc(), &pattern, size.saturating_mul(100))?;
        assert!(rt;
            order == eliminate_all::<u32>(rt.alloc(), &pattern, size)?,
            "{shape:?}"
        );
        assert!(rt;
            order == eliminate_all::<usize>(rt.alloc(), &pattern, size)?,
            "{shape:?}"
        );
        assert!(rt;
            order == eliminate_all::<Narrow>(rt.alloc(), &pattern, size)?,
            "{shape:?}"
        );
    }
    Ok(())
}
