//! Values of triplets that a constructor refuses are dropped. No clause sees a value that is neither kept nor dropped.

use crate::fixtures::copies;
use sparse_coo_dense::coo::CooMatrix;
use std::alloc::{AllocError, Global};
use std::rc::Rc;

// Three triplets with copies of one value: two inside of 2 rows and 3 columns, and between them one at this row and
// column.
fn with_copies(
    alloc: Global,
    one: &Rc<i32>,
    place: (usize, usize),
) -> Result<Vec<(usize, usize, Rc<i32>)>, AllocError> {
    let mut triplets = Vec::with_capacity(alloc, 3)?;
    for (row, col) in [(0, 2), place, (1, 0)] {
        triplets.push((row, col, one.clone()?))?;
    }
    Ok(triplets)
}

// Whether an iterator of these triplets is refused for 2 rows and 3 columns.
fn refuses(alloc: Global, triplets: Vec<(usize, usize, Rc<i32>)>) -> bool {
    CooMatrix::try_from_triplets_iter(alloc, 2, 3, triplets.into_iter()).is_err()
}

fn refuses_copies(alloc: Global, one: &Rc<i32>, place: (usize, usize)) -> bool {
    match with_copies(alloc, one, place) {
        Ok(triplets) => refuses(alloc, triplets),
        Err(_error) => false,
    }
}

// Whether triplets with this row and column are refused, and none of their values is left.
fn drops_values(alloc: Global, place: (usize, usize)) -> bool {
    match Rc::new(alloc, 7) {
        Ok(one) => refuses_copies(alloc, &one, place) && Rc::strong_count(&one) == 1,
        Err(_error) => false,
    }
}

#[test]
fn refused_triplets_drop_their_values(rt: HostRuntime) {
    for &place in &[(2, 0), (0, 3)] {
        assert!(rt; drops_values(rt.alloc(), place), "{} {}", place.0, place.1);
    }
}

// The number of rows, the rows and the columns of a list of 2 columns that three values do not fit.
type Refused = (usize, &'static [usize], &'static [usize]);

const REFUSED: &[Refused] = &[
    (3, &[0, 1, 2], &[0, 1]),
    (3, &[0, 1], &[0, 1]),
    (2, &[0, 1, 2], &[0, 1, 1]),
    (3, &[0, 1, 2], &[0, 1, 2]),
];

fn refuses_list(alloc: Global, list: &Refused, values: Vec<Rc<i32>>) -> Result<bool, AllocError> {
    let (rows, cols) = (list.1.to_vec(alloc)?, list.2.to_vec(alloc)?);
    Ok(CooMatrix::try_from_triplets(list.0, 2, rows, cols, values).is_err())
}

fn refuses_copied_list(alloc: Global, list: &Refused, one: &Rc<i32>) -> bool {
    match copies(alloc, one, 3) {
        Ok(values) => matches!(refuses_list(alloc, list, values), Ok(true)),
        Err(_error) => false,
    }
}

// Whether a list is refused, and none of the copies of one value that it was given is left.
fn drops_its_values(alloc: Global, list: &Refused) -> bool {
    match Rc::new(alloc, 7) {
        Ok(one) => refuses_copied_list(alloc, list, &one) && Rc::strong_count(&one) == 1,
        Err(_error) => false,
    }
}

#[test]
fn a_refused_list_drops_its_values(rt: HostRuntime) {
    for (row, list) in REFUSED.iter().enumerate() {
        assert!(rt; drops_its_values(rt.alloc(), list), "row {row}");
    }
}
