//! Values that a refused constructor is given are dropped. No clause sees a value that is neither kept nor dropped.

use crate::fixtures::copies;
use sparse_csr_csc::csc::CscMatrix;
use sparse_csr_csc::csr::CsrMatrix;
use sparse_pattern::pattern::SparsityPattern;
use std::alloc::{AllocError, Global};
use std::rc::Rc;

// The number of lanes, the offsets, the indices and the number of values.
type Refused = (usize, &'static [usize], &'static [usize], usize);

const REFUSED: &[Refused] = &[
    (2, &[0, 3], &[0, 1, 2], 3),
    (1, &[0, 2], &[0, 1, 2], 3),
    (2, &[0, 3, 2], &[0, 1], 2),
    (1, &[0, 2], &[1, 0], 2),
    (1, &[0, 2], &[1, 1], 2),
    (1, &[0, 2], &[0, 4], 2),
    (1, &[0, 2], &[0, 1], 3),
];

// Whether arrays of lanes of length 4 are refused with these values, by rows or by columns.
fn refuses(
    alloc: Global,
    &(lanes, offsets, indices, _): &Refused,
    by_rows: bool,
    values: Vec<Rc<i32>>,
) -> Result<bool, AllocError> {
    let (offsets, indices) = (offsets.to_vec(alloc)?, indices.to_vec(alloc)?);
    if by_rows {
        return Ok(CsrMatrix::try_from_csr_data(lanes, 4, offsets, indices, values).is_err());
    }
    Ok(CscMatrix::try_from_csc_data(4, lanes, offsets, indices, values).is_err())
}

// Whether arrays are refused with copies of one value.
fn refuses_copies(alloc: Global, arrays: &Refused, by_rows: bool, one: &Rc<i32>) -> bool {
    match copies(alloc, one, arrays.3) {
        Ok(values) => matches!(refuses(alloc, arrays, by_rows, values), Ok(true)),
        Err(_error) => false,
    }
}

// Whether arrays are refused, and none of their values is left.
fn drops_values(alloc: Global, arrays: &Refused, by_rows: bool) -> bool {
    match Rc::new(alloc, 7) {
        Ok(one) => { refuses_copies(alloc, arrays, by_rows, &one) && Rc::strong_count(&one) == 1 }
        Err(_error) => false,
    }
}

#[test]
fn refused_arrays_drop_their_values(rt: HostRuntime) {
    for (row, arrays) in REFUSED.iter().enumerate() {
        for by_rows in [true, false] {
            assert!(rt; drops_values(rt.alloc(), arrays, by_rows), "row {row}");
        }
    }
}

// Whether a pattern refuses these values, by rows or by columns.
fn refuses_values(pattern: SparsityPattern, by_rows: bool, values: Vec<Rc<i32>>) -> bool {
    if by_rows {
        return CsrMatrix::try_from_pattern_and_values(pattern, values).is_err();
    }
    CscMatrix::try_from_pattern_and_values(pattern, values).is_err()
}

// Whether a pattern without entries refuses these values.
fn pattern_refuses(alloc: Global, by_rows: bool, values: Vec<Rc<i32>>) -> bool {
    match SparsityPattern::zeros(alloc, 1, 1) {
        Ok(pattern) => refuses_values(pattern, by_rows, values),
        Err(_error) => false,
    }
}

// Whether a pattern without entries refuses three copies of one value.
fn pattern_refuses_copies(alloc: Global, by_rows: bool, one: &Rc<i32>) -> bool {
    match copies(alloc, one, 3) {
        Ok(values) => pattern_refuses(alloc, by_rows, values),
        Err(_error) => false,
    }
}

// Whether a pattern without entries refuses values, and none of them is left.
fn pattern_drops_values(alloc: Global, by_rows: bool) -> bool {
    match Rc::new(alloc, 7) {
        Ok(one) => pattern_refuses_copies(alloc, by_rows, &one) && Rc::strong_count(&one) == 1,
        Err(_error) => false,
    }
}

#[test]
fn refused_values_of_a_pattern_are_dropped(rt: HostRuntime) {
    assert!(rt; pattern_drops_values(rt.alloc(), true));
    assert!(rt; pattern_drops_values(rt.alloc(), false));
}
