//! Lists of triplets that grow: within reserved memory, by an appender, and to thousands of triplets.

use crate::fixtures::are_equal;
use sparse_coo_dense::CooAppender;
use sparse_coo_dense::coo::CooMatrix;
use std::alloc::{AllocError, Global};

// The capacities of the rows, the columns and the values of a list.
type Capacities = (usize, usize, usize);

// The capacities of an empty list's three vectors for which `reserved` triplets were reserved, after `pushed` pushes.
fn capacities(alloc: Global, reserved: usize, pushed: usize) -> Result<Capacities, AllocError> {
    let mut matrix = CooMatrix::new(alloc, 1, 1);
    matrix.reserve(reserved)?;
    for _ in 0..pushed {
        matrix.push(0, 0, 7)?;
    }
    let (rows, cols, values) = matrix.disassemble();
    Ok((rows.capacity(), cols.capacity(), values.capacity()))
}

// Whether there is room for three triplets, and to push them leaves the capacities as they are.
fn three_are_pushed_without_growth(alloc: Global) -> Result<bool, AllocError> {
    let (rows, cols, values) = capacities(alloc, 3, 0)?;
    let after = capacities(alloc, 3, 3)?;
    let is_enough = rows >= 3 && cols >= 3 && values >= 3;
    Ok(is_enough && rows == after.0 && cols == after.1 && values == after.2)
}

fn are_zero((rows, cols, values): Capacities) -> bool {
    rows == 0 && cols == 0 && values == 0
}

// A vector that grew while triplets were pushed has another capacity than before.
#[test]
fn reserved_triplets_are_pushed_without_growth(rt: HostRuntime) {
    assert!(rt; matches!(three_are_pushed_without_growth(rt.alloc()), Ok(true)));
    assert!(rt; capacities(rt.alloc(), 0, 0).is_ok_and(are_zero));
}

// The rows, the columns and the values of a list.
type Lists = (Vec<usize>, Vec<usize>, Vec<i32>);

// The lists of a matrix with memory for at least four triplets, after a triplet and the mirrored one and then as many
// as fit.
fn filled(alloc: Global) -> Result<Lists, AllocError> {
    let mut matrix = CooMatrix::new(alloc, 2, 2);
    matrix.reserve(4)?;
    let mut appender = CooAppender::new(matrix);
    if appender.room() > 1 {
        appender.push(1, 0, 5);
        appender.push(0, 1, -5);
    }
    for _ in 0..100 {
        // The shape is always large enough. It is tested since the prover does not know that in the loop.
        if appender.room() > 0 && appender.nrows() > 0 && appender.ncols() > 1 {
            appender.push(0, 1, 7);
        }
    }
    Ok(appender.into_matrix().disassemble())
}

fn is_filled((rows, cols, values): Lists) -> bool {
    let capacity = rows.capacity().min(cols.capacity()).min(values.capacity());
    rows.as_slice().starts_with(&[1, 0, 0, 0])
        && cols.as_slice().starts_with(&[0, 1, 1, 1])
        && values.as_slice().starts_with(&[5, -5, 7, 7])
        && values.len() == capacity
}

// Without a reservation there is no room.
fn has_no_room(alloc: Global) -> bool {
    let appender: CooAppender<i32> = CooAppender::new(CooMatrix::new(alloc, 2, 2));
    appender.room() == 0
}

// The lists of a matrix after one triplet and two entries down a column.
fn down_a_column(alloc: Global) -> Result<Lists, AllocError> {
    let mut matrix = CooMatrix::new(alloc, 4, 2);
    matrix.reserve(4)?;
    matrix.push(0, 0, 5)?;
    let mut list = CooAppender::new(matrix);
    if list.room() > 1 {
        list.push(1, 1, 8);
        list.push(2, 1, 9);
    }
    Ok(list.into_matrix().disassemble())
}

fn is_down_a_column((rows, cols, values): Lists) -> bool {
    are_equal(&rows, &[0, 1, 2]) && are_equal(&cols, &[0, 1, 1]) && are_equal(&values, &[5, 8, 9])
}

#[test]
fn triplets_are_appended_while_there_is_memory(rt: HostRuntime) {
    assert!(rt; filled(rt.alloc()).is_ok_and(is_filled));
    assert!(rt; has_no_room(rt.alloc()));
    assert!(rt; down_a_column(rt.alloc()).is_ok_and(is_down_a_column));
}

// A long list does not run out of memory.
#[test]
fn a_long_list_is_pushed_and_copied(rt: HostRuntime) {
    assert!(rt; a_long_list_is_copied(rt.alloc()));
}

fn a_long_list_is_copied(alloc: Global) -> bool {
    match long_list(alloc) {
        Ok(list) => is_copied(list.clone(alloc), &list),
        Err(_error) => false,
    }
}

fn is_copied(copy: Result<CooMatrix<i32>, AllocError>, list: &CooMatrix<i32>) -> bool {
    match copy {
        Ok(copy) => copy.nnz() == 5000 && copy == *list,
        Err(_error) => false,
    }
}

fn long_list(alloc: Global) -> Result<CooMatrix<i32>, AllocError> {
    let mut list = CooMatrix::new(alloc, 1, 1);
    for number in 0..5000 {
        list.push(0, 0, number)?;
    }
    Ok(list)
}
