//! Iterators: a copy goes on from the same item, and `None` comes from then on.

use crate::fixtures::{BY_COLUMNS, BY_ROWS, csc, csr};
use sparse_coo_dense::coo::{CooMatrix, CooTripletIter, CooTripletIterMut};
use sparse_csr_csc::csc::{
    CscColIter, CscColIterMut, CscMatrix, CscTripletIter, CscTripletIterMut, CscTripletValues,
};
use sparse_csr_csc::csr::{
    CsrMatrix, CsrRowIter, CsrRowIterMut, CsrTripletIter, CsrTripletIterMut, CsrTripletValues,
};
use sparse_pattern::pattern::SparsityPatternIter;
use std::alloc::{AllocError, Global};

// A row, a column and a value. An entry of a pattern has the value 0.
type Item = (usize, usize, i32);

/// An iterator whose items are triplets, or are shown as if they were.
trait Items {
    /// Returns the next item.
    fn item(&mut self) -> Option<Item>;
}

impl<'a> Items for SparsityPatternIter<'a> {
    fn item(&mut self) -> Option<Item> {
        let (i, j) = self.next()?;
        Some((i, j, 0))
    }
}

impl<'a> Items for CooTripletIter<'a, i32> {
    fn item(&mut self) -> Option<Item> {
        let (i, j, value) = self.next()?;
        Some((i, j, *value))
    }
}

impl<'a> Items for CooTripletIterMut<'a, i32> {
    fn item(&mut self) -> Option<Item> {
        let (i, j, value) = self.next()?;
        Some((i, j, *value))
    }
}

// A lane with entries as its first index, the number of its entries, and its first value.
fn shown(indices: &[usize], values: &[i32]) -> Option<Item> {
    Some((*indices.get(0)?, indices.len(), *values.get(0)?))
}

impl<'a> Items for CsrRowIter<'a, i32> {
    fn item(&mut self) -> Option<Item> {
        let lane = self.next()?;
        shown(lane.col_indices(), lane.values())
    }
}

impl<'a> Items for CsrRowIterMut<'a, i32> {
    fn item(&mut self) -> Option<Item> {
        let lane = self.next()?;
        shown(lane.col_indices(), lane.values())
    }
}

impl<'a> Items for CsrTripletIter<'a, i32> {
    fn item(&mut self) -> Option<Item> {
        let (i, j, value) = self.next()?;
        Some((i, j, *value))
    }
}

impl<'a> Items for CsrTripletValues<'a, i32> {
    fn item(&mut self) -> Option<Item> {
        let (i, j, value) = self.next()?;
        Some((i, j, value))
    }
}

impl<'a> Items for CsrTripletIterMut<'a, i32> {
    fn item(&mut self) -> Option<Item> {
        let (i, j, value) = self.next()?;
        Some((i, j, *value))
    }
}

impl<'a> Items for CscColIter<'a, i32> {
    fn item(&mut self) -> Option<Item> {
        let lane = self.next()?;
        shown(lane.row_indices(), lane.values())
    }
}

impl<'a> Items for CscColIterMut<'a, i32> {
    fn item(&mut self) -> Option<Item> {
        let lane = self.next()?;
        shown(lane.row_indices(), lane.values())
    }
}

impl<'a> Items for CscTripletIter<'a, i32> {
    fn item(&mut self) -> Option<Item> {
        let (i, j, value) = self.next()?;
        Some((i, j, *value))
    }
}

impl<'a> Items for CscTripletValues<'a, i32> {
    fn item(&mut self) -> Option<Item> {
        let (i, j, value) = self.next()?;
        Some((i, j, value))
    }
}

impl<'a> Items for CscTripletIterMut<'a, i32> {
    fn item(&mut self) -> Option<Item> {
        let (i, j, value) = self.next()?;
        Some((i, j, *value))
    }
}

// The first items, after which a copy is made, and the others.
type Parts = (&'static [Item], &'static [Item]);

const ENTRIES: Parts = (&[(0, 0, 0), (0, 2, 0)], &[(1, 1, 0)]);

const TRIPLETS_OF_LIST: Parts = (&[(1, 2, 5)], &[(0, 1, 7)]);

// The rows 1 . 0 and . 4 .
const ROWS: Parts = (&[(0, 2, 1)], &[(1, 1, 4)]);

const TRIPLETS_BY_ROWS: Parts = (&[(0, 0, 1), (0, 2, 0)], &[(1, 1, 4)]);

// The columns 1 ., . 4 and 0 .
const COLUMNS: Parts = (&[(0, 1, 1), (1, 1, 4)], &[(0, 1, 0)]);

const TRIPLETS_BY_COLUMNS: Parts = (&[(0, 0, 1), (1, 1, 4)], &[(0, 2, 0)]);

// Whether the next items are these.
fn gives<I: Items>(items: &mut I, want: &[Item]) -> bool {
    for (i, j, value) in want {
        match items.item() {
            Some((row, col, found)) if row == *i && col == *j && found == *value => {}
            _ => return false,
        }
    }
    true
}

// Whether the next items are these, and `None` comes after them and again.
fn ends<I: Items>(items: &mut I, want: &[Item]) -> bool {
    gives(items, want) && items.item().is_none() && items.item().is_none()
}

// Whether an iterator has these items.
fn has<I: Items + Drop>(mut items: I, (first, others): Parts) -> bool {
    gives(&mut items, first) && ends(&mut items, others)
}

// Whether an iterator has these items, and so has a copy that is made after the first ones.
fn goes_on<I: Items + Clone + Drop>(mut items: I, (first, others): Parts) -> bool {
    if !gives(&mut items, first) {
        return false;
    }
    match items.clone() {
        Ok(mut copy) => ends(&mut copy, others) && ends(&mut items, others),
        Err(_error) => false,
    }
}

fn list(alloc: Global) -> Result<CooMatrix<i32>, AllocError> {
    let mut list = CooMatrix::new(alloc, 2, 3);
    list.push(1, 2, 5)?;
    list.push(0, 1, 7)?;
    Ok(list)
}

fn iterators_of_a_list_end(list: &mut CooMatrix<i32>) -> bool {
    goes_on(list.triplet_iter(), TRIPLETS_OF_LIST) && has(list.triplet_iter_mut(), TRIPLETS_OF_LIST)
}

#[test]
fn entries_and_triplets_of_lists(rt: HostRuntime) {
    let matrix = csr(rt.alloc(), BY_ROWS);
    assert!(rt; matrix.is_ok_and(|matrix| goes_on(matrix.pattern().entries(), ENTRIES)));
    assert!(rt; list(rt.alloc()).is_ok_and(|mut list| iterators_of_a_list_end(&mut list)));
}

fn iterators_by_rows_go_on(matrix: &CsrMatrix<i32>) -> bool {
    goes_on(matrix.row_iter(), ROWS)
        && goes_on(matrix.triplet_iter(), TRIPLETS_BY_ROWS)
        && goes_on(matrix.triplet_iter().cloned_values(), TRIPLETS_BY_ROWS)
}

fn iterators_by_rows_end(matrix: &mut CsrMatrix<i32>) -> bool {
    iterators_by_rows_go_on(matrix)
        && has(matrix.row_iter_mut(), ROWS)
        && has(matrix.triplet_iter_mut(), TRIPLETS_BY_ROWS)
}

fn iterators_by_columns_go_on(matrix: &CscMatrix<i32>) -> bool {
    goes_on(matrix.col_iter(), COLUMNS)
        && goes_on(matrix.triplet_iter(), TRIPLETS_BY_COLUMNS)
        && goes_on(matrix.triplet_iter().cloned_values(), TRIPLETS_BY_COLUMNS)
}

fn iterators_by_columns_end(matrix: &mut CscMatrix<i32>) -> bool {
    iterators_by_columns_go_on(matrix)
        && has(matrix.col_iter_mut(), COLUMNS)
        && has(matrix.triplet_iter_mut(), TRIPLETS_BY_COLUMNS)
}

#[test]
fn lanes_and_triplets_of_matrices(rt: HostRuntime) {
    let rows = csr(rt.alloc(), BY_ROWS);
    assert!(rt; rows.is_ok_and(|mut matrix| iterators_by_rows_end(&mut matrix)));
    let columns = csc(rt.alloc(), BY_COLUMNS);
    assert!(rt; columns.is_ok_and(|mut matrix| iterators_by_columns_end(&mut matrix)));
}
