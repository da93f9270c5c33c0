//! Rows of a CSR matrix with values borrowed mutably, and the iterator over them.

ghost use Rattle.std.specs.Prelude.{◌≡◌, ◌<◌, length, slice_index_or};
ghost use Rattle.std.specs.Borrow.{sem};
ghost use Rattle.std.specs.Iterator.{YieldsFirstBy, item_count};
ghost use Rattle.sparse_compressed.specs.Compressed.{IsSound};
ghost use Rattle.sparse_compressed.specs.Lanes.{lane_at};
ghost use Rattle.sparse_compressed.specs.MutIterators.{lanes_left, lane_values, lane_of_mut};
ghost use Rattle.sparse_compressed.specs.Writing.{LendsLane, IsLaneFoundAt, IsLaneEntryMutOf};
ghost use Rattle.sparse_compressed.specs.Writing.{IsMutLaneEntryOf};
ghost use Rattle.sparse_rows_cols.specs.RowWriting.{row_as_lane, row_values, LendsRowValues};
ghost use Rattle.sparse_rows_cols.specs.RowWriting.{all_row_values, rows_left, LendsRowEntry};
ghost use Rattle.sparse_rows_cols.specs.InnerRowWriting.{LendsRowAt, LendsRowFound};

use sparse_compressed::writing::{element_mut, entry_in};
use sparse_compressed::{CsLaneIterMut, CsLaneMut, CsMatrix, LaneIndices};
use sparse_pattern::entry::{Found, Missing, SparseEntry, SparseEntryMut, into_entry};
use std::marker::PhantomData;

/// A row of a CSR matrix, with its values borrowed mutably.
#[derive(Drop)]
pub struct CsrRowMut<'a, T> {
    ncols: usize,
    col_indices: LaneIndices<'a>,
    /// The values of the entries, in the order of their columns. They are borrowed for as long as the matrix is.
    pub values: &'a mut [T],
    borrow: PhantomData<&'a mut T>,
}

impl<'a, T> CsrRowMut<'a, T> {
    // Returns a lane as a row.
    fn new(lane: CsLaneMut<'a, T>) -> Self
        ensures same_reference { (row_values result).ghost_name ≡ lane.entry.values.ghost_name }
        ensures row { row_as_lane result ≡ lane_of_mut lane.entry }
    {
        let CsLaneMut {
            minor_dim,
            indices,
            values,
        } = lane;
        CsrRowMut {
            ncols: minor_dim,
            col_indices: indices,
            values,
            borrow: PhantomData,
        }
    }

    /// Returns a lane as a row, with its values borrowed mutably. `index` must be less than the number of lanes.
    ///
    /// For the crates of this library.
    #[doc(hidden)]
    pub fn of(cs: &'a mut CsMatrix<T>, index: usize) -> Self
        requires { index < cs.old.pattern.major_dim }
        ensures* writes_back { sem 𝓛 (LendsLane T.row cs.entry index (row_values result)) }
        ensures row { row_as_lane result ≡ lane_at cs.old index }
        ensures sound { IsSound cs.old }
    {
        CsrRowMut::new(cs.lane_mut(index))
    }

    /// Returns the number of columns.
    pub fn ncols(&self) -> usize
        ensures { result ≡ (row_as_lane self.now).minor_dim }
    {
        self.ncols
    }

    /// Returns the number of entries of the row, including those whose value is zero.
    pub fn nnz(&self) -> usize
        ensures { result ≡ length (row_as_lane self.now).indices }
    {
        self.col_indices.len()
    }

    /// Returns the columns of the entries, strictly increasing.
    pub fn col_indices(&self) -> &[usize]
        ensures { result.now ≡ (row_as_lane self.now).indices }
    {
        self.col_indices.as_slice()
    }

    /// Returns the values of the entries, in the order of their columns.
    pub fn values(&self) -> &[T]
        ensures { result.now ≡ (row_as_lane self.now).values }
    {
        &*self.values
    }

    /// Returns the entry at a column, `Zero` if none is stored, or `None` if `global_col_index` is out of bounds.
    /// Binary search.
    pub fn get_entry(&self, global_col_index: usize) -> Option<SparseEntry<'_, T>>
        ensures { IsMutLaneEntryOf (row_as_lane self.now) global_col_index result }
    {
        entry_in(
            self.ncols,
            &self.col_indices,
            self.values(),
            global_col_index,
        )
    }

    /// Returns the values of the entries, borrowed mutably.
    pub fn values_mut(&mut self) -> &mut [T]
        ensures* writes_back { sem 𝓛 (LendsRowValues T.row self.entry result) }
        ensures values { result.now ≡ (row_as_lane self.old).values }
    {
        &mut *self.values
    }

    /// Returns the columns of the entries, and their values borrowed mutably.
    pub fn cols_and_values_mut(&mut self) -> (&[usize], &mut [T])
        ensures* writes_back { sem 𝓛 (LendsRowValues T.row self.entry result.1) }
        ensures cols { result.0.now ≡ (row_as_lane self.old).indices }
        ensures values { result.1.now ≡ (row_as_lane self.old).values }
    {
        let cols = self.col_indices.as_slice();
        (cols, self.values_mut())
    }

    /// Returns the entry at a column, borrowed mutably, `Zero` if none is stored, or `None` if `global_col_index` is
    /// out of bounds. Binary search.
    pub fn get_entry_mut(&mut self, global_col_index: usize) -> Option<SparseEntryMut<'_, T>>
        ensures* writes_back { sem 𝓛 (LendsRowEntry T.row self.entry global_col_index result) }
        ensures entry { IsLaneEntryMutOf (row_as_lane self.old) global_col_index result }
    {
        into_entry(self.find_mut(global_col_index))
    }

    // Returns the value stored at a column, borrowed mutably, or why there is none.
    fn find_mut(&mut self, col: usize) -> Found<'_, T>
        ensures* writes_back { sem 𝓛 (LendsRowFound T.row self.entry col result) }
        ensures found { IsLaneFoundAt (row_as_lane self.old) col result }
    {
        if col >= self.ncols {
            return Found::Nothing(Missing::OutOfBounds);
        }
        match self.col_indices.offset_of(col) {
            Some(offset) => {
                if offset < self.values.len() {
                    Found::Value(self.at_mut(offset))
                } else {
                    Found::Nothing(Missing::NotStored)
                }
            }
            None => Found::Nothing(Missing::NotStored),
        }
    }

    // Returns the value at an offset of the row, borrowed mutably. `offset` must be less than the number of values.
    fn at_mut(&mut self, offset: usize) -> &mut T
        requires { offset < length (row_as_lane self.old).values }
        ensures* writes_back { sem 𝓛 (LendsRowAt T.row self.entry offset result) }
        ensures value { result.now ≡ slice_index_or (row_as_lane self.old).values offset result.now }
    {
        element_mut(self.values_mut(), offset)
    }
}

/// An iterator over the rows of a CSR matrix, including those without entries, that borrows their values mutably.
#[derive(Drop)]
pub struct CsrRowIterMut<'a, T> {
    lanes: CsLaneIterMut<'a, T>,
}

impl<'a, T> CsrRowIterMut<'a, T> {
    /// Returns an iterator over the remaining lanes as rows.
    ///
    /// For the crates of this library.
    #[doc(hidden)]
    pub fn from_lanes(lanes: CsLaneIterMut<'a, T>) -> Self
        ensures same_values { all_row_values result ≡ lane_values lanes.entry }
        ensures all { rows_left result ≡ lanes_left lanes.entry }
    {
        CsrRowIterMut { lanes }
    }
}

impl<'a, T> Iterator for CsrRowIterMut<'a, T> {
    type Item = CsrRowMut<'a, T>;

    ghost next_gives = { YieldsFirstBy row_as_lane rows_left };

    ghost remaining = { item_count rows_left };

    fn next(&mut self) -> Option<CsrRowMut<'a, T>> {
        Some(CsrRowMut::new(self.lanes.next()?))
    }
}
