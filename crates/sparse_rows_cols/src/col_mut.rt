//! Columns of a CSC matrix with values borrowed mutably, and the iterator over them.

ghost use Rattle.std.specs.Prelude.{◌≡◌, ◌<◌, length, slice_index_or};
ghost use Rattle.std.specs.Borrow.{sem};
ghost use Rattle.std.specs.Iterator.{YieldsFirstBy, item_count};
ghost use Rattle.sparse_compressed.specs.Compressed.{IsSound};
ghost use Rattle.sparse_compressed.specs.Lanes.{lane_at};
ghost use Rattle.sparse_compressed.specs.MutIterators.{lanes_left, lane_values, lane_of_mut};
ghost use Rattle.sparse_compressed.specs.Writing.{LendsLane, IsLaneFoundAt, IsLaneEntryMutOf};
ghost use Rattle.sparse_compressed.specs.Writing.{IsMutLaneEntryOf};
ghost use Rattle.sparse_rows_cols.specs.ColWriting.{col_as_lane, col_values, LendsColValues};
ghost use Rattle.sparse_rows_cols.specs.ColWriting.{all_col_values, cols_left, LendsColEntry};
ghost use Rattle.sparse_rows_cols.specs.InnerColWriting.{LendsColAt, LendsColFound};

use sparse_compressed::writing::{element_mut, entry_in};
use sparse_compressed::{CsLaneIterMut, CsLaneMut, CsMatrix, LaneIndices};
use sparse_pattern::entry::{Found, Missing, SparseEntry, SparseEntryMut, into_entry};
use std::marker::PhantomData;

/// A column of a CSC matrix, with its values borrowed mutably.
#[derive(Drop)]
pub struct CscColMut<'a, T> {
    nrows: usize,
    row_indices: LaneIndices<'a>,
    /// The values of the entries, in the order of their rows. They are borrowed for as long as the matrix is.
    pub values: &'a mut [T],
    borrow: PhantomData<&'a mut T>,
}

impl<'a, T> CscColMut<'a, T> {
    // Returns a lane as a column.
    fn new(lane: CsLaneMut<'a, T>) -> Self
        ensures same_reference { (col_values result).ghost_name ≡ lane.entry.values.ghost_name }
        ensures col { col_as_lane result ≡ lane_of_mut lane.entry }
    {
        let CsLaneMut {
            minor_dim,
            indices,
            values,
        } = lane;
        CscColMut {
            nrows: minor_dim,
            row_indices: indices,
            values,
            borrow: PhantomData,
        }
    }

    /// Returns a lane as a column, with its values borrowed mutably. `index` must be less than the number of lanes.
    ///
    /// For the crates of this library.
    #[doc(hidden)]
    pub fn of(cs: &'a mut CsMatrix<T>, index: usize) -> Self
        requires { index < cs.old.pattern.major_dim }
        ensures* writes_back { sem 𝓛 (LendsLane T.row cs.entry index (col_values result)) }
        ensures col { col_as_lane result ≡ lane_at cs.old index }
        ensures sound { IsSound cs.old }
    {
        CscColMut::new(cs.lane_mut(index))
    }

    /// Returns the number of rows.
    pub fn nrows(&self) -> usize
        ensures { result ≡ (col_as_lane self.now).minor_dim }
    {
        self.nrows
    }

    /// Returns the number of entries of the column, including those whose value is zero.
    pub fn nnz(&self) -> usize
        ensures { result ≡ length (col_as_lane self.now).indices }
    {
        self.row_indices.len()
    }

    /// Returns the rows of the entries, strictly increasing.
    pub fn row_indices(&self) -> &[usize]
        ensures { result.now ≡ (col_as_lane self.now).indices }
    {
        self.row_indices.as_slice()
    }

    /// Returns the values of the entries, in the order of their rows.
    pub fn values(&self) -> &[T]
        ensures { result.now ≡ (col_as_lane self.now).values }
    {
        &*self.values
    }

    /// Returns the entry at a row, `Zero` if none is stored, or `None` if `global_row_index` is out of bounds. Binary
    /// search.
    pub fn get_entry(&self, global_row_index: usize) -> Option<SparseEntry<'_, T>>
        ensures { IsMutLaneEntryOf (col_as_lane self.now) global_row_index result }
    {
        entry_in(
            self.nrows,
            &self.row_indices,
            self.values(),
            global_row_index,
        )
    }

    /// Returns the values of the entries, borrowed mutably.
    pub fn values_mut(&mut self) -> &mut [T]
        ensures* writes_back { sem 𝓛 (LendsColValues T.row self.entry result) }
        ensures values { result.now ≡ (col_as_lane self.old).values }
    {
        &mut *self.values
    }

    /// Returns the rows of the entries, and their values borrowed mutably.
    pub fn rows_and_values_mut(&mut self) -> (&[usize], &mut [T])
        ensures* writes_back { sem 𝓛 (LendsColValues T.row self.entry result.1) }
        ensures rows { result.0.now ≡ (col_as_lane self.old).indices }
        ensures values { result.1.now ≡ (col_as_lane self.old).values }
    {
        let rows = self.row_indices.as_slice();
        (rows, self.values_mut())
    }

    /// Returns the entry at a row, borrowed mutably, `Zero` if none is stored, or `None` if `global_row_index` is out
    /// of bounds. Binary search.
    pub fn get_entry_mut(&mut self, global_row_index: usize) -> Option<SparseEntryMut<'_, T>>
        ensures* writes_back { sem 𝓛 (LendsColEntry T.row self.entry global_row_index result) }
        ensures entry { IsLaneEntryMutOf (col_as_lane self.old) global_row_index result }
    {
        into_entry(self.find_mut(global_row_index))
    }

    // Returns the value stored at a row, borrowed mutably, or why there is none.
    fn find_mut(&mut self, row: usize) -> Found<'_, T>
        ensures* writes_back { sem 𝓛 (LendsColFound T.row self.entry row result) }
        ensures found { IsLaneFoundAt (col_as_lane self.old) row result }
    {
        if row >= self.nrows {
            return Found::Nothing(Missing::OutOfBounds);
        }
        match self.row_indices.offset_of(row) {
            Some(offset) => {
                if offset < self.values.len() {
                    Found::Value(self.at_mut(offset))
                } else {
                    Found::Nothing(Missing::NotStored)
                }
            }
            None => Found::Nothing(Missing::NotStored),
        }
    }

    // Returns the value at an offset of the column, borrowed mutably. `offset` must be less than the number of
    // values.
    fn at_mut(&mut self, offset: usize) -> &mut T
        requires { offset < length (col_as_lane self.old).values }
        ensures* writes_back { sem 𝓛 (LendsColAt T.row self.entry offset result) }
        ensures value { result.now ≡ slice_index_or (col_as_lane self.old).values offset result.now }
    {
        element_mut(self.values_mut(), offset)
    }
}

/// An iterator over the columns of a CSC matrix, including those without entries, that borrows their values mutably.
#[derive(Drop)]
pub struct CscColIterMut<'a, T> {
    lanes: CsLaneIterMut<'a, T>,
}

impl<'a, T> CscColIterMut<'a, T> {
    /// Returns an iterator over the remaining lanes as columns.
    ///
    /// For the crates of this library.
    #[doc(hidden)]
    pub fn from_lanes(lanes: CsLaneIterMut<'a, T>) -> Self
        ensures same_values { all_col_values result ≡ lane_values lanes.entry }
        ensures all { cols_left result ≡ lanes_left lanes.entry }
    {
        CscColIterMut { lanes }
    }
}

impl<'a, T> Iterator for CscColIterMut<'a, T> {
    type Item = CscColMut<'a, T>;

    ghost next_gives = { YieldsFirstBy col_as_lane cols_left };

    ghost remaining = { item_count cols_left };

    fn next(&mut self) -> Option<CscColMut<'a, T>> {
        Some(CscColMut::new(self.lanes.next()?))
    }
}
