//! Arrays, columns, entries and triplets of a CSC matrix.

ghost use Rattle.std.specs.Prelude.{◌≡◌, ◌<◌, ◌↔◌, IfSome, IsSome, map};
ghost use Rattle.sparse_compressed.specs.Compressed.{IsSound, lane_triplets, transposed};
ghost use Rattle.sparse_compressed.specs.StoredEntries.{IsEntryAt, IsEntryOf, IsInBounds};
ghost use Rattle.sparse_compressed.specs.Lanes.{lane_at, lanes_of};

use super::CscMatrix;
use sparse_pattern::entry::SparseEntry;
use sparse_pattern::pattern::SparsityPattern;
use sparse_rows_cols::col::{CscCol, CscColIter};
use sparse_rows_cols::col_triplets::CscTripletIter;

impl<T> CscMatrix<T> {
    /// Returns the offset of the first entry of each column, followed by the number of entries.
    pub fn col_offsets(&self) -> &[usize]
        ensures offsets { result.now ≡ self.now.pattern.offsets }
        ensures sound { IsSound self.now }
    {
        self.cs.pattern().major_offsets()
    }

    /// Returns the row of each entry, column by column.
    pub fn row_indices(&self) -> &[usize]
        ensures indices { result.now ≡ self.now.pattern.indices }
        ensures sound { IsSound self.now }
    {
        self.cs.pattern().minor_indices()
    }

    /// Returns the value of each entry, column by column.
    pub fn values(&self) -> &[T]
        ensures values { result.now ≡ self.now.values }
        ensures sound { IsSound self.now }
    {
        self.cs.values()
    }

    /// Returns the pattern, whose lanes are the columns.
    pub fn pattern(&self) -> &SparsityPattern
        ensures pattern { result.now ≡ self.now.pattern }
        ensures sound { IsSound self.now }
    {
        self.cs.pattern()
    }

    /// Returns the column offsets, the row indices and the values.
    pub fn csc_data(&self) -> (&[usize], &[usize], &[T])
        ensures offsets { result.0.now ≡ self.now.pattern.offsets }
        ensures indices { result.1.now ≡ self.now.pattern.indices }
        ensures values { result.2.now ≡ self.now.values }
        ensures sound { IsSound self.now }
    {
        self.cs.cs_data()
    }

    /// Returns a column. `col_index` must be less than `ncols()`.
    pub fn col(&self, col_index: usize) -> CscCol<'_, T>
        requires { col_index < self.now.pattern.major_dim }
        ensures col { result ≡ lane_at self.now col_index }
        ensures sound { IsSound self.now }
    {
        self.show_sound();
        CscCol::from_lane(self.cs.lane(col_index))
    }

    /// Returns a column, or `None` if `col_index` is out of bounds.
    pub fn get_col(&self, col_index: usize) -> Option<CscCol<'_, T>>
        ensures bounds { IsSome result ↔ (col_index < self.now.pattern.major_dim) }
        ensures col { IfSome result (λ col. col ≡ lane_at self.now col_index) }
        ensures sound { IsSound self.now }
    {
        self.show_sound();
        match self.cs.get_lane(col_index) {
            Some(lane) => Some(CscCol::from_lane(lane)),
            None => None,
        }
    }

    /// Returns an iterator over the columns, including those without entries.
    ///
    /// # Examples
    ///
    /// ```rust
    /// fn columns_are_read_in_order(alloc: Global) -> Result<bool, Fail> {
    ///     let identity = CscMatrix::<W64>::identity(alloc, 2)?;
    ///     let first = identity.col_iter().next().ok_or("no column")?;
    ///     Ok(first.row_indices() == [0].as_slice())
    /// }
    /// ```
    pub fn col_iter(&self) -> CscColIter<'_, T>
        ensures all { result ≡ lanes_of self.now }
        ensures sound { IsSound self.now }
    {
        CscColIter::from_lanes(self.cs.lane_iter())
    }

    /// Returns the entry at a row and a column, or `Zero` if none is stored. Both indices must be within bounds. Binary
    /// search in the column.
    pub fn index_entry(&self, row_index: usize, col_index: usize) -> SparseEntry<'_, T>
        requires { IsInBounds self.now.pattern col_index row_index }
        ensures entry { IsEntryAt self.now col_index row_index result }
        ensures sound { IsSound self.now }
    {
        self.show_sound();
        self.cs.index_entry(col_index, row_index)
    }

    /// Returns the entry at a row and a column, `Zero` if none is stored, or `None` if an index is out of bounds.
    /// Binary search in the column.
    pub fn get_entry(&self, row_index: usize, col_index: usize) -> Option<SparseEntry<'_, T>>
        ensures entry { IsEntryOf self.now col_index row_index result }
        ensures sound { IsSound self.now }
    {
        self.show_sound();
        self.cs.get_entry(col_index, row_index)
    }

    /// Returns an iterator over the triplets (row, column, value), column by column, rows increasing.
    pub fn triplet_iter(&self) -> CscTripletIter<'_, T>
        ensures all { result ≡ map transposed (lane_triplets self.now) }
        ensures sound { IsSound self.now }
    {
        CscTripletIter::from_triplets(self.cs.triplet_iter())
    }
}
