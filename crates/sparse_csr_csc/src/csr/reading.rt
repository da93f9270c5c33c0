//! Arrays, rows, entries and triplets of a CSR matrix.

ghost use Rattle.std.specs.Prelude.{◌≡◌, ◌<◌, ◌↔◌, IfSome, IsSome};
ghost use Rattle.sparse_compressed.specs.Compressed.{IsSound, lane_triplets};
ghost use Rattle.sparse_compressed.specs.StoredEntries.{IsEntryAt, IsEntryOf, IsInBounds};
ghost use Rattle.sparse_compressed.specs.Lanes.{lane_at, lanes_of};

use super::CsrMatrix;
use sparse_pattern::entry::SparseEntry;
use sparse_pattern::pattern::SparsityPattern;
use sparse_rows_cols::row::{CsrRow, CsrRowIter};
use sparse_rows_cols::row_triplets::CsrTripletIter;

impl<T> CsrMatrix<T> {
    /// Returns the offset of the first entry of each row, followed by the number of entries.
    pub fn row_offsets(&self) -> &[usize]
        ensures offsets { result.now ≡ self.now.pattern.offsets }
        ensures sound { IsSound self.now }
    {
        self.cs.pattern().major_offsets()
    }

    /// Returns the column of each entry, row by row.
    pub fn col_indices(&self) -> &[usize]
        ensures indices { result.now ≡ self.now.pattern.indices }
        ensures sound { IsSound self.now }
    {
        self.cs.pattern().minor_indices()
    }

    /// Returns the value of each entry, row by row.
    pub fn values(&self) -> &[T]
        ensures values { result.now ≡ self.now.values }
        ensures sound { IsSound self.now }
    {
        self.cs.values()
    }

    /// Returns the pattern, whose lanes are the rows.
    pub fn pattern(&self) -> &SparsityPattern
        ensures pattern { result.now ≡ self.now.pattern }
        ensures sound { IsSound self.now }
    {
        self.cs.pattern()
    }

    /// Returns the row offsets, the column indices and the values.
    pub fn csr_data(&self) -> (&[usize], &[usize], &[T])
        ensures offsets { result.0.now ≡ self.now.pattern.offsets }
        ensures indices { result.1.now ≡ self.now.pattern.indices }
        ensures values { result.2.now ≡ self.now.values }
        ensures sound { IsSound self.now }
    {
        self.cs.cs_data()
    }

    /// Returns a row. `row_index` must be less than `nrows()`.
    pub fn row(&self, row_index: usize) -> CsrRow<'_, T>
        requires { row_index < self.now.pattern.major_dim }
        ensures row { result ≡ lane_at self.now row_index }
        ensures sound { IsSound self.now }
    {
        self.show_sound();
        CsrRow::from_lane(self.cs.lane(row_index))
    }

    /// Returns a row, or `None` if `row_index` is out of bounds.
    ///
    /// # Examples
    ///
    /// ```rust
    /// fn one_row_is_read(alloc: Global) -> Result<bool, Fail> {
    ///     let identity = CsrMatrix::<W64>::identity(alloc, 2)?;
    ///     let row = identity.get_row(1).ok_or("out of bounds")?;
    ///     Ok(row.col_indices() == [1].as_slice())
    /// }
    /// ```
    pub fn get_row(&self, row_index: usize) -> Option<CsrRow<'_, T>>
        ensures bounds { IsSome result ↔ (row_index < self.now.pattern.major_dim) }
        ensures row { IfSome result (λ row. row ≡ lane_at self.now row_index) }
        ensures sound { IsSound self.now }
    {
        self.show_sound();
        match self.cs.get_lane(row_index) {
            Some(lane) => Some(CsrRow::from_lane(lane)),
            None => None,
        }
    }

    /// Returns an iterator over the rows, including those without entries.
    pub fn row_iter(&self) -> CsrRowIter<'_, T>
        ensures all { result ≡ lanes_of self.now }
        ensures sound { IsSound self.now }
    {
        CsrRowIter::from_lanes(self.cs.lane_iter())
    }

    /// Returns the entry at a row and a column, or `Zero` if none is stored. Both indices must be within bounds. Binary
    /// search in the row.
    pub fn index_entry(&self, row_index: usize, col_index: usize) -> SparseEntry<'_, T>
        requires { IsInBounds self.now.pattern row_index col_index }
        ensures entry { IsEntryAt self.now row_index col_index result }
        ensures sound { IsSound self.now }
    {
        self.show_sound();
        self.cs.index_entry(row_index, col_index)
    }

    /// Returns the entry at a row and a column, `Zero` if none is stored, or `None` if an index is out of bounds.
    /// Binary search in the row.
    ///
    /// # Examples
    ///
    /// ```rust
    /// fn a_missing_entry_is_zero(alloc: Global) -> Result<bool, Fail> {
    ///     let matrix = CsrMatrix::<i32>::zeros(alloc, 1, 2)?;
    ///     let outside = matrix.get_entry(0, 2);
    ///     Ok(matrix.get_entry(0, 1) == Some(SparseEntry::Zero) && outside.is_none())
    /// }
    /// ```
    pub fn get_entry(&self, row_index: usize, col_index: usize) -> Option<SparseEntry<'_, T>>
        ensures entry { IsEntryOf self.now row_index col_index result }
        ensures sound { IsSound self.now }
    {
        self.show_sound();
        self.cs.get_entry(row_index, col_index)
    }

    /// Returns an iterator over the triplets (row, column, value), row by row, columns increasing.
    pub fn triplet_iter(&self) -> CsrTripletIter<'_, T>
        ensures all { result ≡ lane_triplets self.now }
        ensures sound { IsSound self.now }
    {
        CsrTripletIter::from_triplets(self.cs.triplet_iter())
    }
}
