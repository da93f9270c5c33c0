//! Mutable borrows of the values of a CSC matrix. The pattern never changes.

ghost use Rattle.std.specs.Prelude.{◌≡◌, ◌<◌, ◌↔◌, IfSome, IsSome, map};
ghost use Rattle.std.specs.Borrow.{sem};
ghost use Rattle.sparse_compressed.specs.Compressed.{IsSound, lane_triplets, transposed};
ghost use Rattle.sparse_compressed.specs.StoredEntries.{IsInBounds};
ghost use Rattle.sparse_compressed.specs.Lanes.{lane_at, lanes_of};
ghost use Rattle.sparse_compressed.specs.Writing.{IsFoundAt, IsEntryMutAt, IsEntryMutOf};
ghost use Rattle.sparse_csr_csc.specs.CscWriting.{LendsValues, LendsCol, LendsColIf, LendsEntry};
ghost use Rattle.sparse_csr_csc.specs.CscWriting.{LendsIndexed};
ghost use Rattle.sparse_csr_csc.specs.InnerCscWriting.{LendsCoreIf, LendsFound};
ghost use Rattle.sparse_rows_cols.specs.ColWriting.{col_as_lane, col_values};
ghost use Rattle.sparse_rows_cols.specs.ColWriting.{all_col_values, cols_left};
ghost use Rattle.sparse_rows_cols.specs.ColWriting.{csc_triplet_values, csc_triplets_left};

use super::CscMatrix;
use sparse_compressed::CsMatrix;
use sparse_pattern::entry::{Found, SparseEntryMut, into_entry};
use sparse_pattern::pattern::SparsityPattern;
use sparse_rows_cols::col_mut::{CscColIterMut, CscColMut};
use sparse_rows_cols::col_triplets::CscTripletIterMut;

impl<T> CscMatrix<T> {
    /// Returns the value of each entry, column by column, borrowed mutably.
    ///
    /// # Examples
    ///
    /// ```rust
    /// fn one_value_is_replaced(alloc: Global) -> Result<bool, Fail> {
    ///     let mut matrix = CscMatrix::<W64>::identity(alloc, 2)?;
    ///     if let Some(value) = matrix.values_mut().get_mut(1) {
    ///         *value = W64::new(8);
    ///     }
    ///     Ok(matrix.values() == [W64::new(1), W64::new(8)].as_slice())
    /// }
    /// ```
    pub fn values_mut(&mut self) -> &mut [T]
        ensures* writes_back { sem 𝓛 (LendsValues T.row self.entry result) }
        ensures values { result.now ≡ self.old.values }
    {
        self.cs.values_mut()
    }

    /// Returns a column with its values borrowed mutably. `index` must be less than `ncols()`.
    pub fn col_mut(&mut self, index: usize) -> CscColMut<'_, T>
        requires { index < self.old.pattern.major_dim }
        ensures* writes_back { sem 𝓛 (LendsCol T.row self.entry index (col_values result)) }
        ensures col { col_as_lane result ≡ lane_at self.old index }
        ensures sound { IsSound self.old }
    {
        CscColMut::of(&mut self.cs, index)
    }

    /// Returns a column with its values borrowed mutably, or `None` if `index` is out of bounds.
    pub fn get_col_mut(&mut self, index: usize) -> Option<CscColMut<'_, T>>
        ensures* writes_back { sem 𝓛 (LendsColIf T.row self.entry index result) }
        ensures bounds { IsSome result ↔ (index < self.old.pattern.major_dim) }
        ensures col { IfSome result (λ col. col_as_lane col ≡ lane_at self.old index) }
        ensures sound { IsSound self.old }
    {
        match self.cs_with_col(index) {
            Some(cs) => Some(CscColMut::of(cs, index)),
            None => None,
        }
    }

    // Returns the underlying storage, borrowed mutably, or `None` if `index` is out of bounds.
    fn cs_with_col(&mut self, index: usize) -> Option<&mut CsMatrix<T>>
        ensures* writes_back { sem 𝓛 (LendsCoreIf T.row self.entry result) }
        ensures bounds { IsSome result ↔ (index < self.old.pattern.major_dim) }
        ensures core { IfSome result (λ cs. cs.now ≡ self.old) }
        ensures sound { IsSound self.old }
    {
        self.show_sound();
        if index >= self.ncols() {
            return None;
        }
        Some(&mut self.cs)
    }

    /// Returns the pattern, and the values borrowed mutably.
    pub fn pattern_and_values_mut(&mut self) -> (&SparsityPattern, &mut [T])
        ensures* writes_back { sem 𝓛 (LendsValues T.row self.entry result.1) }
        ensures pattern { result.0.now ≡ self.old.pattern }
        ensures values { result.1.now ≡ self.old.values }
    {
        self.cs.pattern_and_values_mut()
    }

    /// Returns the entry at a row and a column, borrowed mutably, `Zero` if none is stored, or `None` if an index is
    /// out of bounds. Binary search in the column.
    pub fn get_entry_mut(
        &mut self,
        row_index: usize,
        col_index: usize,
    ) -> Option<SparseEntryMut<'_, T>>
        ensures* writes_back { sem 𝓛 (LendsEntry T.row self.entry col_index row_index result) }
        ensures entry { IsEntryMutOf self.old col_index row_index result }
        ensures sound { IsSound self.old }
    {
        into_entry(self.find_mut(row_index, col_index))
    }

    /// Returns the entry at a row and a column, borrowed mutably, or `Zero` if none is stored. Both indices must be
    /// within bounds. Binary search in the column.
    pub fn index_entry_mut(&mut self, row_index: usize, col_index: usize) -> SparseEntryMut<'_, T>
        requires { IsInBounds self.old.pattern col_index row_index }
        ensures* writes_back { sem 𝓛 (LendsIndexed T.row self.entry col_index row_index result) }
        ensures entry { IsEntryMutAt self.old col_index row_index result }
        ensures sound { IsSound self.old }
    {
        self.show_sound();
        self.cs.index_entry_mut(col_index, row_index)
    }

    /// Returns the column offsets, the row indices, and the values borrowed mutably.
    pub fn csc_data_mut(&mut self) -> (&[usize], &[usize], &mut [T])
        ensures* writes_back { sem 𝓛 (LendsValues T.row self.entry result.2) }
        ensures offsets { result.0.now ≡ self.old.pattern.offsets }
        ensures indices { result.1.now ≡ self.old.pattern.indices }
        ensures values { result.2.now ≡ self.old.values }
    {
        self.cs.cs_data_mut()
    }

    /// Returns an iterator over the triplets (row, column, value) that borrows each value mutably, column by column,
    /// rows increasing.
    pub fn triplet_iter_mut(&mut self) -> CscTripletIterMut<'_, T>
        ensures* writes_back { sem 𝓛 (LendsValues T.row self.entry (csc_triplet_values result)) }
        ensures all { csc_triplets_left result ≡ map transposed (lane_triplets self.old) }
        ensures sound { IsSound self.old }
    {
        CscTripletIterMut::from_triplets(self.cs.triplet_iter_mut())
    }

    /// Returns an iterator over the columns, including those without entries, that borrows their values mutably.
    pub fn col_iter_mut(&mut self) -> CscColIterMut<'_, T>
        ensures* writes_back { sem 𝓛 (LendsValues T.row self.entry (all_col_values result)) }
        ensures all { cols_left result ≡ lanes_of self.old }
        ensures sound { IsSound self.old }
    {
        CscColIterMut::from_lanes(self.cs.lane_iter_mut())
    }

    // Returns the value stored at a row and a column, borrowed mutably, or why there is none.
    fn find_mut(&mut self, row: usize, col: usize) -> Found<'_, T>
        ensures* writes_back { sem 𝓛 (LendsFound T.row self.entry col row result) }
        ensures found { IsFoundAt self.old col row result }
        ensures sound { IsSound self.old }
    {
        self.show_sound();
        self.cs.find_mut(col, row)
    }
}
