//! Mutable borrows of the values of a CSR matrix. The pattern never changes.

ghost use Rattle.std.specs.Prelude.{◌≡◌, ◌<◌, ◌↔◌, IfSome, IsSome};
ghost use Rattle.std.specs.Borrow.{sem};
ghost use Rattle.sparse_compressed.specs.Compressed.{IsSound, lane_triplets};
ghost use Rattle.sparse_compressed.specs.StoredEntries.{IsInBounds};
ghost use Rattle.sparse_compressed.specs.Lanes.{lane_at, lanes_of};
ghost use Rattle.sparse_compressed.specs.Writing.{IsFoundAt, IsEntryMutAt, IsEntryMutOf};
ghost use Rattle.sparse_csr_csc.specs.CsrWriting.{LendsValues, LendsRow, LendsRowIf, LendsEntry};
ghost use Rattle.sparse_csr_csc.specs.CsrWriting.{LendsIndexed};
ghost use Rattle.sparse_csr_csc.specs.InnerCsrWriting.{LendsCoreIf, LendsFound};
ghost use Rattle.sparse_rows_cols.specs.RowWriting.{row_as_lane, row_values};
ghost use Rattle.sparse_rows_cols.specs.RowWriting.{all_row_values, rows_left};
ghost use Rattle.sparse_rows_cols.specs.RowWriting.{csr_triplet_values, csr_triplets_left};

use super::CsrMatrix;
use sparse_compressed::CsMatrix;
use sparse_pattern::entry::{Found, SparseEntryMut, into_entry};
use sparse_pattern::pattern::SparsityPattern;
use sparse_rows_cols::row_mut::{CsrRowIterMut, CsrRowMut};
use sparse_rows_cols::row_triplets::CsrTripletIterMut;

impl<T> CsrMatrix<T> {
    /// Returns the value of each entry, row by row, borrowed mutably.
    pub fn values_mut(&mut self) -> &mut [T]
        ensures* writes_back { sem 𝓛 (LendsValues T.row self.entry result) }
        ensures values { result.now ≡ self.old.values }
    {
        self.cs.values_mut()
    }

    /// Returns a row with its values borrowed mutably. `index` must be less than `nrows()`.
    pub fn row_mut(&mut self, index: usize) -> CsrRowMut<'_, T>
        requires { index < self.old.pattern.major_dim }
        ensures* writes_back { sem 𝓛 (LendsRow T.row self.entry index (row_values result)) }
        ensures row { row_as_lane result ≡ lane_at self.old index }
        ensures sound { IsSound self.old }
    {
        CsrRowMut::of(&mut self.cs, index)
    }

    /// Returns a row with its values borrowed mutably, or `None` if `index` is out of bounds.
    pub fn get_row_mut(&mut self, index: usize) -> Option<CsrRowMut<'_, T>>
        ensures* writes_back { sem 𝓛 (LendsRowIf T.row self.entry index result) }
        ensures bounds { IsSome result ↔ (index < self.old.pattern.major_dim) }
        ensures row { IfSome result (λ row. row_as_lane row ≡ lane_at self.old index) }
        ensures sound { IsSound self.old }
    {
        match self.cs_with_row(index) {
            Some(cs) => Some(CsrRowMut::of(cs, index)),
            None => None,
        }
    }

    // Returns the underlying storage, borrowed mutably, or `None` if `index` is out of bounds.
    fn cs_with_row(&mut self, index: usize) -> Option<&mut CsMatrix<T>>
        ensures* writes_back { sem 𝓛 (LendsCoreIf T.row self.entry result) }
        ensures bounds { IsSome result ↔ (index < self.old.pattern.major_dim) }
        ensures core { IfSome result (λ cs. cs.now ≡ self.old) }
        ensures sound { IsSound self.old }
    {
        self.show_sound();
        if index >= self.nrows() {
            return None;
        }
        Some(&mut self.cs)
    }

    /// Returns the pattern, and the values borrowed mutably.
    pub fn pattern_and_values_mut(&mut self) -> (&SparsityPattern, &mut [T])
        ensures* writes_back { sem 𝓛 (LendsValues T.row self.entry result.1) }
        ensures pattern { result.0.now ≡ self.old.pattern }
        ensures values { result.1.now ≡ self.old.values }
    {
        self.cs.pattern_and_values_mut()
    }

    /// Returns the entry at a row and a column, borrowed mutably, `Zero` if none is stored, or `None` if an index is
    /// out of bounds. Binary search in the row.
    pub fn get_entry_mut(
        &mut self,
        row_index: usize,
        col_index: usize,
    ) -> Option<SparseEntryMut<'_, T>>
        ensures* writes_back { sem 𝓛 (LendsEntry T.row self.entry row_index col_index result) }
        ensures entry { IsEntryMutOf self.old row_index col_index result }
        ensures sound { IsSound self.old }
    {
        into_entry(self.find_mut(row_index, col_index))
    }

    /// Returns the entry at a row and a column, borrowed mutably, or `Zero` if none is stored. Both indices must be
    /// within bounds. Binary search in the row.
    pub fn index_entry_mut(&mut self, row_index: usize, col_index: usize) -> SparseEntryMut<'_, T>
        requires { IsInBounds self.old.pattern row_index col_index }
        ensures* writes_back { sem 𝓛 (LendsIndexed T.row self.entry row_index col_index result) }
        ensures entry { IsEntryMutAt self.old row_index col_index result }
        ensures sound { IsSound self.old }
    {
        self.show_sound();
        self.cs.index_entry_mut(row_index, col_index)
    }

    /// Returns the row offsets, the column indices, and the values borrowed mutably.
    pub fn csr_data_mut(&mut self) -> (&[usize], &[usize], &mut [T])
        ensures* writes_back { sem 𝓛 (LendsValues T.row self.entry result.2) }
        ensures offsets { result.0.now ≡ self.old.pattern.offsets }
        ensures indices { result.1.now ≡ self.old.pattern.indices }
        ensures values { result.2.now ≡ self.old.values }
    {
        self.cs.cs_data_mut()
    }

    /// Returns an iterator over the triplets (row, column, value) that borrows each value mutably, row by row, columns
    /// increasing.
    ///
    /// # Examples
    ///
    /// ```rust
    /// fn values_are_replaced(alloc: Global) -> Result<bool, Fail> {
    ///     let mut matrix = CsrMatrix::<W64>::identity(alloc, 1)?;
    ///     for (_, _, value) in matrix.triplet_iter_mut() {
    ///         *value = W64::new(4);
    ///     }
    ///     Ok(matrix.values() == [W64::new(4)].as_slice())
    /// }
    /// ```
    pub fn triplet_iter_mut(&mut self) -> CsrTripletIterMut<'_, T>
        ensures* writes_back { sem 𝓛 (LendsValues T.row self.entry (csr_triplet_values result)) }
        ensures all { csr_triplets_left result ≡ lane_triplets self.old }
        ensures sound { IsSound self.old }
    {
        CsrTripletIterMut::from_triplets(self.cs.triplet_iter_mut())
    }

    /// Returns an iterator over the rows, including those without entries, that borrows their values mutably.
    pub fn row_iter_mut(&mut self) -> CsrRowIterMut<'_, T>
        ensures* writes_back { sem 𝓛 (LendsValues T.row self.entry (all_row_values result)) }
        ensures all { rows_left result ≡ lanes_of self.old }
        ensures sound { IsSound self.old }
    {
        CsrRowIterMut::from_lanes(self.cs.lane_iter_mut())
    }

    // Returns the value stored at a row and a column, borrowed mutably, or why there is none.
    fn find_mut(&mut self, row: usize, col: usize) -> Found<'_, T>
        ensures* writes_back { sem 𝓛 (LendsFound T.row self.entry row col result) }
        ensures found { IsFoundAt self.old row col result }
        ensures sound { IsSound self.old }
    {
        self.show_sound();
        self.cs.find_mut(row, col)
    }
}
