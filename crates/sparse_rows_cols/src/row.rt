//! Rows of a CSR matrix, and the iterator over them.

ghost use Rattle.std.specs.Prelude.{◌≡◌, ⊤, length};
ghost use Rattle.std.specs.Iterator.{YieldsFirst, item_count};
ghost use Rattle.sparse_compressed.specs.Lanes.{IsLaneEntryOf, IsSoundLane};

use sparse_algebra::recall;
use sparse_compressed::{CsLane, CsLaneIter};
use sparse_pattern::entry::SparseEntry;
use std::alloc::AllocError;
use std::marker::Model;

/// A row of a CSR matrix.
#[derive(Debug, Drop)]
pub struct CsrRow<'a, T> {
    lane: CsLane<'a, T>,
}

impl<'a, T> Model for CsrRow<'a, T> {
    ghost use Rattle.sparse_compressed.specs.Lanes.{Lane, lane_code};

    ghost Value = { Lane T };

    ghost coded = { lane_code T.code };

    ghost view = { λ row. row.lane };
}

impl<'a, T> CsrRow<'a, T> {
    /// Returns a lane as a row.
    ///
    /// For the crates of this library.
    #[doc(hidden)]
    pub fn from_lane(lane: CsLane<'a, T>) -> Self
        ensures { result ≡ lane.entry }
    {
        CsrRow { lane }
    }

    /// Returns the number of columns.
    pub fn ncols(&self) -> usize
        ensures { result ≡ self.now.minor_dim }
    {
        self.lane.minor_dim()
    }

    /// Returns the number of entries of the row, including those whose value is zero.
    pub fn nnz(&self) -> usize
        ensures { result ≡ length self.now.indices }
    {
        self.lane.nnz()
    }

    /// Returns the columns of the entries, strictly increasing.
    pub fn col_indices(&self) -> &'a [usize]
        ensures indices { result.now ≡ self.now.indices }
        ensures sound { IsSoundLane self.now }
    {
        self.lane.minor_indices()
    }

    /// Returns the values of the entries, in the order of their columns.
    pub fn values(&self) -> &'a [T]
        ensures values { result.now ≡ self.now.values }
        ensures sound { IsSoundLane self.now }
    {
        self.lane.values()
    }

    /// Returns the entry at a column, `Zero` if none is stored, or `None` if `col_index` is out of bounds. Binary
    /// search.
    pub fn get_entry(&self, col_index: usize) -> Option<SparseEntry<'a, T>>
        ensures entry { IsLaneEntryOf self.now col_index result }
        ensures sound { IsSoundLane self.now }
    {
        // Tells the prover that the row is sound.
        recall(self.lane.values());
        self.lane.get_entry(col_index)
    }
}

impl<'a, T> Clone for CsrRow<'a, T> {
    ghost is_clone = { λ s t. t ≡ s };

    ghost is_infallible = { λ _. ⊤ };

    fn clone(&self) -> Result<CsrRow<'a, T>, AllocError> {
        Ok(CsrRow {
            lane: self.lane.clone()?,
        })
    }
}

impl<'a, T: PartialEq> PartialEq for CsrRow<'a, T> {
    ghost use Rattle.sparse_compressed.specs.Lanes.{lane_eq};
    ghost use Rattle.sparse_compressed.specs.LaneEquality.{lane_eq-laws};

    ghost eq = { lane_eq T.eq };

    ghost laws = { lane_eq-laws T.laws };

    fn eq(&self, other: &Self) -> bool {
        self.lane == other.lane
    }
}

impl<'a, T: Eq> Eq for CsrRow<'a, T> {
    ghost use Rattle.sparse_compressed.specs.LaneEquality.{lane_eq-equiv};

    ghost laws = { lane_eq-equiv T.Eq.laws };
}

/// An iterator over the rows of a CSR matrix, including those without entries.
#[derive(Drop)]
pub struct CsrRowIter<'a, T> {
    lanes: CsLaneIter<'a, T>,
}

impl<'a, T> Model for CsrRowIter<'a, T> {
    ghost use Rattle.std.specs.Prelude.{List};
    ghost use Rattle.std.specs.Coded.{coded_list};
    ghost use Rattle.sparse_compressed.specs.Lanes.{Lane, lane_code};

    ghost Value = { List (Lane T) };

    ghost coded = { coded_list (lane_code T.code) };

    ghost view = { λ it. it.lanes };
}

impl<'a, T> CsrRowIter<'a, T> {
    /// Returns an iterator over the remaining lanes as rows.
    ///
    /// For the crates of this library.
    #[doc(hidden)]
    pub fn from_lanes(lanes: CsLaneIter<'a, T>) -> Self
        ensures { result ≡ lanes.entry }
    {
        CsrRowIter { lanes }
    }
}

impl<'a, T> Iterator for CsrRowIter<'a, T> {
    type Item = CsrRow<'a, T>;

    ghost next_gives = { YieldsFirst (λ rest. rest) };

    ghost remaining = { item_count (λ rest. rest) };

    fn next(&mut self) -> Option<CsrRow<'a, T>> {
        match self.lanes.next() {
            Some(lane) => Some(CsrRow::from_lane(lane)),
            None => None,
        }
    }
}

impl<'a, T> Clone for CsrRowIter<'a, T> {
    ghost is_clone = { λ s t. t ≡ s };

    ghost is_infallible = { λ _. ⊤ };

    fn clone(&self) -> Result<CsrRowIter<'a, T>, AllocError> {
        Ok(CsrRowIter {
            lanes: self.lanes.clone()?,
        })
    }
}
