//! Construction from arrays with sorted lanes.

ghost use Rattle.std.specs.Prelude.{◌≡◌, ◌≢◌, length, IfOk, IfErr, IsOk};
ghost use Rattle.sparse_compressed.specs.Compressed.{compressed_of, arrays_of, IsSound};
ghost use Rattle.sparse_compressed.specs.SortedFaults.{IsFirstSortedFault, sorted_kind};

use crate::CsMatrix;
use sparse_pattern::error::{SparseFormatError, SparseFormatErrorKind};
use sparse_pattern::pattern::{SparsityPattern, SparsityPatternFormatError};

/// A fault of arrays whose lanes must be sorted.
#[derive(Debug, Clone, Copy, PartialEq, Eq)]
pub enum SortedFault {
    /// The offsets and indices do not form a pattern; this is their first fault.
    Pattern(SparsityPatternFormatError),
    /// The pattern is valid, but the number of values is not the number of its entries.
    ValueCount,
}

impl SortedFault {
    /// Returns the kind of the corresponding error.
    pub fn kind(self) -> SparseFormatErrorKind
        ensures { result ≡ sorted_kind self }
    {
        match self {
            SortedFault::Pattern(fault) => *SparseFormatError::from(fault).kind(),
            SortedFault::ValueCount => SparseFormatErrorKind::InvalidStructure,
        }
    }
}

impl<T: Drop> CsMatrix<T> {
    /// Returns the matrix with these arrays, whose lanes must be sorted, or their first fault: those of the pattern
    /// come first, then the number of values.
    ///
    /// Linear in lanes and indices. Allocates nothing. Invalid arrays are dropped.
    pub fn try_from_sorted_arrays(
        major_dim: usize,
        minor_dim: usize,
        major_offsets: Vec<usize>,
        minor_indices: Vec<usize>,
        values: Vec<T>,
    ) -> Result<Self, SortedFault>
        ensures ok { IfOk result
            (λ m. m ≡ arrays_of major_dim minor_dim major_offsets.items minor_indices.items
            values.items) }
        ensures sound { IfOk result IsSound }
        ensures fault { IfErr result
            (IsFirstSortedFault (arrays_of major_dim minor_dim major_offsets.items
            minor_indices.items values.items)) }
        ensures accepted { IsSound
            (arrays_of major_dim minor_dim major_offsets.items minor_indices.items values.items)
            → IsOk result }
    {
        match SparsityPattern::try_from_offsets_and_indices(
            major_dim,
            minor_dim,
            major_offsets,
            minor_indices,
        ) {
            Ok(pattern) => CsMatrix::try_from_pattern_and_values(pattern, values),
            Err(fault) => Err(SortedFault::Pattern(fault)),
        }
    }

    /// Returns the matrix of a pattern and its values, or `ValueCount` if the number of values is not the number of
    /// entries. Allocates nothing.
    pub fn try_from_pattern_and_values(
        pattern: SparsityPattern,
        values: Vec<T>,
    ) -> Result<Self, SortedFault>
        ensures ok { IfOk result (λ m. m ≡ compressed_of pattern values.items) }
        ensures sound { IfOk result IsSound }
        ensures fault { IfErr result (λ e. (e ≡ SortedFault.ValueCount)
            × (length values.items ≢ length pattern.indices)) }
        ensures accepted { length values.items ≡ length pattern.indices → IsOk result }
    {
        if values.len() != pattern.nnz() {
            return Err(SortedFault::ValueCount);
        }
        Ok(CsMatrix::from_pattern_and_values(pattern, values))
    }
}
