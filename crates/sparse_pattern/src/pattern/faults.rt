//! Faults in the raw data of a pattern, and the search for the first one.

ghost use Rattle.std.specs.Prelude.{◌≡◌, ◌<◌, ◌≤◌, length, OnOk, IfErr};
ghost use Rattle.sparse_pattern.specs.Raw.{Raw, IsValid, raw_of};
ghost use Rattle.sparse_pattern.specs.PatternFaults.{IsFirstFault, kind_of};
ghost use Rattle.sparse_pattern.specs.InnerPatternFaults.{IsRisingBelow, IsFirstAmong, IsBadOrder};

use crate::error::SparseFormatErrorKind;
use std::cmp::Ordering;
use thiserror::Error;

// The messages of the faults, which the errors of patterns and of matrices share.
const OFFSET_COUNT: &str = "Length of offset array is not equal to (major_dim + 1).";

const FIRST_LAST: &str = "First or last offset is incompatible with format.";

const OFFSETS_FALL: &str = "Offsets are not monotonically increasing.";

const OUT_OF_BOUNDS: &str = "A minor index is out of bounds.";

const DUPLICATE: &str = "Input data contains duplicate entries.";

const INDICES_FALL: &str = "Minor indices are not monotonically increasing within each lane.";

/// The error returned when offsets and indices do not describe a pattern.
#[derive(Debug, Clone, Copy, PartialEq, Eq, Error)]
pub enum SparsityPatternFormatError {
    /// The number of offsets is not one more than the number of lanes.
    #[error("{}", OFFSET_COUNT)]
    InvalidOffsetArrayLength,
    /// The first offset is not zero, or the last is not the number of indices.
    #[error("{}", FIRST_LAST)]
    InvalidOffsetFirstLast,
    /// A lane ends before it begins, or past the indices.
    #[error("{}", OFFSETS_FALL)]
    NonmonotonicOffsets,
    /// A minor index is out of bounds.
    #[error("{}", OUT_OF_BOUNDS)]
    MinorIndexOutOfBounds,
    /// A minor index occurs twice in a lane.
    #[error("{}", DUPLICATE)]
    DuplicateEntry,
    /// A minor index is less than the one before it in its lane.
    #[error("{}", INDICES_FALL)]
    NonmonotonicMinorIndices,
}

impl SparsityPatternFormatError {
    // Returns the kind of the error that reports this fault in the data of a matrix.
    pub(crate) fn kind(self) -> SparseFormatErrorKind
        ensures { result ≡ kind_of self }
    {
        match self {
            SparsityPatternFormatError::InvalidOffsetArrayLength
            | SparsityPatternFormatError::InvalidOffsetFirstLast
            | SparsityPatternFormatError::NonmonotonicOffsets
            | SparsityPatternFormatError::NonmonotonicMinorIndices =>
                SparseFormatErrorKind::InvalidStructure,
            SparsityPatternFormatError::MinorIndexOutOfBounds =>
                SparseFormatErrorKind::IndexOutOfBounds,
            SparsityPatternFormatError::DuplicateEntry => SparseFormatErrorKind::DuplicateEntry,
        }
    }

    // Returns the message of the error.
    pub(crate) fn message(self) -> &'static str {
        match self {
            SparsityPatternFormatError::InvalidOffsetArrayLength => OFFSET_COUNT,
            SparsityPatternFormatError::InvalidOffsetFirstLast => FIRST_LAST,
            SparsityPatternFormatError::NonmonotonicOffsets => OFFSETS_FALL,
            SparsityPatternFormatError::MinorIndexOutOfBounds => OUT_OF_BOUNDS,
            SparsityPatternFormatError::DuplicateEntry => DUPLICATE,
            SparsityPatternFormatError::NonmonotonicMinorIndices => INDICES_FALL,
        }
    }
}

/// The first fault of raw data is unique.
pub fn one_first_fault()
    ensures { (d : Raw) (e f : SparsityPatternFormatError) → IsFirstFault d e → IsFirstFault d f
        → e ≡ f }
{}

/// Checks that borrowed offsets and indices describe a pattern.
///
/// Linear in the number of lanes and indices. Allocates nothing.
///
/// # Errors
///
/// Returns the first fault, in the order of [`SparsityPattern::try_from_offsets_and_indices`].
///
/// [`SparsityPattern::try_from_offsets_and_indices`]: super::SparsityPattern::try_from_offsets_and_indices
pub fn check(
    major_dim: usize,
    minor_dim: usize,
    offsets: &[usize],
    indices: &[usize],
) -> Result<(), SparsityPatternFormatError>
    ensures ok { OnOk result (IsValid (raw_of major_dim minor_dim offsets.now indices.now)) }
    ensures fault { IfErr result (IsFirstFault
        (raw_of major_dim minor_dim offsets.now indices.now)) }
{
    if major_dim == usize::MAX || offsets.len() != major_dim + 1 {
        return Err(SparsityPatternFormatError::InvalidOffsetArrayLength);
    }
    if offsets[0] != 0 || offsets[major_dim] != indices.len() {
        return Err(SparsityPatternFormatError::InvalidOffsetFirstLast);
    }
    for lane in 0..major_dim {
        let start = offsets[lane];
        let end = offsets[lane + 1];
        if end < start || indices.len() < end {
            return Err(SparsityPatternFormatError::NonmonotonicOffsets);
        }
        check_lane(minor_dim, indices, start, end)?;
    }
    Ok(())
}

// Checks the indices of one lane, and returns the first fault.
fn check_lane(
    minor_dim: usize,
    indices: &[usize],
    start: usize,
    end: usize,
) -> Result<(), SparsityPatternFormatError>
    requires { end ≤ length indices.now }
    ensures ok { OnOk result (IsRisingBelow minor_dim indices.now start end) }
    ensures fault { IfErr result (IsFirstAmong minor_dim indices.now start end) }
{
    for at in start..end {
        let index = indices[at];
        if index >= minor_dim {
            return Err(SparsityPatternFormatError::MinorIndexOutOfBounds);
        }
        if at > start {
            check_order(indices[at - 1], index)?;
        }
    }
    Ok(())
}

// Checks that an index is greater than the one before it.
fn check_order(before: usize, index: usize) -> Result<(), SparsityPatternFormatError>
    ensures ok { OnOk result (before < index) }
    ensures fault { IfErr result (IsBadOrder before index) }
{
    match before.cmp(&index) {
        Ordering::Less => Ok(()),
        Ordering::Equal => Err(SparsityPatternFormatError::DuplicateEntry),
        Ordering::Greater => Err(SparsityPatternFormatError::NonmonotonicMinorIndices),
    }
}
