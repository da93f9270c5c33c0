//! The first fault of a pattern's raw data, found by testing each rule in order.

ghost use Rattle.std.specs.Prelude.{◌≤◌, ◌<◌, length, OnOk, IfErr};
ghost use Rattle.sparse_pattern.specs.Raw.{IsValid, raw_of};
ghost use Rattle.sparse_pattern.specs.PatternFaults.{IsFirstFault};
ghost use Rattle.sparse_pattern.specs.InnerPatternFaults.{IsRisingBelow, IsFirstAmong, IsBadAt};
ghost use Rattle.reference_models.specs.InnerOffsets.{IsFineAt};

use sparse_pattern::pattern::SparsityPatternFormatError;

/// Returns the first fault of the data, or `Ok` if it is valid. Goes through the offsets of all indices once for
/// each lane, up to the first fault.
pub fn pattern_fault(
    major_dim: usize,
    minor_dim: usize,
    offsets: &[usize],
    indices: &[usize],
) -> Result<(), SparsityPatternFormatError>
    ensures valid { OnOk result (IsValid (raw_of major_dim minor_dim offsets.now indices.now)) }
    ensures fault { IfErr result
        (IsFirstFault (raw_of major_dim minor_dim offsets.now indices.now)) }
{
    if major_dim == usize::MAX || offsets.len() != major_dim + 1 {
        return Err(SparsityPatternFormatError::InvalidOffsetArrayLength);
    }
    if offsets[0] != 0 || offsets[major_dim] != indices.len() {
        return Err(SparsityPatternFormatError::InvalidOffsetFirstLast);
    }
    for lane in 0..major_dim {
        let start = offsets[lane];
        let end = offsets[lane + 1];
        if end < start || indices.len() < end {
            return Err(SparsityPatternFormatError::NonmonotonicOffsets);
        }
        lane_fault(minor_dim, indices, start, end)?;
    }
    Ok(())
}

// Goes through all offsets up to the first fault, and skips those outside the lane.
fn lane_fault(
    minor_dim: usize,
    indices: &[usize],
    start: usize,
    end: usize,
) -> Result<(), SparsityPatternFormatError>
    requires { end ≤ length indices.now }
    ensures ok { OnOk result (IsRisingBelow minor_dim indices.now start end) }
    ensures fault { IfErr result (IsFirstAmong minor_dim indices.now start end) }
{
    for at in 0..indices.len() {
        if start <= at && at < end {
            offset_fault(minor_dim, indices, start, at)?;
        }
    }
    Ok(())
}

// Tests whether an index is in bounds, then whether it is greater than the one before it in its lane.
fn offset_fault(
    minor_dim: usize,
    indices: &[usize],
    start: usize,
    at: usize,
) -> Result<(), SparsityPatternFormatError>
    requires { at < length indices.now }
    ensures fine { OnOk result (IsFineAt minor_dim indices.now start at) }
    ensures fault { IfErr result (IsBadAt minor_dim indices.now start at) }
{
    if indices[at] >= minor_dim {
        return Err(SparsityPatternFormatError::MinorIndexOutOfBounds);
    }
    if at <= start {
        return Ok(());
    }
    if indices[at] < indices[at - 1] {
        return Err(SparsityPatternFormatError::NonmonotonicMinorIndices);
    }
    if indices[at] == indices[at - 1] {
        return Err(SparsityPatternFormatError::DuplicateEntry);
    }
    Ok(())
}
