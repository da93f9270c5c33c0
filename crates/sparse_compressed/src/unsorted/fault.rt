//! The faults of arrays whose lanes need not be sorted.

ghost use Rattle.std.specs.Prelude.{◌≡◌};
ghost use Rattle.sparse_compressed.specs.InnerUnsortedFaults.{fault_kind};

use sparse_pattern::error::{SparseFormatError, SparseFormatErrorKind};
use std::alloc::AllocError;

// A fault of arrays whose lanes need not be sorted, with the lane where there is one; or that an allocation failed.
#[derive(Clone, Copy)]
pub(super) enum UnsortedFault {
    ValueCount,
    NoOffsets,
    OffsetCount,
    FirstLast,
    LaneFall(usize),
    LaneEnd(usize),
    LaneBounds(usize),
    LaneRepeat(usize),
    Memory,
}

impl UnsortedFault {
    // Returns the error that reports the fault.
    pub(super) fn error(self) -> SparseFormatError
        ensures { result ≡ fault_kind self }
    {
        SparseFormatError::new(self.kind(), self.message())
    }

    fn kind(self) -> SparseFormatErrorKind
        ensures { result ≡ fault_kind self }
    {
        match self {
            UnsortedFault::ValueCount
            | UnsortedFault::NoOffsets
            | UnsortedFault::OffsetCount
            | UnsortedFault::FirstLast
            | UnsortedFault::LaneFall(_) => SparseFormatErrorKind::InvalidStructure,
            UnsortedFault::LaneEnd(_) | UnsortedFault::LaneBounds(_) => {
                SparseFormatErrorKind::IndexOutOfBounds
            }
            UnsortedFault::LaneRepeat(_) => SparseFormatErrorKind::DuplicateEntry,
            UnsortedFault::Memory => SparseFormatErrorKind::OutOfMemory,
        }
    }

    fn message(self) -> &'static str {
        match self {
            UnsortedFault::ValueCount => "Number of values and minor indices must be the same.",
            UnsortedFault::NoOffsets => "Number of offsets should be greater than 0.",
            UnsortedFault::OffsetCount => {
                "Length of offset array is not equal to (major_dim + 1)."
            }
            UnsortedFault::FirstLast => "First or last offset is incompatible with format.",
            UnsortedFault::LaneFall(_) => "Offsets are not monotonically increasing.",
            UnsortedFault::LaneEnd(_) => "A major offset is out of bounds.",
            UnsortedFault::LaneBounds(_) => "A minor index is out of bounds.",
            UnsortedFault::LaneRepeat(_) => "Input data contains duplicate entries.",
            UnsortedFault::Memory => "Out of memory.",
        }
    }
}

impl From<AllocError> for UnsortedFault {
    ghost use Rattle.sparse_compressed.specs.declared.unsorted.fault.UnsortedFault.TheVariants.{Memory};

    ghost from_gives = { λ _ fault. fault ≡ Memory };

    fn from(_refused: AllocError) -> UnsortedFault {
        UnsortedFault::Memory
    }
}
