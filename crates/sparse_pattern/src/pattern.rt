//! Sparsity patterns of CSR and CSC matrices.

ghost use Rattle.std.specs.Prelude.{◌≡◌, ◌<◌, ◌↔◌, length, IfOk, IfErr, IfSome, IsOk, IsSome};
ghost use Rattle.std.specs.Prelude.{IsTrue, OnOk};
ghost use Rattle.sparse_pattern.specs.Raw.{IsValid, IsValidLane, raw_of, empty_raw, lane_of};
ghost use Rattle.sparse_pattern.specs.Raw.{start_of, end_of, raw_eq, HasSameEntries};
ghost use Rattle.sparse_pattern.specs.PatternFaults.{IsFirstFault};

use std::alloc::{AllocError, Global};
use std::marker::Model;

mod data;
mod faults;
mod iter;
mod transpose;

pub use faults::{SparsityPatternFormatError, check, one_first_fault};
pub use iter::SparsityPatternIter;

/// The pattern of a compressed matrix: the minor indices of its entries, lane by lane. The lanes are the rows of a CSR
/// matrix or the columns of a CSC matrix.
///
/// The offsets start with 0, never decrease, and end with the number of indices. The minor indices of each lane are
/// strictly increasing and less than `minor_dim`.
///
/// # Examples
///
/// ```rust
/// fn lanes_are_read(alloc: Global) -> Result<bool, Fail> {
///     let offsets = Vec::from_slice(alloc, &[0, 2, 3])?;
///     let indices = Vec::from_slice(alloc, &[0, 2, 1])?;
///     let pattern = SparsityPattern::try_from_offsets_and_indices(2, 3, offsets, indices)?;
///     Ok(pattern.get_lane(0) == Some([0, 2].as_slice()))
/// }
/// ```
#[derive(Debug, Drop)]
pub struct SparsityPattern {
    major_offsets: Vec<usize>,
    minor_indices: Vec<usize>,
    minor_dim: usize,
}

impl Model for SparsityPattern {
    ghost use Rattle.std.specs.Prelude.{◌-◌, length};
    ghost use Rattle.sparse_pattern.specs.Raw.{Raw, IsValid, raw_of};

    ghost Value = { Raw };

    ghost view = { λ p. raw_of (length p.major_offsets.items - 1) p.minor_dim
        p.major_offsets.items p.minor_indices.items };

    ghost invariant = { λ p. IsValid (raw_of (length p.major_offsets.items - 1) p.minor_dim
        p.major_offsets.items p.minor_indices.items) };
}

impl SparsityPattern {
    /// Returns a pattern without entries.
    ///
    /// Allocates `major_dim + 1` offsets. Fails only if that allocation fails.
    pub fn zeros(alloc: Global, major_dim: usize, minor_dim: usize) -> Result<Self, AllocError>
        ensures is { IfOk result (λ p. p ≡ empty_raw major_dim minor_dim) }
        ensures valid { OnOk result (IsValid (empty_raw major_dim minor_dim)) }
    {
        let offset_count = major_dim.checked_add(1).ok_or(AllocError)?;
        Ok(SparsityPattern {
            major_offsets: vec![in alloc; 0; offset_count]?,
            minor_indices: Vec::new(alloc),
            minor_dim,
        })
    }

    /// Returns the pattern described by the offsets and the indices.
    ///
    /// Linear in the number of lanes and indices. Allocates nothing.
    ///
    /// # Errors
    ///
    /// Returns the first fault in this order: the number of offsets; the first and the last offset; then for each lane
    /// its end offset and its indices, each compared first with `minor_dim` and then with the index before it. The
    /// arrays are dropped.
    ///
    /// # Examples
    ///
    /// ```rust
    /// fn an_index_is_out_of_bounds(alloc: Global) -> Result<bool, Fail> {
    ///     let offsets = Vec::from_slice(alloc, &[0, 1])?;
    ///     let indices = Vec::from_slice(alloc, &[3])?;
    ///     let refused = SparsityPattern::try_from_offsets_and_indices(1, 3, offsets, indices).err();
    ///     Ok(refused == Some(SparsityPatternFormatError::MinorIndexOutOfBounds))
    /// }
    /// ```
    pub fn try_from_offsets_and_indices(
        major_dim: usize,
        minor_dim: usize,
        major_offsets: Vec<usize>,
        minor_indices: Vec<usize>,
    ) -> Result<Self, SparsityPatternFormatError>
        ensures ok { IfOk result (λ p. p
            ≡ raw_of major_dim minor_dim major_offsets.items minor_indices.items) }
        ensures valid { OnOk result (IsValid
            (raw_of major_dim minor_dim major_offsets.items minor_indices.items)) }
        ensures fault { IfErr result (IsFirstFault
            (raw_of major_dim minor_dim major_offsets.items minor_indices.items)) }
        ensures accepted { IsValid (raw_of major_dim minor_dim major_offsets.items minor_indices.items)
            → IsOk result }
    {
        faults::check(major_dim, minor_dim, &major_offsets, &minor_indices)?;
        Ok(SparsityPattern {
            major_offsets,
            minor_indices,
            minor_dim,
        })
    }

    /// Returns the offset of the first index of each lane, followed by the number of indices.
    pub fn major_offsets(&self) -> &[usize]
        ensures offsets { result.now ≡ self.now.offsets }
        ensures valid { IsValid self.now }
    {
        &self.major_offsets
    }

    /// Returns the minor indices of all lanes, lane by lane.
    pub fn minor_indices(&self) -> &[usize]
        ensures indices { result.now ≡ self.now.indices }
        ensures valid { IsValid self.now }
    {
        &self.minor_indices
    }

    /// Returns the number of lanes.
    pub fn major_dim(&self) -> usize
        ensures { result ≡ self.now.major_dim }
    {
        self.major_offsets.len() - 1
    }

    /// Returns the number of possible minor indices.
    pub fn minor_dim(&self) -> usize
        ensures { result ≡ self.now.minor_dim }
    {
        self.minor_dim
    }

    /// Returns the number of entries.
    pub fn nnz(&self) -> usize
        ensures { result ≡ length self.now.indices }
    {
        self.minor_indices.len()
    }

    /// Returns the minor indices of a lane. `major_index` must be less than `major_dim()`.
    pub fn lane(&self, major_index: usize) -> &[usize]
        requires { major_index < self.now.major_dim }
        ensures { result.now ≡ lane_of self.now major_index }
    {
        let (begin, end) = self.lane_bounds(major_index);
        &self.minor_indices[begin..end]
    }

    /// Returns the minor indices of a lane, or `None` if `major_index` is out of bounds.
    pub fn get_lane(&self, major_index: usize) -> Option<&[usize]>
        ensures bounds { IsSome result ↔ (major_index < self.now.major_dim) }
        ensures lane { IfSome result (λ lane. lane.now ≡ lane_of self.now major_index) }
    {
        if major_index < self.major_dim() {
            Some(self.lane(major_index))
        } else {
            None
        }
    }

    /// Returns the offsets and the indices, and consumes the pattern.
    pub fn disassemble(self) -> (Vec<usize>, Vec<usize>)
        ensures offsets { result.0.items ≡ self.offsets }
        ensures indices { result.1.items ≡ self.indices }
        ensures valid { IsValid self }
    {
        let SparsityPattern {
            major_offsets,
            minor_indices,
            minor_dim: _,
        } = self;
        (major_offsets, minor_indices)
    }

    /// Returns the pattern described by the offsets and the indices, without checking them.
    ///
    /// The data must be valid: [`SparsityPattern::try_from_offsets_and_indices`] would accept it. The contract requires
    /// a proof of this.
    pub fn from_offset_and_indices_unchecked(
        major_dim: usize,
        minor_dim: usize,
        major_offsets: Vec<usize>,
        minor_indices: Vec<usize>,
    ) -> Self
        requires { IsValid (raw_of major_dim minor_dim major_offsets.items minor_indices.items) }
        ensures { result ≡ raw_of major_dim minor_dim major_offsets.items minor_indices.items }
    {
        // The number of lanes is the number of offsets minus one; only the contract uses this argument.
        let _ = major_dim;
        SparsityPattern {
            major_offsets,
            minor_indices,
            minor_dim,
        }
    }

    /// Returns a copy. Fails only if an allocation fails.
    pub fn clone(&self, alloc: Global) -> Result<Self, AllocError>
        ensures { IfOk result (λ p. p ≡ self.now) }
    {
        Ok(SparsityPattern {
            major_offsets: Vec::from_slice(alloc, &self.major_offsets)?,
            minor_indices: Vec::from_slice(alloc, &self.minor_indices)?,
            minor_dim: self.minor_dim,
        })
    }

    /// Returns the offsets at which a lane begins and ends. `lane` must be less than `major_dim()`.
    #[doc(hidden)]
    pub fn lane_bounds(&self, lane: usize) -> (usize, usize)
        requires { lane < self.now.major_dim }
        ensures start { result.0 ≡ start_of self.now lane }
        ensures end { result.1 ≡ end_of self.now lane }
        ensures lane { IsValidLane self.now lane }
    {
        let offsets = self.major_offsets();
        (offsets[lane], offsets[lane + 1])
    }
}

impl PartialEq for SparsityPattern {
    ghost use Rattle.std.specs.Cmp.Rules.{comparing};
    ghost use Rattle.std.proofs.Common.{rules};
    ghost use Rattle.sparse_pattern.specs.Raw.{raw_eq};

    ghost eq = { raw_eq };

    ghost laws = { Prim.search (comparing, rules) };

    fn eq(&self, other: &Self) -> bool
        ensures value { result ≡ raw_eq self.now other.now }
        ensures entries { IsTrue result ↔ HasSameEntries self.now other.now }
    {
        self.minor_dim == other.minor_dim
            && self.major_offsets == other.major_offsets
            && self.minor_indices == other.minor_indices
    }
}

impl Eq for SparsityPattern {
    ghost use Rattle.std.specs.Cmp.Rules.{comparing};
    ghost use Rattle.std.proofs.Common.{rules};

    ghost laws = { Prim.search (comparing, rules) };
}
