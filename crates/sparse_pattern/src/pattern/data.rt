//! Conversions between patterns and their data struct.

ghost use Rattle.std.specs.Prelude.{◌≡◌, IfOk, IfErr, IsOk, OnOk};
ghost use Rattle.sparse_pattern.specs.Raw.{IsValid};
ghost use Rattle.sparse_pattern.specs.PatternFaults.{IsFirstFault};
ghost use Rattle.sparse_pattern.specs.PatternData.{pattern_in};

use crate::pattern::{SparsityPattern, SparsityPatternFormatError};
use sparse_serde_pattern::PatternData;
use std::alloc::{AllocError, Global};

impl SparsityPattern {
    /// Returns the pattern of the data, or its first fault, as [`SparsityPattern::try_from_offsets_and_indices`] does.
    ///
    /// Linear in the number of lanes and indices. Allocates nothing. Invalid data is dropped.
    pub fn try_from_data(source: PatternData) -> Result<SparsityPattern, SparsityPatternFormatError>
        ensures ok { IfOk result (λ p. p ≡ pattern_in source) }
        ensures valid { OnOk result (IsValid (pattern_in source)) }
        ensures fault { IfErr result (IsFirstFault (pattern_in source)) }
        ensures accepted { IsValid (pattern_in source) → IsOk result }
    {
        SparsityPattern::try_from_offsets_and_indices(
            source.major_dim,
            source.minor_dim,
            source.major_offsets,
            source.minor_indices,
        )
    }

    /// Returns the dimensions and copies of the offsets and the indices. Fails only if an allocation fails.
    ///
    /// # Examples
    ///
    /// ```rust
    /// fn data_becomes_the_same_pattern(alloc: Global) -> Result<bool, Fail> {
    ///     let pattern = SparsityPattern::zeros(alloc, 1, 2)?;
    ///     let data = pattern.to_data(alloc)?;
    ///     Ok(data.minor_dim == 2 && SparsityPattern::try_from_data(data)? == pattern)
    /// }
    /// ```
    pub fn to_data(&self, alloc: Global) -> Result<PatternData, AllocError>
        ensures is { IfOk result (λ d. pattern_in d ≡ self.now) }
        ensures valid { IsValid self.now }
    {
        Ok(PatternData {
            major_dim: self.major_dim(),
            minor_dim: self.minor_dim(),
            major_offsets: Vec::from_slice(alloc, self.major_offsets())?,
            minor_indices: Vec::from_slice(alloc, self.minor_indices())?,
        })
    }
}
