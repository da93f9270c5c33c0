//! Square patterns that the tests begin with.

ghost use Rattle.std.specs.Prelude.{◌≡◌, IfOk};

use sparse_pattern::pattern::{SparsityPattern, SparsityPatternFormatError};
use std::alloc::{AllocError, Global};

/// The columns of a pattern, one after another.
#[derive(Drop)]
pub struct Columns {
    offsets: Vec<usize>,
    indices: Vec<usize>,
}

impl Columns {
    /// Returns no columns.
    pub fn new(alloc: Global) -> Result<Columns, AllocError> {
        Columns::from_slices(alloc, &[0], &[])
    }

    /// Returns the columns of these arrays.
    pub fn from_slices(
        alloc: Global,
        offsets: &[usize],
        indices: &[usize],
    ) -> Result<Columns, AllocError> {
        Ok(Columns {
            offsets: Vec::from_slice(alloc, offsets)?,
            indices: Vec::from_slice(alloc, indices)?,
        })
    }

    /// Adds a row to the last column.
    pub fn push(&mut self, row: usize) -> Result<(), AllocError> {
        self.indices.push(row)?;
        Ok(())
    }

    /// Ends a column.
    pub fn end(&mut self) -> Result<(), AllocError> {
        self.offsets.push(self.indices.len())?;
        Ok(())
    }

    /// Returns the square pattern of the columns.
    pub fn square(self, size: usize) -> Result<SparsityPattern, SparsityPatternFormatError>
        ensures rows { IfOk result (λ p. p.minor_dim ≡ size) }
        ensures columns { IfOk result (λ p. p.major_dim ≡ size) }
    {
        SparsityPattern::try_from_offsets_and_indices(size, size, self.offsets, self.indices)
    }
}
