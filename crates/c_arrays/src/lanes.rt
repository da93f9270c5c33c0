//! Compressed matrices from arrays that C passes.

ghost use Rattle.std.specs.Prelude.{◌≡◌, IfOk, IfErr, OnOk};
ghost use Rattle.sparse_pattern.specs.Raw.{IsValid, raw_of};
ghost use Rattle.sparse_compressed.specs.Compressed.{arrays_of, IsSound};
ghost use Rattle.sparse_compressed.specs.PlainOfLanes.{plain_of_rows, plain_of_cols};
ghost use Rattle.c_arrays.specs.Arrays.{plain_by_rows, plain_by_cols};
ghost use Rattle.c_arrays.specs.Refused.{IsFaultOf, IsFaultOfPattern, IsOutOfMemoryOr};

use crate::number::Number;
use crate::refusal::Refusal;
use crate::scalars::scalars_of;
use sparse_csr_csc::csc::CscMatrix;
use sparse_csr_csc::csr::CsrMatrix;
use sparse_pattern::pattern::SparsityPattern;
use std::alloc::Global;
use std::marker::Model;

/// The arrays of a matrix by rows, or by columns, as C passes them. They may violate any rule of the format.
#[derive(Drop)]
pub struct Lanes<'a> {
    /// The number of rows, or of columns.
    pub major_dim: usize,
    /// The number of columns, or of rows.
    pub minor_dim: usize,
    /// The offsets of the rows, or of the columns.
    pub offsets: &'a [usize],
    /// The indices of the columns, or of the rows.
    pub indices: &'a [usize],
    /// The values.
    pub values: &'a [i64],
}

impl<'a> Model for Lanes<'a> {
    ghost use Rattle.std.specs.Prelude.{ℤ};
    ghost use Rattle.sparse_compressed.specs.Compressed.{Compressed, arrays_of};

    ghost Value = { Compressed ℤ };

    ghost view = { λ a. arrays_of a.major_dim a.minor_dim a.offsets.now a.indices.now a.values.now };
}

impl<'a> Lanes<'a> {
    /// Returns the matrix with these arrays by rows.
    ///
    /// # Errors
    ///
    /// Returns the error for the first fault of the arrays. Otherwise fails only if an allocation fails.
    pub fn rows<T: Number>(self, alloc: Global) -> Result<CsrMatrix<T>, Refusal>
        ensures pattern { IfOk result (λ m. m.pattern ≡ self.entry.pattern) }
        ensures plain { IfOk result (λ m. plain_of_rows T.ring T.value m
            ≡ plain_by_rows T.ring self.entry) }
        ensures sound { OnOk result (IsSound self.entry) }
        ensures fault { IfErr result (IsOutOfMemoryOr (IsFaultOf self.entry)) }
    {
        let (shape, values) = ((self.major_dim, self.minor_dim), self.values);
        rows_of(alloc, shape, self.offsets, self.indices, values)
    }

    /// Returns the matrix with these arrays by columns.
    ///
    /// # Errors
    ///
    /// Returns the error for the first fault of the arrays. Otherwise fails only if an allocation fails.
    pub fn columns<T: Number>(self, alloc: Global) -> Result<CscMatrix<T>, Refusal>
        ensures pattern { IfOk result (λ m. m.pattern ≡ self.entry.pattern) }
        ensures plain { IfOk result (λ m. plain_of_cols T.ring T.value m
            ≡ plain_by_cols T.ring self.entry) }
        ensures sound { OnOk result (IsSound self.entry) }
        ensures fault { IfErr result (IsOutOfMemoryOr (IsFaultOf self.entry)) }
    {
        let matrix = self.rows(alloc)?;
        Ok(matrix.transpose_as_csc())
    }
}

// Returns the matrix with these arrays by rows, which are copied.
fn rows_of<T: Number>(
    alloc: Global,
    shape: (usize, usize),
    offsets: &[usize],
    indices: &[usize],
    values: &[i64],
) -> Result<CsrMatrix<T>, Refusal>
    ensures pattern { IfOk result (λ m. m.pattern
        ≡ raw_of shape.0 shape.1 offsets.now indices.now) }
    ensures plain { IfOk result (λ m. plain_of_rows T.ring T.value m ≡ plain_by_rows T.ring
        (arrays_of shape.0 shape.1 offsets.now indices.now values.now)) }
    ensures sound { OnOk result
        (IsSound (arrays_of shape.0 shape.1 offsets.now indices.now values.now)) }
    ensures fault { IfErr result (IsOutOfMemoryOr (IsFaultOf
        (arrays_of shape.0 shape.1 offsets.now indices.now values.now))) }
{
    let offsets = offsets.to_vec(alloc)?;
    let indices = indices.to_vec(alloc)?;
    let values = scalars_of(alloc, values)?;
    let (rows, cols) = shape;
    Ok(CsrMatrix::try_from_csr_data(rows, cols, offsets, indices, values)?)
}

/// Returns the pattern with these arrays, which are copied.
///
/// # Errors
///
/// Returns the error for the first fault of the arrays. Otherwise fails only if an allocation fails.
pub fn pattern_of(
    alloc: Global,
    major_dim: usize,
    minor_dim: usize,
    offsets: &[usize],
    indices: &[usize],
) -> Result<SparsityPattern, Refusal>
    ensures is { IfOk result (λ d. d ≡ raw_of major_dim minor_dim offsets.now indices.now) }
    ensures valid { OnOk result (IsValid (raw_of major_dim minor_dim offsets.now indices.now)) }
    ensures fault { IfErr result (IsOutOfMemoryOr
        (IsFaultOfPattern (raw_of major_dim minor_dim offsets.now indices.now))) }
{
    let offsets = offsets.to_vec(alloc)?;
    let indices = indices.to_vec(alloc)?;
    Ok(SparsityPattern::try_from_offsets_and_indices(major_dim, minor_dim, offsets, indices)?)
}
