//! Sums and differences of matrices.

ghost use Rattle.std.specs.Prelude.{◌≡◌, ◌<◌, [], IfOk, OnOk};
ghost use Rattle.sparse_algebra.specs.Plain.{plain_sum, plain_difference};
ghost use Rattle.sparse_compressed.specs.Compressed.{IsSound};
ghost use Rattle.sparse_compressed.specs.Lanes.{lane_at};
ghost use Rattle.sparse_compressed.specs.PlainOfLanes.{plain_of_rows, plain_of_cols};
ghost use Rattle.sparse_sums.specs.InnerAdding.{GainsLanes, with_arrays};
ghost use Rattle.sparse_sums.specs.InnerSigns.{plain_signed};

use crate::merge::append_sum;
use crate::room::estimated_union;
use sparse_algebra::scalar::Ring;
use sparse_compressed::CsMatrix;
use sparse_csr_csc::csc::CscMatrix;
use sparse_csr_csc::csr::CsrMatrix;
use sparse_pattern::pattern::SparsityPattern;
use std::alloc::{AllocError, Global};

/// Returns the sum `a + b`.
///
/// The result has an entry wherever `a` or `b` has one, even if the sum is zero. Both matrices must have the same
/// shape.
///
/// Merges two sorted rows for each row of the result. Time is linear in the number of entries and rows. Memory is
/// reserved by an estimate from a sample of the rows, and grows if the result has more entries. Fails only if an
/// allocation fails.
///
/// # Examples
///
/// ```rust
/// fn a_matrix_is_doubled(alloc: Global) -> Result<bool, Fail> {
///     let identity = CsrMatrix::<W64>::identity(alloc, 2)?;
///     let double = add_csr(alloc, &identity, &identity)?;
///     Ok(double == scale_csr(alloc, &identity, W64::new(2))?)
/// }
/// ```
pub fn add_csr<T: Ring>(
    alloc: Global,
    a: &CsrMatrix<T>,
    b: &CsrMatrix<T>,
) -> Result<CsrMatrix<T>, AllocError>
    requires rows { a.now.pattern.major_dim ≡ b.now.pattern.major_dim }
    requires cols { a.now.pattern.minor_dim ≡ b.now.pattern.minor_dim }
    ensures { IfOk result (λ m. plain_of_rows T.ring T.value m
        ≡ plain_sum T.ring (plain_of_rows T.ring T.value a.now)
        (plain_of_rows T.ring T.value b.now)) }
{
    Ok(CsrMatrix::from_cs(sum_or_difference::<T, false>(alloc, a.cs(), b.cs())?))
}

/// Returns the difference `a - b`.
///
/// The result has an entry wherever `a` or `b` has one, even if the difference is zero. Both matrices must have the
/// same shape.
///
/// Time, memory and errors are those of [`add_csr`].
///
/// # Examples
///
/// ```rust
/// fn a_difference_stores_zeros(alloc: Global) -> Result<bool, Fail> {
///     let identity = CsrMatrix::<W64>::identity(alloc, 1)?;
///     let zeros = sub_csr(alloc, &identity, &identity)?;
///     Ok(zeros.values() == [W64::new(0)].as_slice())
/// }
/// ```
pub fn sub_csr<T: Ring>(
    alloc: Global,
    a: &CsrMatrix<T>,
    b: &CsrMatrix<T>,
) -> Result<CsrMatrix<T>, AllocError>
    requires rows { a.now.pattern.major_dim ≡ b.now.pattern.major_dim }
    requires cols { a.now.pattern.minor_dim ≡ b.now.pattern.minor_dim }
    ensures { IfOk result (λ m. plain_of_rows T.ring T.value m
        ≡ plain_difference T.ring (plain_of_rows T.ring T.value a.now)
        (plain_of_rows T.ring T.value b.now)) }
{
    Ok(CsrMatrix::from_cs(sum_or_difference::<T, true>(alloc, a.cs(), b.cs())?))
}

/// Returns the sum `a + b`.
///
/// The result has an entry wherever `a` or `b` has one, even if the sum is zero. Both matrices must have the same
/// shape.
///
/// Merges two sorted columns for each column of the result. Time is linear in the number of entries and columns. Memory
/// is reserved by an estimate from a sample of the columns, and grows if the result has more entries. Fails only if an
/// allocation fails.
pub fn add_csc<T: Ring>(
    alloc: Global,
    a: &CscMatrix<T>,
    b: &CscMatrix<T>,
) -> Result<CscMatrix<T>, AllocError>
    requires rows { a.now.pattern.minor_dim ≡ b.now.pattern.minor_dim }
    requires cols { a.now.pattern.major_dim ≡ b.now.pattern.major_dim }
    ensures { IfOk result (λ m. plain_of_cols T.ring T.value m
        ≡ plain_sum T.ring (plain_of_cols T.ring T.value a.now)
        (plain_of_cols T.ring T.value b.now)) }
{
    Ok(CscMatrix::from_cs(sum_or_difference::<T, false>(alloc, a.cs(), b.cs())?))
}

/// Returns the difference `a - b`.
///
/// The result has an entry wherever `a` or `b` has one, even if the difference is zero. Both matrices must have the
/// same shape.
///
/// Time, memory and errors are those of [`add_csc`].
pub fn sub_csc<T: Ring>(
    alloc: Global,
    a: &CscMatrix<T>,
    b: &CscMatrix<T>,
) -> Result<CscMatrix<T>, AllocError>
    requires rows { a.now.pattern.minor_dim ≡ b.now.pattern.minor_dim }
    requires cols { a.now.pattern.major_dim ≡ b.now.pattern.major_dim }
    ensures { IfOk result (λ m. plain_of_cols T.ring T.value m
        ≡ plain_difference T.ring (plain_of_cols T.ring T.value a.now)
        (plain_of_cols T.ring T.value b.now)) }
{
    Ok(CscMatrix::from_cs(sum_or_difference::<T, true>(alloc, a.cs(), b.cs())?))
}

// Returns the sum of two matrices with the same shape, or their difference if `NEGATE`.
#[tactic(auto, using(sparse_algebra::proofs::EarlyReturns::early_return))]
fn sum_or_difference<T: Ring, const NEGATE: bool>(
    alloc: Global,
    a: &CsMatrix<T>,
    b: &CsMatrix<T>,
) -> Result<CsMatrix<T>, AllocError>
    requires lanes { a.now.pattern.major_dim ≡ b.now.pattern.major_dim }
    requires width { a.now.pattern.minor_dim ≡ b.now.pattern.minor_dim }
    ensures { IfOk result (λ m. plain_of_rows T.ring T.value m
        ≡ plain_sum T.ring (plain_of_rows T.ring T.value a.now)
        (plain_signed T.ring NEGATE (plain_of_rows T.ring T.value b.now))) }
{
    let (first, second) = (a.pattern(), b.pattern());
    let room = estimated_union(first, second);
    let mut offsets = Vec::with_capacity(alloc, first.major_offsets().len())?;
    let mut indices = Vec::with_capacity(alloc, room)?;
    let mut values = Vec::with_capacity(alloc, room)?;
    append_lanes::<T, NEGATE>(a, b, &mut offsets, &mut indices, &mut values)?;
    let pattern = SparsityPattern::from_offset_and_indices_unchecked(
        first.major_dim(),
        first.minor_dim(),
        offsets,
        indices,
    );
    Ok(CsMatrix::from_pattern_and_values(pattern, values))
}

// Appends all lanes of the sum or the difference to empty arrays. This function and `append_lane` are inlined, because
// a call takes as long as a short lane.
#[tactic(auto, using(sparse_algebra::proofs::EarlyReturns::early_return))]
#[inline(always)]
fn append_lanes<T: Ring, const NEGATE: bool>(
    a: &CsMatrix<T>,
    b: &CsMatrix<T>,
    offsets: &mut Vec<usize>,
    indices: &mut Vec<usize>,
    values: &mut Vec<T>,
) -> Result<(), AllocError>
    requires lanes { a.now.pattern.major_dim ≡ b.now.pattern.major_dim }
    requires width { a.now.pattern.minor_dim ≡ b.now.pattern.minor_dim }
    requires sound { IsSound b.now }
    requires no_offsets { offsets.old.items ≡ [] }
    requires no_indices { indices.old.items ≡ [] }
    requires no_values { values.old.items ≡ [] }
    ensures sound { OnOk result (IsSound (with_arrays a.now offsets.new.items indices.new.items
        values.new.items)) }
    ensures sum { OnOk result (plain_of_rows T.ring T.value
        (with_arrays a.now offsets.new.items indices.new.items values.new.items)
        ≡ plain_sum T.ring (plain_of_rows T.ring T.value a.now)
        (plain_signed T.ring NEGATE (plain_of_rows T.ring T.value b.now))) }
{
    offsets.push(0)?;
    for i in 0..a.pattern().major_dim() {
        append_lane::<T, NEGATE>(a, b, i, indices, values)?;
        offsets.push(indices.len())?;
    }
    Ok(())
}

// Appends lane i of the sum or the difference.
#[inline(always)]
fn append_lane<T: Ring, const NEGATE: bool>(
    a: &CsMatrix<T>,
    b: &CsMatrix<T>,
    i: usize,
    indices: &mut Vec<usize>,
    values: &mut Vec<T>,
) -> Result<(), AllocError>
    requires first { i < a.now.pattern.major_dim }
    requires second { i < b.now.pattern.major_dim }
    ensures gained { OnOk result (GainsLanes T.ring T.value NEGATE (lane_at a.now i)
        (lane_at b.now i) indices.old.items indices.new.items values.old.items values.new.items) }
{
    let (first, second) = (a.lane(i), b.lane(i));
    append_sum::<T, NEGATE>(
        first.minor_indices(),
        first.values(),
        second.minor_indices(),
        second.values(),
        indices,
        values,
    )
}
