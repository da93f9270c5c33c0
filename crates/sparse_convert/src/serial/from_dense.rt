//! Conversions from dense matrices. They store the values that are not `==` to zero.

ghost use Rattle.std.specs.Prelude.{◌≡◌, ◌+◌, ◌*◌, ◌<◌, ◌^◌, ◌++◌, ℕ, IfOk, OnOk, length, map, not};
ghost use Rattle.std.specs.Prelude.{slice_index_or};
ghost use Rattle.std.specs.List.{filter};
ghost use Rattle.sparse_coo_dense.specs.Coo.{coo_of, appended};
ghost use Rattle.sparse_coo_dense.specs.Dense.{Dense};
ghost use Rattle.sparse_coo_dense.specs.DensePlain.{plain_of_dense};
ghost use Rattle.sparse_algebra.specs.Plain.{below};
ghost use Rattle.sparse_compressed.specs.Compressed.{Compressed, IsSound};
ghost use Rattle.sparse_compressed.specs.Compressed.{lane_triplets, transposed};
ghost use Rattle.sparse_coo_dense.specs.CooPlain.{plain_of_coo};
ghost use Rattle.sparse_compressed.specs.PlainOfLanes.{plain_of_rows, plain_of_cols};
ghost use Rattle.sparse_convert.specs.FromDense.{full_lanes, row_triplets, column_triplets};
ghost use Rattle.sparse_convert.specs.FromDense.{differs_from, IsNonzeroPart};

use sparse_algebra::scalar::{Ring, Zero};
use sparse_compressed::CsMatrix;
use sparse_coo_dense::coo::CooMatrix;
use sparse_coo_dense::dense::DMatrix;
use sparse_csr_csc::csc::CscMatrix;
use sparse_csr_csc::csr::CsrMatrix;
use sparse_pattern::pattern::SparsityPattern;
use std::alloc::{AllocError, Global};

/// Returns a triplet for each value that is not `==` to zero, column by column.
///
/// One pass over the values. Fails only if an allocation fails.
pub fn convert_dense_coo<T: Zero + Copy>(
    alloc: Global,
    dense: &DMatrix<T>,
) -> Result<CooMatrix<T>, AllocError>
    ensures { IfOk result (λ m. m ≡ coo_of dense.now.nrows dense.now.ncols
        (filter (differs_from T.eq T.zero_value) (column_triplets T.zero_value dense.now))) }
{
    let mut coo = CooMatrix::new(alloc, dense.nrows(), dense.ncols());
    // A matrix without rows takes no time, even if it has columns.
    if dense.nrows() == 0 {
        return Ok(coo);
    }
    for j in 0..dense.ncols() {
        push_column(&mut coo, j, dense.column(j))?;
    }
    Ok(coo)
}

// Appends the triplets of the nonzero values of a column.
fn push_column<T: Zero + Copy>(
    coo: &mut CooMatrix<T>,
    j: usize,
    column: &[T],
) -> Result<(), AllocError>
    requires rows { length column.now ≡ coo.old.nrows }
    requires col { j < coo.old.ncols }
    ensures { OnOk result (coo.new ≡ appended coo.old (filter (differs_from T.eq T.zero_value)
        (map (λ i. (i, j, slice_index_or column.now i T.zero_value))
        (below (length column.now))))) }
{
    for (i, value) in column.iter().enumerate() {
        if *value != T::zero() {
            coo.push(i, j, *value)?;
        }
    }
    Ok(())
}

/// Returns the CSC matrix of the values that are not `==` to zero.
///
/// One pass over the values. Fails only if an allocation fails.
#[tactic(auto, using(sparse_algebra::proofs::EarlyReturns::early_return))]
pub fn convert_dense_csc<T: Zero + Copy>(
    alloc: Global,
    dense: &DMatrix<T>,
) -> Result<CscMatrix<T>, AllocError>
    ensures rows { IfOk result (λ m. m.pattern.minor_dim ≡ dense.now.nrows) }
    ensures cols { IfOk result (λ m. m.pattern.major_dim ≡ dense.now.ncols) }
    ensures kept { IfOk result (λ m. map transposed (lane_triplets m)
        ≡ filter (differs_from T.eq T.zero_value) (column_triplets T.zero_value dense.now)) }
    ensures sound { IfOk result IsSound }
{
    let (nrows, ncols) = (dense.nrows(), dense.ncols());
    let cs = compress_lanes(alloc, ncols, nrows, nrows, 1, dense.as_slice())?;
    Ok(CscMatrix::from_cs(cs))
}

/// Returns the CSR matrix of the values that are not `==` to zero.
///
/// One pass over the values. Fails only if an allocation fails.
///
/// # Examples
///
/// ```rust
/// fn zeros_are_not_stored(alloc: Global) -> Result<bool, Fail> {
///     let dense = DMatrix::from_row_slice(alloc, 1, 2, &[W64::new(0), W64::new(4)])?;
///     let csr = convert_dense_csr(alloc, &dense)?;
///     Ok(csr.col_indices() == [1].as_slice())
/// }
/// ```
#[tactic(auto, using(sparse_algebra::proofs::EarlyReturns::early_return))]
pub fn convert_dense_csr<T: Zero + Copy>(
    alloc: Global,
    dense: &DMatrix<T>,
) -> Result<CsrMatrix<T>, AllocError>
    ensures rows { IfOk result (λ m. m.pattern.major_dim ≡ dense.now.nrows) }
    ensures cols { IfOk result (λ m. m.pattern.minor_dim ≡ dense.now.ncols) }
    ensures kept { IfOk result (λ m. lane_triplets m
        ≡ filter (differs_from T.eq T.zero_value) (row_triplets T.zero_value dense.now)) }
    ensures sound { IfOk result IsSound }
{
    let (nrows, ncols) = (dense.nrows(), dense.ncols());
    let cs = compress_lanes(alloc, nrows, ncols, 1, nrows, dense.as_slice())?;
    Ok(CsrMatrix::from_cs(cs))
}

// Returns the compressed matrix of the nonzero values. Lane i has at minor index k the value
// `values[i * lane_step + k * step]`.
#[tactic(auto, using(sparse_algebra::proofs::EarlyReturns::early_return))]
fn compress_lanes<T: Zero + Copy>(
    alloc: Global,
    major_dim: usize,
    minor_dim: usize,
    lane_step: usize,
    step: usize,
    values: &[T],
) -> Result<CsMatrix<T>, AllocError>
    requires starts { (i : ℕ) → i < major_dim → i * lane_step < 2 ^ 64 }
    requires inside { (i k : ℕ) → i < major_dim → k < minor_dim
        → i * lane_step + k * step < length values.now }
    ensures major_dim { IfOk result (λ m. m.pattern.major_dim ≡ major_dim) }
    ensures minor_dim { IfOk result (λ m. m.pattern.minor_dim ≡ minor_dim) }
    ensures kept { IfOk result (λ m. lane_triplets m ≡ filter (differs_from T.eq T.zero_value)
        (full_lanes major_dim minor_dim
        (λ i k. slice_index_or values.now (i * lane_step + k * step) T.zero_value))) }
    ensures sound { IfOk result IsSound }
{
    let mut offsets = Vec::with_capacity(alloc, major_dim.saturating_add(1))?;
    let mut indices = Vec::new(alloc);
    let mut kept = Vec::new(alloc);
    offsets.push(0)?;
    for lane in 0..major_dim {
        let start = lane * lane_step;
        push_lane(values, start, step, minor_dim, &mut indices, &mut kept)?;
        offsets.push(indices.len())?;
    }
    let pattern = SparsityPattern::from_offset_and_indices_unchecked(
        major_dim, minor_dim, offsets, indices,
    );
    Ok(CsMatrix::from_pattern_and_values(pattern, kept))
}

// Appends the indices and values of the nonzero values of a lane, whose value at minor index k is
// `values[start + k * step]`.
#[tactic(auto, using(sparse_algebra::proofs::EarlyReturns::early_return))]
fn push_lane<T: Zero + Copy>(
    values: &[T],
    start: usize,
    step: usize,
    count: usize,
    indices: &mut Vec<usize>,
    kept: &mut Vec<T>,
) -> Result<(), AllocError>
    requires { (k : ℕ) → k < count → start + k * step < length values.now }
    ensures indices { OnOk result (indices.new.items ≡ indices.old.items
        ++ filter (λ k. not (T.eq (slice_index_or values.now (start + k * step) T.zero_value)
        T.zero_value)) (below count)) }
    ensures kept { OnOk result
        (kept.new.items ≡ kept.old.items
        ++ map (λ k. slice_index_or values.now (start + k * step) T.zero_value)
        (filter (λ k. not (T.eq (slice_index_or values.now (start + k * step) T.zero_value)
        T.zero_value)) (below count))) }
{
    for index in 0..count {
        let value = values[start + index * step];
        if value != T::zero() {
            indices.push(index)?;
            kept.push(value)?;
        }
    }
    Ok(())
}

/// The plain matrix of each result has exactly the places where the dense matrix has a nonzero value, with these
/// values.
pub fn from_dense_law<T: Ring>()
    ensures coo { (d : Dense T)
        → IsNonzeroPart (plain_of_dense T.ring T.value d) (plain_of_coo T.ring T.value
        (coo_of d.nrows d.ncols
        (filter (differs_from T.eq T.zero_value) (column_triplets T.zero_value d)))) }
    ensures csc { (d : Dense T) (m : Compressed T) → m.pattern.minor_dim ≡ d.nrows
        → m.pattern.major_dim ≡ d.ncols
        → map transposed (lane_triplets m)
        ≡ filter (differs_from T.eq T.zero_value) (column_triplets T.zero_value d)
        → IsNonzeroPart (plain_of_dense T.ring T.value d) (plain_of_cols T.ring T.value m) }
    ensures csr { (d : Dense T) (m : Compressed T) → m.pattern.major_dim ≡ d.nrows
        → m.pattern.minor_dim ≡ d.ncols
        → lane_triplets m ≡ filter (differs_from T.eq T.zero_value) (row_triplets T.zero_value d)
        → IsNonzeroPart (plain_of_dense T.ring T.value d) (plain_of_rows T.ring T.value m) }
{}
