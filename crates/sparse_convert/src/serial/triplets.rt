//! Conversions from compressed matrices to lists of triplets.

ghost use Rattle.std.specs.Prelude.{◌≡◌, IfOk, map};
ghost use Rattle.sparse_coo_dense.specs.Coo.{AreParts, coo_of, zip_triplets};
ghost use Rattle.sparse_pattern.specs.Raw.{entries_of};
ghost use Rattle.sparse_compressed.specs.Compressed.{IsSound, lane_triplets};
ghost use Rattle.sparse_convert.specs.OneMatrix.{coo_of_rows, coo_of_cols};

use sparse_compressed::CsMatrix;
use sparse_coo_dense::coo::CooMatrix;
use sparse_csr_csc::csc::CscMatrix;
use sparse_csr_csc::csr::CsrMatrix;
use sparse_pattern::pattern::SparsityPattern;
use std::alloc::{AllocError, Global};

/// Returns a triplet for each entry, row by row, columns increasing. Stored zeros are included.
///
/// Linear in the number of entries and rows, with memory for the triplets. Fails only if an allocation fails.
///
/// # Examples
///
/// ```rust
/// fn stored_places_become_triplets(alloc: Global) -> Result<bool, Fail> {
///     let csr = CsrMatrix::<W64>::identity(alloc, 2)?;
///     let coo = convert_csr_coo(alloc, &csr)?;
///     Ok(coo.row_indices() == [0, 1].as_slice())
/// }
/// ```
pub fn convert_csr_coo<T: Copy>(
    alloc: Global,
    csr: &CsrMatrix<T>,
) -> Result<CooMatrix<T>, AllocError>
    ensures { IfOk result (λ m. m ≡ coo_of_rows csr.now) }
{
    let (rows, cols, values) = triplet_lists(alloc, csr.cs())?;
    Ok(coo_from_lists(csr.nrows(), csr.ncols(), rows, cols, values))
}

/// Returns a triplet for each entry, column by column, rows increasing. Stored zeros are included.
///
/// Linear in the number of entries and columns, with memory for the triplets. Fails only if an allocation fails.
pub fn convert_csc_coo<T: Copy>(
    alloc: Global,
    csc: &CscMatrix<T>,
) -> Result<CooMatrix<T>, AllocError>
    ensures { IfOk result (λ m. m ≡ coo_of_cols csc.now) }
{
    let (cols, rows, values) = triplet_lists(alloc, csc.cs())?;
    Ok(coo_from_lists(csc.nrows(), csc.ncols(), rows, cols, values))
}

// Returns the lanes, the minor indices and the values of all entries, as three lists, lane by lane.
#[tactic(auto, using(sparse_algebra::proofs::EarlyReturns::early_return))]
fn triplet_lists<T: Copy>(
    alloc: Global,
    cs: &CsMatrix<T>,
) -> Result<(Vec<usize>, Vec<usize>, Vec<T>), AllocError>
    ensures lanes { IfOk result (λ lists. lists.0.items ≡ map (λ t. t.0) (lane_triplets cs.now)) }
    ensures indices { IfOk result (λ lists. lists.1.items ≡ map (λ t. t.1) (lane_triplets cs.now)) }
    ensures values { IfOk result (λ lists. lists.2.items ≡ map (λ t. t.2) (lane_triplets cs.now)) }
    ensures sound { IsSound cs.now }
{
    let lanes = lanes_of_entries(alloc, cs.pattern())?;
    let indices = Vec::from_slice(alloc, cs.pattern().minor_indices())?;
    let values = Vec::from_slice(alloc, cs.values())?;
    Ok((lanes, indices, values))
}

// Returns the lane of each entry.
fn lanes_of_entries(alloc: Global, pattern: &SparsityPattern) -> Result<Vec<usize>, AllocError>
    ensures { IfOk result (λ v. v.items ≡ map (λ place. place.0) (entries_of pattern.now)) }
{
    let mut lanes = Vec::with_capacity(alloc, pattern.nnz())?;
    for (lane, _) in pattern.entries() {
        lanes.push(lane)?;
    }
    Ok(lanes)
}

// Returns the coordinate list of three lists, which have the same length and indices within the shape.
fn coo_from_lists<T: Copy>(
    nrows: usize,
    ncols: usize,
    rows: Vec<usize>,
    cols: Vec<usize>,
    values: Vec<T>,
) -> CooMatrix<T>
    requires { AreParts nrows ncols rows.items cols.items values.items }
    ensures { result ≡ coo_of nrows ncols (zip_triplets rows.items cols.items values.items) }
{
    match CooMatrix::try_from_triplets(nrows, ncols, rows, cols, values) {
        Ok(coo) => coo,
        Err(_) => unreachable!(),
    }
}
