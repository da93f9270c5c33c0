//! Replaces the values of a list of triplets.

ghost use Rattle.std.specs.Prelude.{◌≡◌, IfOk, length, map};
ghost use Rattle.sparse_coo_dense.specs.Coo.{coo_of, zip_triplets};

use sparse_coo_dense::coo::CooMatrix;
use std::alloc::{AllocError, Global};

/// Returns the list of triplets with other values. There must be one value for each triplet.
pub fn with_values<S: Copy, T: Copy>(
    alloc: Global,
    list: &CooMatrix<S>,
    values: Vec<T>,
) -> Result<CooMatrix<T>, AllocError>
    requires { length values.items ≡ length list.now.triplets }
    ensures list { IfOk result (λ m. m ≡ coo_of list.now.nrows list.now.ncols
        (zip_triplets (map (λ t. t.0) list.now.triplets) (map (λ t. t.1) list.now.triplets)
        values.items)) }
    ensures values { IfOk result (λ m. map (λ t. t.2) m.triplets ≡ values.items) }
{
    let rows = Vec::from_slice(alloc, list.row_indices())?;
    let cols = Vec::from_slice(alloc, list.col_indices())?;
    match CooMatrix::try_from_triplets(list.nrows(), list.ncols(), rows, cols, values) {
        Ok(list) => Ok(list),
        Err(_) => unreachable!(),
    }
}
