//! Coordinate lists from arrays that C passes.

ghost use Rattle.std.specs.Prelude.{◌≡◌, IfOk, IfErr, OnOk};
ghost use Rattle.sparse_coo_dense.specs.Coo.{AreParts};
ghost use Rattle.sparse_coo_dense.specs.CooPlain.{plain_of_coo};
ghost use Rattle.c_arrays.specs.Arrays.{plain_of_lists};
ghost use Rattle.c_arrays.specs.Refused.{IsFaultOfList, IsOutOfMemoryOr};

use crate::number::Number;
use crate::refusal::Refusal;
use crate::scalars::scalars_of;
use sparse_coo_dense::coo::CooMatrix;
use std::alloc::Global;

/// Returns the coordinate list with these rows, columns and values, which are copied.
///
/// # Errors
///
/// Returns the error for the first fault of the arrays. Otherwise fails only if an allocation fails.
pub fn list_of<T: Number>(
    alloc: Global,
    rows: usize,
    cols: usize,
    row_indices: &[usize],
    col_indices: &[usize],
    values: &[i64],
) -> Result<CooMatrix<T>, Refusal>
    ensures plain { IfOk result (λ list. plain_of_coo T.ring T.value list ≡ plain_of_lists
        T.ring rows cols row_indices.now col_indices.now values.now) }
    ensures sound { OnOk result
        (AreParts rows cols row_indices.now col_indices.now values.now) }
    ensures fault { IfErr result (IsOutOfMemoryOr
        (IsFaultOfList rows cols row_indices.now col_indices.now values.now)) }
{
    let row_indices = row_indices.to_vec(alloc)?;
    let col_indices = col_indices.to_vec(alloc)?;
    let values = scalars_of(alloc, values)?;
    Ok(CooMatrix::try_from_triplets(rows, cols, row_indices, col_indices, values)?)
}
