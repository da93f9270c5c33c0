//! Dense matrices from arrays that C passes.

ghost use Rattle.std.specs.Prelude.{◌≡◌, ◌*◌, length, IfOk, IfErr, OnOk};
ghost use Rattle.sparse_coo_dense.specs.DensePlain.{plain_of_dense};
ghost use Rattle.c_arrays.specs.Arrays.{plain_by_values};
ghost use Rattle.c_arrays.specs.Refused.{IsOutOfMemoryOr, HasWrongLength};

use crate::number::Number;
use crate::refusal::Refusal;
use crate::scalars::scalars_of;
use sparse_coo_dense::dense::DMatrix;
use std::alloc::Global;

/// Returns the dense matrix with these values, column by column.
///
/// # Errors
///
/// Returns `InvalidStructure` if there are not `rows * cols` values. Otherwise fails only if an allocation fails.
pub fn dense_matrix_of<T: Number>(
    alloc: Global,
    rows: usize,
    cols: usize,
    values: &[i64],
) -> Result<DMatrix<T>, Refusal>
    ensures plain { IfOk result (λ d. plain_of_dense T.ring T.value d
        ≡ plain_by_values T.ring rows cols values.now) }
    ensures rows { IfOk result (λ d. d.nrows ≡ rows) }
    ensures cols { IfOk result (λ d. d.ncols ≡ cols) }
    ensures sized { OnOk result (length values.now ≡ rows * cols) }
    ensures fault { IfErr result (IsOutOfMemoryOr (HasWrongLength rows cols values.now)) }
{
    if rows.checked_mul(cols) != Some(values.len()) {
        return Err(Refusal::InvalidStructure);
    }
    let scalars = scalars_of(alloc, values)?;
    Ok(DMatrix::from_column_slice(alloc, rows, cols, &scalars)?)
}
