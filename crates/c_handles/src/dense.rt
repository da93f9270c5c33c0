//! Products of matrices held by handles and dense matrices in arrays.

ghost use Rattle.std.specs.Prelude.{◌≡◌, ◌*◌, length, Err, None, IfErr, IfOk, OnErr, OnOk};
ghost use Rattle.sparse_algebra.specs.WrappingValues.{w64_value};
ghost use Rattle.sparse_coo_dense.specs.DensePlain.{plain_of_dense};
ghost use Rattle.c_arrays.specs.Arrays.{ring64, HoldsDense};
ghost use Rattle.c_arrays.specs.Refused.{IsOutOfMemoryOr, HasWrongLength};
ghost use Rattle.c_arrays.specs.Rests.{KeepsBehind};
ghost use Rattle.c_arrays.specs.declared.refusal.Refusal.TheVariants.{EmptyHandle};
ghost use Rattle.sparse_compressed.specs.PlainOfLanes.{plain_of_rows};
ghost use Rattle.c_handles.specs.Held.{plain_held};
ghost use Rattle.c_handles.specs.Dense.{dense_product, IsDenseProductError};

use crate::handle::MatrixHandle;
use crate::held::shared;
use c_arrays::dense::dense_matrix_of;
use c_arrays::refusal::Refusal;
use c_arrays::writing::finish_dense;
use sparse_algebra::scalar::W64;
use sparse_coo_dense::dense::DMatrix;
use sparse_csr_csc::csr::CsrMatrix;
use sparse_dense_ops::mul_csr_dense;
use std::alloc::Global;

/// Writes the product of the matrix that `a` holds and a dense matrix into an array. `b` has the values of the dense
/// matrix, which has `cols` columns, and `values` those of the product, both column by column. A longer array is
/// unchanged after the product.
///
/// # Errors
///
/// Returns `EmptyHandle` if `a` is empty, `InvalidStructure` if `b` does not have `cols` values for each column of the
/// matrix, and `TooSmall` if `values` is too short. Otherwise fails only if an allocation fails. On an error `values`
/// is unchanged.
pub fn multiply_dense(
    alloc: Global,
    a: &mut MatrixHandle,
    cols: usize,
    b: &[i64],
    values: &mut [i64],
) -> Result<(), Refusal>
    ensures kept { a.new.value ≡ a.old.value }
    ensures missing { a.old.value ≡ None → result ≡ Err EmptyHandle }
    ensures written { OnOk result
        (HoldsDense (dense_product (plain_held a.old.value) cols b.now) values.new) }
    ensures rest { OnOk result
        (KeepsBehind ((plain_held a.old.value).rows * cols) values.old values.new) }
    ensures sized { OnOk result (length b.now ≡ (plain_held a.old.value).cols * cols) }
    ensures unchanged { OnErr result (values.new ≡ values.old) }
    ensures fault { IfErr result (IsOutOfMemoryOr
        (IsDenseProductError a.old.value cols b.now values.old)) }
{
    let a = shared(alloc, a)?;
    let product = product_of(alloc, &a, cols, b)?;
    if finish_dense(Ok(product), values) == 0 {
        Ok(())
    } else {
        Err(Refusal::TooSmall)
    }
}

// Returns the product of a matrix and the dense matrix with `cols` columns and these values.
fn product_of(
    alloc: Global,
    a: &CsrMatrix<W64>,
    cols: usize,
    b: &[i64],
) -> Result<DMatrix<W64>, Refusal>
    ensures plain { IfOk result (λ d. plain_of_dense ring64 w64_value d
        ≡ dense_product (plain_of_rows ring64 w64_value a.now) cols b.now) }
    ensures sized { OnOk result (length b.now ≡ a.now.pattern.minor_dim * cols) }
    ensures fault { IfErr result
        (IsOutOfMemoryOr (HasWrongLength a.now.pattern.minor_dim cols b.now)) }
{
    let b = dense_matrix_of(alloc, a.ncols(), cols, b)?;
    Ok(mul_csr_dense(alloc, a, &b)?)
}
