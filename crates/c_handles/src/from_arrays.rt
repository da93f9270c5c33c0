//! Matrices built from arrays of the caller (CSR arrays or triplets) and stored in handles.

ghost use Rattle.std.specs.Prelude.{◌≡◌, IfErr, OnOk, OnErr};
ghost use Rattle.sparse_coo_dense.specs.Coo.{AreParts};
ghost use Rattle.sparse_compressed.specs.Compressed.{arrays_of, IsSound};
ghost use Rattle.c_arrays.specs.Arrays.{plain_by_rows, plain_of_lists, ring64};
ghost use Rattle.c_arrays.specs.Refused.{IsFaultOf, IsFaultOfList, IsOutOfMemoryOr};
ghost use Rattle.c_handles.specs.Held.{Holds};

use crate::handle::MatrixHandle;
use crate::held::put;
use c_arrays::lanes::Lanes;
use c_arrays::refusal::Refusal;
use c_arrays::triplets::list_of;
use sparse_convert::serial::convert_coo_csr;
use std::alloc::Global;

/// Stores in `out` the matrix with these CSR arrays.
///
/// # Errors
///
/// Returns the error of the first fault of the arrays, if they have one. Otherwise fails only if an allocation fails.
/// On an error `out` is unchanged.
pub fn put_rows(alloc: Global, a: Lanes<'_>, out: &mut MatrixHandle) -> Result<(), Refusal>
    ensures done { OnOk result (Holds out.new.value (plain_by_rows ring64 a.entry)) }
    ensures sound { OnOk result (IsSound a.entry) }
    ensures unchanged { OnErr result (out.new.value ≡ out.old.value) }
    ensures fault { IfErr result (IsOutOfMemoryOr (IsFaultOf a.entry)) }
{
    let matrix = a.rows(alloc)?;
    put(alloc, matrix, out)
}

/// Stores in `out` the matrix of a list of triplets. The values of triplets with the same row and column are added.
///
/// # Errors
///
/// Returns the error of the first fault of the lists, if they have one. Otherwise fails only if an allocation fails. On
/// an error `out` is unchanged.
pub fn put_triplets(
    alloc: Global,
    shape: (usize, usize),
    row_indices: &[usize],
    col_indices: &[usize],
    values: &[i64],
    out: &mut MatrixHandle,
) -> Result<(), Refusal>
    ensures done { OnOk result (Holds out.new.value (plain_of_lists ring64 shape.0 shape.1
        row_indices.now col_indices.now values.now)) }
    ensures sound { OnOk result
        (AreParts shape.0 shape.1 row_indices.now col_indices.now values.now) }
    ensures unchanged { OnErr result (out.new.value ≡ out.old.value) }
    ensures fault { IfErr result (IsOutOfMemoryOr
        (IsFaultOfList shape.0 shape.1 row_indices.now col_indices.now values.now)) }
{
    let list = list_of(alloc, shape.0, shape.1, row_indices, col_indices, values)?;
    let matrix = convert_coo_csr(alloc, &list)?;
    put(alloc, matrix, out)
}
