//! Conversions to dense matrices.

ghost use Rattle.std.specs.Prelude.{◌≡◌, IfOk};
ghost use Rattle.sparse_coo_dense.specs.Dense.{Dense};
ghost use Rattle.sparse_coo_dense.specs.DensePlain.{plain_of_dense, plain_full};
ghost use Rattle.sparse_compressed.specs.Compressed.{Compressed, IsSound};
ghost use Rattle.sparse_coo_dense.specs.CooPlain.{plain_of_coo};
ghost use Rattle.sparse_compressed.specs.PlainOfLanes.{plain_of_rows, plain_of_cols};
ghost use Rattle.sparse_convert.specs.ToDense.{IsDenseOfRows, IsDenseOfCols};

use sparse_algebra::scalar::{Ring, Zero};
use sparse_coo_dense::coo::CooMatrix;
use sparse_coo_dense::dense::DMatrix;
use sparse_csr_csc::csc::CscMatrix;
use sparse_csr_csc::csr::CsrMatrix;
use std::alloc::{AllocError, Global};

/// Returns the dense matrix of a list of triplets. Values of triplets with the same row and column are added; all other
/// values are zero.
///
/// Time linear in the triplets and in `nrows * ncols`, memory for `nrows * ncols` values. Fails only if an allocation
/// fails or `nrows * ncols` exceeds `usize::MAX`.
pub fn convert_coo_dense<T: Ring>(
    alloc: Global,
    coo: &CooMatrix<T>,
) -> Result<DMatrix<T>, AllocError>
    ensures { IfOk result
        (λ d. plain_of_dense T.ring T.value d
        ≡ plain_full T.ring (plain_of_coo T.ring T.value coo.now)) }
{
    let mut dense: DMatrix<T> = DMatrix::zeros(alloc, coo.nrows(), coo.ncols())?;
    for (i, j, value) in coo.triplet_iter() {
        let sum = dense.get(i, j).add(*value);
        dense.set(i, j, sum);
    }
    Ok(dense)
}

/// Returns the dense matrix of a CSR matrix, with zeros where it has no entry.
///
/// Time linear in the rows and in `nrows * ncols`, memory for `nrows * ncols` values. Fails only if an allocation fails
/// or `nrows * ncols` exceeds `usize::MAX`.
///
/// # Examples
///
/// ```rust
/// fn missing_places_become_zeros(alloc: Global) -> Result<bool, Fail> {
///     let csr = CsrMatrix::<W64>::zeros(alloc, 1, 2)?;
///     let dense = convert_csr_dense(alloc, &csr)?;
///     Ok(dense == DMatrix::zeros(alloc, 1, 2)?)
/// }
/// ```
pub fn convert_csr_dense<T: Zero + Copy>(
    alloc: Global,
    csr: &CsrMatrix<T>,
) -> Result<DMatrix<T>, AllocError>
    ensures { IfOk result (IsDenseOfRows T.zero_value csr.now) }
{
    let mut dense = DMatrix::zeros(alloc, csr.nrows(), csr.ncols())?;
    for (i, j, value) in csr.triplet_iter() {
        dense.set(i, j, *value);
    }
    Ok(dense)
}

/// Returns the dense matrix of a CSC matrix, with zeros where it has no entry.
///
/// Time linear in the columns and in `nrows * ncols`, memory for `nrows * ncols` values. Fails only if an allocation
/// fails or `nrows * ncols` exceeds `usize::MAX`.
pub fn convert_csc_dense<T: Zero + Copy>(
    alloc: Global,
    csc: &CscMatrix<T>,
) -> Result<DMatrix<T>, AllocError>
    ensures { IfOk result (IsDenseOfCols T.zero_value csc.now) }
{
    let mut dense = DMatrix::zeros(alloc, csc.nrows(), csc.ncols())?;
    for (i, j, value) in csc.triplet_iter() {
        dense.set(i, j, *value);
    }
    Ok(dense)
}

/// The dense matrix of a compressed matrix represents the same plain matrix, except that every pair within the shape is
/// a place.
pub fn to_dense_law<T: Ring>()
    ensures rows { (m : Compressed T) (d : Dense T) → IsSound m → IsDenseOfRows T.zero_value m d
        → plain_of_dense T.ring T.value d ≡ plain_full T.ring (plain_of_rows T.ring T.value m) }
    ensures cols { (m : Compressed T) (d : Dense T) → IsSound m → IsDenseOfCols T.zero_value m d
        → plain_of_dense T.ring T.value d ≡ plain_full T.ring (plain_of_cols T.ring T.value m) }
{}
