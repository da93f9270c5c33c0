//! Round trips: a value copied to a data struct and converted back is equal to the original.

ghost use Rattle.std.specs.Prelude.{◌≡◌, true, IfOk};
ghost use Rattle.sparse_pattern.specs.Raw.{raw_eq};
ghost use Rattle.sparse_coo_dense.specs.CooEquality.{coo_eq};
ghost use Rattle.sparse_compressed.specs.Compressed.{compressed_eq};

use sparse_coo_dense::coo::CooMatrix;
use sparse_csr_csc::csc::CscMatrix;
use sparse_csr_csc::csr::CsrMatrix;
use sparse_pattern::pattern::SparsityPattern;
use std::alloc::{AllocError, Global};

/// Returns a pattern that was copied to a data struct and converted back. It is `==` to the original.
pub fn pattern_returns(
    alloc: Global,
    pattern: &SparsityPattern,
) -> Result<SparsityPattern, AllocError>
    ensures same { IfOk result (λ p. p ≡ pattern.now) }
    ensures equal { IfOk result (λ p. raw_eq p pattern.now ≡ true) }
{
    match SparsityPattern::try_from_data(pattern.to_data(alloc)?) {
        Ok(back) => Ok(back),
        Err(_) => unreachable!(),
    }
}

/// Returns a coordinate list that was copied to a data struct and converted back. It is `==` to the original.
pub fn coo_returns<T: Copy + Eq>(
    alloc: Global,
    matrix: &CooMatrix<T>,
) -> Result<CooMatrix<T>, AllocError>
    ensures same { IfOk result (λ m. m ≡ matrix.now) }
    ensures equal { IfOk result (λ m. coo_eq T.eq m matrix.now ≡ true) }
{
    match CooMatrix::try_from_data(matrix.to_data(alloc)?) {
        Ok(back) => Ok(back),
        Err(_) => unreachable!(),
    }
}

/// Returns a CSR matrix that was copied to a data struct and converted back. It is `==` to the original.
pub fn csr_returns<T: Copy + Eq>(
    alloc: Global,
    matrix: &CsrMatrix<T>,
) -> Result<CsrMatrix<T>, AllocError>
    ensures same { IfOk result (λ m. m ≡ matrix.now) }
    ensures equal { IfOk result (λ m. compressed_eq T.eq m matrix.now ≡ true) }
{
    match CsrMatrix::try_from_data(matrix.to_data(alloc)?) {
        Ok(back) => Ok(back),
        Err(_) => unreachable!(),
    }
}

/// Returns a CSC matrix that was copied to a data struct and converted back. It is `==` to the original.
pub fn csc_returns<T: Copy + Eq>(
    alloc: Global,
    matrix: &CscMatrix<T>,
) -> Result<CscMatrix<T>, AllocError>
    ensures same { IfOk result (λ m. m ≡ matrix.now) }
    ensures equal { IfOk result (λ m. compressed_eq T.eq m matrix.now ≡ true) }
{
    match CscMatrix::try_from_data(matrix.to_data(alloc)?) {
        Ok(back) => Ok(back),
        Err(_) => unreachable!(),
    }
}
