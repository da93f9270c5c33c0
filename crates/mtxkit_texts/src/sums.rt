//! Adds the integers with the same row and column.

ghost use Rattle.std.specs.Prelude.{◌≡◌, ◌↔◌, ◌<◌, ◌^◌, All, IfOk, IsTrue, length, map};
ghost use Rattle.std.specs.Int.{w64};
ghost use Rattle.std.specs.Int.RustNames.{FitsSigned};
ghost use Rattle.sparse_algebra.specs.WrappingValues.{w128_number};
ghost use Rattle.sparse_compressed.specs.Compressed.{IsSound};
ghost use Rattle.mtxkit_texts.specs.Loaded.{HasSums};

use crate::lists::with_values;
use sparse_algebra::scalar::W128;
use sparse_convert::serial::convert_coo_csr;
use sparse_coo_dense::coo::CooMatrix;
use sparse_csr_csc::csr::CsrMatrix;
use std::alloc::{AllocError, Global};

/// Returns the matrix of a list of triplets. Duplicate triplets are added, modulo 2^128.
///
/// Fails only if an allocation fails.
pub fn wide_sums(alloc: Global, list: &CooMatrix<i128>) -> Result<CsrMatrix<W128>, AllocError>
    ensures sums { IfOk result (HasSums list.now) }
    ensures sound { IfOk result IsSound }
{
    let values = wide_values(alloc, list.values())?;
    let wide = with_values(alloc, list, values)?;
    Ok(convert_coo_csr(alloc, &wide)?)
}

// Returns the residue of each integer modulo 2^128.
pub(crate) fn wide_values(alloc: Global, integers: &[i128]) -> Result<Vec<W128>, AllocError>
    ensures { IfOk result (λ values. map w128_number values.items ≡ integers.now) }
{
    let mut values = Vec::with_capacity(alloc, integers.len())?;
    for integer in integers {
        values.push(W128::new(*integer))?;
    }
    Ok(values)
}

// Returns whether every integer fits in 64 bits.
pub(crate) fn are_narrow(integers: &[i128]) -> bool
    ensures narrow { IsTrue result ↔ All (FitsSigned w64) integers.now }
    ensures few { length integers.now < 2 ^ 64 }
{
    for integer in integers {
        if i64::try_from(*integer).is_err() {
            return false;
        }
    }
    true
}
