//! Turns lists of triplets without values into matrices of ones.

ghost use Rattle.std.specs.Prelude.{◌≡◌, ℕ, ◌↔◌, All, IfOk, IsTrue, length, replicate};
ghost use Rattle.std.specs.List.{list_any};
ghost use Rattle.sparse_algebra.specs.Plain.{is_at};
ghost use Rattle.sparse_compressed.specs.Compressed.{IsSound};
ghost use Rattle.sparse_pattern.specs.Raw.{IsEntry};
ghost use Rattle.mtxkit_texts.specs.ListEntries.{HasEntriesOf};

use crate::lists::with_values;
use sparse_algebra::scalar::{Ring, W64};
use sparse_compressed::laws::stands_law;
use sparse_convert::serial::convert_coo_csr;
use sparse_coo_dense::coo::CooMatrix;
use sparse_csr_csc::csr::CsrMatrix;
use sparse_pattern::pattern::SparsityPattern;
use std::alloc::{AllocError, Global};

/// Returns the matrix with the value 1 at the row and the column of each triplet. Duplicate triplets count once.
///
/// Fails only if an allocation fails.
pub fn ones_of<T: Ring>(alloc: Global, places: &CooMatrix<()>) -> Result<CsrMatrix<T>, AllocError>
    ensures entries { IfOk result (λ m. HasEntriesOf places.now m.pattern) }
    ensures ones { IfOk result (λ m. All (λ v. T.value v ≡ T.ring.one) m.values) }
    ensures sound { IfOk result IsSound }
{
    let pattern = pattern_of(alloc, places)?;
    let ones = copies_of(alloc, T::one(), pattern.nnz())?;
    Ok(joined(pattern, ones))
}

// Returns the pattern of a list of triplets by rows, without duplicates.
fn pattern_of(alloc: Global, places: &CooMatrix<()>) -> Result<SparsityPattern, AllocError>
    ensures { IfOk result (HasEntriesOf places.now) }
{
    let listed = listed_ones(alloc, places)?;
    stands_law::<W64>();
    let (pattern, _ones) = convert_coo_csr(alloc, &listed)?.into_pattern_and_values();
    Ok(pattern)
}

// Returns the matrix with this pattern and these values, one for each entry.
pub(crate) fn joined<T: Copy>(pattern: SparsityPattern, values: Vec<T>) -> CsrMatrix<T>
    requires { length values.items ≡ length pattern.indices }
    ensures pattern { result.pattern ≡ pattern }
    ensures values { result.values ≡ values.items }
    ensures sound { IsSound result }
{
    match CsrMatrix::try_from_pattern_and_values(pattern, values) {
        Ok(matrix) => matrix,
        Err(_) => unreachable!(),
    }
}

// Returns the same triplets, each with value 1.
fn listed_ones(alloc: Global, places: &CooMatrix<()>) -> Result<CooMatrix<W64>, AllocError>
    ensures rows { IfOk result (λ m. m.nrows ≡ places.now.nrows) }
    ensures cols { IfOk result (λ m. m.ncols ≡ places.now.ncols) }
    ensures entries { IfOk result (λ m. (i j : ℕ) → list_any (is_at i j) m.triplets
        ≡ list_any (is_at i j) places.now.triplets) }
{
    let ones = copies_of(alloc, W64::new(1), places.nnz())?;
    with_values(alloc, places, ones)
}

// Returns `count` copies of a value.
fn copies_of<T: Copy>(alloc: Global, value: T, count: usize) -> Result<Vec<T>, AllocError>
    ensures { IfOk result (λ copies. copies.items ≡ replicate count value) }
{
    let mut copies = Vec::with_capacity(alloc, count)?;
    for _ in 0..count {
        copies.push(value)?;
    }
    Ok(copies)
}
