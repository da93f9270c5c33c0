//! Tests whether sums modulo 2^128 are the exact sums.

ghost use Rattle.std.specs.Prelude.{◌≡◌, ◌↔◌, IfOk, IsTrue, length, map};
ghost use Rattle.sparse_algebra.specs.WrappingValues.{w128_number};
ghost use Rattle.sparse_compressed.specs.Compressed.{IsSound};
ghost use Rattle.mtxkit_texts.specs.HighParts.{AreNear, IsNear, high_part};
ghost use Rattle.mtxkit_texts.specs.Loaded.{HasSums, HasFittingSums};

use crate::lists::with_values;
use crate::sums::{are_narrow, wide_sums, wide_values};
use sparse_algebra::scalar::W128;
use sparse_coo_dense::coo::CooMatrix;
use sparse_csr_csc::csr::CsrMatrix;
use std::alloc::{AllocError, Global};

// Returns whether, for each (row, column) of the list, the sum of its integers fits in 128 bits. `sums` has these sums
// modulo 2^128.
//
// The high part of an integer is the integer divided by 2^64, rounded down. Let h be the sum of the high parts of n
// integers. The sum of the integers is between h * 2^64 and (h + n) * 2^64. As these are fewer than 2^128 numbers, the
// residue modulo 2^128 determines the sum.
pub(crate) fn sums_fit(
    alloc: Global,
    list: &CooMatrix<i128>,
    sums: &CsrMatrix<W128>,
) -> Result<bool, AllocError>
    requires sums { HasSums list.now sums.now }
    requires sound { IsSound sums.now }
    ensures { IfOk result (λ fit. IsTrue fit ↔ HasFittingSums list.now) }
{
    let integers = list.values();
    if are_narrow(integers) {
        return Ok(true);
    }
    let parts = high_parts(alloc, &wide_values(alloc, integers)?)?;
    let highs = wide_sums(alloc, &with_values(alloc, list, parts)?)?;
    Ok(are_near(sums.values(), highs.values(), list.nnz()))
}

// Returns the high parts of the integers.
fn high_parts(alloc: Global, integers: &[W128]) -> Result<Vec<i128>, AllocError>
    ensures { IfOk result
        (λ parts. parts.items ≡ map (λ v. high_part (w128_number v)) integers.now) }
{
    let mut parts = Vec::with_capacity(alloc, integers.len())?;
    for integer in integers {
        parts.push(high_of(integer.get()))?;
    }
    Ok(parts)
}

// Returns the high part of an integer: the integer divided by 2^64, rounded down.
fn high_of(integer: i128) -> i128
    ensures { result ≡ high_part integer }
{
    integer >> 64
}

// Returns whether the high part of each sum k is between `highs[k]` and `highs[k] + entries`.
fn are_near(sums: &[W128], highs: &[W128], entries: usize) -> bool
    requires { length highs.now ≡ length sums.now }
    ensures { IsTrue result ↔ AreNear sums.now highs.now entries }
{
    for k in 0..sums.len() {
        if !is_near(sums[k].get(), highs[k].get(), entries) {
            return false;
        }
    }
    true
}

// Returns whether the high part of a sum is between `high` and `high + entries`.
fn is_near(sum: i128, high: i128, entries: usize) -> bool
    ensures { IsTrue result ↔ IsNear sum high entries }
{
    let Some(more) = high_of(sum).checked_sub(high) else {
        return false;
    };
    match usize::try_from(more) {
        Ok(more) => more <= entries,
        Err(_) => false,
    }
}
