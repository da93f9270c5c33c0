//! Writes matrices whose rows and columns are permuted alike.

ghost use Rattle.std.specs.Prelude.{◌≡◌, IfOk, IfErr, OnOk, length, string_bytes};
ghost use Rattle.mtxkit_patterns.specs.Orders.{MeansOrder};
ghost use Rattle.mtxkit_patterns.specs.Permuted.{IsMisfit, IsMisfitPattern, IsMisfitMatrix};
ghost use Rattle.mtxkit_patterns.specs.Permuted.{IsUnpermuted, WritesPermuted};
ghost use Rattle.mtxkit_patterns.specs.Permuted.{WritesPermutedPattern, WritesPermutedMatrix};

use crate::order_error::OrderError;
use crate::order_reading::read_order;
use crate::orders::load_pattern;
use crate::square::permuted_pattern;
use mtxkit_texts::{Failure, load_values, names_pattern, write_pattern};
use sparse_io::{Banner, save_to_matrix_market_str_with};
use sparse_permutation::permutation::Permutation;
use sparse_permutation::symmetric::permute_symmetric_csr;
use std::alloc::Global;

/// Returns the text of P A P^T, where A is the matrix of a text and P the permutation of another one: the entry at
/// (i, j) is that of A at the rows and columns that the order has at i and j. A pattern is written as a pattern, and
/// anything else with integers, row by row.
///
/// # Errors
///
/// Returns the errors of [`read_order`] for text 1, those of [`load_values`] for text 2, `NotSquare` if A is not square,
/// and otherwise `OtherLength` if the order has another length than A has rows. Otherwise fails only if an allocation
/// fails.
pub fn permute_text(alloc: Global, order: &str, text: &str) -> Result<String, OrderError>
    ensures written { IfOk result
        (λ written. WritesPermuted order.now text.now (string_bytes written)) }
    ensures refused { IfErr result (IsUnpermuted order.now text.now) }
{
    let order = read_order(alloc, 1, order)?;
    if names_pattern(text) {
        permuted_pattern_text(alloc, &order, text)
    } else {
        permuted_matrix_text(alloc, &order, text)
    }
}

// Returns the text of a permuted pattern.
fn permuted_pattern_text(
    alloc: Global,
    order: &Permutation,
    text: &str,
) -> Result<String, OrderError>
    ensures written { IfOk result
        (λ written. WritesPermutedPattern order.now text.now (string_bytes written)) }
    ensures refused { IfErr result (IsMisfitPattern order.now text.now) }
{
    let pattern = load_pattern(alloc, 2, text)?;
    fit(pattern.major_dim(), pattern.minor_dim(), order)?;
    let permuted = permuted_pattern(alloc, &pattern, order)?;
    Ok(write_pattern(alloc, &permuted)?)
}

// Returns the text of a permuted matrix of integers.
fn permuted_matrix_text(
    alloc: Global,
    order: &Permutation,
    text: &str,
) -> Result<String, OrderError>
    ensures written { IfOk result
        (λ written. WritesPermutedMatrix order.now text.now (string_bytes written)) }
    ensures refused { IfErr result (IsMisfitMatrix order.now text.now) }
{
    let matrix = load_values(alloc, 2, text)?;
    fit(matrix.nrows(), matrix.ncols(), order)?;
    match permute_symmetric_csr(alloc, &matrix, order) {
        Ok(permuted) => { Ok(save_to_matrix_market_str_with(alloc, &permuted, Banner::MixedCase)?) }
        Err(_) => Err(OrderError::Failed(Failure::OutOfMemory)),
    }
}

/// Returns the error of a matrix of this shape that the order does not permute: text 2 if it is not square, and text 1
/// if its number of rows is not the length of the order.
pub(crate) fn fit(nrows: usize, ncols: usize, order: &Permutation) -> Result<(), OrderError>
    ensures fits { OnOk result ((nrows ≡ ncols) × (nrows ≡ length order.now)) }
    ensures refused { IfErr result (IsMisfit order.now nrows ncols) }
{
    if nrows != ncols {
        return Err(OrderError::NotSquare(2));
    }
    if nrows != order.len() {
        return Err(OrderError::OtherLength(1));
    }
    Ok(())
}
