//! The values of expressions over matrices of integers.

ghost use Rattle.std.specs.Prelude.{All, IfOk, IfErr, OnOk};
ghost use Rattle.sparse_compressed.specs.Compressed.{IsSound};
ghost use Rattle.mtxkit_eval.specs.Values.{exact_value, HasExactValue, HasValue, IsExprFailure};
ghost use Rattle.mtxkit_eval.specs.Values.{IsInexact, IsReduced};

use crate::elements::{element_lists, reduced_matrix};
use crate::error::{EvalError, expression_fault};
use crate::extents::expression_extent;
use crate::residues::Residues;
use crate::wide::first_wide;
use mtxkit_texts::Failure;
use sparse_algebra::scalar::{Mod, W128};
use sparse_coo_dense::coo::CooMatrix;
use sparse_csr_csc::csr::CsrMatrix;
use sparse_expr::{Expr, evaluate_rows};
use std::alloc::Global;

/// Returns the value of an expression over the integers of these matrices. All its values fit in 64 bits.
///
/// It is computed modulo 2^128. A bound on the magnitudes of each intermediate value tells whether that is exact.
///
/// # Errors
///
/// Returns `Expression` if no input has a number of the expression, or the shapes of operands do not fit, `Unbounded` if
/// the bound of the value does not fit in 128 bits with a sign, and `Wide` with the first entry, row by row, whose value
/// does not fit in 64 bits. Otherwise fails only if an allocation fails.
pub fn evaluate_exact(
    alloc: Global,
    expr: &Expr,
    inputs: &[CsrMatrix<W128>],
) -> Result<CsrMatrix<W128>, EvalError>
    ensures value { IfOk result (HasExactValue (exact_value inputs.now expr.now)) }
    ensures sound { IfOk result IsSound }
    ensures refused { IfErr result (IsInexact inputs.now expr.now) }
{
    let value = value_in::<W128>(alloc, expr, inputs)?;
    if expression_extent(expr, inputs).largest > i128::MAX as u128 {
        return Err(EvalError::Unbounded);
    }
    match first_wide(&value) {
        None => Ok(value),
        Some((row, col)) => Err(EvalError::Wide(row, col)),
    }
}

/// Returns the value of an expression over the integers modulo `modulus`, as numbers from 0 to `modulus` - 1: the
/// remainders of the values over the integers.
///
/// # Errors
///
/// Returns `Failed` with `Modulus` if the program is not built for the modulus, and `Expression` if no input has a number
/// of the expression, or the shapes of operands do not fit. Otherwise fails only if an allocation fails.
pub fn evaluate_modulo(
    alloc: Global,
    modulus: u64,
    expr: &Expr,
    inputs: &[CsrMatrix<W128>],
) -> Result<CsrMatrix<W128>, EvalError>
    ensures { IsReduced modulus inputs.now expr.now result }
{
    match modulus {
        2 => value_in::<Mod<2>>(alloc, expr, inputs),
        3 => value_in::<Mod<3>>(alloc, expr, inputs),
        5 => value_in::<Mod<5>>(alloc, expr, inputs),
        7 => value_in::<Mod<7>>(alloc, expr, inputs),
        11 => value_in::<Mod<11>>(alloc, expr, inputs),
        13 => value_in::<Mod<13>>(alloc, expr, inputs),
        101 => value_in::<Mod<101>>(alloc, expr, inputs),
        65537 => value_in::<Mod<65537>>(alloc, expr, inputs),
        998244353 => value_in::<Mod<998244353>>(alloc, expr, inputs),
        1000000007 => value_in::<Mod<1000000007>>(alloc, expr, inputs),
        2305843009213693951 => value_in::<Mod<2305843009213693951>>(alloc, expr, inputs),
        _ => Err(EvalError::Failed(Failure::Modulus)),
    }
}

// Returns the value of an expression over the images of integers in a ring, as reduced integers.
fn value_in<T: Residues>(
    alloc: Global,
    expr: &Expr,
    inputs: &[CsrMatrix<W128>],
) -> Result<CsrMatrix<W128>, EvalError>
    ensures value { IfOk result (HasValue T.ring T.reduced (exact_value inputs.now expr.now)) }
    ensures sound { OnOk result (All IsSound inputs.now) }
    ensures refused { IfErr result (IsExprFailure (exact_value inputs.now expr.now)) }
{
    let lists: Vec<CooMatrix<T>> = element_lists(alloc, inputs)?;
    match evaluate_rows(alloc, expr, &lists) {
        Ok(value) => Ok(reduced_matrix(alloc, value)?),
        Err(error) => Err(expression_fault(error)),
    }
}
