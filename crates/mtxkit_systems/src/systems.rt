//! The commands `mtxkit solve` and `mtxkit check` on the texts of their files.

ghost use Rattle.std.specs.Prelude.{◌≡◌, IfOk, IfErr, string_bytes};
ghost use Rattle.mtxkit_systems.specs.Systems.{IsSolved, IsTested, IsSolvedBy, IsTestedBy};
ghost use Rattle.mtxkit_systems.specs.Systems.{WritesSolution, IsSolveFailure, SaysProduct};
ghost use Rattle.mtxkit_systems.specs.Systems.{IsCheckFailure};
ghost use Rattle.mtxkit_systems.specs.SystemErrors.{check_fault, system_fault};

use crate::lists::{elements_of, integers_of};
use mtxkit_eval::Residues;
use mtxkit_matrices::{
    CheckError, Dimensions, EliminationOrder, SystemError, check_solution, solve_listed,
};
use mtxkit_texts::{Failure, read_integers};
use sparse_algebra::scalar::{Mod, W64};
use sparse_coo_dense::coo::CooMatrix;
use sparse_io::{Banner, save_to_matrix_market_str_with};
use std::alloc::Global;

/// Returns the text of the matrix X for which A X = B. The texts `a` and `b` are those of the symmetric matrix A and of
/// B. X is written column by column and each column from the top, without its zeros. A is factored in the order that is
/// asked for, on which X does not depend.
///
/// The matrices are over the integers modulo `modulus`, or modulo 2^64 if there is none.
///
/// # Errors
///
/// Returns `Input` or `NotSupported` if a text is not that of a matrix of integers, `Modulus` if the program is not built
/// for the modulus, `Shapes` if A is not square or B has a different number of rows, `NotSymmetric` if A is not
/// symmetric, and `NoFactors` if A has no factorisation L D L^T in the order. Otherwise fails only if an allocation
/// fails.
pub fn solve_text(
    alloc: Global,
    modulus: Option<u64>,
    order: EliminationOrder,
    a: &str,
    b: &str,
) -> Result<String, Failure>
    ensures written { IfOk result
        (λ written. WritesSolution modulus a.now b.now (string_bytes written)) }
    ensures refused { IfErr result (IsSolveFailure modulus order a.now b.now) }
{
    let a = read_integers(alloc, 1, a)?;
    let b = read_integers(alloc, 2, b)?;
    match solve_modulo(alloc, modulus, order, &a, &b) {
        Ok(x) => Ok(save_to_matrix_market_str_with(alloc, &x, Banner::MixedCase)?),
        Err(failure) => Err(failure),
    }
}

/// Returns a line that says that A X = B. The texts `a`, `x` and `b` are those of A, X and B.
///
/// The matrices are over the integers modulo `modulus`, or modulo 2^64 if there is none.
///
/// # Errors
///
/// Returns `Input` or `NotSupported` if a text is not that of a matrix of integers, `Modulus` if the program is not built
/// for the modulus, `ProductShapes` if the shapes do not fit, and `NotSolution` if A X differs from B. Otherwise fails
/// only if an allocation fails.
pub fn check_text(
    alloc: Global,
    modulus: Option<u64>,
    a: &str,
    x: &str,
    b: &str,
) -> Result<String, Failure>
    ensures said { IfOk result
        (λ written. SaysProduct modulus a.now x.now b.now (string_bytes written)) }
    ensures refused { IfErr result (IsCheckFailure modulus a.now x.now b.now) }
{
    let a = read_integers(alloc, 1, a)?;
    let x = read_integers(alloc, 2, x)?;
    let b = read_integers(alloc, 3, b)?;
    match check_modulo(alloc, modulus, &a, &x, &b) {
        Ok(()) => Ok(String::from_str(alloc, "A X = B\n")?),
        Err(failure) => Err(failure),
    }
}

// Returns the matrix X for which A X = B, modulo 2^64 or one of the moduli that the program is built for.
fn solve_modulo(
    alloc: Global,
    modulus: Option<u64>,
    order: EliminationOrder,
    a: &CooMatrix<i128>,
    b: &CooMatrix<i128>,
) -> Result<CooMatrix<i128>, Failure>
    ensures { IsSolvedBy modulus order a.now b.now result }
{
    match modulus {
        None => solve_in::<W64>(alloc, modulus, order, a, b),
        Some(2) => solve_in::<Mod<2>>(alloc, modulus, order, a, b),
        Some(3) => solve_in::<Mod<3>>(alloc, modulus, order, a, b),
        Some(5) => solve_in::<Mod<5>>(alloc, modulus, order, a, b),
        Some(7) => solve_in::<Mod<7>>(alloc, modulus, order, a, b),
        Some(11) => solve_in::<Mod<11>>(alloc, modulus, order, a, b),
        Some(13) => solve_in::<Mod<13>>(alloc, modulus, order, a, b),
        Some(101) => solve_in::<Mod<101>>(alloc, modulus, order, a, b),
        Some(65537) => solve_in::<Mod<65537>>(alloc, modulus, order, a, b),
        Some(998244353) => solve_in::<Mod<998244353>>(alloc, modulus, order, a, b),
        Some(1000000007) => solve_in::<Mod<1000000007>>(alloc, modulus, order, a, b),
        Some(2305843009213693951) => solve_in::<Mod<2305843009213693951>>(
            alloc, modulus, order, a, b,
        ),
        Some(_) => Err(Failure::Modulus),
    }
}

// Checks that A X = B, modulo 2^64 or one of the moduli that the program is built for.
fn check_modulo(
    alloc: Global,
    modulus: Option<u64>,
    a: &CooMatrix<i128>,
    x: &CooMatrix<i128>,
    b: &CooMatrix<i128>,
) -> Result<(), Failure>
    ensures { IsTestedBy modulus a.now x.now b.now result }
{
    match modulus {
        None => check_in::<W64>(alloc, a, x, b),
        Some(2) => check_in::<Mod<2>>(alloc, a, x, b),
        Some(3) => check_in::<Mod<3>>(alloc, a, x, b),
        Some(5) => check_in::<Mod<5>>(alloc, a, x, b),
        Some(7) => check_in::<Mod<7>>(alloc, a, x, b),
        Some(11) => check_in::<Mod<11>>(alloc, a, x, b),
        Some(13) => check_in::<Mod<13>>(alloc, a, x, b),
        Some(101) => check_in::<Mod<101>>(alloc, a, x, b),
        Some(65537) => check_in::<Mod<65537>>(alloc, a, x, b),
        Some(998244353) => check_in::<Mod<998244353>>(alloc, a, x, b),
        Some(1000000007) => check_in::<Mod<1000000007>>(alloc, a, x, b),
        Some(2305843009213693951) => check_in::<Mod<2305843009213693951>>(alloc, a, x, b),
        Some(_) => Err(Failure::Modulus),
    }
}

// Returns the matrix X for which A X = B in this ring, that of the modulus.
fn solve_in<T: Residues>(
    alloc: Global,
    modulus: Option<u64>,
    order: EliminationOrder,
    a: &CooMatrix<i128>,
    b: &CooMatrix<i128>,
) -> Result<CooMatrix<i128>, Failure>
    ensures { IsSolved T.ring T.value T.reduced modulus order a.now b.now result }
{
    let matrix: CooMatrix<T> = elements_of(alloc, a)?;
    let sides: CooMatrix<T> = elements_of(alloc, b)?;
    match solve_listed(alloc, order, &matrix, &sides) {
        Ok(x) => Ok(integers_of(alloc, &x)?),
        Err(error) => {
            let (a, b) = (Dimensions::of(a), Dimensions::of(b));
            Err(system_fault(modulus, a, b, error))
        }
    }
}

// Checks that A X = B in this ring.
fn check_in<T: Residues>(
    alloc: Global,
    a: &CooMatrix<i128>,
    x: &CooMatrix<i128>,
    b: &CooMatrix<i128>,
) -> Result<(), Failure>
    ensures { IsTested T.ring a.now x.now b.now result }
{
    let matrix: CooMatrix<T> = elements_of(alloc, a)?;
    let solution: CooMatrix<T> = elements_of(alloc, x)?;
    let sides: CooMatrix<T> = elements_of(alloc, b)?;
    match check_solution(alloc, &matrix, &solution, &sides) {
        Ok(()) => Ok(()),
        Err(error) => {
            let (a, x, b) = (Dimensions::of(a), Dimensions::of(x), Dimensions::of(b));
            Err(check_fault(a, x, b, error))
        }
    }
}

// Returns the failure for an error of solving a system modulo a number, where A and B have these dimensions.
fn system_fault(modulus: Option<u64>, a: Dimensions, b: Dimensions, error: SystemError) -> Failure
    ensures { result ≡ system_fault modulus a b error }
{
    match error {
        SystemError::Shapes => Failure::Shapes(a, b),
        SystemError::NotSymmetric(at) => Failure::NotSymmetric(at),
        SystemError::NoFactors(pivot) => Failure::NoFactors(modulus, pivot),
        SystemError::OutOfMemory => Failure::OutOfMemory,
    }
}

// Returns the failure for an error of testing a solution, where A, X and B have these dimensions.
fn check_fault(a: Dimensions, x: Dimensions, b: Dimensions, error: CheckError) -> Failure
    ensures { result ≡ check_fault a x b error }
{
    match error {
        CheckError::Shapes => Failure::ProductShapes(a, x, b),
        CheckError::NotSolution(at) => Failure::NotSolution(at),
        CheckError::OutOfMemory => Failure::OutOfMemory,
    }
}
