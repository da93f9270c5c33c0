//! Tests solutions of systems.

ghost use Rattle.std.specs.Prelude.{◌≡◌, ◌↔◌, Err, IfOk, IfErr, OnOk, MatchOption};
ghost use Rattle.sparse_coo_dense.specs.CooPlain.{plain_of_coo};
ghost use Rattle.sparse_compressed.specs.PlainOfLanes.{plain_of_rows};
ghost use Rattle.sparse_algebra.specs.Plain.{plain_product};
ghost use Rattle.sparse_dense_ops.specs.Solutions.{HasSameValues};
ghost use Rattle.mtxkit_matrices.specs.Differences.{IsFirstDifference};
ghost use Rattle.mtxkit_matrices.specs.Systems.{IsEquation, IsNoSolution};
ghost use Rattle.mtxkit_matrices.specs.declared.solutions.CheckError.TheVariants.{Shapes};

use crate::coordinates::Coordinates;
use crate::values::first_difference;
use sparse_algebra::scalar::Ring;
use sparse_convert::serial::convert_coo_csr;
use sparse_coo_dense::coo::CooMatrix;
use sparse_csr_csc::csr::CsrMatrix;
use sparse_products::serial::mul_csr;
use std::alloc::{AllocError, Global};

/// An error of testing a solution.
#[derive(Clone, Copy, Debug)]
pub enum CheckError {
    /// The shapes of the matrices do not fit.
    Shapes,
    /// A X has another value than B; row by row, at first here.
    NotSolution(Coordinates),
    /// An allocation failed.
    OutOfMemory,
}

/// Checks that A X = B.
///
/// # Errors
///
/// Returns `Shapes` exactly if A X does not exist or its shape differs from that of B, and `NotSolution` if A X has
/// another value than B. Otherwise fails only if an allocation fails.
pub fn check_solution<T: Ring>(
    alloc: Global,
    a: &CooMatrix<T>,
    x: &CooMatrix<T>,
    b: &CooMatrix<T>,
) -> Result<(), CheckError>
    ensures shapes { (result ≡ Err Shapes) ↔ (IsEquation a.now x.now b.now → ⊥) }
    ensures solved { OnOk result (HasSameValues T.ring b.now.nrows b.now.ncols
        (plain_product T.ring (plain_of_coo T.ring T.value a.now)
        (plain_of_coo T.ring T.value x.now))
        (plain_of_coo T.ring T.value b.now)) }
    ensures refused { IfErr result (IsNoSolution T.ring b.now.nrows b.now.ncols
        (plain_product T.ring (plain_of_coo T.ring T.value a.now)
        (plain_of_coo T.ring T.value x.now))
        (plain_of_coo T.ring T.value b.now)) }
{
    if a.ncols() != x.nrows() || a.nrows() != b.nrows() || x.ncols() != b.ncols() {
        return Err(CheckError::Shapes);
    }
    match product_difference(alloc, a, x, b)? {
        Some(at) => Err(CheckError::NotSolution(at)),
        None => Ok(()),
    }
}

// Returns the first row and column, row by row, where A X has another value than B. The shapes must fit.
fn product_difference<T: Ring>(
    alloc: Global,
    a: &CooMatrix<T>,
    x: &CooMatrix<T>,
    b: &CooMatrix<T>,
) -> Result<Option<Coordinates>, AllocError>
    requires { IsEquation a.now x.now b.now }
    ensures { IfOk result (λ found. MatchOption found
        (HasSameValues T.ring b.now.nrows b.now.ncols
        (plain_product T.ring (plain_of_coo T.ring T.value a.now)
        (plain_of_coo T.ring T.value x.now)) (plain_of_coo T.ring T.value b.now))
        (λ at. IsFirstDifference T.ring b.now.nrows b.now.ncols
        (plain_product T.ring (plain_of_coo T.ring T.value a.now)
        (plain_of_coo T.ring T.value x.now)) (plain_of_coo T.ring T.value b.now)
        at.row at.col)) }
{
    let product = product(alloc, a, x)?;
    let right = convert_coo_csr(alloc, b)?;
    first_difference(alloc, &product, &right)
}

// Returns A X as a CSR matrix. The shapes must fit.
fn product<T: Ring>(
    alloc: Global,
    a: &CooMatrix<T>,
    x: &CooMatrix<T>,
) -> Result<CsrMatrix<T>, AllocError>
    requires { a.now.ncols ≡ x.now.nrows }
    ensures { IfOk result (λ m. plain_of_rows T.ring T.value m
        ≡ plain_product T.ring (plain_of_coo T.ring T.value a.now)
        (plain_of_coo T.ring T.value x.now)) }
{
    let rows = convert_coo_csr(alloc, a)?;
    let solution = convert_coo_csr(alloc, x)?;
    mul_csr(alloc, &rows, &solution)
}

impl From<AllocError> for CheckError {
    ghost use Rattle.mtxkit_matrices.specs.declared.solutions.CheckError.TheVariants.{OutOfMemory};

    ghost from_gives = { λ _ e. e ≡ OutOfMemory };

    fn from(_refused: AllocError) -> CheckError {
        CheckError::OutOfMemory
    }
}
