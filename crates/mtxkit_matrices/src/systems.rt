//! Solves symmetric systems exactly.

ghost use Rattle.std.specs.Prelude.{◌≡◌, ◌↔◌, ℕ, All, Err, IfOk, IfErr, MatchOption, length};
ghost use Rattle.sparse_coo_dense.specs.CooPlain.{plain_of_coo};
ghost use Rattle.sparse_coo_dense.specs.DensePlain.{plain_of_dense};
ghost use Rattle.sparse_compressed.specs.PlainOfLanes.{plain_of_cols};
ghost use Rattle.sparse_algebra.specs.Plain.{plain_product};
ghost use Rattle.sparse_dense_ops.specs.Solutions.{HasSameValues};
ghost use Rattle.mtxkit_matrices.specs.Differences.{IsFirstAsymmetry};
ghost use Rattle.mtxkit_matrices.specs.InnerSystems.{IsUnsolvableIn};
ghost use Rattle.mtxkit_matrices.specs.Orders.{IsByColumns, coordinates_of};
ghost use Rattle.mtxkit_matrices.specs.Systems.{IsSystem, IsUnsolvable};
ghost use Rattle.mtxkit_matrices.specs.Values.{IsSymmetricMatrix};
ghost use Rattle.mtxkit_matrices.specs.declared.systems.SystemError.TheVariants.{Shapes};

use crate::coordinates::Coordinates;
use crate::orders::{EliminationOrder, permutation_by};
use crate::pivots::{Pivot, singular_pivot};
use crate::values::first_asymmetry;
use sparse_algebra::recall;
use sparse_algebra::scalar::{Ring, Units};
use sparse_convert::serial::{
    convert_coo_csc, convert_coo_csr, convert_coo_dense, convert_dense_coo, from_dense_law,
};
use sparse_coo_dense::coo::CooMatrix;
use sparse_coo_dense::dense::DMatrix;
use sparse_csr_csc::csc::CscMatrix;
use sparse_factor::ldl::Ldl;
use sparse_factor::ordered::error::OrderedFactorError;
use sparse_permutation::permutation::Permutation;
use std::alloc::{AllocError, Global};

/// An error of solving a system.
#[derive(Clone, Copy, Debug)]
pub enum SystemError {
    /// The shapes of the matrices do not fit.
    Shapes,
    /// The matrix has another value than its transpose; row by row, at first here.
    NotSymmetric(Coordinates),
    /// The matrix, in the order that is asked for, has no factorisation L D L^T: this is the first pivot without an
    /// inverse.
    NoFactors(Pivot),
    /// An allocation failed.
    OutOfMemory,
}

/// Returns the matrix X for which A X = B, by the exact factorisation P A P^T = L D L^T of the symmetric matrix A, where
/// P is the order that is asked for.
///
/// X does not depend on the order; whether there is a factorisation does.
///
/// # Errors
///
/// Returns `Shapes` exactly if A is not square or B has a different number of rows, `NotSymmetric` if A differs from
/// its transpose, and `NoFactors` if no factorisation of P A P^T exists. Otherwise fails only if an allocation fails.
pub fn solve<T: Units>(
    alloc: Global,
    order: EliminationOrder,
    a: &CooMatrix<T>,
    b: &CooMatrix<T>,
) -> Result<DMatrix<T>, SystemError>
    ensures shapes { (result ≡ Err Shapes) ↔ (IsSystem a.now b.now → ⊥) }
    ensures symmetric { IfOk result
        (λ _. IsSymmetricMatrix T.ring (plain_of_coo T.ring T.value a.now)) }
    ensures rows { IfOk result (λ x. x.nrows ≡ a.now.ncols) }
    ensures cols { IfOk result (λ x. x.ncols ≡ b.now.ncols) }
    ensures solved { IfOk result (λ x. HasSameValues T.ring b.now.nrows b.now.ncols
        (plain_product T.ring (plain_of_coo T.ring T.value a.now)
        (plain_of_dense T.ring T.value x))
        (plain_of_coo T.ring T.value b.now)) }
    ensures refused { IfErr result
        (IsUnsolvable T.ring T.value order (plain_of_coo T.ring T.value a.now)) }
{
    if a.nrows() != a.ncols() || b.nrows() != a.nrows() {
        return Err(SystemError::Shapes);
    }
    solve_fitting(alloc, order, a, b)
}

// Returns the matrix X for which A X = B. The shapes must fit.
fn solve_fitting<T: Units>(
    alloc: Global,
    order: EliminationOrder,
    a: &CooMatrix<T>,
    b: &CooMatrix<T>,
) -> Result<DMatrix<T>, SystemError>
    requires { IsSystem a.now b.now }
    ensures symmetric { IfOk result
        (λ _. IsSymmetricMatrix T.ring (plain_of_coo T.ring T.value a.now)) }
    ensures rows { IfOk result (λ x. x.nrows ≡ a.now.ncols) }
    ensures cols { IfOk result (λ x. x.ncols ≡ b.now.ncols) }
    ensures solved { IfOk result (λ x. HasSameValues T.ring b.now.nrows b.now.ncols
        (plain_product T.ring (plain_of_coo T.ring T.value a.now)
        (plain_of_dense T.ring T.value x))
        (plain_of_coo T.ring T.value b.now)) }
    ensures shapes { IfErr result (λ e. e ≡ Shapes → ⊥) }
    ensures refused { IfErr result
        (IsUnsolvable T.ring T.value order (plain_of_coo T.ring T.value a.now)) }
{
    if let Some(at) = asymmetry_of(alloc, a)? {
        return Err(SystemError::NotSymmetric(at));
    }
    let columns = convert_coo_csc(alloc, a)?;
    let permutation = permutation_by(alloc, order, columns.pattern())?;
    recall(permutation.order());
    solve_in_order(alloc, &columns, permutation, b)
}

// Returns the first row and column, row by row, where a square matrix has another value than its transpose.
fn asymmetry_of<T: Ring>(alloc: Global, a: &CooMatrix<T>) -> Result<Option<Coordinates>, AllocError>
    requires { a.now.ncols ≡ a.now.nrows }
    ensures { IfOk result (λ found. MatchOption found
        (IsSymmetricMatrix T.ring (plain_of_coo T.ring T.value a.now))
        (λ at. IsFirstAsymmetry T.ring (plain_of_coo T.ring T.value a.now) at.row at.col)) }
{
    let rows = convert_coo_csr(alloc, a)?;
    first_asymmetry(alloc, &rows)
}

// Returns the matrix X for which A X = B, where A is symmetric, by the factorisation of P A P^T.
fn solve_in_order<T: Units>(
    alloc: Global,
    a: &CscMatrix<T>,
    permutation: Permutation,
    b: &CooMatrix<T>,
) -> Result<DMatrix<T>, SystemError>
    requires symmetric { IsSymmetricMatrix T.ring (plain_of_cols T.ring T.value a.now) }
    requires count { length permutation ≡ a.now.pattern.minor_dim }
    requires rows { b.now.nrows ≡ a.now.pattern.minor_dim }
    ensures rows { IfOk result (λ x. x.nrows ≡ b.now.nrows) }
    ensures cols { IfOk result (λ x. x.ncols ≡ b.now.ncols) }
    ensures solved { IfOk result (λ x. HasSameValues T.ring b.now.nrows b.now.ncols
        (plain_product T.ring (plain_of_cols T.ring T.value a.now)
        (plain_of_dense T.ring T.value x))
        (plain_of_coo T.ring T.value b.now)) }
    ensures refused { IfErr result
        (IsUnsolvableIn T.ring T.value permutation (plain_of_cols T.ring T.value a.now)) }
{
    let order = permutation.clone(alloc)?;
    match Ldl::factor_in_order(alloc, a, permutation) {
        Ok(factors) => {
            let mut x = convert_coo_dense(alloc, b)?;
            factors.solve_mut(alloc, &mut x)?;
            Ok(x)
        }
        Err(OrderedFactorError::Singular) => {
            let pivot = singular_pivot(alloc, a, &order)?;
            Err(SystemError::NoFactors(pivot))
        }
        Err(_) => Err(SystemError::OutOfMemory),
    }
}

/// As [`solve`], but returns X as a list of triplets: its nonzero values, column by column and each column from the
/// top.
///
/// # Errors
///
/// Returns the errors of [`solve`].
pub fn solve_listed<T: Units>(
    alloc: Global,
    order: EliminationOrder,
    a: &CooMatrix<T>,
    b: &CooMatrix<T>,
) -> Result<CooMatrix<T>, SystemError>
    ensures shapes { (result ≡ Err Shapes) ↔ (IsSystem a.now b.now → ⊥) }
    ensures symmetric { IfOk result
        (λ _. IsSymmetricMatrix T.ring (plain_of_coo T.ring T.value a.now)) }
    ensures order { IfOk result (λ x. IsByColumns (coordinates_of x.triplets)) }
    ensures nonzero { IfOk result
        (λ x. All (λ t. T.value t.2 ≡ T.ring.zero → ⊥) x.triplets) }
    ensures rows { IfOk result (λ x. x.nrows ≡ a.now.ncols) }
    ensures cols { IfOk result (λ x. x.ncols ≡ b.now.ncols) }
    ensures solved { IfOk result (λ x. HasSameValues T.ring b.now.nrows b.now.ncols
        (plain_product T.ring (plain_of_coo T.ring T.value a.now)
        (plain_of_coo T.ring T.value x))
        (plain_of_coo T.ring T.value b.now)) }
    ensures refused { IfErr result
        (IsUnsolvable T.ring T.value order (plain_of_coo T.ring T.value a.now)) }
{
    match solve(alloc, order, a, b) {
        Ok(x) => Ok(listed(alloc, &x)?),
        Err(error) => Err(error),
    }
}

// Returns the nonzero values as a list of triplets, column by column and each column from the top.
fn listed<T: Ring>(alloc: Global, x: &DMatrix<T>) -> Result<CooMatrix<T>, AllocError>
    ensures rows { IfOk result (λ m. m.nrows ≡ x.now.nrows) }
    ensures cols { IfOk result (λ m. m.ncols ≡ x.now.ncols) }
    ensures values { IfOk result (λ m. (i j : ℕ) → (plain_of_coo T.ring T.value m).value i j
        ≡ (plain_of_dense T.ring T.value x.now).value i j) }
    ensures order { IfOk result (λ m. IsByColumns (coordinates_of m.triplets)) }
    ensures nonzero { IfOk result (λ m. All (λ t. T.value t.2 ≡ T.ring.zero → ⊥) m.triplets) }
{
    from_dense_law::<T>();
    convert_dense_coo(alloc, x)
}

impl From<AllocError> for SystemError {
    ghost use Rattle.mtxkit_matrices.specs.declared.systems.SystemError.TheVariants.{OutOfMemory};

    ghost from_gives = { λ _ e. e ≡ OutOfMemory };

    fn from(_refused: AllocError) -> SystemError {
        SystemError::OutOfMemory
    }
}
