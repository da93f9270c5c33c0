//! Exact factorisations of symmetric matrices whose rows and columns are permuted.

ghost use Rattle.std.specs.Prelude.{◌≡◌, ◌≢◌, ◌⊎◌, ℕ, List, length, IfOk, IfErr, OnOk, IsErr, IsErrOf};
ghost use Rattle.sparse_algebra.specs.Plain.{Plain};
ghost use Rattle.sparse_coo_dense.specs.DensePlain.{plain_of_dense};
ghost use Rattle.sparse_compressed.specs.PlainOfLanes.{plain_of_cols};
ghost use Rattle.sparse_factor.specs.Factorisations.{IsFactorisation};
ghost use Rattle.sparse_factor.specs.Factors.{symmetric_of};
ghost use Rattle.sparse_factor.specs.OrderedFactors.{plain_of_ordered, AreFactorsOfPermuted};
ghost use Rattle.sparse_factor.specs.OrderedFactors.{AreOnlyFactorsOfPermuted, HasNoFactorsInOrder};
ghost use Rattle.sparse_factor.specs.OrderedFactors.{StoresFillOfPermuted};
ghost use Rattle.sparse_algebra.specs.declared.error.OperationErrorKind.TheVariants.{OutOfMemory};
ghost use Rattle.sparse_algebra.specs.declared.error.OperationErrorKind.TheVariants.{Singular};
ghost use Rattle.sparse_dense_ops.specs.Solutions.{HasSameValues, IsSolution};
ghost use Rattle.sparse_permutation.specs.Permutations.{IsOrder};
ghost use Rattle.sparse_permutation.specs.PermutedPlain.{plain_permuted, IsSymmetric};

pub mod error;
mod whole;

use crate::ldl::Ldl;
use error::OrderedFactorError;
use sparse_algebra::error::OperationError;
use sparse_algebra::recall;
use sparse_algebra::scalar::Units;
use sparse_coo_dense::dense::DMatrix;
use sparse_csr_csc::csc::CscMatrix;
use sparse_ordering::minimum_degree::minimum_degree;
use sparse_permutation::permutation::Permutation;
use std::alloc::{AllocError, Global};
use std::marker::Model;
use whole::{permuted_matrix, permuted_rows, symmetric_matrix};

/// The exact factorisation `L D L^T` of a symmetric matrix over a commutative ring whose rows and columns are permuted
/// alike, with the permutation.
///
/// # Examples
///
/// ```rust
/// fn a_permuted_system_is_solved(alloc: Global) -> Result<bool, Fail> {
///     let dense = DMatrix::from_row_slice(alloc, 2, 2, &[0, 2, 2, 7].map(W64::new))?;
///     let order = Permutation::try_from_order(alloc, Vec::from_slice(alloc, &[1, 0])?)?;
///     let refused = Ldl::factor_in_order(alloc, &convert_dense_csc(alloc, &dense)?, order).err();
///     Ok(refused == Some(OrderedFactorError::Singular))
/// }
/// ```
#[derive(Debug, Drop)]
pub struct OrderedLdl<T: Units> {
    permutation: Permutation,
    inverse: Permutation,
    // The factors of P A Pᵀ.
    factors: Ldl<T>,
}

impl<T: Units> Model for OrderedLdl<T> {
    ghost use Rattle.sparse_factor.specs.OrderedFactors.{OrderedFactors, ordered_code, ordered_of};
    ghost use Rattle.sparse_factor.specs.OrderedFactors.{IsOrdered};

    ghost Value = { OrderedFactors T };

    ghost coded = { ordered_code T.code };

    ghost view = { λ s. ordered_of s.permutation s.inverse s.factors };

    ghost invariant = { λ s. IsOrdered (ordered_of s.permutation s.inverse s.factors) };
}

impl<T: Units> Ldl<T> {
    /// Returns the factorisation of P A Pᵀ, where A is the symmetric matrix whose entries on and above the diagonal are
    /// those of `a`, and P is an order in which L has little fill.
    ///
    /// `a` must be square. The order is that of [`minimum_degree`] for the pattern of `a`; beside it, entries below the
    /// diagonal have no effect. The pattern of L is exactly the fill of P A Pᵀ; a value of L that is zero is stored.
    /// [`OrderedLdl::solve_mut`] solves A X = B itself.
    ///
    /// Before [`Ldl::factor`], A is built from two triangles, and permuted. That takes time linear in the entries and
    /// columns, except that each column is sorted, and memory for some copies of A.
    ///
    /// # Errors
    ///
    /// Returns `Singular` if a pivot has no inverse; then P A Pᵀ has no factorisation, but A may have one in another
    /// order ([`Ldl::factor_in_order`]), as given by [`Ldl::factor`]. Otherwise fails only if an allocation fails.
    ///
    /// # Examples
    ///
    /// ```rust
    /// fn an_arrow_is_solved(alloc: Global) -> Result<bool, Fail> {
    ///     let dense = DMatrix::from_row_slice(alloc, 3, 3, &[1, 2, 2, 2, 1, 0, 2, 0, 1].map(W64::new))?;
    ///     let ldl = Ldl::factor_ordered(alloc, &convert_dense_csc(alloc, &dense)?)?;
    ///     let mut b = DMatrix::from_column_slice(alloc, 3, 1, &[5, 3, 3].map(W64::new))?;
    ///     ldl.solve_mut(alloc, &mut b)?;
    ///     Ok(b.as_slice() == [1, 1, 1].map(W64::new).as_slice())
    /// }
    /// ```
    pub fn factor_ordered(alloc: Global, a: &CscMatrix<T>) -> Result<OrderedLdl<T>, OperationError>
        requires square { a.now.pattern.minor_dim ≡ a.now.pattern.major_dim }
        ensures rows { IfOk result (λ s. length s.order ≡ a.now.pattern.minor_dim) }
        ensures equation { IfOk result (λ s. HasSameValues T.ring (length s.order) (length s.order)
            (plain_of_ordered T.ring T.value T.zero_value s)
            (symmetric_of T.ring T.value a.now)) }
        ensures entries { IfOk result
            (StoresFillOfPermuted T.ring (symmetric_of T.ring T.value a.now)) }
        ensures factors { IfOk result (AreFactorsOfPermuted T.ring T.value T.zero_value
            (symmetric_of T.ring T.value a.now)) }
        ensures unique { IfOk result (AreOnlyFactorsOfPermuted T.ring T.value T.zero_value
            (symmetric_of T.ring T.value a.now)) }
        ensures singular { IfErr result (λ e. e ≡ Singular → ((p : List ℕ) × IsOrder p
            × (length p ≡ a.now.pattern.minor_dim)
            × HasNoFactorsInOrder T.ring T.value a.now p)) }
        ensures kinds { IfErr result (λ e. (e ≡ Singular) ⊎ (e ≡ OutOfMemory)) }
    {
        let permutation = minimum_degree(alloc, a.pattern())?;
        recall(permutation.order());
        factor_given(alloc, a, permutation)
    }

    /// Returns the factorisation of P A Pᵀ, where A is the symmetric matrix whose entries on and above the diagonal are
    /// those of `a`, and P is the given permutation.
    ///
    /// `a` must be square. As [`Ldl::factor_ordered`] otherwise, with the same cost beside that of the order.
    ///
    /// # Errors
    ///
    /// Returns `LengthMismatch` if the length of the permutation is not the number of rows, and otherwise `Singular` if
    /// a pivot has no inverse; then P A Pᵀ has no factorisation, but A may have one in another order. Otherwise fails
    /// only if an allocation fails. The permutation is dropped.
    pub fn factor_in_order(
        alloc: Global,
        a: &CscMatrix<T>,
        permutation: Permutation,
    ) -> Result<OrderedLdl<T>, OrderedFactorError>
        requires square { a.now.pattern.minor_dim ≡ a.now.pattern.major_dim }
        ensures order { IfOk result (λ s. s.order ≡ permutation) }
        ensures rows { IfOk result (λ s. length s.order ≡ a.now.pattern.minor_dim) }
        ensures equation { IfOk result (λ s. HasSameValues T.ring (length s.order) (length s.order)
            (plain_of_ordered T.ring T.value T.zero_value s)
            (symmetric_of T.ring T.value a.now)) }
        ensures entries { IfOk result
            (StoresFillOfPermuted T.ring (symmetric_of T.ring T.value a.now)) }
        ensures factors { IfOk result (AreFactorsOfPermuted T.ring T.value T.zero_value
            (symmetric_of T.ring T.value a.now)) }
        ensures unique { IfOk result (AreOnlyFactorsOfPermuted T.ring T.value T.zero_value
            (symmetric_of T.ring T.value a.now)) }
        ensures mismatch { a.now.pattern.minor_dim ≢ length permutation
            → IsErrOf result OrderedFactorError.LengthMismatch }
        ensures matched { IfErr result (λ e. e ≡ OrderedFactorError.LengthMismatch
            → a.now.pattern.minor_dim ≢ length permutation) }
        ensures singular { IfErr result (λ e. e ≡ OrderedFactorError.Singular
            → HasNoFactorsInOrder T.ring T.value a.now permutation) }
    {
        if a.ncols() != permutation.len() {
            return Err(OrderedFactorError::LengthMismatch);
        }
        match factor_given(alloc, a, permutation) {
            Ok(factors) => Ok(factors),
            Err(error) => Err(OrderedFactorError::of_factors(error)),
        }
    }
}

impl<T: Units> OrderedLdl<T> {
    /// Returns the permutation P.
    pub fn permutation(&self) -> &Permutation
        ensures { result.now ≡ self.now.order }
    {
        &self.permutation
    }

    /// Returns the factors of P A Pᵀ.
    pub fn factors(&self) -> &Ldl<T>
        ensures { result.now ≡ self.now.factors }
    {
        &self.factors
    }

    /// Solves Pᵀ L D Lᵀ P X = B in place, which is A X = B. `b` holds B on entry and X on return.
    ///
    /// `b` must have as many rows as A. The rows are permuted, the system of the factors is solved, and the rows are
    /// permuted back. It holds two matrices of the shape of B at the peak.
    ///
    /// # Errors
    ///
    /// Fails only if an allocation fails; then `b` is unchanged.
    pub fn solve_mut(&self, alloc: Global, b: &mut DMatrix<T>) -> Result<(), AllocError>
        requires { b.old.nrows ≡ length self.now.order }
        ensures rows { b.new.nrows ≡ b.old.nrows }
        ensures cols { b.new.ncols ≡ b.old.ncols }
        ensures solved { OnOk result (IsSolution T.ring
            (plain_of_ordered T.ring T.value T.zero_value self.now)
            (plain_of_dense T.ring T.value b.new) (plain_of_dense T.ring T.value b.old)) }
        ensures unchanged { IsErr result → b.new ≡ b.old }
    {
        let mut permuted = permuted_rows(alloc, b, &self.permutation)?;
        self.factors.solve_mut(&mut permuted);
        let solution = permuted_rows(alloc, &permuted, &self.inverse)?;
        *b = solution;
        Ok(())
    }

    /// Returns a copy. Fails only if an allocation fails.
    pub fn clone(&self, alloc: Global) -> Result<Self, AllocError>
        ensures { IfOk result (λ s. s ≡ self.now) }
    {
        Ok(OrderedLdl {
            permutation: self.permutation.clone(alloc)?,
            inverse: self.inverse.clone(alloc)?,
            factors: self.factors.clone(alloc)?,
        })
    }
}

// Returns the factorisation of P A Pᵀ, where A is the symmetric matrix of the upper triangle of `a`.
fn factor_given<T: Units>(
    alloc: Global,
    a: &CscMatrix<T>,
    permutation: Permutation,
) -> Result<OrderedLdl<T>, OperationError>
    requires square { a.now.pattern.minor_dim ≡ a.now.pattern.major_dim }
    requires length { length permutation ≡ a.now.pattern.minor_dim }
    ensures order { IfOk result (λ s. s.order ≡ permutation) }
    ensures equation { IfOk result (λ s. HasSameValues T.ring (length s.order) (length s.order)
        (plain_of_ordered T.ring T.value T.zero_value s) (symmetric_of T.ring T.value a.now)) }
    ensures entries { IfOk result
        (StoresFillOfPermuted T.ring (symmetric_of T.ring T.value a.now)) }
    ensures factors { IfOk result (AreFactorsOfPermuted T.ring T.value T.zero_value
        (symmetric_of T.ring T.value a.now)) }
    ensures unique { IfOk result (AreOnlyFactorsOfPermuted T.ring T.value T.zero_value
        (symmetric_of T.ring T.value a.now)) }
    ensures singular { IfErr result (λ e. e ≡ Singular
        → HasNoFactorsInOrder T.ring T.value a.now permutation) }
    ensures kinds { IfErr result (λ e. (e ≡ Singular) ⊎ (e ≡ OutOfMemory)) }
{
    let whole = symmetric_matrix(alloc, a)?;
    factor_whole(alloc, whole, permutation)
}

// Returns the factorisation of P A Pᵀ, where A is symmetric with all entries stored.
fn factor_whole<T: Units>(
    alloc: Global,
    a: CscMatrix<T>,
    permutation: Permutation,
) -> Result<OrderedLdl<T>, OperationError>
    requires square { a.pattern.minor_dim ≡ a.pattern.major_dim }
    requires length { length permutation ≡ a.pattern.minor_dim }
    requires symmetric { IsSymmetric T.ring (plain_of_cols T.ring T.value a) }
    ensures order { IfOk result (λ s. s.order ≡ permutation) }
    ensures equation { IfOk result (λ s. HasSameValues T.ring (length s.order) (length s.order)
        (plain_of_ordered T.ring T.value T.zero_value s) (plain_of_cols T.ring T.value a)) }
    ensures entries { IfOk result
        (StoresFillOfPermuted T.ring (plain_of_cols T.ring T.value a)) }
    ensures factors { IfOk result (AreFactorsOfPermuted T.ring T.value T.zero_value
        (plain_of_cols T.ring T.value a)) }
    ensures unique { IfOk result (AreOnlyFactorsOfPermuted T.ring T.value T.zero_value
        (plain_of_cols T.ring T.value a)) }
    ensures singular { IfErr result (λ e. e ≡ Singular → (l : Plain T.ring)
        (d : ℕ → T.ring.Carrier) → IsFactorisation T.ring T.value
        (plain_permuted T.ring permutation (plain_of_cols T.ring T.value a)) l d → ⊥) }
    ensures kinds { IfErr result (λ e. (e ≡ Singular) ⊎ (e ≡ OutOfMemory)) }
{
    recall(permutation.order());
    let inverse = permutation.inverse(alloc)?;
    let permuted = permuted_matrix(alloc, a, &permutation)?;
    let factors = Ldl::factor(alloc, &permuted)?;
    Ok(OrderedLdl {
        permutation,
        inverse,
        factors,
    })
}
