//! Exact factorisations `L D L^T`.

ghost use Rattle.std.specs.Prelude.{◌≡◌, ◌⊎◌, length, IfOk, IfErr};
ghost use Rattle.sparse_coo_dense.specs.DensePlain.{plain_of_dense};
ghost use Rattle.sparse_compressed.specs.Compressed.{Compressed, IsSound};
ghost use Rattle.sparse_compressed.specs.PlainOfLanes.{plain_of_cols};
ghost use Rattle.sparse_factor.specs.Fill.{InFill, UpperBase, StoresByColumns};
ghost use Rattle.sparse_factor.specs.Factorisations.{IsUnitLower, plain_upper};
ghost use Rattle.sparse_factor.specs.Factors.{AreFactorsOf, AreOnlyFactorsOf, HasNoFactors};
ghost use Rattle.sparse_factor.specs.Factors.{HavePivots, plain_of_factors, symmetric_of};
ghost use Rattle.sparse_algebra.specs.declared.error.OperationErrorKind.TheVariants.{OutOfMemory};
ghost use Rattle.sparse_algebra.specs.declared.error.OperationErrorKind.TheVariants.{Singular};
ghost use Rattle.sparse_dense_ops.specs.Solutions.{HasSameValues, IsSolution};

mod columns;
mod nested;
mod numeric;
mod solve;
mod updates;

use crate::factorization::CscSymbolicCholesky;
use numeric::factor_on_fill;
use solve::scale_rows;
use sparse_algebra::error::OperationError;
use sparse_algebra::operand::Op;
use sparse_algebra::recall;
use sparse_algebra::scalar::Units;
use sparse_coo_dense::dense::DMatrix;
use sparse_csr_csc::csc::CscMatrix;
use sparse_dense_ops::spsolve_csc_lower_triangular;
use std::alloc::{AllocError, Global};
use std::marker::Model;

/// The exact factorisation `L D L^T` of a symmetric matrix over a commutative ring: L is unit lower triangular, D is
/// diagonal, and each entry of the diagonal has an inverse.
///
/// # Examples
///
/// ```rust
/// fn a_symmetric_system_is_solved(alloc: Global) -> Result<bool, Fail> {
///     let dense = DMatrix::from_row_slice(alloc, 2, 2, &[1, 2, 2, 7].map(W64::new))?;
///     let ldl = Ldl::factor(alloc, &convert_dense_csc(alloc, &dense)?)?;
///     let mut b = DMatrix::from_column_slice(alloc, 2, 1, &[3, 9].map(W64::new))?;
///     ldl.solve_mut(&mut b);
///     Ok(b.as_slice() == [1, 1].map(W64::new).as_slice())
/// }
/// ```
#[derive(Debug, Drop)]
pub struct Ldl<T: Units> {
    l: CscMatrix<T>,
    d: Vec<T>,
    // The inverses of the entries of d.
    inverses: Vec<T>,
}

impl<T: Units> Model for Ldl<T> {
    ghost use Rattle.sparse_factor.specs.Factors.{AreFactors, Factors, factors_code, factors_of};
    ghost use Rattle.sparse_factor.specs.InnerFactors.{AreInverses};

    ghost Value = { Factors T };

    ghost coded = { factors_code T.code };

    ghost view = { λ s. factors_of s.l s.d.items };

    ghost invariant = { λ s. AreFactors T.ring T.value T.zero_value (factors_of s.l s.d.items)
        × AreInverses T.ring T.value T.zero_value s.d.items s.inverses.items };
}

impl<T: Units> Ldl<T> {
    /// Returns the factorisation of the symmetric matrix whose entries on and above the diagonal are those of `a`.
    ///
    /// `a` must be square. Entries below its diagonal have no effect. The pattern of L is exactly the fill of the
    /// pattern of `a`, as [`CscSymbolicCholesky`] computes it; a value of L that is zero is stored. No other values of
    /// L and D satisfy the equation.
    ///
    /// A left-looking factorisation on the pattern of the fill (Davis 2006, chapter 4): for each entry (j, k) of L one
    /// multiplication for each entry of column k from row j on. At the peak it holds the factors, the inverses of the
    /// diagonal of D, the transposed pattern of L, the transposed upper triangle of `a`, and one number and one flag for
    /// each row. The symbolic factorisation before it holds a copy of the pattern of `a`, beside its own memory.
    ///
    /// # Errors
    ///
    /// Returns `Singular` if a pivot has no inverse; then no factorisation exists. Otherwise fails only if an
    /// allocation fails.
    pub fn factor(alloc: Global, a: &CscMatrix<T>) -> Result<Self, OperationError>
        requires square { a.now.pattern.minor_dim ≡ a.now.pattern.major_dim }
        ensures rows { IfOk result (λ s. s.l.pattern.minor_dim ≡ a.now.pattern.minor_dim) }
        ensures count { IfOk result (λ s. length s.d ≡ a.now.pattern.minor_dim) }
        ensures entries { IfOk result (λ s.
            StoresByColumns (InFill (UpperBase a.now.pattern)) s.l.pattern) }
        ensures unit_diagonal { IfOk result (λ s.
            IsUnitLower T.ring (plain_of_cols T.ring T.value s.l)) }
        ensures pivots { IfOk result (λ s. HavePivots T.ring T.value T.zero_value s.d) }
        ensures equation { IfOk result (λ s. HasSameValues T.ring (length s.d) (length s.d)
            (plain_of_factors T.ring T.value T.zero_value s)
            (symmetric_of T.ring T.value a.now)) }
        ensures unique { IfOk result (AreOnlyFactorsOf T.ring T.value T.zero_value a.now) }
        ensures singular { IfErr result (λ e. e ≡ Singular → HasNoFactors T.ring T.value a.now) }
        ensures kinds { IfErr result (λ e. (e ≡ Singular) ⊎ (e ≡ OutOfMemory)) }
        ensures upper_only { (b : Compressed T) → IsSound b
            → plain_upper T.ring (plain_of_cols T.ring T.value b)
            ≡ plain_upper T.ring (plain_of_cols T.ring T.value a.now)
            → IfOk result (AreFactorsOf T.ring T.value T.zero_value b)
            × IfErr result (λ e. e ≡ Singular → HasNoFactors T.ring T.value b) }
    {
        let symbolic = CscSymbolicCholesky::factor(alloc, a.pattern().clone(alloc)?)?;
        let (l, d, inverses) = factor_on_fill(alloc, a, symbolic.into_l_pattern())?;
        Ok(Ldl { l, d, inverses })
    }

    /// Returns the unit lower triangular factor L.
    pub fn l(&self) -> &CscMatrix<T>
        ensures l { result.now ≡ self.now.l }
        ensures lower { IsUnitLower T.ring (plain_of_cols T.ring T.value self.now.l) }
    {
        &self.l
    }

    /// Returns the diagonal of D, one entry for each row of L.
    pub fn d(&self) -> &[T]
        ensures d { result.now ≡ self.now.d }
        ensures count { length self.now.d ≡ self.now.l.pattern.minor_dim }
        ensures pivots { HavePivots T.ring T.value T.zero_value self.now.d }
    {
        &self.d
    }

    /// Solves `L D L^T X = B` in place. `b` holds B on entry and X on return.
    ///
    /// `b` must have as many rows as L. A solve with L, a multiplication of each row by the inverse of its entry of D,
    /// and a solve with the transpose of L. Allocates nothing.
    pub fn solve_mut(&self, b: &mut DMatrix<T>)
        requires { b.old.nrows ≡ self.now.l.pattern.minor_dim }
        ensures rows { b.new.nrows ≡ b.old.nrows }
        ensures cols { b.new.ncols ≡ b.old.ncols }
        ensures solved { IsSolution T.ring
            (plain_of_factors T.ring T.value T.zero_value self.now)
            (plain_of_dense T.ring T.value b.new) (plain_of_dense T.ring T.value b.old) }
    {
        recall(self.l.values());
        // The solves return an error only over the ring in which one is zero; there every X is a solution.
        let _ = spsolve_csc_lower_triangular(Op::NoOp(&self.l), b);
        scale_rows(&self.inverses, b);
        let _ = spsolve_csc_lower_triangular(Op::Transpose(&self.l), b);
    }

    /// Returns a copy. Fails only if an allocation fails.
    pub fn clone(&self, alloc: Global) -> Result<Self, AllocError>
        ensures { IfOk result (λ s. s ≡ self.now) }
    {
        Ok(Ldl {
            l: self.l.clone(alloc)?,
            d: Vec::from_slice(alloc, &self.d)?,
            inverses: Vec::from_slice(alloc, &self.inverses)?,
        })
    }
}

impl<T: Units> PartialEq for Ldl<T> {
    ghost use Rattle.sparse_factor.specs.Factors.{factors_eq, factors_eq-laws};

    ghost eq = { factors_eq T.eq };

    ghost laws = { factors_eq-laws T.laws };

    fn eq(&self, other: &Self) -> bool {
        self.l == other.l && self.d == other.d
    }
}

impl<T: Units + Eq> Eq for Ldl<T> {
    ghost use Rattle.sparse_factor.specs.Factors.{factors_eq-equiv};

    ghost laws = { factors_eq-equiv T.Eq.laws };
}
