//! The factors that a handle holds: those of a matrix, or of one whose rows and columns are permuted.

ghost use Rattle.std.specs.Prelude.{◌≡◌, IfOk, OnOk};
ghost use Rattle.sparse_algebra.specs.WrappingValues.{w64_value};
ghost use Rattle.sparse_coo_dense.specs.DensePlain.{plain_of_dense};
ghost use Rattle.c_arrays.specs.Arrays.{ring64};
ghost use Rattle.c_handles.specs.Factored.{factors_in, order_in, product_in, size_in};
ghost use Rattle.sparse_dense_ops.specs.Solutions.{IsSolution};

use sparse_algebra::scalar::W64;
use sparse_coo_dense::dense::DMatrix;
use sparse_factor::ldl::Ldl;
use sparse_factor::ordered::OrderedLdl;
use sparse_permutation::permutation::Permutation;
use std::alloc::{AllocError, Global};

/// The exact factors L D Lᵀ of a symmetric matrix A, or of P A Pᵀ with a permutation P.
#[derive(Drop)]
pub enum HeldFactors {
    /// The factors of A.
    Natural(Ldl<W64>),
    /// The factors of P A Pᵀ, and P.
    Ordered(OrderedLdl<W64>),
}

impl HeldFactors {
    /// Returns the factors L and D.
    pub(crate) fn ldl(&self) -> &Ldl<W64>
        ensures { result.now ≡ factors_in self.now }
    {
        match self {
            HeldFactors::Natural(factors) => factors,
            HeldFactors::Ordered(ordered) => ordered.factors(),
        }
    }

    /// Returns the number of rows of A.
    pub(crate) fn size(&self) -> usize
        ensures { result ≡ size_in self.now }
    {
        match self {
            HeldFactors::Natural(factors) => factors.l().nrows(),
            HeldFactors::Ordered(ordered) => ordered.permutation().len(),
        }
    }

    /// Returns a copy of P, which changes nothing if the factors are those of A.
    ///
    /// Fails only if an allocation fails.
    pub(crate) fn permutation(&self, alloc: Global) -> Result<Permutation, AllocError>
        ensures { IfOk result (λ p. p ≡ order_in self.now) }
    {
        match self {
            HeldFactors::Natural(factors) => Permutation::identity(alloc, factors.l().nrows()),
            HeldFactors::Ordered(ordered) => ordered.permutation().clone(alloc),
        }
    }

    /// Solves A X = B in place. `b` holds B on entry and X on return, and has as many rows as A.
    ///
    /// Fails only if an allocation fails.
    pub(crate) fn solve_mut(&self, alloc: Global, b: &mut DMatrix<W64>) -> Result<(), AllocError>
        requires { b.old.nrows ≡ size_in self.now }
        ensures rows { b.new.nrows ≡ b.old.nrows }
        ensures cols { b.new.ncols ≡ b.old.ncols }
        ensures solved { OnOk result (IsSolution ring64 (product_in self.now)
            (plain_of_dense ring64 w64_value b.new) (plain_of_dense ring64 w64_value b.old)) }
    {
        match self {
            HeldFactors::Natural(factors) => {
                factors.solve_mut(b);
                Ok(())
            }
            HeldFactors::Ordered(ordered) => ordered.solve_mut(alloc, b),
        }
    }
}
