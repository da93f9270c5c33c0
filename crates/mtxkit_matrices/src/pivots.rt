//! The pivot at which a factorisation of a permuted symmetric matrix stops.

ghost use Rattle.std.specs.Prelude.{◌≡◌, IfOk, length};
ghost use Rattle.sparse_compressed.specs.PlainOfLanes.{plain_of_cols};
ghost use Rattle.sparse_factor.specs.OrderedFactors.{HasNoFactorsInOrder};
ghost use Rattle.sparse_permutation.specs.PermutedPlain.{plain_permuted};
ghost use Rattle.mtxkit_matrices.specs.Pivots.{IsPivotIn};
ghost use Rattle.mtxkit_matrices.specs.Values.{IsSymmetricMatrix};

use sparse_algebra::scalar::Units;
use sparse_csr_csc::csc::CscMatrix;
use sparse_factor::ldl::Ldl;
use sparse_permutation::permutation::Permutation;
use sparse_permutation::symmetric::permute_symmetric_csc;
use std::alloc::{AllocError, Global};
use std::fmt::{self, Display, Formatter, Write};

/// A pivot of a factorisation.
#[derive(Clone, Copy, Debug)]
pub struct Pivot {
    /// The number of pivots before it.
    pub number: usize,
    /// The row of the matrix that it is in, counted from 0.
    pub row: usize,
}

/// Writes the numbers of the pivot and of its row, counted from 1.
impl Display for Pivot {
    fn fmt<W: Write>(&self, f: &mut Formatter<W>) -> fmt::Result {
        let (number, row) = (self.number as u128 + 1, self.row as u128 + 1);
        write!(f, "pivot {number}, in row {row},")
    }
}

/// Returns the pivot that has no inverse in the factorisation of P A P^T, for a symmetric matrix A and an order P for
/// which there is no factorisation.
///
/// The pivot is found by bisection, with a factorisation in each step. Fails only if an allocation fails.
pub(crate) fn singular_pivot<T: Units>(
    alloc: Global,
    a: &CscMatrix<T>,
    order: &Permutation,
) -> Result<Pivot, AllocError>
    requires symmetric { IsSymmetricMatrix T.ring (plain_of_cols T.ring T.value a.now) }
    requires length { length order.now ≡ a.now.pattern.minor_dim }
    requires singular { HasNoFactorsInOrder T.ring T.value a.now order.now }
    ensures { IfOk result (IsPivotIn T.ring T.value (plain_of_cols T.ring T.value a.now) order.now) }
{
    let permuted = permuted_matrix(alloc, a, order)?;
    let number = Ldl::factored_size(alloc, &permuted)?;
    let row = order.order()[number];
    Ok(Pivot { number, row })
}

// Returns P A P^T.
fn permuted_matrix<T: Units>(
    alloc: Global,
    a: &CscMatrix<T>,
    order: &Permutation,
) -> Result<CscMatrix<T>, AllocError>
    requires square { a.now.pattern.minor_dim ≡ a.now.pattern.major_dim }
    requires length { length order.now ≡ a.now.pattern.minor_dim }
    ensures { IfOk result (λ m. plain_of_cols T.ring T.value m
        ≡ plain_permuted T.ring order.now (plain_of_cols T.ring T.value a.now)) }
{
    match permute_symmetric_csc(alloc, a, order) {
        Ok(permuted) => Ok(permuted),
        Err(_) => Err(AllocError),
    }
}
