//! Sums of multiples of matrices.

ghost use Rattle.std.specs.Prelude.{◌≡◌, IfOk};
ghost use Rattle.sparse_algebra.specs.Plain.{plain_scaled, plain_sum};
ghost use Rattle.sparse_compressed.specs.PlainOfLanes.{plain_of_rows, plain_of_cols};

use crate::add::{add_csc, add_csr};
use crate::scale::{scale_csc, scale_csr};
use sparse_algebra::scalar::Ring;
use sparse_csr_csc::csc::CscMatrix;
use sparse_csr_csc::csr::CsrMatrix;
use std::alloc::{AllocError, Global};

/// Returns the sum `alpha * a + beta * b`.
///
/// The result has an entry wherever `a` or `b` has one, even if its value is zero. Both matrices must have the same
/// shape.
///
/// Adds a multiple of each matrix by [`add_csr`]. Time is linear in the number of entries and rows. Beside the result
/// it takes memory for a copy of each matrix. Fails only if an allocation fails.
///
/// # Examples
///
/// ```rust
/// fn multiples_are_added(alloc: Global) -> Result<bool, Fail> {
///     let identity = CsrMatrix::<W64>::identity(alloc, 2)?;
///     let (two, minus_three) = (W64::new(2), W64::new(-3));
///     let sum = add_scaled_csr(alloc, two, &identity, minus_three, &identity)?;
///     Ok(sum.values() == [W64::new(-1), W64::new(-1)].as_slice())
/// }
/// ```
pub fn add_scaled_csr<T: Ring>(
    alloc: Global,
    alpha: T,
    a: &CsrMatrix<T>,
    beta: T,
    b: &CsrMatrix<T>,
) -> Result<CsrMatrix<T>, AllocError>
    requires rows { a.now.pattern.major_dim ≡ b.now.pattern.major_dim }
    requires cols { a.now.pattern.minor_dim ≡ b.now.pattern.minor_dim }
    ensures { IfOk result (λ m. plain_of_rows T.ring T.value m ≡ plain_sum T.ring
        (plain_scaled T.ring (T.value alpha) (plain_of_rows T.ring T.value a.now))
        (plain_scaled T.ring (T.value beta) (plain_of_rows T.ring T.value b.now))) }
{
    let first = scale_csr(alloc, a, alpha)?;
    let second = scale_csr(alloc, b, beta)?;
    add_csr(alloc, &first, &second)
}

/// Returns the sum `alpha * a + beta * b`.
///
/// The result has an entry wherever `a` or `b` has one, even if its value is zero. Both matrices must have the same
/// shape.
///
/// Adds a multiple of each matrix by [`add_csc`]. Time is linear in the number of entries and columns. Beside the
/// result it takes memory for a copy of each matrix. Fails only if an allocation fails.
pub fn add_scaled_csc<T: Ring>(
    alloc: Global,
    alpha: T,
    a: &CscMatrix<T>,
    beta: T,
    b: &CscMatrix<T>,
) -> Result<CscMatrix<T>, AllocError>
    requires rows { a.now.pattern.minor_dim ≡ b.now.pattern.minor_dim }
    requires cols { a.now.pattern.major_dim ≡ b.now.pattern.major_dim }
    ensures { IfOk result (λ m. plain_of_cols T.ring T.value m ≡ plain_sum T.ring
        (plain_scaled T.ring (T.value alpha) (plain_of_cols T.ring T.value a.now))
        (plain_scaled T.ring (T.value beta) (plain_of_cols T.ring T.value b.now))) }
{
    let left = scale_csc(alloc, a, alpha)?;
    let right = scale_csc(alloc, b, beta)?;
    add_csc(alloc, &left, &right)
}
