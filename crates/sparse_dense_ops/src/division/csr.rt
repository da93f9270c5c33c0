//! Division of CSR matrices by a scalar.

ghost use Rattle.std.specs.Prelude.{◌≡◌, ◌↔◌, IfOk, IfErr, IsErr, OnErr, OnOk};
ghost use Rattle.sparse_compressed.specs.PlainOfLanes.{plain_of_rows};
ghost use Rattle.sparse_algebra.specs.declared.error.OperationErrorKind.TheVariants.{Singular};
ghost use Rattle.sparse_dense_ops.specs.Quotients.{IsDivisionRefusal, IsQuotient};
ghost use Rattle.sparse_algebra.specs.Inverses.{HasInverse};

use super::inverse_of;
use sparse_algebra::error::OperationError;
use sparse_algebra::scalar::Units;
use sparse_csr_csc::csr::CsrMatrix;
use std::alloc::Global;

/// Returns `a` divided by `s`: each stored value is multiplied by the inverse of `s`. The pattern is that of `a`.
///
/// Returns `Singular` if and only if `s` has no inverse, even if `a` stores no entry; this is tested before memory is
/// allocated. Otherwise fails only if an allocation fails.
///
/// # Examples
///
/// ```rust
/// fn two_has_no_inverse(alloc: Global) -> Result<bool, Fail> {
///     let identity = CsrMatrix::<W64>::identity(alloc, 2)?;
///     match div_scalar_csr(alloc, &identity, W64::new(2)) {
///         Ok(_) => Ok(false),
///         Err(error) => Ok(*error.kind() == OperationErrorKind::Singular),
///     }
/// }
/// ```
pub fn div_scalar_csr<T: Units>(
    alloc: Global,
    a: &CsrMatrix<T>,
    s: T,
) -> Result<CsrMatrix<T>, OperationError>
    ensures quotient { IfOk result (λ m. IsQuotient T.ring T.value s
        (plain_of_rows T.ring T.value m) (plain_of_rows T.ring T.value a.now)) }
    ensures refused { IfErr result (IsDivisionRefusal T.ring T.value s) }
{
    let inverse = inverse_of(s)?;
    let mut quotient = a.clone(alloc)?;
    quotient *= inverse;
    Ok(quotient)
}

/// Divides a matrix by `s` in place: each stored value is multiplied by the inverse of `s`. The pattern is unchanged.
///
/// Returns `Singular` if and only if `s` has no inverse, even if `a` stores no entry; `a` is then unchanged. Allocates
/// nothing.
pub fn div_scalar_mut_csr<T: Units>(a: &mut CsrMatrix<T>, s: T) -> Result<(), OperationError>
    ensures quotient { OnOk result (IsQuotient T.ring T.value s
        (plain_of_rows T.ring T.value a.new) (plain_of_rows T.ring T.value a.old)) }
    ensures singular { IsErr result ↔ (HasInverse T.ring T.value (T.value s) → ⊥) }
    ensures kind { IfErr result (λ e. e ≡ Singular) }
    ensures unchanged { OnErr result (a.new ≡ a.old) }
{
    let inverse = inverse_of(s)?;
    *a *= inverse;
    Ok(())
}
