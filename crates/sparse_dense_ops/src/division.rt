//! Division of matrices by a scalar.

ghost use Rattle.std.specs.Prelude.{◌≡◌, ◌↔◌, IfOk, IfErr, IsErr};
ghost use Rattle.sparse_algebra.specs.declared.error.OperationErrorKind.TheVariants.{Singular};
ghost use Rattle.sparse_algebra.specs.Inverses.{HasInverse};

mod csc;
mod csr;

pub use csc::{div_scalar_csc, div_scalar_mut_csc};
pub use csr::{div_scalar_csr, div_scalar_mut_csr};
use sparse_algebra::error::OperationError;
use sparse_algebra::scalar::Units;

// Returns the inverse of a scalar, or the error of a division by it.
fn inverse_of<T: Units>(s: T) -> Result<T, OperationError>
    ensures inverse { IfOk result (λ y. T.ring.mul (T.value s) (T.value y) ≡ T.ring.one) }
    ensures singular { IsErr result ↔ (HasInverse T.ring T.value (T.value s) → ⊥) }
    ensures kind { IfErr result (λ e. e ≡ Singular) }
{
    match s.recip() {
        Some(inverse) => Ok(inverse),
        None => Err(OperationError::of_singular_scalar()),
    }
}
