//! Negation and scaling of a CSR matrix, as operators.

ghost use Rattle.std.specs.Prelude.{◌≡◌};
ghost use Rattle.sparse_algebra.specs.Plain.{plain_negation, plain_scaled};
ghost use Rattle.sparse_compressed.specs.PlainOfLanes.{plain_of_rows};

use super::CsrMatrix;
use sparse_algebra::scalar::Ring;
use std::ops::{MulAssign, Neg};

/// Negates each stored value. The pattern is unchanged, and nothing is allocated.
///
/// # Examples
///
/// ```rust
/// fn values_are_negated_and_scaled(alloc: Global) -> Result<bool, Fail> {
///     let mut matrix = -CsrMatrix::<W64>::identity(alloc, 1)?;
///     matrix *= W64::new(3);
///     Ok(matrix.values() == [W64::new(-3)].as_slice())
/// }
/// ```
impl<T: Ring> Neg for CsrMatrix<T> {
    type Output = CsrMatrix<T>;

    ghost neg_gives = { λ a m. plain_of_rows T.ring T.value m
        ≡ plain_negation T.ring (plain_of_rows T.ring T.value a) };

    fn neg(mut self) -> CsrMatrix<T> {
        self.cs.negate();
        self
    }
}

/// Multiplies each stored value by a scalar. The pattern is unchanged, and nothing is allocated.
impl<T: Ring> MulAssign<T> for CsrMatrix<T> {
    ghost mul_assign_gives = { λ a s m. plain_of_rows T.ring T.value m
        ≡ plain_scaled T.ring (T.value s) (plain_of_rows T.ring T.value a) };

    fn mul_assign(&mut self, coefficient: T) {
        self.cs.scale(coefficient);
    }
}

/// Multiplies each stored value by a scalar. The pattern is unchanged, and nothing is allocated.
impl<'a, T: Ring> MulAssign<&'a T> for CsrMatrix<T> {
    ghost mul_assign_gives = { λ a s m. plain_of_rows T.ring T.value m
        ≡ plain_scaled T.ring (T.value s.now) (plain_of_rows T.ring T.value a) };

    fn mul_assign(&mut self, coefficient: &'a T) {
        self.cs.scale(*coefficient);
    }
}
