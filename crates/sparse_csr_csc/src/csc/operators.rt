//! Negation and scaling of a CSC matrix, as operators.

ghost use Rattle.std.specs.Prelude.{◌≡◌};
ghost use Rattle.sparse_algebra.specs.Plain.{plain_negation, plain_scaled};
ghost use Rattle.sparse_compressed.specs.PlainOfLanes.{plain_of_cols};

use super::CscMatrix;
use sparse_algebra::scalar::Ring;
use std::ops::{MulAssign, Neg};

/// Negates each stored value. The pattern is unchanged, and nothing is allocated.
impl<T: Ring> Neg for CscMatrix<T> {
    type Output = CscMatrix<T>;

    ghost neg_gives = { λ a m. plain_of_cols T.ring T.value m
        ≡ plain_negation T.ring (plain_of_cols T.ring T.value a) };

    fn neg(mut self) -> CscMatrix<T> {
        self.cs.negate();
        self
    }
}

/// Multiplies each stored value by a scalar. The pattern is unchanged, and nothing is allocated.
impl<T: Ring> MulAssign<T> for CscMatrix<T> {
    ghost mul_assign_gives = { λ a s m. plain_of_cols T.ring T.value m
        ≡ plain_scaled T.ring (T.value s) (plain_of_cols T.ring T.value a) };

    fn mul_assign(&mut self, coefficient: T) {
        self.cs.scale(coefficient);
    }
}

/// Multiplies each stored value by a scalar. The pattern is unchanged, and nothing is allocated.
impl<'a, T: Ring> MulAssign<&'a T> for CscMatrix<T> {
    ghost mul_assign_gives = { λ a s m. plain_of_cols T.ring T.value m
        ≡ plain_scaled T.ring (T.value s.now) (plain_of_cols T.ring T.value a) };

    fn mul_assign(&mut self, coefficient: &'a T) {
        self.cs.scale(*coefficient);
    }
}
