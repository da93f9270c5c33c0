//! Lanes of integers with a scale.

ghost use Rattle.std.specs.Prelude.{◌≡◌};
ghost use Rattle.c_arrays.specs.InnerFilling.{scaled_elements};

use crate::number::Number;
use sparse_sums::Operand;

// A lane of integers whose values are multiplied by a scale.
#[derive(Drop)]
pub(crate) struct ScaledLane<'a, T> {
    pub(crate) scale: T,
    pub(crate) indices: &'a [usize],
    pub(crate) values: &'a [i64],
}

impl<T: Number> Operand<T> for ScaledLane<'_, T> {
    ghost indices = { λ s. s.indices.now };

    ghost elements = { λ R f s. scaled_elements R (f s.scale) s.values.now };

    #[inline(always)]
    fn indices(&self) -> &[usize] {
        self.indices
    }

    #[inline(always)]
    fn value(&self, k: usize) -> T {
        self.scale.mul(T::from_number(self.values[k]))
    }
}
