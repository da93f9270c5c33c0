//! The arrays for the result of a sum.

ghost use Rattle.std.specs.Prelude.{◌≡◌, take};
ghost use Rattle.c_arrays.specs.InnerFilling.{prefix_elements, room_from, IsFilled};

use crate::number::Number;
use sparse_sums::Output;

// The arrays for the indices and the values of the result. Those up to the offset `end` have been written.
#[derive(Drop)]
pub(crate) struct EntryArrays<'a> {
    pub(crate) indices: &'a mut [usize],
    pub(crate) values: &'a mut [i64],
    pub(crate) end: usize,
}

impl<T: Number> Output<T> for EntryArrays<'_> {
    ghost use Rattle.std.specs.Prelude.{refl};
    ghost use Rattle.std.proofs.Common.{◌∙◌};
    ghost use Rattle.c_arrays.specs.InnerFilling.{filled_none, filled_then};

    ghost indices = { λ s. take s.end s.indices.now };

    ghost elements = { λ R _ s. prefix_elements R s.end s.values.now };

    ghost room = { λ s. room_from s.end s.indices.now s.values.now };

    ghost keeps = { λ s t. (t.indices.ghost_name ≡ s.indices.ghost_name)
        × (t.values.ghost_name ≡ s.values.ghost_name)
        × IsFilled T.is_shown s.end t.end s.indices.now t.indices.now s.values.now t.values.now };

    #[inline(always)]
    fn push(&mut self, index: usize, value: T) {
        self.indices[self.end] = index;
        self.values[self.end] = value.number();
        self.end += 1;
    }

    ghost keeps_same = { λ s. (refl, refl, filled_none s.end s.indices.now s.values.now) };

    ghost keeps_then = { λ s t u a b. (b.0 ∙ a.0, b.1 ∙ a.1, filled_then a.2 b.2) };
}
