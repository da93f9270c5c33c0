//! The lanes that are merged.

ghost use Rattle.std.specs.Prelude.{◌≡◌, ℕ, ◌<◌, List, length, map, slice_index_or};
ghost use Rattle.sparse_algebra.specs.Algebra.{CommRing};
ghost use Rattle.sparse_sums.specs.InnerSigns.{signed};

use sparse_algebra::scalar::Ring;

/// A lane that can be merged: indices, and a scalar for each, which is computed when it is read.
pub trait Operand<T: Ring> {
    // The indices of the entries.
    ghost indices: { Self → List ℕ };

    // The ring elements of the entries, for each ring and each meaning of the scalars.
    ghost elements: { (R : CommRing) → (T → R.Carrier) → Self → List R.Carrier };

    /// Returns the indices of the entries.
    fn indices(&self) -> &[usize]
        ensures { result.now ≡ indices self.now };

    /// Returns the scalar of entry k.
    fn value(&self, k: usize) -> T
        requires { k < length (elements T.ring T.value self.now) }
        ensures { T.value result
            ≡ slice_index_or (elements T.ring T.value self.now) k T.ring.zero };
}

// A lane whose values are negated if `NEGATE`.
#[derive(Drop)]
pub(crate) struct SignedLane<'a, T, const NEGATE: bool> {
    pub(crate) indices: &'a [usize],
    pub(crate) values: &'a [T],
}

impl<T: Ring, const NEGATE: bool> Operand<T> for SignedLane<'_, T, NEGATE> {
    ghost indices = { λ s. s.indices.now };

    ghost elements = { λ R f s. map (λ x. signed R NEGATE (f x)) s.values.now };

    #[inline(always)]
    fn indices(&self) -> &[usize] {
        self.indices
    }

    #[inline(always)]
    fn value(&self, k: usize) -> T {
        let value = self.values[k];
        if NEGATE { value.neg() } else { value }
    }
}
