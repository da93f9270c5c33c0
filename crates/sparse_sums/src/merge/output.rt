//! What takes the entries of a merge.

ghost use Rattle.std.specs.Prelude.{◌≡◌, ℕ, ◌+◌, ◌<◌, List, [], ◌∷◌, ◌++◌};
ghost use Rattle.sparse_algebra.specs.Algebra.{CommRing};

use sparse_algebra::scalar::Ring;

/// Arrays to which the entries of a merge are appended, in memory that was reserved before.
pub trait Output<T: Ring> {
    // The indices appended so far.
    ghost indices: { Self → List ℕ };

    // The ring elements appended so far, for each ring and each meaning of the scalars.
    ghost elements: { (R : CommRing) → (T → R.Carrier) → Self → List R.Carrier };

    // The number of further entries for which memory is reserved.
    ghost room: { Self → ℕ };

    // What else a caller learns of the arrays before and after some pushes.
    ghost keeps: { Self → Self → Type 0 };

    /// Appends an entry.
    fn push(&mut self, index: usize, value: T)
        requires { 0 < room self.old }
        ensures indices { indices self.new ≡ indices self.old ++ index ∷ [] }
        ensures elements { elements T.ring T.value self.new
            ≡ elements T.ring T.value self.old ++ T.value value ∷ [] }
        ensures room { room self.new + 1 ≡ room self.old }
        ensures kept { keeps self.old self.new };

    ghost keeps_same: { (s : Self) → keeps s s };

    ghost keeps_then: { (s t u : Self) → keeps s t → keeps t u → keeps s u };
}
