//! Laws of ranks.

ghost use Rattle.std.specs.Prelude.{◌≡◌, ℕ, List};
ghost use Rattle.sparse_algebra.specs.Plain.{Plain};
ghost use Rattle.sparse_lu_laws.specs.Lu.{IsLu};
ghost use Rattle.sparse_lu_laws.specs.Ranks.{HasRank, IsFactoredThrough, IsLocal};

use sparse_algebra::scalar::Ring;

/// A factorisation P A Q = L U with `r` pivots gives one of A with the inner size `r`, over every ring.
pub fn factored_law<T: Ring>()
    ensures { (a l u : Plain T.ring) (p q : List ℕ) (r : ℕ)
        → IsLu T.ring T.value a l u p q r → IsFactoredThrough T.ring r a }
{}

/// Over a local ring the number of pivots is the rank: A is a product with this inner size, and with none smaller.
///
/// Over a field this is the rank of linear algebra (Horn and Johnson, Matrix Analysis, section 0.4.6).
pub fn rank_law<T: Ring>()
    ensures { (a l u : Plain T.ring) (p q : List ℕ) (r : ℕ)
        → IsLocal T.ring T.value → IsLu T.ring T.value a l u p q r → HasRank T.ring a r }
{}

/// A matrix has at most one rank. So over a local ring all factorisations of a matrix have the same number of pivots.
pub fn one_rank_law<T: Ring>()
    ensures { (a : Plain T.ring) (r s : ℕ) → HasRank T.ring a r → HasRank T.ring a s → r ≡ s }
{}
