//! Laws of triangular systems, each stated as the postcondition of an empty function.

ghost use Rattle.std.specs.Prelude.{◌≡◌, ℕ, ◌<◌};
ghost use Rattle.sparse_algebra.specs.Plain.{Plain, IsProper, plain_transpose};
ghost use Rattle.sparse_dense_ops.specs.Solutions.{plain_lower, IsSolution, HasSameValues};

use sparse_algebra::scalar::Ring;

/// A system with a square lower triangle whose diagonal values have inverses has at most one solution. So has the
/// transposed system.
pub fn one_solution_law<T: Ring>()
    ensures lower { (a x y b : Plain T.ring) → IsProper a → a.cols ≡ a.rows
        → ((k : ℕ) → k < a.rows → (e : T.ring.Carrier) × (T.ring.mul (a.value k k) e ≡ T.ring.one))
        → IsSolution T.ring (plain_lower T.ring a) x b
        → IsSolution T.ring (plain_lower T.ring a) y b
        → HasSameValues T.ring a.rows b.cols x y }
    ensures transposed { (a x y b : Plain T.ring) → IsProper a → a.cols ≡ a.rows
        → ((k : ℕ) → k < a.rows → (e : T.ring.Carrier) × (T.ring.mul (a.value k k) e ≡ T.ring.one))
        → IsSolution T.ring (plain_transpose T.ring (plain_lower T.ring a)) x b
        → IsSolution T.ring (plain_transpose T.ring (plain_lower T.ring a)) y b
        → HasSameValues T.ring a.rows b.cols x y }
{}

/// A system with a square lower triangle with ones on the diagonal has at most one solution. So has the transposed
/// system.
pub fn unit_solution_law<T: Ring>()
    ensures lower { (a x y b : Plain T.ring) → IsProper a → a.cols ≡ a.rows
        → ((k : ℕ) → k < a.rows → a.value k k ≡ T.ring.one)
        → IsSolution T.ring (plain_lower T.ring a) x b
        → IsSolution T.ring (plain_lower T.ring a) y b
        → HasSameValues T.ring a.rows b.cols x y }
    ensures transposed { (a x y b : Plain T.ring) → IsProper a → a.cols ≡ a.rows
        → ((k : ℕ) → k < a.rows → a.value k k ≡ T.ring.one)
        → IsSolution T.ring (plain_transpose T.ring (plain_lower T.ring a)) x b
        → IsSolution T.ring (plain_transpose T.ring (plain_lower T.ring a)) y b
        → HasSameValues T.ring a.rows b.cols x y }
{}
