//! Laws of systems of equations.

ghost use Rattle.std.specs.Prelude.{◌≡◌, ℕ, List};
ghost use Rattle.sparse_algebra.specs.Plain.{Plain, plain_identity, plain_product};
ghost use Rattle.sparse_dense_ops.specs.Solutions.{HasSameValues, IsSolution};
ghost use Rattle.sparse_lu_laws.specs.Lu.{IsLu};
ghost use Rattle.sparse_lu_laws.specs.Refutations.{IsRefutation};

use sparse_algebra::scalar::Ring;

/// A system with a refutation has no solution: if `y a` is zero and `y b` is not, no `x` has `a x = b`.
pub fn refutation_law<T: Ring>()
    ensures { (a b x y : Plain T.ring) → IsRefutation T.ring a b y → ¬ IsSolution T.ring a x b }
{}

/// If there are as many pivots as columns, all solutions of a system have the same values (Golub and Van Loan, Matrix
/// Computations, chapter 3).
pub fn solution_law<T: Ring>()
    ensures { (a l u x y b : Plain T.ring) (p q : List ℕ)
        → IsLu T.ring T.value a l u p q a.cols
        → IsSolution T.ring a x b → IsSolution T.ring a y b
        → HasSameValues T.ring a.cols b.cols x y }
{}

/// A right inverse of a square matrix with as many pivots as rows is a left inverse.
pub fn inverse_law<T: Ring>()
    ensures { (a l u x : Plain T.ring) (p q : List ℕ)
        → IsLu T.ring T.value a l u p q a.cols → a.rows ≡ a.cols → x.cols ≡ a.cols
        → HasSameValues T.ring a.cols a.cols (plain_product T.ring a x)
        (plain_identity T.ring a.cols)
        → HasSameValues T.ring a.cols a.cols (plain_product T.ring x a)
        (plain_identity T.ring a.cols) }
{}
