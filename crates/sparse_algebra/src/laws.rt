//! Laws of plain matrices. Each is stated as the postcondition of an empty function.

ghost use Rattle.std.specs.Prelude.{◌≡◌, ℕ, ◌<◌, Bool, List, All};
ghost use Rattle.std.specs.List.Sorted.{IsPermutation};
ghost use Rattle.sparse_algebra.specs.Plain.{Plain, plain_of_triplets, plain_sum, plain_negation};
ghost use Rattle.sparse_algebra.specs.Plain.{plain_difference, plain_scaled, plain_product};
ghost use Rattle.sparse_algebra.specs.Plain.{plain_transpose, plain_identity, plain_kept, IsProper};
ghost use Rattle.sparse_algebra.specs.Plain.{IsWithin};

pub mod whole;
pub mod wide;

use crate::scalar::Ring;

/// The plain matrix of a list of triplets does not depend on their order.
pub fn order_law<T: Ring>()
    ensures { (rows cols : ℕ) (xs ys : List (ℕ × ℕ × T))
        → IsPermutation xs ys
        → plain_of_triplets T.ring T.value rows cols xs
        ≡ plain_of_triplets T.ring T.value rows cols ys }
{}

/// Products are associative: `(a * b) * c` and `a * (b * c)` have the same places and the same values.
pub fn product_associative_law<T: Ring>()
    ensures { (a b c : Plain T.ring)
        → plain_product T.ring (plain_product T.ring a b) c
        ≡ plain_product T.ring a (plain_product T.ring b c) }
{}

/// Products distribute over sums on both sides, in places and values.
pub fn product_distributes_law<T: Ring>()
    ensures right { (a b c : Plain T.ring)
        → plain_product T.ring a (plain_sum T.ring b c)
        ≡ plain_sum T.ring (plain_product T.ring a b) (plain_product T.ring a c) }
    ensures left { (a b c : Plain T.ring)
        → a.cols ≡ b.cols
        → plain_product T.ring (plain_sum T.ring a b) c
        ≡ plain_sum T.ring (plain_product T.ring a c) (plain_product T.ring b c) }
{}

/// The transpose of a product is the product of the transposes in reverse order.
pub fn transpose_product_law<T: Ring>()
    ensures { (a b : Plain T.ring)
        → a.cols ≡ b.rows
        → plain_transpose T.ring (plain_product T.ring a b)
        ≡ plain_product T.ring (plain_transpose T.ring b) (plain_transpose T.ring a) }
{}

/// The transpose of the transpose of a matrix is the matrix itself.
pub fn transpose_twice_law<T: Ring>()
    ensures { (a : Plain T.ring) → plain_transpose T.ring (plain_transpose T.ring a) ≡ a }
{}

/// A product with the identity of the matching size is the other operand, in places and values.
pub fn identity_product_law<T: Ring>()
    ensures left { (a : Plain T.ring)
        → IsProper a → IsWithin a → plain_product T.ring (plain_identity T.ring a.rows) a ≡ a }
    ensures right { (a : Plain T.ring)
        → IsProper a → IsWithin a → plain_product T.ring a (plain_identity T.ring a.cols) ≡ a }
{}

/// Every operation on proper plain matrices gives a proper one: its value is zero at each pair that is not a place.
pub fn proper_law<T: Ring>()
    ensures triplets { (rows cols : ℕ) (ts : List (ℕ × ℕ × T))
        → IsProper (plain_of_triplets T.ring T.value rows cols ts) }
    ensures sum { (a b : Plain T.ring) → IsProper a → IsProper b → IsProper (plain_sum T.ring a b) }
    ensures difference { (a b : Plain T.ring) → IsProper a → IsProper b
        → IsProper (plain_difference T.ring a b) }
    ensures negation { (a : Plain T.ring) → IsProper a → IsProper (plain_negation T.ring a) }
    ensures scaled { (s : T.ring.Carrier) (a : Plain T.ring) → IsProper a
        → IsProper (plain_scaled T.ring s a) }
    ensures product { (a b : Plain T.ring) → IsProper a → IsProper b
        → IsProper (plain_product T.ring a b) }
    ensures transpose { (a : Plain T.ring) → IsProper a → IsProper (plain_transpose T.ring a) }
    ensures identity { (n : ℕ) → IsProper (plain_identity T.ring n) }
    ensures kept { (test : ℕ → ℕ → Bool) (a : Plain T.ring) → IsProper (plain_kept T.ring test a) }
{}

/// Every operation on plain matrices whose places lie within their shapes gives one whose places lie within its shape.
pub fn within_law<T: Ring>()
    ensures triplets { (rows cols : ℕ) (ts : List (ℕ × ℕ × T))
        → All (λ t. (t.0 < rows) × (t.1 < cols)) ts
        → IsWithin (plain_of_triplets T.ring T.value rows cols ts) }
    ensures sum { (a b : Plain T.ring) → a.rows ≡ b.rows → a.cols ≡ b.cols → IsWithin a → IsWithin b
        → IsWithin (plain_sum T.ring a b) }
    ensures difference { (a b : Plain T.ring)
        → a.rows ≡ b.rows
        → a.cols ≡ b.cols
        → IsWithin a
        → IsWithin b
        → IsWithin (plain_difference T.ring a b) }
    ensures negation { (a : Plain T.ring) → IsWithin a → IsWithin (plain_negation T.ring a) }
    ensures scaled { (s : T.ring.Carrier) (a : Plain T.ring) → IsWithin a
        → IsWithin (plain_scaled T.ring s a) }
    ensures product { (a b : Plain T.ring) → IsWithin a → IsWithin b
        → IsWithin (plain_product T.ring a b) }
    ensures transpose { (a : Plain T.ring) → IsWithin a → IsWithin (plain_transpose T.ring a) }
    ensures identity { (n : ℕ) → IsWithin (plain_identity T.ring n) }
    ensures kept { (test : ℕ → ℕ → Bool) (a : Plain T.ring) → IsWithin a
        → IsWithin (plain_kept T.ring test a) }
{}
