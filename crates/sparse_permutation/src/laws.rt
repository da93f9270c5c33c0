//! Laws of permutations and of permuted matrices. Each is stated as the postcondition of an empty function.

ghost use Rattle.std.specs.Prelude.{◌≡◌, ◌↔◌, ◌*◌, ◌<◌, ℕ, List, length, slice_index};
ghost use Rattle.sparse_algebra.specs.Plain.{Plain, plain_product, plain_transpose, IsProper};
ghost use Rattle.sparse_algebra.specs.Plain.{IsWithin};
ghost use Rattle.sparse_coo_dense.specs.Dense.{Dense, HasValues, value_at};
ghost use Rattle.sparse_coo_dense.specs.DensePlain.{plain_of_dense};
ghost use Rattle.sparse_permutation.specs.Permutations.{IsOrder, IsInverse, composed};
ghost use Rattle.sparse_permutation.specs.PermutedPlain.{plain_permuted, plain_rows_permuted};
ghost use Rattle.sparse_permutation.specs.PermutedPlain.{IsSymmetric};
ghost use Rattle.sparse_permutation.specs.PermutedPatterns.{HasPermutedRows};

use sparse_algebra::scalar::Ring;

/// Each number below the length of a permutation occurs in it (`occurs`), and only once (`once`).
pub fn order_law()
    ensures occurs { (p : List ℕ) → IsOrder p → (i : ℕ) → i < length p
        → ((k : ℕ) × (k < length p) × (slice_index p k ≡ i)) }
    ensures once { (p : List ℕ) → IsOrder p → (k l : ℕ) → k < length p → l < length p
        → slice_index p k ≡ slice_index p l → k ≡ l }
{}

/// The inverse of the inverse is the permutation itself (`back`), and the inverse is unique (`one`).
pub fn one_inverse_law()
    ensures back { (p q : List ℕ) → IsInverse p q → IsInverse q p }
    ensures one { (p q r : List ℕ) → IsOrder p → IsInverse p q → IsInverse p r → q ≡ r }
{}

/// P A Pᵀ is symmetric, in places and values, if and only if A is.
pub fn symmetric_law<T: Ring>()
    ensures { (p : List ℕ) (a : Plain T.ring)
        → IsOrder p → a.rows ≡ length p → a.cols ≡ length p → IsProper a → IsWithin a
        → IsSymmetric T.ring (plain_permuted T.ring p a) ↔ IsSymmetric T.ring a }
{}

/// The product (P A Pᵀ) (P X) is P (A X), in places and values.
pub fn permuted_product_law<T: Ring>()
    ensures { (p : List ℕ) (a x : Plain T.ring)
        → IsOrder p → a.rows ≡ length p → a.cols ≡ length p → x.rows ≡ length p
        → plain_product T.ring (plain_permuted T.ring p a) (plain_rows_permuted T.ring p x)
        ≡ plain_rows_permuted T.ring p (plain_product T.ring a x) }
{}

/// X solves A X = B if and only if P X solves (P A Pᵀ) (P X) = P B.
pub fn permuted_system_law<T: Ring>()
    ensures { (p : List ℕ) (a x b : Plain T.ring)
        → IsOrder p → a.rows ≡ length p → a.cols ≡ length p → x.rows ≡ length p
        → IsProper a → IsWithin a → IsProper x → IsWithin x → IsProper b → IsWithin b
        → (plain_product T.ring a x ≡ b)
        ↔ (plain_product T.ring (plain_permuted T.ring p a) (plain_rows_permuted T.ring p x)
        ≡ plain_rows_permuted T.ring p b) }
{}

/// A matrix that is permuted, and then permuted by the inverse, is the matrix itself.
pub fn inverse_law<T: Ring>()
    ensures rows { (p q : List ℕ) (a : Plain T.ring)
        → IsInverse p q → IsOrder q → a.rows ≡ length p → IsProper a → IsWithin a
        → plain_rows_permuted T.ring q (plain_rows_permuted T.ring p a) ≡ a }
    ensures rows_and_cols { (p q : List ℕ) (a : Plain T.ring)
        → IsInverse p q → IsOrder q → a.rows ≡ length p → a.rows ≡ a.cols → IsProper a → IsWithin a
        → plain_permuted T.ring q (plain_permuted T.ring p a) ≡ a }
    ensures dense_rows { (p q : List ℕ) (a d e : Dense T)
        → IsInverse p q → IsOrder q → a.nrows ≡ length p
        → HasPermutedRows p a d → HasPermutedRows q d e
        → HasValues a.nrows a.ncols (λ i j z. value_at a i j z) e }
{}

/// A matrix that is permuted by one permutation and then by another is permuted by their composition.
pub fn composition_law<T: Ring>()
    ensures rows { (p q : List ℕ) (a : Plain T.ring)
        → IsOrder p → IsOrder q → length p ≡ length q → a.rows ≡ length p
        → plain_rows_permuted T.ring q (plain_rows_permuted T.ring p a)
        ≡ plain_rows_permuted T.ring (composed p q) a }
    ensures rows_and_cols { (p q : List ℕ) (a : Plain T.ring)
        → IsOrder p → IsOrder q → length p ≡ length q → a.rows ≡ length p → a.rows ≡ a.cols
        → plain_permuted T.ring q (plain_permuted T.ring p a)
        ≡ plain_permuted T.ring (composed p q) a }
{}

/// The plain matrix of a dense matrix with permuted rows is the plain matrix with permuted rows.
pub fn dense_rows_law<T: Ring>()
    ensures { (p : List ℕ) (a d : Dense T)
        → IsOrder p → a.nrows ≡ length p → length a.values ≡ a.nrows * a.ncols
        → HasPermutedRows p a d
        → plain_of_dense T.ring T.value d
        ≡ plain_rows_permuted T.ring p (plain_of_dense T.ring T.value a) }
{}
