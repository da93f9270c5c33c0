//! Laws that relate the wrapping integers to the integers. Each is stated as the postcondition of an empty function.

ghost use Rattle.std.specs.Prelude.{◌≡◌, ℕ, Bool, List, ℤ};
ghost use Rattle.std.specs.Int.{Width, w32, w64};
ghost use Rattle.std.specs.Int.RustNames.{FitsSigned};
ghost use Rattle.sparse_algebra.specs.Numbers.{w32_number, w64_number};
ghost use Rattle.sparse_algebra.specs.Plain.{Plain, plain_of_triplets, plain_sum, plain_negation};
ghost use Rattle.sparse_algebra.specs.Plain.{plain_difference, plain_scaled, plain_product};
ghost use Rattle.sparse_algebra.specs.Plain.{plain_transpose, plain_identity, plain_kept};
ghost use Rattle.sparse_algebra.specs.RingMaps.{IsRingMap};
ghost use Rattle.sparse_algebra.specs.Whole.{whole_ring, wrapped, number_of, plain_wrapped};
ghost use Rattle.sparse_algebra.specs.Whole.{plain_numbers, Shows};
ghost use Rattle.sparse_algebra.specs.Wrapping.{wrapping_ring, class_of};

use crate::scalar::{W32, W64};

/// Reduction of the integers to residue classes preserves zero, one, sums, products and negation.
pub fn wrapping_law()
    ensures { (w : Width) → IsRingMap whole_ring (wrapping_ring w) (wrapped w) }
{}

/// An integer within the signed range equals the representative of its class, and each class contains its
/// representative.
///
/// `get` returns this representative.
pub fn read_back_law()
    ensures number { (w : Width) (z : ℤ) → FitsSigned w z → number_of w (wrapped w z) ≡ z }
    ensures element { (w : Width) (c : (wrapping_ring w).Carrier) → wrapped w (number_of w c) ≡ c }
    ensures w32 { (x : W32) → number_of w32 (class_of w32 (w32_number x)) ≡ w32_number x }
    ensures w64 { (x : W64) → number_of w64 (class_of w64 (w64_number x)) ≡ w64_number x }
{}

/// Each operation on wrapped matrices equals the same operation on integer matrices, reduced afterwards.
///
/// So any matrix computed with these operations is the integer result reduced, whatever the size of the intermediate
/// values.
pub fn wrapped_matrix_law()
    ensures w32_triplets { (rows cols : ℕ) (ts : List (ℕ × ℕ × W32))
        → plain_wrapped w32 (plain_of_triplets whole_ring w32_number rows cols ts)
        ≡ plain_of_triplets (wrapping_ring w32) (λ x. class_of w32 (w32_number x)) rows cols ts }
    ensures w64_triplets { (rows cols : ℕ) (ts : List (ℕ × ℕ × W64))
        → plain_wrapped w64 (plain_of_triplets whole_ring w64_number rows cols ts)
        ≡ plain_of_triplets (wrapping_ring w64) (λ x. class_of w64 (w64_number x)) rows cols ts }
    ensures sum { (w : Width) (a b : Plain whole_ring)
        → plain_wrapped w (plain_sum whole_ring a b)
        ≡ plain_sum (wrapping_ring w) (plain_wrapped w a) (plain_wrapped w b) }
    ensures negation { (w : Width) (a : Plain whole_ring)
        → plain_wrapped w (plain_negation whole_ring a)
        ≡ plain_negation (wrapping_ring w) (plain_wrapped w a) }
    ensures difference { (w : Width) (a b : Plain whole_ring)
        → plain_wrapped w (plain_difference whole_ring a b)
        ≡ plain_difference (wrapping_ring w) (plain_wrapped w a) (plain_wrapped w b) }
    ensures scaled { (w : Width) (s : ℤ) (a : Plain whole_ring)
        → plain_wrapped w (plain_scaled whole_ring s a)
        ≡ plain_scaled (wrapping_ring w) (wrapped w s) (plain_wrapped w a) }
    ensures product { (w : Width) (a b : Plain whole_ring)
        → plain_wrapped w (plain_product whole_ring a b)
        ≡ plain_product (wrapping_ring w) (plain_wrapped w a) (plain_wrapped w b) }
    ensures transpose { (w : Width) (a : Plain whole_ring)
        → plain_wrapped w (plain_transpose whole_ring a)
        ≡ plain_transpose (wrapping_ring w) (plain_wrapped w a) }
    ensures identity { (w : Width) (n : ℕ)
        → plain_wrapped w (plain_identity whole_ring n) ≡ plain_identity (wrapping_ring w) n }
    ensures kept { (w : Width) (test : ℕ → ℕ → Bool) (a : Plain whole_ring)
        → plain_wrapped w (plain_kept whole_ring test a)
        ≡ plain_kept (wrapping_ring w) test (plain_wrapped w a) }
{}

/// If the integer result at a row and column fits the signed range, the wrapping result there is exactly that integer,
/// even if partial sums overflow.
///
/// The integer result of a product is the sum of products; that of a list of triplets is the sum over the triplets at
/// that row and column.
pub fn whole_entry_law()
    ensures w32_triplets { (rows cols : ℕ) (ts : List (ℕ × ℕ × W32))
        → Shows w32 (plain_of_triplets (wrapping_ring w32)
        (λ x. class_of w32 (w32_number x)) rows cols ts)
        (plain_of_triplets whole_ring w32_number rows cols ts) }
    ensures w64_triplets { (rows cols : ℕ) (ts : List (ℕ × ℕ × W64))
        → Shows w64 (plain_of_triplets (wrapping_ring w64)
        (λ x. class_of w64 (w64_number x)) rows cols ts)
        (plain_of_triplets whole_ring w64_number rows cols ts) }
    ensures sum { (w : Width) (a b : Plain (wrapping_ring w))
        → Shows w (plain_sum (wrapping_ring w) a b)
        (plain_sum whole_ring (plain_numbers w a) (plain_numbers w b)) }
    ensures negation { (w : Width) (a : Plain (wrapping_ring w))
        → Shows w (plain_negation (wrapping_ring w) a)
        (plain_negation whole_ring (plain_numbers w a)) }
    ensures difference { (w : Width) (a b : Plain (wrapping_ring w))
        → Shows w (plain_difference (wrapping_ring w) a b)
        (plain_difference whole_ring (plain_numbers w a) (plain_numbers w b)) }
    ensures scaled { (w : Width) (s : (wrapping_ring w).Carrier) (a : Plain (wrapping_ring w))
        → Shows w (plain_scaled (wrapping_ring w) s a)
        (plain_scaled whole_ring (number_of w s) (plain_numbers w a)) }
    ensures product { (w : Width) (a b : Plain (wrapping_ring w))
        → Shows w (plain_product (wrapping_ring w) a b)
        (plain_product whole_ring (plain_numbers w a) (plain_numbers w b)) }
    ensures from_whole { (w : Width) (z : Plain whole_ring) → Shows w (plain_wrapped w z) z }
{}
