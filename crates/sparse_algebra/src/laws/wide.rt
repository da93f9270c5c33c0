//! Laws that relate [`W128`](crate::scalar::W128) to the integers. Each is stated as the postcondition of an empty
//! function.
//!
//! The laws of sums and products in [`crate::laws::whole`] hold of every width.

ghost use Rattle.std.specs.Prelude.{◌≡◌, ℕ, List};
ghost use Rattle.std.specs.Int.{w128};
ghost use Rattle.sparse_algebra.specs.Plain.{plain_of_triplets};
ghost use Rattle.sparse_algebra.specs.Whole.{whole_ring, number_of, plain_wrapped, Shows};
ghost use Rattle.sparse_algebra.specs.Wrapping.{wrapping_ring};
ghost use Rattle.sparse_algebra.specs.WrappingValues.{w128_number, w128_value};

use crate::scalar::W128;

/// The signed representative of the residue class of a scalar is the number that `get` returns.
pub fn wide_read_back_law()
    ensures { (x : W128) → number_of w128 (w128_value x) ≡ w128_number x }
{}

/// The plain matrix of a list of triplets is the plain matrix of their integers, reduced modulo 2^128.
///
/// If the integer sum of the triplets at a row and column fits the signed range of 128 bits, the value there is exactly
/// that sum, even if partial sums overflow.
pub fn wide_triplets_law()
    ensures wrapped { (rows cols : ℕ) (ts : List (ℕ × ℕ × W128))
        → plain_wrapped w128 (plain_of_triplets whole_ring w128_number rows cols ts)
        ≡ plain_of_triplets (wrapping_ring w128) w128_value rows cols ts }
    ensures shown { (rows cols : ℕ) (ts : List (ℕ × ℕ × W128))
        → Shows w128 (plain_of_triplets (wrapping_ring w128) w128_value rows cols ts)
        (plain_of_triplets whole_ring w128_number rows cols ts) }
{}
