//! Fields and local rings among the rings of scalars.

ghost use Rattle.std.specs.Prelude.{ℕ};
ghost use Rattle.std.specs.Int.{w32, w64, w128};
ghost use Rattle.sparse_algebra.specs.ModNumbers.{mod_value};
ghost use Rattle.sparse_algebra.specs.Moduli.{mod_ring};
ghost use Rattle.sparse_algebra.specs.Wrapping.{wrapping_ring};
ghost use Rattle.sparse_algebra.specs.WrappingValues.{w32_value, w64_value, w128_value};
ghost use Rattle.sparse_lu_laws.specs.Primes.{IsPrime};
ghost use Rattle.sparse_lu_laws.specs.Ranks.{IsField, IsLocal};

use sparse_algebra::scalar::Ring;

/// Every field is a local ring: a sum of zeros is zero (Atiyah and Macdonald, Introduction to Commutative Algebra,
/// chapter 1).
pub fn field_is_local_law<T: Ring>()
    ensures { IsField T.ring T.value → IsLocal T.ring T.value }
{}

/// The wrapping integers are local rings: exactly the odd ones have inverses, and a sum of two even ones is even.
pub fn wrapping_is_local_law()
    ensures w32 { IsLocal (wrapping_ring w32) w32_value }
    ensures w64 { IsLocal (wrapping_ring w64) w64_value }
    ensures w128 { IsLocal (wrapping_ring w128) w128_value }
{}

/// The integers modulo a prime are a field.
pub fn prime_is_field_law()
    ensures { (m : ℕ) → IsPrime m → IsField (mod_ring m) (mod_value {m = m}) }
{}

/// These numbers are prime: by trial division, and the last one by a primitive root (Lucas's test as in Knuth, The Art
/// of Computer Programming, volume 2, section 4.5.4).
pub fn listed_primes_law()
    ensures p2 { IsPrime 2 }
    ensures p3 { IsPrime 3 }
    ensures p5 { IsPrime 5 }
    ensures p7 { IsPrime 7 }
    ensures p11 { IsPrime 11 }
    ensures p13 { IsPrime 13 }
    ensures p101 { IsPrime 101 }
    ensures p65537 { IsPrime 65537 }
    ensures p998244353 { IsPrime 998244353 }
    ensures p1000000007 { IsPrime 1000000007 }
    ensures p2305843009213693951 { IsPrime 2305843009213693951 }
{}
