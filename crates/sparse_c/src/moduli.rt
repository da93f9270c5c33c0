//! Calls over a ring that is chosen at run time: the residues modulo a listed number.

ghost use Rattle.std.specs.Prelude.{◌≡◌, ◌≤◌, ℕ, ℤ};
ghost use Rattle.sparse_c.specs.Moduli.{moduli, IsNoneOf};
ghost use Rattle.sparse_c.specs.Scalars.{modulo, residues_of, scalars, Scalars};
ghost use Rattle.c_arrays.specs.Statuses.{number_of};
ghost use Rattle.c_arrays.specs.declared.refusal.Refusal.TheVariants.{UnknownChoice};

use c_arrays::number::Number;
use c_arrays::refusal::Refusal;
use sparse_algebra::scalar::Mod;
use std::alloc::Global;

/// The operands of a call that writes its result to `O`, arrays that are borrowed from C.
pub(crate) trait Call<O>: Drop {
    // The precondition on the operands.
    ghost fits: { Self → Type 0 } = { λ _. Unit {0} };

    // The postcondition: of the ring, the operands, the arrays before the call and after it, and the status.
    ghost does: { Scalars → Self → O → O → ℤ → Type 0 };

    /// Executes the call over the ring of the scalar type `T`, and returns its status.
    fn run<T: Number>(self, alloc: Global, out: &mut O) -> i32
        requires { fits self }
        ensures { does (scalars T.ring T.value T.is_shown) self out.old out.new result };

    // A call over the type of residues modulo m satisfies the postcondition of a call with the modulus m.
    ghost listed: { (m : ℕ) (call : Self) (old new : O) (status : ℤ) → m ≤ 9223372036854775808
        → does (residues_of m) call old new status → does (modulo m) call old new status };

    // If m is not listed, a call that returns `UnknownChoice` and changes no array satisfies it too.
    ghost unlisted: { (m : ℕ) (call : Self) (old : O) → IsNoneOf moduli m
        → does (modulo m) call old old (number_of UnknownChoice) };
}

/// Executes a call over the residues modulo `modulus`, and returns its status: that of `UnknownChoice` if the modulus
/// is not listed.
///
/// The modulus of a scalar type is a constant, so each call is compiled once for each modulus of the list.
pub(crate) fn by_modulus<O, C: Call<O>>(alloc: Global, modulus: u64, call: C, out: &mut O) -> i32
    requires { C.fits call }
    ensures does { C.does (modulo modulus) call out.old out.new result }
    ensures unlisted { IsNoneOf moduli modulus → result ≡ number_of UnknownChoice }
{
    match modulus {
        2 => run_modulo::<2, O, C>(alloc, modulus, call, out),
        3 => run_modulo::<3, O, C>(alloc, modulus, call, out),
        5 => run_modulo::<5, O, C>(alloc, modulus, call, out),
        7 => run_modulo::<7, O, C>(alloc, modulus, call, out),
        11 => run_modulo::<11, O, C>(alloc, modulus, call, out),
        13 => run_modulo::<13, O, C>(alloc, modulus, call, out),
        101 => run_modulo::<101, O, C>(alloc, modulus, call, out),
        65537 => run_modulo::<65537, O, C>(alloc, modulus, call, out),
        998244353 => run_modulo::<998244353, O, C>(alloc, modulus, call, out),
        1000000007 => run_modulo::<1000000007, O, C>(alloc, modulus, call, out),
        2305843009213693951 => run_modulo::<2305843009213693951, O, C>(alloc, modulus, call, out),
        _ => Refusal::UnknownChoice.status(),
    }
}

// Executes a call over the type of residues modulo `M`, which equals `modulus`.
fn run_modulo<const M: u64, O, C: Call<O>>(alloc: Global, modulus: u64, call: C, out: &mut O) -> i32
    requires is { modulus ≡ M }
    requires short { M ≤ 9223372036854775808 }
    requires fits { C.fits call }
    ensures { C.does (modulo modulus) call out.old out.new result }
{
    call.run::<Mod<M>>(alloc, out)
}
