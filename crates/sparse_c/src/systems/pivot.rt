//! The column at which the factorisation of a symmetric matrix stops.

ghost use Rattle.std.specs.Prelude.{◌≡◌, ◌≢◌, ◌∷◌, pos, IfOk, IfErr, OnOk};
ghost use Rattle.sparse_algebra.specs.ModNumbers.{mod_value};
ghost use Rattle.sparse_algebra.specs.Moduli.{mod_ring};
ghost use Rattle.sparse_algebra.specs.WrappingValues.{w64_value};
ghost use Rattle.sparse_compressed.specs.Compressed.{arrays_of, IsSound};
ghost use Rattle.sparse_factor.specs.LeadingBlocks.{StopsAt};
ghost use Rattle.sparse_c.specs.InnerModulusLaws.{pivot_listed, pivot_unlisted};
ghost use Rattle.sparse_c.specs.Moduli.{moduli, IsFaultModulo, IsNoneOf};
ghost use Rattle.sparse_c.specs.Pivots.{FindsPivot};
ghost use Rattle.sparse_c.specs.Symmetric.{symmetric_by_cols};
ghost use Rattle.c_arrays.specs.Arrays.{ring64};
ghost use Rattle.c_arrays.specs.Refused.{IsFaultOf, IsOutOfMemoryOr, IsRefusedFor};
ghost use Rattle.c_arrays.specs.Statuses.{number_of};
ghost use Rattle.c_arrays.specs.declared.refusal.Refusal.TheVariants.{UnknownChoice};

use crate::arguments::{Factored, lanes};
use crate::moduli::{Call, by_modulus};
use c_arrays::lanes::Lanes;
use c_arrays::number::Number;
use c_arrays::refusal::Refusal;
use sparse_algebra::scalar::W64;
use sparse_factor::ldl::Ldl;
use std::alloc::Global;

/// Writes how many of the first rows and columns of A have factors L D Lᵀ: all if A has factors, and otherwise the
/// number of the column whose pivot has no inverse.
///
/// A is the symmetric matrix whose entries on and above the diagonal are those of a square CSC matrix. The number is
/// found by bisection, with a factorisation in each step.
#[unsafe(no_mangle)]
pub extern "C" fn nalgebra_sparse_factor_symmetric_pivot(
    alloc: Global,
    size: usize,
    offsets: &[usize],
    indices: &[usize],
    values: &[i64],
    out_column: &mut usize,
) -> i32
    ensures found { result ≡ pos 0 → StopsAt ring64 w64_value
        (symmetric_by_cols ring64 (arrays_of size size offsets.now indices.now values.now))
        out_column.new }
    ensures sound { result ≡ pos 0
        → IsSound (arrays_of size size offsets.now indices.now values.now) }
    ensures untouched { result ≢ pos 0 → out_column.new ≡ out_column.old }
    ensures refused { result ≢ pos 0 → IsRefusedFor
        (IsFaultOf (arrays_of size size offsets.now indices.now values.now)) ⊥ result }
{
    match pivot_of::<W64>(alloc, lanes!(size, size, offsets, indices, values)) {
        Ok(column) => {
            *out_column = column;
            0
        }
        Err(refusal) => refusal.status(),
    }
}

/// Writes how many of the first rows and columns of A have factors over the residues modulo a listed number.
#[unsafe(no_mangle)]
pub extern "C" fn nalgebra_sparse_factor_symmetric_pivot_mod(
    alloc: Global,
    modulus: u64,
    size: usize,
    offsets: &[usize],
    indices: &[usize],
    values: &[i64],
    out_column: &mut usize,
) -> i32
    ensures found { result ≡ pos 0 → StopsAt (mod_ring modulus) (mod_value {m = modulus})
        (symmetric_by_cols (mod_ring modulus)
        (arrays_of size size offsets.now indices.now values.now)) out_column.new }
    ensures sound { result ≡ pos 0
        → IsSound (arrays_of size size offsets.now indices.now values.now) }
    ensures untouched { result ≢ pos 0 → out_column.new ≡ out_column.old }
    ensures refused { result ≢ pos 0 → IsRefusedFor (IsFaultModulo modulus
        (IsFaultOf (arrays_of size size offsets.now indices.now values.now))) ⊥ result }
    ensures unlisted { IsNoneOf moduli modulus → result ≡ number_of UnknownChoice }
{
    let factored = Factored {
        a: lanes!(size, size, offsets, indices, values),
    };
    by_modulus(alloc, modulus, factored, out_column)
}

impl Call<usize> for Factored<'_> {
    ghost does = { FindsPivot };

    /// Writes how many of the first rows and columns have factors.
    fn run<T: Number>(self, alloc: Global, out: &mut usize) -> i32 {
        let Factored { a } = self;
        match pivot_of::<T>(alloc, a) {
            Ok(column) => {
                *out = column;
                0
            }
            Err(refusal) => refusal.status(),
        }
    }

    ghost listed = { pivot_listed };

    ghost unlisted = { pivot_unlisted };
}

// Returns how many of the first rows and columns of the symmetric matrix have factors.
fn pivot_of<T: Number>(alloc: Global, a: Lanes<'_>) -> Result<usize, Refusal>
    ensures found { IfOk result (λ n. StopsAt T.ring T.value (symmetric_by_cols T.ring a.entry) n) }
    ensures sound { OnOk result (IsSound a.entry) }
    ensures fault { IfErr result (IsOutOfMemoryOr (IsFaultOf a.entry)) }
{
    let columns = a.columns::<T>(alloc)?;
    Ok(Ldl::factored_size(alloc, &columns)?)
}
