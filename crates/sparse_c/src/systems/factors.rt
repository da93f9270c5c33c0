//! The exact factors L D Lᵀ of symmetric matrices.

ghost use Rattle.std.specs.Prelude.{◌≡◌, ◌≢◌, ◌⊎◌, ◌<◌, pos, length, IfOk, IfErr, MatchResult};
ghost use Rattle.std.specs.Prelude.{OnErr, OnOk};
ghost use Rattle.sparse_algebra.specs.ModNumbers.{mod_value};
ghost use Rattle.sparse_algebra.specs.Moduli.{mod_ring};
ghost use Rattle.sparse_algebra.specs.WrappingValues.{w64_value};
ghost use Rattle.sparse_compressed.specs.Compressed.{arrays_of, IsSound};
ghost use Rattle.sparse_compressed.specs.PlainOfLanes.{plain_of_cols, plain_of_rows};
ghost use Rattle.sparse_factor.specs.Factors.{diagonal};
ghost use Rattle.sparse_c.specs.Factors.{AreFactors, Factorises, FactorisesIn, HoldsFactors};
ghost use Rattle.sparse_c.specs.Factors.{IsFaultOfFactors};
ghost use Rattle.sparse_c.specs.InnerModulusLaws.{factors_listed, factors_unlisted};
ghost use Rattle.sparse_c.specs.Moduli.{moduli, IsFaultModulo, IsNoneOf};
ghost use Rattle.sparse_c.specs.Rooms.{Shows};
ghost use Rattle.c_arrays.specs.Arrays.{place_count, ring64, output_arrays};
ghost use Rattle.c_arrays.specs.Reduced.{FirstAre, IsReduced};
ghost use Rattle.c_arrays.specs.Refused.{IsOutOfMemoryOr, IsTooSmall};
ghost use Rattle.c_arrays.specs.Rests.{KeepsBehind, KeepsRest};
ghost use Rattle.c_arrays.specs.Statuses.{number_of};
ghost use Rattle.c_arrays.specs.declared.refusal.Refusal.TheVariants.{TooSmall};
ghost use Rattle.c_arrays.specs.declared.refusal.Refusal.TheVariants.{UnknownChoice};

use crate::arguments::{FactorOutputArrays, Factored, lanes};
use crate::moduli::{Call, by_modulus};
use c_arrays::lanes::Lanes;
use c_arrays::number::Number;
use c_arrays::refusal::Refusal;
use c_arrays::scalars::put_scalars;
use c_arrays::writing::write_rows_or_count;
use sparse_algebra::recall;
use sparse_algebra::scalar::W64;
use sparse_csr_csc::csr::CsrMatrix;
use sparse_factor::ldl::Ldl;
use std::alloc::Global;

/// Writes the unit lower triangular L, by columns, and the diagonal of D, for which `A = L D Lᵀ`.
///
/// A is the symmetric matrix whose entries on and above the diagonal are those of a square CSC matrix. The pattern of L
/// is exactly the fill of this triangle.
#[unsafe(no_mangle)]
pub extern "C" fn nalgebra_sparse_factor_symmetric(
    alloc: Global,
    size: usize,
    offsets: &[usize],
    indices: &[usize],
    values: &[i64],
    out_offsets: &mut [usize],
    out_indices: &mut [usize],
    out_values: &mut [i64],
    out_diagonal: &mut [i64],
    out_places: &mut usize,
) -> i32
    ensures answered { let a = arrays_of size size offsets.now indices.now values.now in
        Factorises ring64 w64_value (IsFaultOfFactors ring64 w64_value a) a
        (output_arrays out_offsets.old out_indices.old out_values.old out_places.old)
        (output_arrays out_offsets.new out_indices.new out_values.new out_places.new)
        out_diagonal.old out_diagonal.new result }
{
    let factored = Factored {
        a: lanes!(size, size, offsets, indices, values),
    };
    let mut room = FactorOutputArrays {
        offsets: out_offsets,
        indices: out_indices,
        values: out_values,
        diagonal: out_diagonal,
        places: out_places,
    };
    factored.run::<W64>(alloc, &mut room)
}

/// Writes the factors L and D of A over the residues modulo a listed number.
#[unsafe(no_mangle)]
pub extern "C" fn nalgebra_sparse_factor_symmetric_mod(
    alloc: Global,
    modulus: u64,
    size: usize,
    offsets: &[usize],
    indices: &[usize],
    values: &[i64],
    out_offsets: &mut [usize],
    out_indices: &mut [usize],
    out_values: &mut [i64],
    out_diagonal: &mut [i64],
    out_places: &mut usize,
) -> i32
    ensures answered { let a = arrays_of size size offsets.now indices.now values.now in
        let ring = mod_ring modulus in
        Factorises ring (mod_value {m = modulus}) (IsFaultModulo modulus
        (IsFaultOfFactors ring (mod_value {m = modulus}) a)) a
        (output_arrays out_offsets.old out_indices.old out_values.old out_places.old)
        (output_arrays out_offsets.new out_indices.new out_values.new out_places.new)
        out_diagonal.old out_diagonal.new result }
    ensures reduced { Shows (IsReduced modulus) out_places.new out_values.new result }
    ensures reduced_diagonal { Shows (IsReduced modulus) size out_diagonal.new result }
    ensures unlisted { IsNoneOf moduli modulus → result ≡ number_of UnknownChoice }
{
    let factored = Factored {
        a: lanes!(size, size, offsets, indices, values),
    };
    let mut room = FactorOutputArrays {
        offsets: out_offsets,
        indices: out_indices,
        values: out_values,
        diagonal: out_diagonal,
        places: out_places,
    };
    by_modulus(alloc, modulus, factored, &mut room)
}

impl<'a> Call<FactorOutputArrays<'a>> for Factored<'_> {
    ghost fits = { λ s. s.a.pattern.minor_dim ≡ s.a.pattern.major_dim };

    ghost does = { FactorisesIn };

    /// Writes the factors.
    fn run<T: Number>(self, alloc: Global, out: &mut FactorOutputArrays<'a>) -> i32 {
        let Factored { a } = self;
        let answer = factors_of::<T>(alloc, a);
        finish_factors(
            answer,
            out.offsets,
            out.indices,
            out.values,
            out.diagonal,
            out.places,
        )
    }

    ghost listed = { factors_listed };

    ghost unlisted = { factors_unlisted };
}

// Returns the CSR matrix whose rows are the columns of L, and the diagonal of D.
fn factors_of<T: Number>(alloc: Global, a: Lanes<'_>) -> Result<(CsrMatrix<T>, Vec<T>), Refusal>
    requires square { a.pattern.minor_dim ≡ a.pattern.major_dim }
    ensures factors { IfOk result (λ s. AreFactors T.ring T.value a.entry
        (plain_of_cols T.ring T.value s.0)
        (diagonal T.ring T.value T.zero_value s.1.items)) }
    ensures rows { IfOk result (λ s. s.0.pattern.minor_dim ≡ a.entry.pattern.minor_dim) }
    ensures count { IfOk result (λ s. length s.1.items ≡ a.entry.pattern.minor_dim) }
    ensures sound { OnOk result (IsSound a.entry) }
    ensures fault { IfErr result (IsOutOfMemoryOr (IsFaultOfFactors T.ring T.value a.entry)) }
{
    let a = a.columns::<T>(alloc)?;
    let factors = Ldl::factor(alloc, &a)?;
    let l = factors.l().clone(alloc)?;
    recall(l.values());
    let d = Vec::from_slice(alloc, factors.d())?;
    Ok((l.transpose_as_csr(), d))
}

/// Writes the columns of L, which are the rows of a CSR matrix, and the diagonal of D. Returns the status of the call.
/// On an error the arrays are unchanged; if an array is too small, the number of entries of L is written, and nothing
/// else.
pub(crate) fn finish_factors<T: Number>(
    answer: Result<(CsrMatrix<T>, Vec<T>), Refusal>,
    offsets: &mut [usize],
    indices: &mut [usize],
    values: &mut [i64],
    pivots: &mut [i64],
    places: &mut usize,
) -> i32
    ensures written { result ≡ pos 0 → MatchResult answer
        (λ s. HoldsFactors T.ring T.value s.0 s.1.items
        (output_arrays offsets.new indices.new values.new places.new) pivots.new) (λ _. ⊥) }
    ensures shown { result ≡ pos 0 → FirstAre T.is_shown places.new values.new }
    ensures shown_pivots { result ≡ pos 0 → MatchResult answer
        (λ s. FirstAre T.is_shown (length s.1.items) pivots.new) (λ _. ⊥) }
    ensures rest { result ≡ pos 0 → MatchResult answer (λ s. KeepsRest s.0.pattern.major_dim
        (output_arrays offsets.old indices.old values.old places.old)
        (output_arrays offsets.new indices.new values.new places.new)) (λ _. ⊥) }
    ensures rest_pivots { result ≡ pos 0 → MatchResult answer
        (λ s. KeepsBehind (length s.1.items) pivots.old pivots.new) (λ _. ⊥) }
    ensures untouched { result ≢ pos 0 → output_arrays offsets.new indices.new values.new places.old
        ≡ output_arrays offsets.old indices.old values.old places.old }
    ensures needed { result ≢ pos 0
        → IfOk answer (λ s. places.new ≡ place_count (plain_of_rows T.ring T.value s.0)) }
    ensures kept { OnErr answer (places.new ≡ places.old) }
    ensures untouched_pivots { result ≢ pos 0 → pivots.new ≡ pivots.old }
    ensures refused { result ≢ pos 0 → MatchResult answer
        (λ s. (result ≡ number_of TooSmall) × (IsTooSmall (plain_of_rows T.ring T.value s.0)
        (output_arrays offsets.old indices.old values.old places.old)
        ⊎ (length pivots.old < length s.1.items)))
        (λ refusal. result ≡ number_of refusal) }
{
    match answer {
        Ok((l, d)) => {
            if pivots.len() < d.len() {
                *places = l.nnz();
                return Refusal::TooSmall.status();
            }
            let status = write_rows_or_count(&l, offsets, indices, values, places);
            if status == 0 {
                put_scalars(pivots, &d);
            }
            status
        }
        Err(refusal) => refusal.status(),
    }
}
