//! Reads matrices with exact sums from texts.

ghost use Rattle.std.specs.Prelude.{◌≡◌, ◌⊎◌, IfOk, IfErr, length};
ghost use Rattle.sparse_compressed.specs.Compressed.{IsSound};
ghost use Rattle.mtxkit_texts.specs.Loaded.{HasExactSums, HasFittingSums, IsWholeFailure};
ghost use Rattle.mtxkit_texts.specs.Loaded.{MeansWhole};
ghost use Rattle.mtxkit_texts.specs.declared.failure.Failure.TheVariants.{OutOfMemory, Overflow};

use crate::exact::sums_fit;
use crate::failure::Failure;
use crate::headers::names_pattern;
use crate::loaded::{Loaded, load_pattern, read_integers};
use crate::sums::wide_sums;
use sparse_coo_dense::coo::CooMatrix;
use std::alloc::Global;

/// As [`load`](crate::load), but the sums of duplicate entries are exact.
///
/// # Errors
///
/// Returns the errors of [`load`](crate::load), and `Overflow` if a sum of integers with the same row and column does
/// not fit in 128 bits.
pub fn load_exact(alloc: Global, number: usize, text: &str) -> Result<Loaded, Failure>
    ensures meant { IfOk result (λ l. MeansWhole text.now l.entries l.matrix) }
    ensures sound { IfOk result (λ l. IsSound l.matrix) }
    ensures refused { IfErr result (IsWholeFailure number text.now) }
{
    if names_pattern(text) {
        load_pattern(alloc, number, text)
    } else {
        let integers = read_integers(alloc, number, text)?;
        exact_sums(alloc, number, &integers)
    }
}

// Returns the matrix of a list of triplets, whose duplicate triplets are added exactly.
fn exact_sums(alloc: Global, number: usize, list: &CooMatrix<i128>) -> Result<Loaded, Failure>
    ensures counted { IfOk result (λ l. l.entries ≡ length list.now.triplets) }
    ensures sums { IfOk result (λ l. HasExactSums list.now l.matrix) }
    ensures sound { IfOk result (λ l. IsSound l.matrix) }
    ensures refused { IfErr result
        (λ e. (e ≡ OutOfMemory) ⊎ ((e ≡ Overflow number) × (HasFittingSums list.now → ⊥))) }
{
    let matrix = wide_sums(alloc, list)?;
    if sums_fit(alloc, list, &matrix)? {
        let entries = list.nnz();
        Ok(Loaded { entries, matrix })
    } else {
        Err(Failure::Overflow(number))
    }
}
