//! Reads matrices of 64-bit integers from texts.

ghost use Rattle.std.specs.Prelude.{◌≡◌, ◌⊎◌, ◌<◌, ◌^◌, ℤ, All, IfOk, IfErr, length, map};
ghost use Rattle.std.specs.Int.{w64};
ghost use Rattle.std.specs.Int.RustNames.{FitsSigned};
ghost use Rattle.sparse_algebra.specs.Numbers.{w64_number};
ghost use Rattle.sparse_algebra.specs.Whole.{whole_ring};
ghost use Rattle.sparse_algebra.specs.WrappingValues.{w128_number};
ghost use Rattle.sparse_compressed.specs.Compressed.{IsSound};
ghost use Rattle.sparse_compressed.specs.PlainOfLanes.{plain_of_rows};
ghost use Rattle.mtxkit_texts.specs.Loaded.{IsNarrow, IsValuesFailure, MeansValues, sums_of};
ghost use Rattle.mtxkit_texts.specs.declared.failure.Failure.TheVariants.{OutOfMemory, Wide};

use crate::failure::Failure;
use crate::headers::names_pattern;
use crate::loaded::{read_integers, read_pattern_list};
use crate::places::{joined, ones_of};
use crate::sums::{are_narrow, wide_sums};
use sparse_algebra::scalar::{W64, W128};
use sparse_coo_dense::coo::CooMatrix;
use sparse_csr_csc::csr::CsrMatrix;
use std::alloc::{AllocError, Global};

/// Returns the matrix of a text with values of 64 bits. The values of a pattern's entries are 1, and duplicate entries
/// are added. `number` is that of the text in the command.
///
/// # Errors
///
/// Returns the errors of [`load`](crate::load), and `Wide` if an integer, or one that a symmetry implies, or a sum of
/// integers with the same row and column does not fit in 64 bits.
pub fn load_values(alloc: Global, number: usize, text: &str) -> Result<CsrMatrix<W64>, Failure>
    ensures meant { IfOk result (MeansValues text.now) }
    ensures sound { IfOk result IsSound }
    ensures refused { IfErr result (IsValuesFailure number text.now) }
{
    if names_pattern(text) {
        let places = read_pattern_list(alloc, number, text)?;
        Ok(ones_of(alloc, &places)?)
    } else {
        let integers = read_integers(alloc, number, text)?;
        narrow_sums(alloc, number, &integers)
    }
}

// Returns the matrix of a list of triplets, whose duplicate triplets are added, if all values fit in 64 bits.
pub(crate) fn narrow_sums(
    alloc: Global,
    number: usize,
    list: &CooMatrix<i128>,
) -> Result<CsrMatrix<W64>, Failure>
    ensures sums { IfOk result (λ m. plain_of_rows whole_ring w64_number m
        ≡ sums_of list.now) }
    ensures sound { IfOk result IsSound }
    ensures refused { IfErr result
        (λ e. (e ≡ OutOfMemory) ⊎ ((e ≡ Wide number) × (IsNarrow list.now → ⊥))) }
{
    if are_narrow(list.values()) {
        narrowed(alloc, number, list)
    } else {
        Err(Failure::Wide(number))
    }
}

// The same, for a list whose integers fit in 64 bits.
fn narrowed(alloc: Global, number: usize, list: &CooMatrix<i128>) -> Result<CsrMatrix<W64>, Failure>
    requires narrow { All (FitsSigned w64) (map (λ t. t.2) list.now.triplets) }
    requires few { length list.now.triplets < 2 ^ 64 }
    ensures sums { IfOk result (λ m. plain_of_rows whole_ring w64_number m
        ≡ sums_of list.now) }
    ensures sound { IfOk result IsSound }
    ensures refused { IfErr result
        (λ e. (e ≡ OutOfMemory) ⊎ ((e ≡ Wide number) × (IsNarrow list.now → ⊥))) }
{
    let (pattern, sums) = wide_sums(alloc, list)?.into_pattern_and_values();
    let values = narrow_values(alloc, number, &sums)?;
    Ok(joined(pattern, values))
}

// Returns the values in 64 bits, if all fit.
fn narrow_values(alloc: Global, number: usize, values: &[W128]) -> Result<Vec<W64>, Failure>
    ensures same { IfOk result
        (λ narrow. map w64_number narrow.items ≡ map w128_number values.now) }
    ensures refused { IfErr result (λ e. (e ≡ OutOfMemory)
        ⊎ ((e ≡ Wide number)
        × (All (λ v. FitsSigned w64 (w128_number v)) values.now → ⊥))) }
{
    let mut narrow = Vec::with_capacity(alloc, values.len())?;
    for value in values {
        match i64::try_from(value.get()) {
            Ok(integer) => narrow.push(W64::new(integer))?,
            Err(_) => return Err(Failure::Wide(number)),
        }
    }
    Ok(narrow)
}
