//! Reads matrices from texts.

ghost use Rattle.std.specs.Prelude.{◌≡◌, ◌⊎◌, Ok, Err, IfOk, IfErr, length};
ghost use Rattle.sparse_compressed.specs.Compressed.{IsSound};
ghost use Rattle.sparse_market_scalar.specs.ScalarTypes.{pattern_scalar, signed_scalar};
ghost use Rattle.sparse_parser.specs.declared.error.MatrixMarketErrorKind.TheVariants as kinds;
ghost use Rattle.sparse_parser.specs.Meaning.{Means};
ghost use Rattle.std.specs.Int.{w128};
ghost use Rattle.mtxkit_texts.specs.Faults.{IsMismatch, IsTextFault};
ghost use Rattle.mtxkit_texts.specs.Headers.{header_in, is_supported};
ghost use Rattle.sparse_faults.specs.FirstFaults.{HasError};
ghost use Rattle.sparse_faults.specs.ValueTypes.{scalar_as};
ghost use Rattle.mtxkit_texts.specs.Loaded.{MeansMatrix, MeansOnes, MeansSums, MeansIntegers};
ghost use Rattle.mtxkit_texts.specs.Loaded.{IsRefused, IsLoadFailure, ring128, value128};
ghost use Rattle.mtxkit_texts.specs.declared.failure.Failure.TheVariants.{OutOfMemory};

use crate::failure::Failure;
use crate::headers::{is_supported, names_pattern};
use crate::locations::location_of;
use crate::places::ones_of;
use crate::sums::wide_sums;
use sparse_algebra::scalar::W128;
use sparse_coo_dense::coo::CooMatrix;
use sparse_csr_csc::csr::CsrMatrix;
use sparse_faults::ValueType;
use sparse_io::load_coo_from_matrix_market_str;
use sparse_parser::error::MatrixMarketErrorKind;
use std::alloc::Global;

/// A matrix read from a text.
#[derive(Drop)]
pub struct Loaded {
    /// The number of triplets that the text means, including those that a symmetry implies.
    pub entries: usize,
    /// The matrix, whose duplicate triplets are added.
    pub matrix: CsrMatrix<W128>,
}

/// Returns the matrix of a text, of the field that its header names. The values of a pattern's entries are 1, and
/// duplicate entries of an integer matrix are added, modulo 2^128. `number` is that of the text in the command.
///
/// # Errors
///
/// Returns `Input` with this number if the text has an error, or `NotSupported` if the error is that the values are
/// real or complex. Otherwise fails only if an allocation fails.
pub fn load(alloc: Global, number: usize, text: &str) -> Result<Loaded, Failure>
    ensures meant { IfOk result (λ l. MeansMatrix text.now l.entries l.matrix) }
    ensures sound { IfOk result (λ l. IsSound l.matrix) }
    ensures refused { IfErr result (IsLoadFailure number text.now) }
{
    if names_pattern(text) {
        load_pattern(alloc, number, text)
    } else {
        load_integers(alloc, number, text)
    }
}

// Returns the matrix of a pattern's text, whose values are 1.
pub(crate) fn load_pattern(alloc: Global, number: usize, text: &str) -> Result<Loaded, Failure>
    ensures meant { IfOk result (λ l. MeansOnes ring128 value128 text.now l.entries l.matrix) }
    ensures sound { IfOk result (λ l. IsSound l.matrix) }
    ensures refused { IfErr result
        (λ e. (e ≡ OutOfMemory) ⊎ IsRefused pattern_scalar number text.now e) }
{
    let places = read_pattern_list(alloc, number, text)?;
    let matrix = ones_of(alloc, &places)?;
    let entries = places.nnz();
    Ok(Loaded { entries, matrix })
}

// Returns the matrix of a text of integers, whose duplicate entries are added modulo 2^128.
fn load_integers(alloc: Global, number: usize, text: &str) -> Result<Loaded, Failure>
    ensures meant { IfOk result (λ l. MeansSums text.now l.entries l.matrix) }
    ensures sound { IfOk result (λ l. IsSound l.matrix) }
    ensures refused { IfErr result
        (λ e. (e ≡ OutOfMemory) ⊎ IsRefused (signed_scalar w128) number text.now e) }
{
    let integers = read_integers(alloc, number, text)?;
    let matrix = wide_sums(alloc, &integers)?;
    let entries = integers.nnz();
    Ok(Loaded { entries, matrix })
}

// Returns the list of triplets of a pattern's text, whose values are `()`.
pub(crate) fn read_pattern_list(
    alloc: Global,
    number: usize,
    text: &str,
) -> Result<CooMatrix<()>, Failure>
    ensures meant { IfOk result (λ list. Means pattern_scalar text.now (Ok list)) }
    ensures refused { IfErr result
        (λ e. (e ≡ OutOfMemory) ⊎ IsRefused pattern_scalar number text.now e) }
{
    match load_coo_from_matrix_market_str::<()>(alloc, text) {
        Ok(places) => Ok(places),
        Err(error) => Err(unread(number, error.kind(), text, ValueType::Nothing)),
    }
}

/// Returns the list of triplets of a text of integers, of 128 bits. `number` is that of the text in the command.
///
/// # Errors
///
/// Returns the errors of [`load`]. A text of a pattern that has entries has the error `TypeMismatch`.
pub fn read_integers(alloc: Global, number: usize, text: &str) -> Result<CooMatrix<i128>, Failure>
    ensures meant { IfOk result (MeansIntegers text.now) }
    ensures refused { IfErr result
        (λ e. (e ≡ OutOfMemory) ⊎ IsRefused (signed_scalar w128) number text.now e) }
{
    match load_coo_from_matrix_market_str::<i128>(alloc, text) {
        Ok(integers) => Ok(integers),
        Err(error) => Err(unread(number, error.kind(), text, ValueType::Wide)),
    }
}

// Returns the failure for a text that has an error of this kind, with values that are read as this type.
fn unread(number: usize, kind: MatrixMarketErrorKind, text: &str, values: ValueType) -> Failure
    requires { (kind ≡ kinds.OutOfMemory) ⊎ Means (scalar_as values) text.now (Err kind) }
    ensures { IsTextFault (scalar_as values) number text.now kind result }
{
    match kind {
        MatrixMarketErrorKind::OutOfMemory => Failure::OutOfMemory,
        MatrixMarketErrorKind::TypeMismatch => mismatch(number, text, values),
        kind => Failure::Input(number, kind, location_of(text, values)),
    }
}

// Returns the failure for a text with a value of another type than the one that is read.
fn mismatch(number: usize, text: &str, values: ValueType) -> Failure
    requires { HasError (scalar_as values) text.now }
    ensures { IsMismatch (scalar_as values) (is_supported (header_in text.now)) number
        text.now result }
{
    if is_supported(text) {
        let location = location_of(text, values);
        Failure::Input(number, MatrixMarketErrorKind::TypeMismatch, location)
    } else {
        Failure::NotSupported(number)
    }
}
