//! The command `mtx fill`: the fill of the Cholesky factor of a pattern.

ghost use Rattle.std.specs.Prelude.{◌≡◌, ◌≢◌, ℕ, ◌<◌, ◌↔◌, ◌⊎◌};
ghost use Rattle.std.specs.Prelude.{All, Err, IfOk, IfErr, OnOk, OnErr, length, string_bytes};
ghost use Rattle.nalgebra_sparse.specs.Raw.{IsValid, IsEntry};
ghost use Rattle.nalgebra_sparse.specs.Run.{effect};
ghost use Rattle.nalgebra_sparse.specs.Symbolic.{IsFactorOf};
ghost use Rattle.file_readings.specs.Reads.{ReadsOne};
ghost use Rattle.mtx_commands.specs.Failures.{IsUnfilled};
ghost use Rattle.mtx_commands.specs.Fills.{IsFillFault, MeansOblong, MeansPattern, WritesPattern};
ghost use Rattle.mtx_commands.specs.Fills.{WritesFill};
ghost use Rattle.mtx_commands.specs.TripletPatterns.{HasTriplet, HasOneEntryPerLane, AreNumbersTo};
ghost use Rattle.sparse_expr.specs.declared.error.ExprError.TheVariants.{OutOfMemory};
ghost use Rattle.mtx_commands.specs.Inputs.{IsMisread};
ghost use Rattle.mtx_commands.specs.Writes.{write_fault, HasBegun, IsUnwritten};
ghost use Rattle.mtx_commands.specs.declared.cli.Failure.TheVariants.{NotSquare, Refused};

use crate::cli::Failure;
use crate::inputs::{read_text, triplets_of};
use file_readings::Texts;
use nalgebra_sparse::expr::ExprError;
use nalgebra_sparse::factorization::{CscSymbolicCholesky, Triangle};
use nalgebra_sparse::io::{MatrixMarketErrorKind, Sink, save_to_matrix_market};
use nalgebra_sparse::ops::serial::spmm_csr_pattern;
use nalgebra_sparse::pattern::SparsityPattern;
use nalgebra_sparse::{CooMatrix, CscMatrix};
use std::alloc::{AllocError, Global};

/// Reads the pattern of the matrix in a file, and writes the pattern of the Cholesky factor of this triangle of it,
/// column by column.
///
/// # Errors
///
/// Returns `NotSquare` if the matrix is not square, and `Refused` if the file cannot be read, its text is not that of a
/// pattern, a write fails or an allocation fails.
pub(crate) fn fill<T, W>(
    alloc: Global,
    inputs: &mut T,
    triangle: Triangle,
    path: &str,
    out: &mut W,
) -> Result<(), Failure>
where
    T: Texts,
    W: Sink,
    ensures filled { OnOk result (ReadsOne path.now
        (λ text. WritesFill triangle text (W.accepted out.old) (W.accepted out.new))
        (T.readings inputs.old) (T.readings inputs.new)) }
    ensures begun { OnErr result (HasBegun
        (λ old new. ReadsOne path.now (λ text. WritesFill triangle text old new)
        (T.readings inputs.old) (T.readings inputs.new))
        (W.accepted out.old) (W.accepted out.new)) }
    ensures unfailed { OnOk result (W.failures out.new ≡ W.failures out.old) }
    ensures failed { IfErr result (IsUnfilled path.now (T.readings inputs.old)
        (T.readings inputs.new) (effect (W.accepted out.old) (W.accepted out.new)
        (W.failures out.old) (W.failures out.new) (W.last out.new))) }
{
    let text = read_text(inputs, 1, path)?;
    fill_text(alloc, triangle, text, out)
}

// Writes the pattern of the factor of this triangle of the pattern that a text means.
fn fill_text<W: Sink>(
    alloc: Global,
    triangle: Triangle,
    text: String,
    out: &mut W,
) -> Result<(), Failure>
    ensures filled { OnOk result
        (WritesFill triangle (string_bytes text) (W.accepted out.old) (W.accepted out.new)) }
    ensures begun { OnErr result (HasBegun (WritesFill triangle (string_bytes text))
        (W.accepted out.old) (W.accepted out.new)) }
    ensures unfailed { OnOk result (W.failures out.new ≡ W.failures out.old) }
    ensures failed { IfErr result (IsFillFault (string_bytes text)
        (effect (W.accepted out.old) (W.accepted out.new)
        (W.failures out.old) (W.failures out.new) (W.last out.new))) }
{
    let pattern = pattern_in(alloc, text)?;
    let factor = factor_of(alloc, pattern, triangle)?;
    write_pattern(alloc, factor.l_pattern(), out)
}

// Returns the pattern by columns that a text means, which must be square.
fn pattern_in(alloc: Global, text: String) -> Result<SparsityPattern, Failure>
    ensures square { IfOk result (λ p. p.major_dim ≡ p.minor_dim) }
    ensures meant { IfOk result (MeansPattern (string_bytes text)) }
    ensures refused { IfErr result (λ e. IsMisread (string_bytes text) e
        ⊎ (((e ≡ NotSquare) × MeansOblong (string_bytes text)) ⊎ (e ≡ Refused OutOfMemory))) }
{
    let triplets = triplets_of(alloc, text)?;
    square_pattern_of(alloc, &triplets)
}

// Returns the pattern by columns of a list of triplets. If the list is not square, nothing is allocated.
fn square_pattern_of(alloc: Global, triplets: &CooMatrix<()>) -> Result<SparsityPattern, Failure>
    ensures columns { IfOk result (λ p. p.major_dim ≡ triplets.now.ncols) }
    ensures rows { IfOk result (λ p. p.minor_dim ≡ triplets.now.nrows) }
    ensures square { IfOk result (λ p. p.major_dim ≡ p.minor_dim) }
    ensures entries { IfOk result (λ p. (i j : ℕ) → IsEntry p j i ↔ HasTriplet triplets.now i j) }
    ensures not_square { triplets.now.nrows ≢ triplets.now.ncols → result ≡ Err NotSquare }
    ensures refused { IfErr result (λ e. (e ≡ Refused OutOfMemory) ⊎ (e ≡ NotSquare)) }
    ensures oblong { IfErr result (λ e. e ≡ NotSquare → triplets.now.nrows ≢ triplets.now.ncols) }
{
    if triplets.nrows() != triplets.ncols() {
        return Err(Failure::NotSquare);
    }
    Ok(pattern_of(alloc, triplets)?)
}

// Writes a pattern, column by column.
#[tactic(auto, using(crate::proofs::Unwritten::unwritten_write_fault, crate::proofs::Begun::not_begun))]
fn write_pattern<W: Sink>(
    alloc: Global,
    pattern: &SparsityPattern,
    out: &mut W,
) -> Result<(), Failure>
    ensures written { OnOk result
        (WritesPattern pattern.now (W.accepted out.old) (W.accepted out.new)) }
    ensures begun { OnErr result
        (HasBegun (WritesPattern pattern.now) (W.accepted out.old) (W.accepted out.new)) }
    ensures unfailed { OnOk result (W.failures out.new ≡ W.failures out.old) }
    ensures unwritten { IfErr result
        (IsUnwritten (W.failures out.old) (W.failures out.new) (W.last out.new)) }
{
    let matrix = matrix_of(alloc, pattern)?;
    match save_to_matrix_market(alloc, out, &matrix) {
        Ok(()) => Ok(()),
        Err(error) => Err(Failure::Refused(unwritten(error.kind()))),
    }
}

// Returns the pattern by columns of a list of triplets, without duplicates.
//
// Let C and R be the patterns whose row k has one entry, the column and the row of triplet k. The result is the
// pattern of the product of C transposed and R.
fn pattern_of(alloc: Global, triplets: &CooMatrix<()>) -> Result<SparsityPattern, AllocError>
    ensures columns { IfOk result (λ p. p.major_dim ≡ triplets.now.ncols) }
    ensures rows { IfOk result (λ p. p.minor_dim ≡ triplets.now.nrows) }
    ensures entries { IfOk result (λ p. (i j : ℕ) → IsEntry p j i ↔ HasTriplet triplets.now i j) }
    ensures valid { IfOk result IsValid }
{
    let rows = one_entry_per_lane(alloc, triplets.row_indices(), triplets.nrows())?;
    let columns = one_entry_per_lane(alloc, triplets.col_indices(), triplets.ncols())?;
    let transposed = columns.transpose(alloc)?;
    let pattern = spmm_csr_pattern(alloc, &transposed, &rows)?;
    Ok(pattern)
}

// Returns the pattern whose lane k has one entry, at minor index `indices[k]`.
fn one_entry_per_lane(
    alloc: Global,
    indices: &[usize],
    minor_dim: usize,
) -> Result<SparsityPattern, AllocError>
    requires { All (λ i. i < minor_dim) indices.now }
    ensures lanes { IfOk result (λ p. p.major_dim ≡ length indices.now) }
    ensures size { IfOk result (λ p. p.minor_dim ≡ minor_dim) }
    ensures entries { IfOk result (λ p. HasOneEntryPerLane p indices.now) }
    ensures valid { IfOk result IsValid }
{
    let offsets = numbers_to(alloc, indices.len())?;
    let indices = Vec::from_slice(alloc, indices)?;
    Ok(SparsityPattern::from_offset_and_indices_unchecked(
        indices.len(),
        minor_dim,
        offsets,
        indices,
    ))
}

// Returns the numbers from 0 to `last`.
fn numbers_to(alloc: Global, last: usize) -> Result<Vec<usize>, AllocError>
    ensures { IfOk result (λ v. AreNumbersTo v.items last) }
{
    let mut numbers = Vec::with_capacity(alloc, last.saturating_add(1))?;
    for number in 0..last {
        numbers.push(number)?;
    }
    numbers.push(last)?;
    Ok(numbers)
}

// Returns the symbolic Cholesky factor of a triangle of a square pattern.
fn factor_of(
    alloc: Global,
    pattern: SparsityPattern,
    triangle: Triangle,
) -> Result<CscSymbolicCholesky, Failure>
    requires { pattern.major_dim ≡ pattern.minor_dim }
    ensures input { IfOk result (λ s. s.input ≡ pattern) }
    ensures factor { IfOk result (IsFactorOf triangle) }
    ensures refused { IfErr result (λ e. e ≡ Refused OutOfMemory) }
{
    Ok(CscSymbolicCholesky::factor_triangle(alloc, pattern, triangle)?)
}

// Returns the matrix with this pattern by columns, whose values are `()`.
fn matrix_of(alloc: Global, pattern: &SparsityPattern) -> Result<CscMatrix<()>, AllocError>
    ensures { IfOk result (λ m. m.pattern ≡ pattern.now) }
{
    let nothing = vec![in alloc; (); pattern.nnz()]?;
    let pattern = pattern.clone(alloc)?;
    Ok(CscMatrix::from_pattern_and_values_unchecked(pattern, nothing))
}

// Returns the error for a write or an allocation that failed.
fn unwritten(kind: MatrixMarketErrorKind) -> ExprError
    ensures { result ≡ write_fault kind }
{
    match kind {
        MatrixMarketErrorKind::IOError(kind) => ExprError::Write(kind),
        _ => ExprError::OutOfMemory,
    }
}
