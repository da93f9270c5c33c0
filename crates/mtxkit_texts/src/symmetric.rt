//! Expands texts with a symmetry, and writes the lower triangles of symmetric matrices.

ghost use Rattle.std.specs.Prelude.{◌≡◌, ◌⊎◌, ◌++◌, ℕ, List, Some, IfOk, IfErr, true, false};
ghost use Rattle.std.specs.Prelude.{string_bytes};
ghost use Rattle.mtxkit_texts.specs.Headers.{header_in, is_mirrored, is_pattern};
ghost use Rattle.mtxkit_texts.specs.Lower.{IsSymmetricIntegers, IsSymmetricPattern};
ghost use Rattle.mtxkit_texts.specs.Loaded.{IsLoadFailure, MeansMatrix, MeansValues};
ghost use Rattle.mtxkit_texts.specs.Lower.{IsAsymmetry, IsOblongPattern, IsOblongIntegers};
ghost use Rattle.mtxkit_texts.specs.Lower.{IsUnsymmetricPattern, IsUnsymmetricIntegers};
ghost use Rattle.mtxkit_texts.specs.Lower.{WritesLowerPattern, WritesLowerIntegers, IsLowerOf};
ghost use Rattle.mtxkit_texts.specs.Lower.{Symmetrised, SymmetrisedUnder};
ghost use Rattle.mtxkit_texts.specs.Lower.{IsSymmetricFailure, IsHeaderFailure, IsSquareFailure};
ghost use Rattle.mtxkit_texts.specs.declared.failure.Failure.TheVariants.{OutOfMemory};

use crate::failure::Failure;
use crate::field::{integer_text, pattern_text};
use crate::headers::header_of;
use crate::loaded::{read_integers, read_pattern_list};
use crate::pattern_texts::write_pattern;
use crate::places::ones_of;
use crate::values::narrow_sums;
use mtxkit_matrices::{Dimensions, first_asymmetry};
use sparse_algebra::scalar::{Ring, W64, W128};
use sparse_csr_csc::csr::CsrMatrix;
use sparse_io::{Banner, save_to_matrix_market_str_with};
use sparse_parser::header::{Field, Header, Symmetry};
use sparse_pattern::pattern::SparsityPattern;
use std::alloc::{AllocError, Global};

/// Returns the text of all entries of a matrix if the header of its text names a symmetry. Otherwise the matrix must be
/// symmetric, and the result is the text of its lower triangle, whose header says `symmetric`.
///
/// Returns the errors of [`load_values`](crate::load_values). If the header names no symmetry, it returns `NotSquare`
/// if the matrix is not square, whether or not its values fit in 64 bits, and `NotSymmetric` if it differs from its
/// transpose.
pub fn symmetric_text(alloc: Global, text: &str) -> Result<String, Failure>
    ensures written { IfOk result
        (λ written. Symmetrised (header_in text.now) text.now (string_bytes written)) }
    ensures refused { IfErr result (IsSymmetricFailure text.now) }
{
    match header_of(text) {
        Some(header) => symmetrised(alloc, text, header),
        None => integer_text(alloc, text),
    }
}

// As `symmetric_text`, for a text with this header.
fn symmetrised(alloc: Global, text: &str, header: Header) -> Result<String, Failure>
    requires { header_in text.now ≡ Some header }
    ensures written { IfOk result
        (λ written. SymmetrisedUnder header text.now (string_bytes written)) }
    ensures refused { IfErr result (IsHeaderFailure header text.now) }
{
    match (is_mirrored(header.symmetry), header.field) {
        (true, Field::Pattern) => pattern_text(alloc, text),
        (true, _) => integer_text(alloc, text),
        (false, Field::Pattern) => lower_pattern(alloc, text),
        (false, _) => lower_integers(alloc, text),
    }
}

// Returns whether the symmetry implies further entries.
fn is_mirrored(symmetry: Symmetry) -> bool
    ensures { result ≡ is_mirrored symmetry }
{
    match symmetry {
        Symmetry::General => false,
        Symmetry::Symmetric | Symmetry::SkewSymmetric | Symmetry::Hermitian => true,
    }
}

// Returns the text of the lower triangle of a symmetric pattern.
fn lower_pattern(alloc: Global, text: &str) -> Result<String, Failure>
    requires { is_pattern (header_in text.now) ≡ true }
    ensures written { IfOk result (λ written. WritesLowerPattern text.now (string_bytes written)) }
    ensures refused { IfErr result
        (λ e. IsLoadFailure 1 text.now e ⊎ IsUnsymmetricPattern text.now e) }
{
    let matrix = square_ones(alloc, text)?;
    let lower = triangle_of(alloc, &matrix)?;
    Ok(symmetric_pattern(alloc, lower.pattern())?)
}

// Returns the text of the lower triangle of a symmetric matrix of integers.
fn lower_integers(alloc: Global, text: &str) -> Result<String, Failure>
    requires { is_pattern (header_in text.now) ≡ false }
    ensures written { IfOk result
        (λ written. WritesLowerIntegers text.now (string_bytes written)) }
    ensures refused { IfErr result
        (λ e. IsSquareFailure text.now e ⊎ IsUnsymmetricIntegers text.now e) }
{
    let matrix = square_values(alloc, text)?;
    let lower = triangle_of(alloc, &matrix)?;
    Ok(symmetric_integers(alloc, &lower)?)
}

// Returns the matrix of a square pattern's text, whose values are 1. A pattern that is not square is refused before its
// rows are allocated.
fn square_ones(alloc: Global, text: &str) -> Result<CsrMatrix<W128>, Failure>
    requires { is_pattern (header_in text.now) ≡ true }
    ensures meant { IfOk result (λ m. (entries : ℕ) × MeansMatrix text.now entries m) }
    ensures square { IfOk result (λ m. m.pattern.major_dim ≡ m.pattern.minor_dim) }
    ensures refused { IfErr result
        (λ e. IsLoadFailure 1 text.now e ⊎ IsOblongPattern text.now e) }
{
    let places = read_pattern_list(alloc, 1, text)?;
    if places.nrows() != places.ncols() {
        return Err(Failure::NotSquare(Dimensions::of(&places)));
    }
    Ok(ones_of(alloc, &places)?)
}

// Returns the matrix of a text of integers, which must be square. A matrix that is not square is refused before its
// rows are allocated.
fn square_values(alloc: Global, text: &str) -> Result<CsrMatrix<W64>, Failure>
    requires { is_pattern (header_in text.now) ≡ false }
    ensures meant { IfOk result (MeansValues text.now) }
    ensures square { IfOk result (λ m. m.pattern.major_dim ≡ m.pattern.minor_dim) }
    ensures refused { IfErr result
        (λ e. IsSquareFailure text.now e ⊎ IsOblongIntegers text.now e) }
{
    let integers = read_integers(alloc, 1, text)?;
    if integers.nrows() != integers.ncols() {
        return Err(Failure::NotSquare(Dimensions::of(&integers)));
    }
    narrow_sums(alloc, 1, &integers)
}

// Returns the lower triangle of a symmetric matrix. The matrix must be square.
fn triangle_of<T: Ring>(alloc: Global, matrix: &CsrMatrix<T>) -> Result<CsrMatrix<T>, Failure>
    requires { matrix.now.pattern.major_dim ≡ matrix.now.pattern.minor_dim }
    ensures lower { IfOk result (IsLowerOf T.ring T.value matrix.now) }
    ensures refused { IfErr result
        (λ e. (e ≡ OutOfMemory) ⊎ IsAsymmetry T.ring T.value matrix.now e) }
{
    match first_asymmetry(alloc, matrix)? {
        None => Ok(matrix.lower_triangle(alloc)?),
        Some(at) => Err(Failure::NotSymmetric(at)),
    }
}

// Returns the text of the lower triangle of a symmetric pattern, with a header that says `symmetric`.
fn symmetric_pattern(alloc: Global, lower: &SparsityPattern) -> Result<String, AllocError>
    ensures { IfOk result (λ written. IsSymmetricPattern lower.now (string_bytes written)) }
{
    let general = write_pattern(alloc, lower)?;
    with_head(
        alloc,
        general.as_str(),
        "%%MatrixMarket matrix coordinate pattern general\n",
        "%%MatrixMarket matrix coordinate pattern symmetric\n",
    )
}

// Returns the text of the lower triangle of a symmetric matrix, with a header that says `symmetric`.
fn symmetric_integers(alloc: Global, lower: &CsrMatrix<W64>) -> Result<String, AllocError>
    ensures { IfOk result (λ written. IsSymmetricIntegers lower.now (string_bytes written)) }
{
    let general = save_to_matrix_market_str_with(alloc, lower, Banner::MixedCase)?;
    with_head(
        alloc,
        general.as_str(),
        "%%MatrixMarket matrix coordinate integer general\n",
        "%%MatrixMarket matrix coordinate integer symmetric\n",
    )
}

// Returns a text whose prefix `from` is replaced by `to`.
fn with_head(alloc: Global, text: &str, from: &str, to: &str) -> Result<String, AllocError>
    requires { (rest : List ℕ) × (text.now ≡ from.now ++ rest) }
    ensures { IfOk result (λ changed. (rest : List ℕ) → text.now ≡ from.now ++ rest
        → string_bytes changed ≡ to.now ++ rest) }
{
    match text.strip_prefix(from) {
        Some(rest) => format!(in alloc; "{to}{rest}"),
        None => unreachable!(),
    }
}
