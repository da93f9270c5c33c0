//! Writes one line of a text. What a line is depends on the lines above it.

ghost use Rattle.std.specs.Prelude.{◌≡◌, ◌≢◌, ◌++◌, ℕ, [], true, MatchOption, IfOk, IfErr};
ghost use Rattle.sparse_parser.specs.declared.header.Symmetry.TheVariants.{Hermitian};
ghost use Rattle.sparse_parser.specs.Grammar.{IsOneLine};
ghost use Rattle.sparse_parser.specs.InnerReading.{is_content, words_of};
ghost use Rattle.mtxkit_matrices.specs.declared.decimals.error.ScaleError.TheVariants.{OutOfMemory};
ghost use Rattle.mtxkit_matrices.specs.declared.decimals.stage.Stage.TheVariants.{Head, Sizes};
ghost use Rattle.mtxkit_matrices.specs.ScaledTexts.{is_decimal};
ghost use Rattle.mtxkit_matrices.specs.InnerRewriting.{IsHead, IsLineWritten};
ghost use Rattle.mtxkit_matrices.specs.InnerScaleFailures.{IsLineFailure, AreContent};
ghost use Rattle.mtxkit_matrices.specs.InnerScaleFailures.{IsHeadFailure};

use crate::decimals::entry::push_entry;
use crate::decimals::error::ScaleError;
use sparse_faults::{LineFault, Location, is_comment};
use sparse_parser::header::{Field, Format, Header, Symmetry};
use sparse_parser::lines::next_word;
use sparse_parser::size::Size;

/// Which lines of a text were read.
#[derive(Clone, Copy)]
pub(crate) enum Stage {
    /// Only blank lines.
    Head,
    /// The header, too.
    Sizes(Header),
    /// The header and the size line, too.
    Entries(Header),
}

/// Appends what is written for a line of a text, without a line end. Returns the stage after the line. `number` is the
/// line's number in the text.
pub(crate) fn push_line(
    written: &mut Vec<u8>,
    scale: u32,
    stage: Stage,
    number: usize,
    line: &[u8],
) -> Result<Stage, ScaleError>
    requires { IsOneLine line.now }
    ensures written { IfOk result
        (λ next. IsLineWritten scale stage line.now next written.old.items written.new.items) }
    ensures refused { IfErr result (IsLineFailure scale stage number (words_of line.now)) }
{
    let Some((word, _)) = next_word(line) else {
        return push_bytes(written, stage, line);
    };
    match stage {
        Stage::Head => push_header(written, number, line),
        _ if is_comment(word) => push_bytes(written, stage, line),
        Stage::Sizes(header) => push_sizes(written, header, number, line),
        Stage::Entries(header) => push_entry(written, scale, header, number, line),
    }
}

/// Appends bytes, and returns the stage `next`.
pub(crate) fn push_bytes(
    written: &mut Vec<u8>,
    next: Stage,
    bytes: &[u8],
) -> Result<Stage, ScaleError>
    ensures next { IfOk result (λ stage. stage ≡ next) }
    ensures appended { IfOk result
        (λ stage. written.new.items ≡ written.old.items ++ bytes.now) }
    ensures refused { IfErr result (λ e. e ≡ OutOfMemory) }
{
    match written.extend_from_slice(bytes) {
        Ok(()) => Ok(next),
        Err(_) => Err(ScaleError::OutOfMemory),
    }
}

// Appends the header with the field `integer`.
fn push_header(written: &mut Vec<u8>, number: usize, line: &[u8]) -> Result<Stage, ScaleError>
    requires { words_of line.now ≢ [] }
    ensures written { IfOk result
        (λ next. (scale : ℕ) → IsLineWritten scale Head line.now next written.old.items
        written.new.items) }
    ensures refused { IfErr result (IsHeadFailure number (words_of line.now)) }
{
    let Some(header) = Header::from_line(line) else {
        return Err(ScaleError::Header(Location::of_line(number, LineFault::Header, line)));
    };
    if !is_decimal(header.field) {
        return Err(ScaleError::Field(number));
    }
    let Some(head) = head(header.format, header.symmetry) else {
        return Err(ScaleError::Header(Location::of_line(number, LineFault::Hermitian, line)));
    };
    push_bytes(written, Stage::Sizes(header), head.as_bytes())
}

// Returns whether the values of a field are decimal numbers.
fn is_decimal(field: Field) -> bool
    ensures { result ≡ is_decimal field }
{
    match field {
        Field::Real | Field::Integer => true,
        Field::Complex | Field::Pattern => false,
    }
}

// Returns the header line with the field `integer`, this format and this symmetry, if there is one.
fn head(format: Format, symmetry: Symmetry) -> Option<&'static str>
    ensures { MatchOption result (symmetry ≡ Hermitian) (λ line. IsHead format symmetry line.now) }
{
    match (format, symmetry) {
        (Format::Coordinate, Symmetry::General) => {
            Some("%%MatrixMarket matrix coordinate integer general")
        }
        (Format::Coordinate, Symmetry::Symmetric) => {
            Some("%%MatrixMarket matrix coordinate integer symmetric")
        }
        (Format::Coordinate, Symmetry::SkewSymmetric) => {
            Some("%%MatrixMarket matrix coordinate integer skew-symmetric")
        }
        (Format::Array, Symmetry::General) => Some("%%MatrixMarket matrix array integer general"),
        (Format::Array, Symmetry::Symmetric) => {
            Some("%%MatrixMarket matrix array integer symmetric")
        }
        (Format::Array, Symmetry::SkewSymmetric) => {
            Some("%%MatrixMarket matrix array integer skew-symmetric")
        }
        (_, Symmetry::Hermitian) => None,
    }
}

// Appends the size line unchanged.
fn push_sizes(
    written: &mut Vec<u8>,
    header: Header,
    number: usize,
    line: &[u8],
) -> Result<Stage, ScaleError>
    requires plain { IsOneLine line.now }
    requires content { AreContent (words_of line.now) }
    ensures written { IfOk result
        (λ next. (scale : ℕ) → IsLineWritten scale (Sizes header) line.now next
        written.old.items written.new.items) }
    ensures refused { IfErr result (λ e. (scale : ℕ)
        → IsLineFailure scale (Sizes header) number (words_of line.now) e) }
{
    match Size::from_line(header, line) {
        Some(Ok(_)) => push_bytes(written, Stage::Entries(header), line),
        Some(Err(cause)) => {
            let fault = LineFault::of_size(cause);
            Err(ScaleError::Sizes(Location::of_line(number, fault, line)))
        }
        None => Err(ScaleError::Sizes(Location::of_line(number, LineFault::Size, line))),
    }
}
