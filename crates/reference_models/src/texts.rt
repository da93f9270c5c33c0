//! The meaning of a Matrix Market text, by whole lines.

ghost use Rattle.std.specs.Prelude.{◌≡◌, true, IfOk};
ghost use Rattle.sparse_parser.specs.Grammar.{is_size};
ghost use Rattle.sparse_parser.specs.Meaning.{Means, matrix_of};
ghost use Rattle.sparse_parser.specs.InnerReading.{body_of, document_of};
ghost use Rattle.reference_models.specs.Texts.{seen, listed_as};
ghost use Rattle.reference_models.specs.InnerTexts.{words_in, lines_in};

use crate::texts::entries::{Listed, counted_entries};
use crate::texts::grammar::{all_entries, is_size};
use crate::texts::header::read_header;
use crate::texts::lines::{Line, first_line, without_comments, written_lines};
use crate::texts::sizes::read_sizes;
use sparse_io::MatrixMarketScalar;
use sparse_parser::error::MatrixMarketErrorKind;
use sparse_parser::header::Header;
use std::alloc::{AllocError, Global};

pub mod entries;
mod entry;
mod grammar;
mod header;
mod lines;
mod numbers;
mod sizes;

/// Returns the shape and triplets that a text means to a scalar type, or the kind of the first refusal.
///
/// Splits the text into lines and these into words, and keeps them all. Tests the whole grammar first, then the header,
/// the size line, the number of entries, the entries one after another, and the bounds. Fails only if an allocation
/// fails.
pub fn meaning<T: MatrixMarketScalar>(
    alloc: Global,
    text: &str,
) -> Result<Result<Listed<T>, MatrixMarketErrorKind>, AllocError>
    ensures { IfOk result (λ r. Means T.scalar text.now (seen (listed_as T.value) r)) }
{
    let lines = written_lines(alloc, text.as_bytes())?;
    document(alloc, &lines)
}

// The meaning of lines, none of which is blank.
#[tactic(auto, unfolding(sparse_parser::specs::InnerReading::document_of))]
fn document<T: MatrixMarketScalar>(
    alloc: Global,
    lines: &[Line<'_>],
) -> Result<Result<Listed<T>, MatrixMarketErrorKind>, AllocError>
    ensures { IfOk result (λ r. seen (listed_as T.value) r
        ≡ document_of T.scalar (lines_in lines.now)) }
{
    let Some((first, others)) = first_line(lines) else {
        return Ok(Err(MatrixMarketErrorKind::ParsingError));
    };
    let Some(header) = read_header(&first.words) else {
        return Ok(Err(MatrixMarketErrorKind::ParsingError));
    };
    let contents = without_comments(alloc, others)?;
    body(alloc, header, &contents)
}

// The meaning of the lines after a header.
#[tactic(auto, unfolding(sparse_parser::specs::InnerReading::body_of, sparse_parser::specs::InnerReading::among_entries))]
fn body<T: MatrixMarketScalar>(
    alloc: Global,
    header: Header,
    contents: &[Line<'_>],
) -> Result<Result<Listed<T>, MatrixMarketErrorKind>, AllocError>
    ensures { IfOk result (λ r. seen (listed_as T.value) r
        ≡ body_of T.scalar header (lines_in contents.now)) }
{
    let Some((size, entries)) = first_line(contents) else {
        return Ok(Err(MatrixMarketErrorKind::ParsingError));
    };
    if !is_size(&size.words) || !all_entries(entries) {
        return Ok(Err(MatrixMarketErrorKind::ParsingError));
    }
    matrix(alloc, header, size, entries)
}

// The meaning of a size line and data lines.
#[tactic(auto, unfolding(sparse_parser::specs::Meaning::matrix_of))]
fn matrix<T: MatrixMarketScalar>(
    alloc: Global,
    header: Header,
    size: &Line<'_>,
    entries: &[Line<'_>],
) -> Result<Result<Listed<T>, MatrixMarketErrorKind>, AllocError>
    requires { is_size (words_in size.now) ≡ true }
    ensures { IfOk result (λ r. seen (listed_as T.value) r
        ≡ matrix_of T.scalar header (words_in size.now) (lines_in entries.now)) }
{
    match read_sizes(header, &size.words) {
        Err(kind) => Ok(Err(kind)),
        Ok(sizes) => counted_entries(alloc, header, sizes, entries),
    }
}
