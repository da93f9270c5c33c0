//! The header line.
//!
//! It repeats `header.rt` of `sparse_parser` on purpose: tests compare the parser with this reference model, which
//! shares types with the parser and no code.

ghost use Rattle.std.specs.Prelude.{◌≡◌, [], ◌∷◌};
ghost use Rattle.sparse_parser.specs.Header.{says, format_of, field_of, symmetry_of, fields_of};
ghost use Rattle.sparse_parser.specs.Header.{header_of, is_allowed};
ghost use Rattle.reference_models.specs.InnerTexts.{texts};

use crate::texts::lines::first_word;
use sparse_parser::header::{Field, Format, Header, Symmetry};

/// Returns what the words of a header line say.
#[tactic(auto, unfolding(sparse_parser::specs::Header::header_of))]
pub fn read_header(words: &[&[u8]]) -> Option<Header>
    ensures { result ≡ header_of (texts words.now) }
{
    let (banner, others) = first_word(words)?;
    let (object, fields) = first_word(others)?;
    if says(banner, "%%MatrixMarket") && says(object, "matrix") {
        header_fields(fields)
    } else {
        None
    }
}

// A format, a field and a symmetry, and no more.
#[tactic(auto, unfolding(sparse_parser::specs::Header::fields_of))]
fn header_fields(fields: &[&[u8]]) -> Option<Header>
    ensures { result ≡ fields_of (texts fields.now) }
{
    let (format, others) = first_word(fields)?;
    let (field, others) = first_word(others)?;
    let (symmetry, others) = first_word(others)?;
    match first_word(others) {
        Some(_) => None,
        None => header_from(format, field, symmetry),
    }
}

#[tactic(auto, unfolding(sparse_parser::specs::Header::fields_of))]
fn header_from(format: &[u8], field: &[u8], symmetry: &[u8]) -> Option<Header>
    ensures { result ≡ fields_of (format.now ∷ field.now ∷ symmetry.now ∷ []) }
{
    let format = format_of(format)?;
    let field = field_of(field)?;
    let symmetry = symmetry_of(symmetry)?;
    Some(Header {
        format,
        field,
        symmetry,
    })
}

#[tactic(auto, unfolding(sparse_parser::specs::Header::says))]
fn says(word: &[u8], name: &str) -> bool
    ensures { result ≡ says word.now name.now }
{
    word.eq_ignore_ascii_case(name.as_bytes())
}

#[tactic(auto, unfolding(sparse_parser::specs::Header::format_of))]
fn format_of(word: &[u8]) -> Option<Format>
    ensures { result ≡ format_of word.now }
{
    if says(word, "coordinate") {
        Some(Format::Coordinate)
    } else if says(word, "array") {
        Some(Format::Array)
    } else {
        None
    }
}

#[tactic(auto, unfolding(sparse_parser::specs::Header::field_of))]
fn field_of(word: &[u8]) -> Option<Field>
    ensures { result ≡ field_of word.now }
{
    if says(word, "real") {
        Some(Field::Real)
    } else if says(word, "complex") {
        Some(Field::Complex)
    } else if says(word, "integer") {
        Some(Field::Integer)
    } else if says(word, "pattern") {
        Some(Field::Pattern)
    } else {
        None
    }
}

#[tactic(auto, unfolding(sparse_parser::specs::Header::symmetry_of))]
fn symmetry_of(word: &[u8]) -> Option<Symmetry>
    ensures { result ≡ symmetry_of word.now }
{
    if says(word, "general") {
        Some(Symmetry::General)
    } else if says(word, "symmetric") {
        Some(Symmetry::Symmetric)
    } else if says(word, "skew-symmetric") {
        Some(Symmetry::SkewSymmetric)
    } else if says(word, "hermitian") {
        Some(Symmetry::Hermitian)
    } else {
        None
    }
}

/// Whether a matrix may have this header.
pub fn is_allowed(header: Header) -> bool
    ensures { result ≡ is_allowed header }
{
    match (header.format, header.field, header.symmetry) {
        (_, Field::Complex, Symmetry::Hermitian) => true,
        (_, _, Symmetry::Hermitian) => false,
        (_, Field::Pattern, Symmetry::SkewSymmetric) => false,
        (Format::Array, Field::Pattern, _) => false,
        _ => true,
    }
}
