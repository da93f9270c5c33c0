//! The headers of texts.

ghost use Rattle.std.specs.Prelude.{◌≡◌};
ghost use Rattle.mtxkit_matrices.specs.HeaderWords.{field_name, format_name, symmetry_name};
ghost use Rattle.mtxkit_texts.specs.Headers.{header_in, is_pattern};
ghost use Rattle.mtxkit_texts.specs.Headers.{is_pattern_field, is_supported, is_supported_field};

use sparse_parser::header::{Field, Format, Header, Symmetry};
use sparse_parser::lines::{after_space, split_line};

/// Returns the header of a text, if it has one.
pub fn header_of(text: &str) -> Option<Header>
    ensures { result ≡ header_in text.now }
{
    let (line, _) = split_line(after_space(text.as_bytes()));
    Header::from_line(line)
}

/// Returns whether the header of a text names the field `pattern`.
pub fn names_pattern(text: &str) -> bool
    ensures { result ≡ is_pattern (header_in text.now) }
{
    match header_of(text) {
        Some(header) => is_pattern_field(header.field),
        None => false,
    }
}

/// Returns the word of a header for a format.
pub fn format_name(format: Format) -> &'static str
    ensures { result.now ≡ format_name format }
{
    match format {
        Format::Coordinate => "coordinate",
        Format::Array => "array",
    }
}

/// Returns the word of a header for a field.
pub fn field_name(field: Field) -> &'static str
    ensures { result.now ≡ field_name field }
{
    match field {
        Field::Real => "real",
        Field::Complex => "complex",
        Field::Integer => "integer",
        Field::Pattern => "pattern",
    }
}

/// Returns the word of a header for a symmetry.
pub fn symmetry_name(symmetry: Symmetry) -> &'static str
    ensures { result.now ≡ symmetry_name symmetry }
{
    match symmetry {
        Symmetry::General => "general",
        Symmetry::Symmetric => "symmetric",
        Symmetry::SkewSymmetric => "skew-symmetric",
        Symmetry::Hermitian => "hermitian",
    }
}

// Returns whether the field is `pattern`.
fn is_pattern_field(field: Field) -> bool
    ensures { result ≡ is_pattern_field field }
{
    match field {
        Field::Pattern => true,
        Field::Integer | Field::Real | Field::Complex => false,
    }
}

/// Returns whether the header of a text, if there is one, names integers or a pattern.
pub(crate) fn is_supported(text: &str) -> bool
    ensures { result ≡ is_supported (header_in text.now) }
{
    match header_of(text) {
        Some(header) => is_supported_field(header.field),
        None => true,
    }
}

// Returns whether a field is `integer` or `pattern`.
fn is_supported_field(field: Field) -> bool
    ensures { result ≡ is_supported_field field }
{
    match field {
        Field::Integer | Field::Pattern => true,
        Field::Real | Field::Complex => false,
    }
}
