//! Parsing the header line.

ghost use Rattle.std.specs.Prelude.{◌≡◌, true, false, [], ◌∷◌, MatchOption};
ghost use Rattle.sparse_parser.specs.declared.error.MatrixMarketErrorKind.TheVariants.{InvalidHeader};
ghost use Rattle.sparse_parser.specs.declared.header.Format.TheVariants.{Coordinate, Array};
ghost use Rattle.sparse_parser.specs.Errors.{kind_of_cause};
ghost use Rattle.sparse_parser.specs.InnerReading.{words_of};
ghost use Rattle.sparse_parser.specs.Header.{says, format_of, field_of, symmetry_of, fields_of};
ghost use Rattle.sparse_parser.specs.Header.{header_of, is_allowed};

use crate::error::Cause;
use crate::lines::next_word;

/// How the entries are listed.
#[derive(Clone, Copy)]
pub enum Format {
    /// Each data line gives a row, a column and a value.
    Coordinate,
    /// Each data line gives a value; rows and columns follow from the order, column by column.
    Array,
}

/// The type of the values.
#[derive(Clone, Copy)]
pub enum Field {
    Real,
    Complex,
    Integer,
    Pattern,
}

/// Which entries imply a mirrored one.
#[derive(Clone, Copy)]
pub enum Symmetry {
    General,
    Symmetric,
    SkewSymmetric,
    Hermitian,
}

/// The contents of the header line.
#[derive(Clone, Copy)]
pub struct Header {
    pub format: Format,
    pub field: Field,
    pub symmetry: Symmetry,
}

// Whether a word is the given name, in any ASCII case.
#[tactic(auto, unfolding(crate::specs::Header::says))]
fn says(word: &[u8], name: &str) -> bool
    ensures { result ≡ says word.now name.now }
{
    word.eq_ignore_ascii_case(name.as_bytes())
}

impl Format {
    #[tactic(auto, unfolding(crate::specs::Header::format_of))]
    fn from_word(word: &[u8]) -> Option<Format>
        ensures { result ≡ format_of word.now }
    {
        if says(word, "coordinate") {
            Some(Format::Coordinate)
        } else if says(word, "array") {
            Some(Format::Array)
        } else {
            None
        }
    }
}

impl Field {
    #[tactic(auto, unfolding(crate::specs::Header::field_of))]
    fn from_word(word: &[u8]) -> Option<Field>
        ensures { result ≡ field_of word.now }
    {
        if says(word, "real") {
            Some(Field::Real)
        } else if says(word, "complex") {
            Some(Field::Complex)
        } else if says(word, "integer") {
            Some(Field::Integer)
        } else if says(word, "pattern") {
            Some(Field::Pattern)
        } else {
            None
        }
    }
}

impl Symmetry {
    #[tactic(auto, unfolding(crate::specs::Header::symmetry_of))]
    fn from_word(word: &[u8]) -> Option<Symmetry>
        ensures { result ≡ symmetry_of word.now }
    {
        if says(word, "general") {
            Some(Symmetry::General)
        } else if says(word, "symmetric") {
            Some(Symmetry::Symmetric)
        } else if says(word, "skew-symmetric") {
            Some(Symmetry::SkewSymmetric)
        } else if says(word, "hermitian") {
            Some(Symmetry::Hermitian)
        } else {
            None
        }
    }
}

impl Header {
    /// Parses a header line. Returns `None` if the line is not a header.
    #[tactic(auto, unfolding(crate::specs::Header::header_of))]
    pub fn from_line(line: &[u8]) -> Option<Header>
        ensures { result ≡ header_of (words_of line.now) }
    {
        let (banner, rest) = next_word(line)?;
        let (object, fields) = next_word(rest)?;
        if says(banner, "%%MatrixMarket") && says(object, "matrix") {
            Header::from_fields(fields)
        } else {
            None
        }
    }

    #[tactic(auto, unfolding(crate::specs::Header::fields_of))]
    fn from_fields(fields: &[u8]) -> Option<Header>
        ensures { result ≡ fields_of (words_of fields.now) }
    {
        let (format, rest) = next_word(fields)?;
        let (field, rest) = next_word(rest)?;
        let (symmetry, rest) = next_word(rest)?;
        if next_word(rest).is_some() {
            return None;
        }
        Header::from_words(format, field, symmetry)
    }

    #[tactic(auto, unfolding(crate::specs::Header::fields_of))]
    fn from_words(format: &[u8], field: &[u8], symmetry: &[u8]) -> Option<Header>
        ensures { result ≡ fields_of (format.now ∷ field.now ∷ symmetry.now ∷ []) }
    {
        let format = Format::from_word(format)?;
        let field = Field::from_word(field)?;
        let symmetry = Symmetry::from_word(symmetry)?;
        Some(Header {
            format,
            field,
            symmetry,
        })
    }

    /// Returns why the header is invalid, if it is: only complex matrices are hermitian, and pattern matrices are
    /// neither skew-symmetric nor arrays.
    pub fn fault(self) -> Option<Cause>
        ensures { MatchOption result
            (is_allowed self ≡ true)
            (λ cause. (is_allowed self ≡ false) × (kind_of_cause cause ≡ InvalidHeader)) }
    {
        match (self.field, self.symmetry) {
            (Field::Complex, _) => None,
            (Field::Real, Symmetry::Hermitian) => Some(Cause::RealHermitian),
            (Field::Integer, Symmetry::Hermitian) => Some(Cause::IntegerHermitian),
            (Field::Pattern, Symmetry::Hermitian) => Some(Cause::PatternHermitian),
            (Field::Pattern, Symmetry::SkewSymmetric) => Some(Cause::PatternSkewSymmetric),
            (Field::Pattern, _) => self.array_fault(),
            (Field::Real | Field::Integer, _) => None,
        }
    }

    fn array_fault(self) -> Option<Cause>
        ensures { MatchOption result
            (self.format ≡ Coordinate)
            (λ cause. (self.format ≡ Array) × (kind_of_cause cause ≡ InvalidHeader)) }
    {
        match self.format {
            Format::Coordinate => None,
            Format::Array => Some(Cause::PatternArray),
        }
    }
}
