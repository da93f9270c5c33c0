//! Reading a matrix from a text.

ghost use Rattle.std.specs.Prelude.{◌≡◌, ◌⊎◌, IfOk, IfErr, Ok, Err};
ghost use Rattle.sparse_parser.specs.declared.error.MatrixMarketErrorKind.TheVariants.{OutOfMemory};
ghost use Rattle.sparse_parser.specs.Errors.{kind_of, kind_of_cause};
ghost use Rattle.sparse_parser.specs.Meaning.{Means, values_of};
ghost use Rattle.sparse_parser.specs.InnerReading.{Gives, contents_of, grammar_kind_of, count_of};
ghost use Rattle.sparse_parser.specs.InnerReading.{settled_of, body_of, read};

use entries::read_entries;
use sparse_coo_dense::coo::CooMatrix;
use sparse_market_scalar::MatrixMarketScalar;
use sparse_parser::data_lines::data_line;
use sparse_parser::error::{Cause, MatrixMarketError};
use sparse_parser::header::Header;
use sparse_parser::lines::{after_space, next_line, split_line};
use sparse_parser::size::Size;
use std::alloc::Global;

mod entries;
mod entry;
mod kinds;
mod places;
mod pushes;
mod runs;

/// Reads a matrix from a text in Matrix Market format.
///
/// Repeated entries are kept, in the order of the text. If the header names a symmetry, each mirrored entry directly
/// follows its own. Arrays are read column by column, and their zeros are stored.
///
/// A valid text is read in one pass. Memory for the triplets is reserved once: for as many lines as the size line
/// gives, unless the text is too short for half of them, and for twice as many triplets where entries are mirrored.
///
/// # Errors
///
/// Returns the first error in this order:
///
/// 1. `ParsingError` if the text does not match the grammar;
/// 2. `InvalidHeader` if the format, the field and the symmetry of the header exclude each other;
/// 3. `ParsingError` if the size line does not fit the header or a size is 2^64 or more;
/// 4. `NonSquare` if a matrix with a symmetry is not square;
/// 5. `EntryMismatch` if the number of data lines is not the one that the size line gives;
/// 6. for each entry in the order of the text, the first of these:
///    - `ParsingError` if its words do not fit the header, or its row or column is 2^64 or more;
///    - `ZeroError` if its row or column is zero;
///    - `ParsingError` if the field is `integer` and its value is not an integer or does not fit in `i128`;
///    - `TypeMismatch` if `T` does not have its value; no type has real or complex values;
///    - `NotLowerTriangle` if the matrix has a symmetry and the entry lies above the diagonal;
///    - `DiagonalError` if the matrix is skew-symmetric and the entry lies on the diagonal;
///    - `TypeMismatch` if the matrix is skew-symmetric and `T` does not have the negative of its value;
/// 7. `SparseFormatError(IndexOutOfBounds)` if a triplet lies outside the shape.
///
/// Returns `OutOfMemory` only if an allocation fails.
///
/// # Examples
///
/// ```rust
/// fn a_text_is_read(alloc: Global) -> Result<bool, Fail> {
///     let text = "%%MatrixMarket matrix coordinate integer general\n2 3 1\n2 3 -4\n";
///     let matrix = load_coo_from_matrix_market_str::<W64>(alloc, text)?;
///     Ok(matrix.triplet_iter().next() == Some((1, 2, &W64::new(-4))))
/// }
/// ```
///
/// ```rust
/// fn an_entry_is_missing(alloc: Global) -> Result<bool, Fail> {
///     let text = "%%MatrixMarket matrix coordinate integer general\n2 3 1\n";
///     let refused = load_coo_from_matrix_market_str::<W64>(alloc, text).err();
///     let error = refused.ok_or("no error")?;
///     Ok(error.kind() != MatrixMarketErrorKind::OutOfMemory)
/// }
/// ```
pub fn load_coo_from_matrix_market_str<T: MatrixMarketScalar>(
    alloc: Global,
    text: &str,
) -> Result<CooMatrix<T>, MatrixMarketError>
    ensures ok { IfOk result (λ m. Means T.scalar text.now (Ok (values_of T.value m))) }
    ensures refused { IfErr result (λ e. (kind_of e ≡ OutOfMemory)
        ⊎ Means T.scalar text.now (Err (kind_of e))) }
{
    document(alloc, text.as_bytes())
}

// Reads a matrix from the bytes of a text.
fn document<T: MatrixMarketScalar>(
    alloc: Global,
    text: &[u8],
) -> Result<CooMatrix<T>, MatrixMarketError>
    ensures { Gives T.scalar T.value result (read T.scalar text.now) }
{
    let (line, rest) = split_line(after_space(text));
    match Header::from_line(line) {
        None => Err(MatrixMarketError::new(Cause::Grammar)),
        Some(header) => body(alloc, header, rest),
    }
}

// Reads a matrix from the text below the header line.
fn body<T: MatrixMarketScalar>(
    alloc: Global,
    header: Header,
    text: &[u8],
) -> Result<CooMatrix<T>, MatrixMarketError>
    ensures { Gives T.scalar T.value result (body_of T.scalar header (contents_of text.now)) }
{
    let (line, rest) = split_line(next_line(text));
    match Size::from_line(header, line) {
        None => Err(MatrixMarketError::new(Cause::Grammar)),
        Some(Err(cause)) => Err(MatrixMarketError::new(in_grammar(cause, rest))),
        Some(Ok(size)) => read_entries(alloc, header, size, rest),
    }
}

// Returns the cause, or `Grammar` if a line of the text is not a data line.
#[tactic(auto, unfolding(sparse_parser::specs::InnerReading::grammar_kind_of, sparse_parser::specs::InnerReading::count_of))]
fn in_grammar(cause: Cause, text: &[u8]) -> Cause
    ensures { kind_of_cause result ≡ grammar_kind_of (kind_of_cause cause) (contents_of text.now) }
{
    match count_entries(text) {
        None => Cause::Grammar,
        Some(_) => cause,
    }
}

// Returns the error of a text with an entry that has the error `fault`, given the number of data lines read, that of
// the entry included, and the rest of the text. Errors of the grammar and of the number of entries come first.
#[tactic(auto, unfolding(sparse_parser::specs::InnerReading::settled_of, sparse_parser::specs::InnerReading::count_of))]
fn settled(
    fault: MatrixMarketError,
    read: usize,
    count: Option<usize>,
    text: &[u8],
) -> MatrixMarketError
    ensures { kind_of result ≡ settled_of (kind_of fault) read count (contents_of text.now) }
{
    match (count_entries(text), count) {
        (None, _) => MatrixMarketError::new(Cause::Grammar),
        (Some(more), Some(count)) if read <= count && count - read == more => fault,
        (Some(_), _) => MatrixMarketError::new(Cause::EntryCount),
    }
}

/// Returns the number of data lines of the text below a size line, or `None` if one of its lines is not a data line.
///
/// Lines that are blank or comments are skipped.
pub fn count_entries(text: &[u8]) -> Option<usize>
    ensures { result ≡ count_of (contents_of text.now) }
{
    let mut rest = next_line(text);
    let mut count = 0;
    while !rest.is_empty() {
        let (_, after) = data_line(rest)?;
        rest = next_line(after);
        count += 1;
    }
    Some(count)
}
