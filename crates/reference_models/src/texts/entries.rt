//! The meaning of data lines.

ghost use Rattle.std.specs.Prelude.{◌≡◌, ◌<◌, ◌++◌, ◌&&◌, nat_lt, slice_get, IfOk, OnOk, None, map};
ghost use Rattle.std.specs.List.{list_all};
ghost use Rattle.sparse_parser.specs.ArrayPlaces.{places_of, array_places, column, first_row};
ghost use Rattle.sparse_parser.specs.Meaning.{triplets_of_lines, listed_of, inside_of};
ghost use Rattle.sparse_parser.specs.Meaning.{value_triplet};
ghost use Rattle.reference_models.specs.Texts.{seen, listed_as};
ghost use Rattle.reference_models.specs.InnerTexts.{lines_in, both_of};

use crate::texts::entry::{Triplet, triplets};
use crate::texts::lines::Line;
use crate::texts::sizes::Sizes;
use sparse_io::MatrixMarketScalar;
use sparse_parser::error::MatrixMarketErrorKind;
use sparse_parser::header::{Format, Header, Symmetry};
use sparse_pattern::error::SparseFormatErrorKind;
use std::alloc::{AllocError, Global};

/// The shape and the triplets that a text means.
#[derive(Drop)]
pub struct Listed<T> {
    pub nrows: usize,
    pub ncols: usize,
    pub triplets: Vec<(usize, usize, T)>,
}

/// Returns the meaning of data lines after a header and a size line: tests first their number, then the entries in
/// order, then the bounds.
#[tactic(auto, unfolding(sparse_parser::specs::Meaning::listed_of))]
pub(crate) fn counted_entries<T: MatrixMarketScalar>(
    alloc: Global,
    header: Header,
    sizes: Sizes,
    lines: &[Line<'_>],
) -> Result<Result<Listed<T>, MatrixMarketErrorKind>, AllocError>
    ensures { IfOk result (λ r. seen (listed_as T.value) r
        ≡ listed_of T.scalar header sizes (lines_in lines.now)) }
{
    let (nrows, ncols, count) = sizes;
    if count != Some(lines.len()) {
        return Ok(Err(MatrixMarketErrorKind::EntryMismatch));
    }
    match placed_entries(alloc, header, nrows, ncols, lines)? {
        Err(kind) => Ok(Err(kind)),
        Ok(triplets) => Ok(inside(nrows, ncols, triplets)),
    }
}

// The matrix, if all triplets lie within the shape.
fn inside<T: MatrixMarketScalar>(
    nrows: usize,
    ncols: usize,
    triplets: Vec<(usize, usize, T)>,
) -> Result<Listed<T>, MatrixMarketErrorKind>
    ensures { seen (listed_as T.value) result
        ≡ inside_of T.scalar (nrows, ncols, None) (map (value_triplet T.value) triplets.items) }
{
    if !all_inside(nrows, ncols, &triplets) {
        return Err(MatrixMarketErrorKind::SparseFormatError(
            SparseFormatErrorKind::IndexOutOfBounds,
        ));
    }
    Ok(Listed {
        nrows,
        ncols,
        triplets,
    })
}

fn all_inside<T: Copy>(nrows: usize, ncols: usize, triplets: &[(usize, usize, T)]) -> bool
    ensures { result
        ≡ list_all (λ t. nat_lt t.0 nrows && nat_lt t.1 ncols) triplets.now }
{
    triplets
        .iter()
        .all(|triplet| triplet.0 < nrows && triplet.1 < ncols)
}

// The triplets of data lines. Pairs are listed only if there is a line, since an array without rows may have any number
// of columns.
fn placed_entries<T: MatrixMarketScalar>(
    alloc: Global,
    header: Header,
    nrows: usize,
    ncols: usize,
    lines: &[Line<'_>],
) -> Result<Result<Vec<(usize, usize, T)>, MatrixMarketErrorKind>, AllocError>
    ensures { IfOk result (λ r. seen (λ v. map (value_triplet T.value) v.items) r
        ≡ triplets_of_lines T.scalar header (places_of header.format header.symmetry nrows ncols)
        (lines_in lines.now)) }
{
    if lines.is_empty() {
        return Ok(Ok(Vec::new(alloc)));
    }
    let places = places(alloc, header, nrows, ncols)?;
    read_entries(alloc, header, &places, lines)
}

// All pairs (row, column) that an array lists, column by column; none in the coordinate format.
fn places(
    alloc: Global,
    header: Header,
    nrows: usize,
    ncols: usize,
) -> Result<Vec<(usize, usize)>, AllocError>
    ensures { IfOk result (λ v. v.items
        ≡ places_of header.format header.symmetry nrows ncols) }
{
    match header.format {
        Format::Coordinate => Ok(Vec::new(alloc)),
        Format::Array => array_places(alloc, header.symmetry, nrows, ncols),
    }
}

fn array_places(
    alloc: Global,
    symmetry: Symmetry,
    nrows: usize,
    ncols: usize,
) -> Result<Vec<(usize, usize)>, AllocError>
    ensures { IfOk result (λ v. v.items ≡ array_places symmetry nrows ncols) }
{
    let mut places = Vec::new(alloc);
    for col in 0..ncols {
        push_column(&mut places, symmetry, nrows, col)?;
    }
    Ok(places)
}

fn push_column(
    places: &mut Vec<(usize, usize)>,
    symmetry: Symmetry,
    nrows: usize,
    col: usize,
) -> Result<(), AllocError>
    requires { col < usize.MAX }
    ensures { OnOk result
        (places.new.items ≡ places.old.items ++ column symmetry nrows col) }
{
    let first = first_row(symmetry, col);
    for number in 0..nrows.saturating_sub(first) {
        places.push((first + number, col))?;
    }
    Ok(())
}

fn first_row(symmetry: Symmetry, col: usize) -> usize
    requires { col < usize.MAX }
    ensures { result ≡ first_row symmetry col }
{
    match symmetry {
        Symmetry::General => 0,
        Symmetry::Symmetric | Symmetry::Hermitian => col,
        Symmetry::SkewSymmetric => col + 1,
    }
}

// The triplets of data lines, in order. Those of an array have these rows and columns.
fn read_entries<T: MatrixMarketScalar>(
    alloc: Global,
    header: Header,
    places: &[(usize, usize)],
    lines: &[Line<'_>],
) -> Result<Result<Vec<(usize, usize, T)>, MatrixMarketErrorKind>, AllocError>
    ensures { IfOk result (λ r. seen (λ v. map (value_triplet T.value) v.items) r
        ≡ triplets_of_lines T.scalar header places.now (lines_in lines.now)) }
{
    let mut list = Vec::new(alloc);
    for (at, line) in lines.iter().enumerate() {
        match triplets(header, place_at(places, at), &line.words) {
            Err(kind) => return Ok(Err(kind)),
            Ok(entry) => push_both(&mut list, entry)?,
        }
    }
    Ok(Ok(list))
}

// The pair of this number, if there is one.
fn place_at(places: &[(usize, usize)], at: usize) -> Option<(usize, usize)>
    ensures { result ≡ slice_get places.now at }
{
    places.get(at).copied()
}

// Appends an entry and the one that it implies.
fn push_both<T: Copy>(
    list: &mut Vec<(usize, usize, T)>,
    entry: (Triplet<T>, Option<Triplet<T>>),
) -> Result<(), AllocError>
    ensures { OnOk result (list.new.items ≡ list.old.items ++ both_of entry) }
{
    let (first, second) = entry;
    list.push(first)?;
    match second {
        None => Ok(()),
        Some(second) => {
            list.push(second)?;
            Ok(())
        }
    }
}
