//! Pushing triplets while all of them lie within the shape.

ghost use Rattle.std.specs.Prelude.{◌≡◌, ◌<◌, ◌&&◌, IsTrue, IfOk, OnOk, map};
ghost use Rattle.std.specs.List.{list_all};
ghost use Rattle.sparse_coo_dense.specs.Coo.{appended};
ghost use Rattle.sparse_parser.specs.Meaning.{is_inside, values_of, value_triplet};
ghost use Rattle.sparse_io.specs.InnerEntries.{both_of};

use crate::reader::entry::Triplets;
use sparse_coo_dense::CooAppender;
use sparse_coo_dense::coo::CooMatrix;
use sparse_market_scalar::MatrixMarketScalar;
use std::alloc::AllocError;

/// Whether the triplets read so far lie within the shape, and whether their rows do.
#[derive(Clone, Copy)]
pub struct Bounds {
    pub inside: bool,
    pub rows: bool,
}

/// Returns whether an entry and the mirrored one lie within a shape.
#[inline(always)]
pub fn are_inside<T: MatrixMarketScalar>(nrows: usize, ncols: usize, found: Triplets<T>) -> bool
    ensures { result ≡ list_all (is_inside T.scalar nrows ncols)
        (map (λ t. value_triplet T.value t) (both_of found)) }
{
    let ((row, col, _), mirrored) = found;
    match mirrored {
        None => (row < nrows) & (col < ncols),
        Some(_) => row.max(col) < nrows.min(ncols),
    }
}

/// Appends an entry and the mirrored one, which lie within the shape, to a matrix with room for both.
#[inline(always)]
pub fn append_all<T: MatrixMarketScalar>(list: &mut CooAppender<T>, found: Triplets<T>)
    requires inside { IsTrue (list_all
        (is_inside T.scalar list.old.matrix.nrows list.old.matrix.ncols)
        (map (λ t. value_triplet T.value t) (both_of found))) }
    requires room { 1 < list.old.room }
    ensures added { values_of T.value list.new.matrix
        ≡ appended (values_of T.value list.old.matrix)
        (map (λ t. value_triplet T.value t) (both_of found)) }
    ensures rows { list.new.matrix.nrows ≡ list.old.matrix.nrows }
    ensures cols { list.new.matrix.ncols ≡ list.old.matrix.ncols }
{
    let ((row, col, value), mirrored) = found;
    list.push(row, col, value);
    if let Some(other) = mirrored {
        list.push(col, row, other);
    }
}

/// Pushes an entry and the mirrored one, which lie within the shape.
#[inline(always)]
pub fn push_all<T: MatrixMarketScalar>(
    matrix: &mut CooMatrix<T>,
    found: Triplets<T>,
) -> Result<(), AllocError>
    requires { IsTrue (list_all (is_inside T.scalar matrix.old.nrows matrix.old.ncols)
        (map (λ t. value_triplet T.value t) (both_of found))) }
    ensures added { OnOk result (values_of T.value matrix.new
        ≡ appended (values_of T.value matrix.old)
        (map (λ t. value_triplet T.value t) (both_of found))) }
    ensures rows { matrix.new.nrows ≡ matrix.old.nrows }
    ensures cols { matrix.new.ncols ≡ matrix.old.ncols }
{
    let ((row, col, value), mirrored) = found;
    matrix.push(row, col, value)?;
    match mirrored {
        None => Ok(()),
        Some(value) => matrix.push(col, row, value),
    }
}

/// Pushes an entry and the mirrored one, unless one of them or an earlier triplet lies outside the shape.
#[inline(never)]
pub fn add_all<T: MatrixMarketScalar>(
    matrix: &mut CooMatrix<T>,
    bounds: Bounds,
    found: Triplets<T>,
) -> Result<Bounds, AllocError>
    ensures inside { IfOk result (λ b. b.inside ≡ (bounds.inside
        && list_all (is_inside T.scalar matrix.old.nrows matrix.old.ncols)
        (map (λ t. value_triplet T.value t) (both_of found)))) }
    ensures added { IfOk result (λ b. IsTrue b.inside
        → values_of T.value matrix.new
        ≡ appended (values_of T.value matrix.old)
        (map (λ t. value_triplet T.value t) (both_of found))) }
    ensures rows { matrix.new.nrows ≡ matrix.old.nrows }
    ensures cols { matrix.new.ncols ≡ matrix.old.ncols }
{
    if bounds.inside && are_inside(matrix.nrows(), matrix.ncols(), found) {
        push_all(matrix, found)?;
        return Ok(bounds);
    }
    let ((row, col, _), mirrored) = found;
    let in_rows = row < matrix.nrows() && (mirrored.is_none() || col < matrix.nrows());
    Ok(Bounds {
        inside: false,
        rows: bounds.rows && in_rows,
    })
}
