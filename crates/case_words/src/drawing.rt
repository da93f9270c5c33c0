//! Pictures of matrices, drawn.

use crate::scalar::Scalar;
use nalgebra_sparse::dense::DMatrix;
use nalgebra_sparse::pattern::SparsityPattern;
use nalgebra_sparse::views::{CscView, CsrView};
use nalgebra_sparse::{CooMatrix, CscMatrix, CsrMatrix, SparseEntry};
use std::alloc::{AllocError, Global};

/// A matrix that a picture shows.
pub trait Drawn {
    /// Returns the numbers of rows and columns.
    fn size(&self) -> (usize, usize);

    /// Appends the cell at a row and a column.
    fn draw_cell(&self, row: usize, col: usize, out: &mut String) -> Result<(), AllocError>;
}

// The most cells of a picture.
const MOST_CELLS: usize = 256;

/// Returns whether a matrix has more cells than a picture.
pub fn is_large((nrows, ncols): (usize, usize)) -> bool {
    match nrows.checked_mul(ncols) {
        Some(cells) => MOST_CELLS < cells,
        None => true,
    }
}

/// Returns the picture of a matrix, in brackets. That of a matrix without rows or columns is its size.
pub fn picture<D: Drawn>(alloc: Global, matrix: &D) -> Result<String, AllocError> {
    let (nrows, ncols) = matrix.size();
    if nrows == 0 || ncols == 0 {
        return format!(in alloc; "[{nrows}x{ncols}]");
    }
    let mut out = String::from_str(alloc, "[")?;
    for row in 0..nrows {
        if 0 < row {
            out.push_str(" / ")?;
        }
        draw_row(matrix, row, ncols, &mut out)?;
    }
    out.push_str("]")?;
    Ok(out)
}

fn draw_row<D: Drawn>(
    matrix: &D,
    row: usize,
    ncols: usize,
    out: &mut String,
) -> Result<(), AllocError> {
    for col in 0..ncols {
        if 0 < col {
            out.push_str(" ")?;
        }
        matrix.draw_cell(row, col, out)?;
    }
    Ok(())
}

impl<T: Scalar> Drawn for CsrMatrix<T> {
    fn size(&self) -> (usize, usize) {
        (self.nrows(), self.ncols())
    }

    fn draw_cell(&self, row: usize, col: usize, out: &mut String) -> Result<(), AllocError> {
        draw_entry(self.get_entry(row, col), out)
    }
}

impl<T: Scalar> Drawn for CscMatrix<T> {
    fn size(&self) -> (usize, usize) {
        (self.nrows(), self.ncols())
    }

    fn draw_cell(&self, row: usize, col: usize, out: &mut String) -> Result<(), AllocError> {
        draw_entry(self.get_entry(row, col), out)
    }
}

impl<'a, T: Scalar> Drawn for CsrView<'a, T> {
    fn size(&self) -> (usize, usize) {
        (self.nrows(), self.ncols())
    }

    fn draw_cell(&self, row: usize, col: usize, out: &mut String) -> Result<(), AllocError> {
        draw_entry(self.get_entry(row, col), out)
    }
}

impl<'a, T: Scalar> Drawn for CscView<'a, T> {
    fn size(&self) -> (usize, usize) {
        (self.nrows(), self.ncols())
    }

    fn draw_cell(&self, row: usize, col: usize, out: &mut String) -> Result<(), AllocError> {
        draw_entry(self.get_entry(row, col), out)
    }
}

/// Appends the number of an entry: `.` if it is not stored, and `none` if it is out of bounds.
pub fn draw_entry<T: Scalar>(
    entry: Option<SparseEntry<'_, T>>,
    out: &mut String,
) -> Result<(), AllocError> {
    match entry {
        Some(SparseEntry::NonZero(value)) => draw_number(*value, out),
        Some(SparseEntry::Zero) => out.push_str("."),
        None => out.push_str("none"),
    }
}

impl<T: Scalar> Drawn for DMatrix<T> {
    fn size(&self) -> (usize, usize) {
        (self.nrows(), self.ncols())
    }

    fn draw_cell(&self, row: usize, col: usize, out: &mut String) -> Result<(), AllocError> {
        if row < self.nrows() && col < self.ncols() {
            return draw_number(self.get(row, col), out);
        }
        out.push_str("none")
    }
}

/// A pattern whose lanes are rows.
#[derive(Drop)]
pub struct PatternByRows(pub SparsityPattern);

impl Drawn for PatternByRows {
    fn size(&self) -> (usize, usize) {
        (self.0.major_dim(), self.0.minor_dim())
    }

    fn draw_cell(&self, row: usize, col: usize, out: &mut String) -> Result<(), AllocError> {
        draw_place(&self.0, row, col, out)
    }
}

/// A pattern whose lanes are columns.
#[derive(Drop)]
pub struct PatternByColumns(pub SparsityPattern);

impl Drawn for PatternByColumns {
    fn size(&self) -> (usize, usize) {
        (self.0.minor_dim(), self.0.major_dim())
    }

    fn draw_cell(&self, row: usize, col: usize, out: &mut String) -> Result<(), AllocError> {
        draw_place(&self.0, col, row, out)
    }
}

// Appends `x` if a lane has an index, else `.`.
fn draw_place(
    pattern: &SparsityPattern,
    lane: usize,
    index: usize,
    out: &mut String,
) -> Result<(), AllocError> {
    match pattern.get_lane(lane) {
        Some(indices) if indices.contains(&index) => out.push_str("x"),
        _ => out.push_str("."),
    }
}

/// Returns the triplets of a list in its order, in brackets after its size.
pub fn triplets<T: Scalar>(alloc: Global, list: &CooMatrix<T>) -> Result<String, AllocError> {
    let mut out = format!(in alloc; "[{}x{}", list.nrows(), list.ncols())?;
    for (row, col, value) in list.triplet_iter() {
        draw_triplet(row, col, *value, &mut out)?;
    }
    out.push_str("]")?;
    Ok(out)
}

/// Appends a triplet, after a space.
pub fn draw_triplet<T: Scalar>(
    row: usize,
    col: usize,
    value: T,
    out: &mut String,
) -> Result<(), AllocError> {
    let number = value.number();
    write!(out, " ({row},{col})={number}")
}

/// Appends the number of a scalar.
pub fn draw_number<T: Scalar>(value: T, out: &mut String) -> Result<(), AllocError> {
    let number = value.number();
    write!(out, "{number}")
}

/// Appends the numbers of scalars, each after a space.
pub fn draw_values<T: Scalar>(values: &[T], out: &mut String) -> Result<(), AllocError> {
    for value in values {
        out.push_str(" ")?;
        draw_number(*value, out)?;
    }
    Ok(())
}

/// Appends indices, each after a space.
pub fn draw_indices(indices: &[usize], out: &mut String) -> Result<(), AllocError> {
    for index in indices {
        write!(out, " {index}")?;
    }
    Ok(())
}

/// Returns a text without the space before it, or `none` for an empty text.
pub fn or_none(alloc: Global, text: &str) -> Result<String, AllocError> {
    match text.trim() {
        "" => String::from_str(alloc, "none"),
        text => String::from_str(alloc, text),
    }
}
