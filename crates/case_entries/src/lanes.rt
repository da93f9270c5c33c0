//! Rows and columns of compressed matrices.

use case_matrices::compressed::{Compressed, matrix_of};
use case_matrices::conversions::truth;
use case_words::drawing::{draw_number, or_none};
use case_words::failure::Failure;
use case_words::scalar::Scalar;
use case_words::templates::Operands;
use case_words::turn::Turn;
use case_words::words::index_from;
use nalgebra_sparse::csc::{CscCol, CscColMut};
use nalgebra_sparse::csr::{CsrRow, CsrRowMut};
use nalgebra_sparse::{CscMatrix, CsrMatrix};
use std::alloc::{AllocError, Global};

/// Rows, or columns.
#[derive(Clone, Copy)]
pub enum LaneKind {
    Row,
    Column,
}

/// A call on lanes.
#[derive(Clone, Copy)]
pub enum LaneCall {
    All,
    One,
    Equal,
}

pub const LANES: &[(&str, (LaneKind, LaneCall))] = &[
    ("rows A", (LaneKind::Row, LaneCall::All)),
    ("columns A", (LaneKind::Column, LaneCall::All)),
    ("row k A", (LaneKind::Row, LaneCall::One)),
    ("column k A", (LaneKind::Column, LaneCall::One)),
    ("row k == l A", (LaneKind::Row, LaneCall::Equal)),
    ("column k == l A", (LaneKind::Column, LaneCall::Equal)),
];

/// A way to a row or a column.
#[derive(Clone, Copy)]
pub enum LaneWay {
    /// By `get_row` or `get_col`.
    Get,
    /// By `row` or `col`.
    Index,
    /// By `get_row_mut` or `get_col_mut`.
    GetMut,
    /// By `row_mut` or `col_mut`.
    IndexMut,
}

const WAYS: &[LaneWay] = &[LaneWay::Index, LaneWay::GetMut, LaneWay::IndexMut];

/// The lanes of a format: rows, or columns.
pub trait Lanes<T: Scalar> {
    /// Returns whether these are the lanes of the format.
    fn has(kind: LaneKind) -> bool;

    /// Appends the picture of a lane, or `none` out of bounds.
    fn draw_lane(&mut self, way: LaneWay, index: usize, out: &mut String) -> Result<(), AllocError>;

    /// Appends the pictures of all lanes.
    fn draw_lanes(&self, out: &mut String) -> Result<(), AllocError>;

    /// Appends the pictures of all lanes for writing.
    fn draw_lanes_mut(&mut self, out: &mut String) -> Result<(), AllocError>;

    /// Returns whether a lane and a copy of it are equal to another lane, or `None` if one is out of bounds.
    fn are_equal(&self, left: usize, right: usize) -> Result<Option<bool>, AllocError>;
}

/// Rows.
impl<T: Scalar> Lanes<T> for CsrMatrix<T> {
    fn has(kind: LaneKind) -> bool {
        matches!(kind, LaneKind::Row)
    }

    fn draw_lane(
        &mut self,
        way: LaneWay,
        index: usize,
        out: &mut String,
    ) -> Result<(), AllocError> {
        match way {
            LaneWay::Index if index < self.nrows() => draw_row(Some(self.row(index)), out),
            LaneWay::IndexMut if index < self.nrows() => {
                draw_row_mut(Some(self.row_mut(index)), out)
            }
            LaneWay::GetMut => draw_row_mut(self.get_row_mut(index), out),
            _ => draw_row(self.get_row(index), out),
        }
    }

    fn draw_lanes(&self, out: &mut String) -> Result<(), AllocError> {
        for row in self.row_iter() {
            draw_row(Some(row), out)?;
        }
        Ok(())
    }

    fn draw_lanes_mut(&mut self, out: &mut String) -> Result<(), AllocError> {
        for row in self.row_iter_mut() {
            draw_row_mut(Some(row), out)?;
        }
        Ok(())
    }

    fn are_equal(&self, left: usize, right: usize) -> Result<Option<bool>, AllocError> {
        match (self.get_row(left), self.get_row(right)) {
            (Some(left), Some(right)) => Ok(Some(left == right && left.clone()? == right)),
            (_, _) => Ok(None),
        }
    }
}

/// Columns.
impl<T: Scalar> Lanes<T> for CscMatrix<T> {
    fn has(kind: LaneKind) -> bool {
        matches!(kind, LaneKind::Column)
    }

    fn draw_lane(
        &mut self,
        way: LaneWay,
        index: usize,
        out: &mut String,
    ) -> Result<(), AllocError> {
        match way {
            LaneWay::Index if index < self.ncols() => draw_column(Some(self.col(index)), out),
            LaneWay::IndexMut if index < self.ncols() => {
                draw_column_mut(Some(self.col_mut(index)), out)
            }
            LaneWay::GetMut => draw_column_mut(self.get_col_mut(index), out),
            _ => draw_column(self.get_col(index), out),
        }
    }

    fn draw_lanes(&self, out: &mut String) -> Result<(), AllocError> {
        for column in self.col_iter() {
            draw_column(Some(column), out)?;
        }
        Ok(())
    }

    fn draw_lanes_mut(&mut self, out: &mut String) -> Result<(), AllocError> {
        for column in self.col_iter_mut() {
            draw_column_mut(Some(column), out)?;
        }
        Ok(())
    }

    fn are_equal(&self, left: usize, right: usize) -> Result<Option<bool>, AllocError> {
        match (self.get_col(left), self.get_col(right)) {
            (Some(left), Some(right)) => Ok(Some(left == right && left.clone()? == right)),
            (_, _) => Ok(None),
        }
    }
}

fn draw_row<T: Scalar>(row: Option<CsrRow<'_, T>>, out: &mut String) -> Result<(), AllocError> {
    match row {
        Some(row) => {
            let lane = (row.col_indices(), row.values());
            draw_lane((" ", row.ncols()), row.nnz(), lane, out)
        }
        None => out.push_str(" none"),
    }
}

fn draw_row_mut<T: Scalar>(
    row: Option<CsrRowMut<'_, T>>,
    out: &mut String,
) -> Result<(), AllocError> {
    match row {
        Some(row) => {
            let lane = (row.col_indices(), row.values());
            draw_lane((" ", row.ncols()), row.nnz(), lane, out)
        }
        None => out.push_str(" none"),
    }
}

fn draw_column<T: Scalar>(
    column: Option<CscCol<'_, T>>,
    out: &mut String,
) -> Result<(), AllocError> {
    match column {
        Some(column) => {
            let lane = (column.row_indices(), column.values());
            draw_lane((" / ", column.nrows()), column.nnz(), lane, out)
        }
        None => out.push_str(" none"),
    }
}

fn draw_column_mut<T: Scalar>(
    column: Option<CscColMut<'_, T>>,
    out: &mut String,
) -> Result<(), AllocError> {
    match column {
        Some(column) => {
            let lane = (column.row_indices(), column.values());
            draw_lane((" / ", column.nrows()), column.nnz(), lane, out)
        }
        None => out.push_str(" none"),
    }
}

// Appends a space and the picture of a lane of this length, with this between two cells.
fn draw_lane<T: Scalar>(
    (between, length): (&str, usize),
    places: usize,
    (indices, values): (&[usize], &[T]),
    out: &mut String,
) -> Result<(), AllocError> {
    if places != indices.len() || places != values.len() {
        return out.push_str(" another number of places");
    }
    out.push_str(" [")?;
    for index in 0..length {
        if 0 < index {
            out.push_str(between)?;
        }
        draw_cell(indices, values, index, out)?;
    }
    out.push_str("]")
}

// Appends the value of a lane at an index, or `.` if it is not stored.
fn draw_cell<T: Scalar>(
    indices: &[usize],
    values: &[T],
    index: usize,
    out: &mut String,
) -> Result<(), AllocError> {
    match indices.binary_search(&index) {
        Ok(offset) if offset < values.len() => draw_number(values[offset], out),
        _ => out.push_str("."),
    }
}

/// Returns the answer of one of these calls.
pub fn lane_call<T: Scalar, F: Compressed<T> + Lanes<T>>(
    turn: &mut Turn,
    (kind, call): (LaneKind, LaneCall),
    given: Operands<'_>,
) -> Result<String, Failure> {
    if !F::has(kind) {
        return Err(Failure::Unreadable("the form has other lanes"));
    }
    let (k, l) = (index_from(given.k)?, index_from(given.l)?);
    let mut matrix: F = matrix_of(turn.alloc(), given.a)?;
    match call {
        LaneCall::All => all_lanes::<T, F>(turn.alloc(), &mut matrix),
        LaneCall::One => lane_text::<T, F>(turn.alloc(), k, &mut matrix),
        LaneCall::Equal => equality::<T, F>(turn.alloc(), (k, l), &matrix),
    }
}

// The picture of a lane. All ways must find the same.
fn lane_text<T: Scalar, F: Lanes<T>>(
    alloc: Global,
    index: usize,
    matrix: &mut F,
) -> Result<String, Failure> {
    let lane = lane_in::<T, F>(alloc, matrix, LaneWay::Get, index)?;
    for way in WAYS {
        let other = lane_in::<T, F>(alloc, matrix, *way, index)?;
        if other.as_str() != lane.as_str() {
            return Err(Failure::Unreadable("two ways find different lanes"));
        }
    }
    Ok(String::from_str(alloc, lane.trim())?)
}

fn lane_in<T: Scalar, F: Lanes<T>>(
    alloc: Global,
    matrix: &mut F,
    way: LaneWay,
    index: usize,
) -> Result<String, AllocError> {
    let mut out = String::new(alloc);
    matrix.draw_lane(way, index, &mut out)?;
    Ok(out)
}

// Whether two lanes are equal: `true`, `false`, or `none` if one is out of bounds.
fn equality<T: Scalar, F: Lanes<T>>(
    alloc: Global,
    (left, right): (usize, usize),
    matrix: &F,
) -> Result<String, Failure> {
    match matrix.are_equal(left, right)? {
        Some(equal) => truth(alloc, equal),
        None => Ok(String::from_str(alloc, "none")?),
    }
}

// The pictures in order. Those for writing must be the same.
fn all_lanes<T: Scalar, F: Lanes<T>>(alloc: Global, matrix: &mut F) -> Result<String, Failure> {
    let mut read = String::new(alloc);
    matrix.draw_lanes(&mut read)?;
    let mut written = String::new(alloc);
    matrix.draw_lanes_mut(&mut written)?;
    if read.as_str() != written.as_str() {
        return Err(Failure::Unreadable("the lanes for writing are others"));
    }
    Ok(or_none(alloc, read.as_str())?)
}
