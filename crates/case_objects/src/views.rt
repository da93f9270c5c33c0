//! Views of borrowed arrays.

use case_matrices::arrays::{list_arrays, matrix_arrays};
use case_matrices::compressed::{Compressed, made_list, matrix_of, shown};
use case_words::drawing::{Drawn, draw_entry, draw_triplet, is_large, picture};
use case_words::failure::Failure;
use case_words::picture::list_of;
use case_words::scalar::Scalar;
use case_words::turn::Turn;
use case_words::words::{Word, words_of};
use nalgebra_sparse::ops::Op;
use nalgebra_sparse::views::{CooView, CscView, CsrView};
use nalgebra_sparse::{CscMatrix, CsrMatrix};
use std::alloc::{AllocError, Global};

/// The view of a format.
pub trait Views<T: Scalar> {
    /// Returns the answer of `view A`.
    fn viewed(&self, turn: &mut Turn) -> Result<String, Failure>;
}

/// By rows.
impl<T: Scalar> Views<T> for CsrMatrix<T> {
    fn viewed(&self, turn: &mut Turn) -> Result<String, Failure> {
        rows_seen(turn, &CsrView::of(self))
    }
}

/// By columns.
impl<T: Scalar> Views<T> for CscMatrix<T> {
    fn viewed(&self, turn: &mut Turn) -> Result<String, Failure> {
        columns_seen(turn, &CscView::of(self))
    }
}

/// Returns the answer of `view A`, `view list A`, `view csr 2x3 offsets .. indices .. values ..`, `view csc ..` or
/// `view coo 2x3 rows .. cols .. values ..`: what the view shows, which its copy must show too.
pub fn view<T: Scalar, F: Compressed<T> + Views<T>>(
    turn: &mut Turn,
    text: &str,
) -> Result<String, Failure> {
    match text.split_once(' ') {
        Some(("csr", arrays)) => csr_view::<T>(turn, arrays),
        Some(("csc", arrays)) => csc_view::<T>(turn, arrays),
        Some(("coo", arrays)) => coo_view::<T>(turn, arrays),
        _ => view_of_words::<T, F>(turn, text),
    }
}

fn csr_view<T: Scalar>(turn: &mut Turn, text: &str) -> Result<String, Failure> {
    let ((nrows, ncols), (offsets, indices, values)) = matrix_arrays::<T>(turn.alloc(), text)?;
    let view = CsrView::try_from_csr_data(nrows, ncols, &offsets, &indices, &values)?;
    rows_seen(turn, &view)
}

fn csc_view<T: Scalar>(turn: &mut Turn, text: &str) -> Result<String, Failure> {
    let ((nrows, ncols), (offsets, indices, values)) = matrix_arrays::<T>(turn.alloc(), text)?;
    let view = CscView::try_from_csc_data(nrows, ncols, &offsets, &indices, &values)?;
    columns_seen(turn, &view)
}

fn coo_view<T: Scalar>(turn: &mut Turn, text: &str) -> Result<String, Failure> {
    let ((nrows, ncols), (rows, cols, values)) = list_arrays::<T>(turn.alloc(), text)?;
    let view = CooView::try_from_triplets(nrows, ncols, &rows, &cols, &values)?;
    list_seen(turn, &view)
}

fn view_of_words<T: Scalar, F: Compressed<T> + Views<T>>(
    turn: &mut Turn,
    text: &str,
) -> Result<String, Failure> {
    let alloc = turn.alloc();
    match *words_of(alloc, text)?.as_slice() {
        [Word::Matrix(a)] => matrix_of::<T, F>(alloc, a)?.viewed(turn),
        [Word::Name("list"), Word::Matrix(Op::NoOp(list))] => {
            let list = list_of::<T>(alloc, list)?;
            list_seen(turn, &CooView::of(&list))
        }
        _ => Err(Failure::Unreadable("no view has these words")),
    }
}

// A view by rows whose cells are drawn row by row.
#[derive(Drop)]
struct ByRows<'b, 'a, T> {
    view: &'b CsrView<'a, T>,
}

impl<'b, 'a, T: Scalar> Drawn for ByRows<'b, 'a, T> {
    fn size(&self) -> (usize, usize) {
        self.view.size()
    }

    fn draw_cell(&self, row: usize, col: usize, out: &mut String) -> Result<(), AllocError> {
        match self.view.get_row(row) {
            Some(lane) => draw_entry(lane.get_entry(col), out),
            None => out.push_str("none"),
        }
    }
}

// A view by columns whose cells are drawn column by column.
#[derive(Drop)]
struct ByColumns<'b, 'a, T> {
    view: &'b CscView<'a, T>,
}

impl<'b, 'a, T: Scalar> Drawn for ByColumns<'b, 'a, T> {
    fn size(&self) -> (usize, usize) {
        self.view.size()
    }

    fn draw_cell(&self, row: usize, col: usize, out: &mut String) -> Result<(), AllocError> {
        match self.view.get_col(col) {
            Some(lane) => draw_entry(lane.get_entry(row), out),
            None => out.push_str("none"),
        }
    }
}

// What a view by rows shows, and its copy.
fn rows_seen<T: Scalar>(turn: &mut Turn, view: &CsrView<'_, T>) -> Result<String, Failure> {
    let seen = entries_seen(turn.alloc(), view)?;
    let lanes = picture(turn.alloc(), &ByRows { view })?;
    let seen = as_copied(seen, Ok(lanes))?;
    turn.begin();
    let copy = turn.end(view.to_csr(turn.alloc()))?;
    as_copied(seen, shown(turn.alloc(), &copy))
}

// What a view by columns shows, and its copy.
fn columns_seen<T: Scalar>(turn: &mut Turn, view: &CscView<'_, T>) -> Result<String, Failure> {
    let seen = entries_seen(turn.alloc(), view)?;
    let lanes = picture(turn.alloc(), &ByColumns { view })?;
    let seen = as_copied(seen, Ok(lanes))?;
    turn.begin();
    let copy = turn.end(view.to_csc(turn.alloc()))?;
    as_copied(seen, shown(turn.alloc(), &copy))
}

// What a view of a list shows, and its copy.
fn list_seen<T: Scalar>(turn: &mut Turn, view: &CooView<'_, T>) -> Result<String, Failure> {
    let seen = triplets_seen(turn.alloc(), view)?;
    turn.begin();
    let copy = turn.end(view.to_coo(turn.alloc()));
    as_copied(seen, made_list(turn.alloc(), copy))
}

fn entries_seen<V: Drawn>(alloc: Global, view: &V) -> Result<String, Failure> {
    if is_large(view.size()) {
        return Err(Failure::Unreadable("the view has too many cells"));
    }
    Ok(picture(alloc, view)?)
}

fn triplets_seen<T: Scalar>(alloc: Global, view: &CooView<'_, T>) -> Result<String, AllocError> {
    let mut out = format!(in alloc; "[{}x{}", view.nrows(), view.ncols())?;
    let places = view.row_indices().iter().zip(view.col_indices());
    for ((row, col), value) in places.zip(view.values()) {
        draw_triplet(*row, *col, *value, &mut out)?;
    }
    out.push_str("]")?;
    Ok(out)
}

// What a view showed, if its rows or columns, or its copy, show the same.
fn as_copied(seen: String, copied: Result<String, Failure>) -> Result<String, Failure> {
    let copied = copied?;
    if seen.as_str() == copied.as_str() {
        return Ok(seen);
    }
    Err(Failure::Unreadable("a copy or a lane differs from its view"))
}
