//! Matrices written to a sink.

use crate::outcome::Outcome;
use crate::page::{Page, written};
use case_words::picture::list_of;
use case_words::turn::Turn;
use nalgebra_sparse::CooMatrix;
use nalgebra_sparse::convert::serial::{convert_coo_csc, convert_coo_csr};
use nalgebra_sparse::io::{
    Banner, MatrixMarketError, MatrixMarketExport, MatrixMarketScalar, Out,
    load_coo_from_matrix_market_str, save_to_matrix_market, save_to_matrix_market_with,
};
use nalgebra_sparse::scalar::W64;
use std::alloc::Global;

/// Returns the outcome of `save_to_matrix_market` of a list, of a pattern, or of a matrix by rows or by columns; or of
/// `save_to_matrix_market_with` of a list.
pub fn run(turn: &mut Turn, case: &str) -> Outcome {
    match case {
        "places" => match places(turn.alloc()) {
            Some(list) => save::<(), CooMatrix<()>>(turn, &list, None),
            None => Outcome::Unready,
        },
        _ => match list_of::<W64>(turn.alloc(), "2x3 (1,0)=4 (0,2)=0 (0,1)=-5") {
            Ok(list) => save_form(turn, case, &list),
            Err(_) => Outcome::Unready,
        },
    }
}

fn places(alloc: Global) -> Option<CooMatrix<()>> {
    let text = "%%MatrixMarket matrix coordinate pattern general\n2 3 2\n2 1\n1 3\n";
    load_coo_from_matrix_market_str(alloc, text).ok()
}

fn save_form(turn: &mut Turn, case: &str, list: &CooMatrix<W64>) -> Outcome {
    match case {
        "rows" => match convert_coo_csr(turn.alloc(), list) {
            Ok(rows) => save(turn, &rows, None),
            Err(_) => Outcome::Unready,
        },
        "columns" => match convert_coo_csc(turn.alloc(), list) {
            Ok(columns) => save(turn, &columns, None),
            Err(_) => Outcome::Unready,
        },
        "mixed" => save(turn, list, Some(Banner::MixedCase)),
        _ => save(turn, list, None),
    }
}

fn save<T, S>(turn: &mut Turn, matrix: &S, banner: Option<Banner>) -> Outcome
where
    T: MatrixMarketScalar,
    S: MatrixMarketExport<T>,
{
    let mut whole = Out::new(Page::new());
    if saved(turn.alloc(), &mut whole, matrix, banner).is_err() {
        return Outcome::Unready;
    }
    let mut out = Out::new(Page::new());
    turn.begin();
    let answer = turn.end(saved(turn.alloc(), &mut out, matrix, banner));
    written(answer, out, &whole.into_inner())
}

// Writes a matrix by the call that takes a first word, if one is given.
fn saved<T, S>(
    alloc: Global,
    out: &mut Out<Page>,
    matrix: &S,
    banner: Option<Banner>,
) -> Result<(), MatrixMarketError>
where
    T: MatrixMarketScalar,
    S: MatrixMarketExport<T>,
{
    match banner {
        Some(banner) => save_to_matrix_market_with(alloc, out, matrix, banner),
        None => save_to_matrix_market(alloc, out, matrix),
    }
}
