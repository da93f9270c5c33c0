//! Files, and the commands of `mtx` over them.

use crate::outcome::{Outcome, checksum_of, checksum_of_bytes, of_error};
use crate::page::Page;
use case_words::turn::Turn;
use mtx_commands::command;
use nalgebra_sparse::CooMatrix;
use nalgebra_sparse::io::{
    Banner, MatrixMarketError, Out, load_coo_from_matrix_market_file,
    load_coo_from_matrix_market_str, save_to_matrix_market_file, save_to_matrix_market_file_with,
};
use nalgebra_sparse::scalar::W64;
use std::fs;

const INTEGERS: &str = "%%MatrixMarket matrix coordinate integer general\n2 2 2\n1 2 3\n2 2 4\n";

const PLACES: &str = "%%MatrixMarket matrix coordinate pattern symmetric\n3 3 2\n3 1\n3 2\n";

// The file that a scenario writes and reads.
const PATH: &str = "refusals.mtx";

/// Returns the outcome of a call on a file.
pub fn run(rt: &HostRuntime, turn: &mut Turn, call: &str, case: &str) -> Outcome {
    match call {
        "load_coo_from_matrix_market_file" => load(rt, turn),
        "save_to_matrix_market_file" => save(rt, turn, None),
        "save_to_matrix_market_file_with" => save(rt, turn, Some(Banner::MixedCase)),
        "command" => obey_case(rt, turn, case),
        _ => Outcome::Unknown,
    }
}

fn load(rt: &HostRuntime, turn: &mut Turn) -> Outcome {
    if fs::write(rt, PATH, INTEGERS.as_bytes()).is_err() {
        return Outcome::Unready;
    }
    turn.begin();
    let read: Result<CooMatrix<W64>, MatrixMarketError> = load_coo_from_matrix_market_file(
        rt, PATH,
    );
    match turn.end(read) {
        Ok(list) => Outcome::Answered(checksum_of(&[list.nnz() as u64, sum_of(&list)])),
        Err(error) => of_error(&error),
    }
}

fn sum_of(list: &CooMatrix<W64>) -> u64 {
    let mut sum: i64 = 0;
    for value in list.values() {
        sum = sum.wrapping_add(value.get());
    }
    sum.cast_unsigned()
}

// Writes a list by the call that takes a first word, if one is given.
fn save(rt: &HostRuntime, turn: &mut Turn, banner: Option<Banner>) -> Outcome {
    match load_coo_from_matrix_market_str(turn.alloc(), INTEGERS) {
        Ok(list) => save_list(rt, turn, &list, banner),
        Err(_) => Outcome::Unready,
    }
}

fn save_list(
    rt: &HostRuntime,
    turn: &mut Turn,
    list: &CooMatrix<W64>,
    banner: Option<Banner>,
) -> Outcome {
    turn.begin();
    let answer = match banner {
        Some(banner) => save_to_matrix_market_file_with(rt, list, PATH, banner),
        None => save_to_matrix_market_file(rt, list, PATH),
    };
    match turn.end(answer) {
        Ok(()) => Outcome::Answered(0),
        Err(error) => of_error(&error),
    }
}

// A command over a file.
fn obey_case(rt: &HostRuntime, turn: &mut Turn, case: &str) -> Outcome {
    match case {
        "rows" => run_args(rt, turn, &["rows", "1 1 *", PATH], INTEGERS),
        "cols" => run_args(rt, turn, &["cols", "1 t 1 +", PATH], INTEGERS),
        "fill" => run_args(rt, turn, &["fill", PATH], PLACES),
        "fill lower" => run_args(rt, turn, &["fill", "lower", PATH], PLACES),
        _ => Outcome::Unknown,
    }
}

fn run_args(rt: &HostRuntime, turn: &mut Turn, words: &[&str], text: &str) -> Outcome {
    if fs::write(rt, PATH, text.as_bytes()).is_err() {
        return Outcome::Unready;
    }
    let mut whole = Out::new(Page::new());
    if command(rt, words, &mut whole, &mut Out::new(Page::new())) != 0 {
        return Outcome::Unready;
    }
    let (mut out, mut err) = (Out::new(Page::new()), Out::new(Page::new()));
    turn.begin();
    let status = turn.end(command(rt, words, &mut out, &mut err));
    answered(
        status,
        &out.into_inner(),
        &err.into_inner(),
        &whole.into_inner(),
    )
}

// The outcome of a command: a text and status 0, or the line of an allocation failure and status 1.
fn answered(status: u8, out: &Page, err: &Page, whole: &Page) -> Outcome {
    match (status, err.taken()) {
        (0, b"") => Outcome::Answered(checksum_of_bytes(out.taken())),
        (1, b"mtx: out of memory\n") => {
            Outcome::Refused.leaving(whole.taken().starts_with(out.taken()))
        }
        _ => Outcome::Failed,
    }
}
