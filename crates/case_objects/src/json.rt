//! JSON texts of lists, matrices and patterns, whose values are of the type `i32`.

use case_matrices::compressed::{matrix_of, shown};
use case_words::drawing::{PatternByRows, picture, triplets};
use case_words::failure::Failure;
use case_words::picture::list_of;
use case_words::turn::Turn;
use nalgebra_sparse::data::{CooData, CscData, CsrData, PatternData};
use nalgebra_sparse::ops::Op;
use nalgebra_sparse::pattern::SparsityPattern;
use nalgebra_sparse::scalar::W32;
use nalgebra_sparse::{CooMatrix, CscMatrix, CsrMatrix};
use serde::Serialize;
use std::alloc::{AllocError, Global};

/// Returns the answer of `from-json coo TEXT`, `from-json csr TEXT`, `from-json csc TEXT` or `from-json pattern TEXT`.
pub fn from_json(turn: &mut Turn, text: &str) -> Result<String, Failure> {
    let (kind, text) = text.split_once(' ').unwrap_or((text, ""));
    match kind {
        "coo" => list_from(turn, text),
        "csr" => rows_from(turn, text),
        "csc" => columns_from(turn, text),
        "pattern" => pattern_from(turn, text),
        _ => Err(Failure::Unreadable("no data struct has this name")),
    }
}

fn list_from(turn: &mut Turn, text: &str) -> Result<String, Failure> {
    let alloc = turn.alloc();
    turn.begin();
    let list = turn.end(read_list(alloc, text))?;
    let (nrows, ncols) = (list.nrows(), list.ncols());
    let (rows, cols, values) = list.disassemble();
    let values = wrapped(alloc, &values)?;
    let list = CooMatrix::try_from_triplets(nrows, ncols, rows, cols, values)?;
    Ok(triplets(alloc, &list)?)
}

fn rows_from(turn: &mut Turn, text: &str) -> Result<String, Failure> {
    let alloc = turn.alloc();
    turn.begin();
    let (pattern, values) = turn.end(read_rows(alloc, text))?.into_pattern_and_values();
    let values = wrapped(alloc, &values)?;
    shown(
        alloc,
        &CsrMatrix::try_from_pattern_and_values(pattern, values)?,
    )
}

fn columns_from(turn: &mut Turn, text: &str) -> Result<String, Failure> {
    let alloc = turn.alloc();
    turn.begin();
    let (pattern, values) = turn
        .end(read_columns(alloc, text))?
        .into_pattern_and_values();
    let values = wrapped(alloc, &values)?;
    shown(
        alloc,
        &CscMatrix::try_from_pattern_and_values(pattern, values)?,
    )
}

// A pattern, whose lanes are shown as rows.
fn pattern_from(turn: &mut Turn, text: &str) -> Result<String, Failure> {
    let alloc = turn.alloc();
    turn.begin();
    let pattern = turn.end(read_pattern(alloc, text))?;
    Ok(picture(alloc, &PatternByRows(pattern))?)
}

fn read_list(alloc: Global, text: &str) -> Result<CooMatrix<i32>, Failure> {
    match serde_json::from_str::<CooData<i32>>(alloc, text) {
        Ok(data) => Ok(CooMatrix::try_from_data(data)?),
        Err(error) => Err(failure_of(&error)),
    }
}

fn read_rows(alloc: Global, text: &str) -> Result<CsrMatrix<i32>, Failure> {
    match serde_json::from_str::<CsrData<i32>>(alloc, text) {
        Ok(data) => Ok(CsrMatrix::try_from_data(data)?),
        Err(error) => Err(failure_of(&error)),
    }
}

fn read_columns(alloc: Global, text: &str) -> Result<CscMatrix<i32>, Failure> {
    match serde_json::from_str::<CscData<i32>>(alloc, text) {
        Ok(data) => Ok(CscMatrix::try_from_data(data)?),
        Err(error) => Err(failure_of(&error)),
    }
}

fn read_pattern(alloc: Global, text: &str) -> Result<SparsityPattern, Failure> {
    match serde_json::from_str::<PatternData>(alloc, text) {
        Ok(data) => Ok(SparsityPattern::try_from_data(data)?),
        Err(error) => Err(failure_of(&error)),
    }
}

fn failure_of(error: &serde_json::Error) -> Failure {
    if error.is_memory() {
        Failure::Memory
    } else {
        Failure::Json
    }
}

/// Returns the answer of `to-json coo A`, `to-json csr A`, `to-json csc A` or `to-json pattern A`.
pub fn to_json(turn: &mut Turn, kind: &str, a: Op<&str>) -> Result<String, Failure> {
    match kind {
        "coo" => list_text(turn, a),
        "csr" => rows_text(turn, a),
        "csc" => columns_text(turn, a),
        "pattern" => pattern_text(turn, a),
        _ => Err(Failure::Unreadable("no data struct has this name")),
    }
}

fn list_text(turn: &mut Turn, a: Op<&str>) -> Result<String, Failure> {
    let alloc = turn.alloc();
    let list = list_of::<W32>(alloc, a.into_inner())?;
    let (nrows, ncols) = (list.nrows(), list.ncols());
    let (rows, cols, values) = list.disassemble();
    let values = unwrapped(alloc, &values)?;
    let list = CooMatrix::try_from_triplets(nrows, ncols, rows, cols, values)?;
    turn.begin();
    turn.end(written(alloc, list.to_data(alloc)))
}

fn rows_text(turn: &mut Turn, a: Op<&str>) -> Result<String, Failure> {
    let alloc = turn.alloc();
    let (pattern, values) = matrix_of::<W32, CsrMatrix<W32>>(alloc, a)?.into_pattern_and_values();
    let values = unwrapped(alloc, &values)?;
    let matrix = CsrMatrix::try_from_pattern_and_values(pattern, values)?;
    turn.begin();
    turn.end(written(alloc, matrix.to_data(alloc)))
}

fn columns_text(turn: &mut Turn, a: Op<&str>) -> Result<String, Failure> {
    let alloc = turn.alloc();
    let (pattern, values) = matrix_of::<W32, CscMatrix<W32>>(alloc, a)?.into_pattern_and_values();
    let values = unwrapped(alloc, &values)?;
    let matrix = CscMatrix::try_from_pattern_and_values(pattern, values)?;
    turn.begin();
    turn.end(written(alloc, matrix.to_data(alloc)))
}

// The text of a pattern, whose lanes are the rows of its picture.
fn pattern_text(turn: &mut Turn, a: Op<&str>) -> Result<String, Failure> {
    let alloc = turn.alloc();
    let (pattern, _) = matrix_of::<W32, CsrMatrix<W32>>(alloc, a)?.into_pattern_and_values();
    turn.begin();
    turn.end(written(alloc, pattern.to_data(alloc)))
}

fn written<D: Serialize + Drop>(
    alloc: Global,
    data: Result<D, AllocError>,
) -> Result<String, Failure> {
    match serde_json::to_string(alloc, &data?) {
        Ok(text) => Ok(text),
        Err(error) => Err(failure_of(&error)),
    }
}

// The classes of numbers.
fn wrapped(alloc: Global, numbers: &[i32]) -> Result<Vec<W32>, AllocError> {
    let mut values = Vec::new(alloc);
    for number in numbers {
        values.push(W32::new(*number))?;
    }
    Ok(values)
}

// The numbers that stand for classes.
fn unwrapped(alloc: Global, values: &[W32]) -> Result<Vec<i32>, AllocError> {
    let mut numbers = Vec::new(alloc);
    for value in values {
        numbers.push(value.get())?;
    }
    Ok(numbers)
}
