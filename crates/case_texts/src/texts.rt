//! Matrix Market texts: what they mean, and the errors of reading.

use crate::text_scalars::{TextScalar, draw_value};
use crate::text_values::{failure_of, valued};
use crate::written::{Part, written};
use case_words::failure::Failure;
use case_words::lines::text_of;
use case_words::turn::Turn;
use nalgebra_sparse::CooMatrix;
use nalgebra_sparse::io::{MatrixMarketError, MatrixMarketExport, load_coo_from_matrix_market_str};
use nalgebra_sparse::scalar::{W32, W64, W128};
use std::alloc::{AllocError, Global};

/// The words that begin most texts.
pub const FIRST: &str = "%%MatrixMarket matrix ";

/// Returns the name of a call, and what follows it.
pub fn name_of(call: &str) -> (&str, &str) {
    call.split_once(' ').unwrap_or((call, ""))
}

/// Returns whether a call with this name is one on texts.
pub fn is_on_texts(name: &str) -> bool {
    match name {
        "read" | "text" | "write" | "write-list" | "write-whole" | "write-mixed" => true,
        "display-read" | "debug-read" | "error" => true,
        "from-integer" | "from-pattern" | "negative-of" | "conjugate-of" | "text-of" => true,
        _ => false,
    }
}

/// Returns the answer of a call on texts, over the scalar type and in the format of these names.
pub fn answer_on_texts(
    turn: &mut Turn,
    (scalar, form): (&str, &str),
    call: &str,
) -> Result<String, Failure> {
    match scalar {
        "i8" => answer::<i8>(turn, form, call),
        "i16" => answer::<i16>(turn, form, call),
        "i32" => answer::<i32>(turn, form, call),
        "i64" => answer::<i64>(turn, form, call),
        "i128" => answer::<i128>(turn, form, call),
        "W32" => answer::<W32>(turn, form, call),
        "W64" => answer::<W64>(turn, form, call),
        "W128" => answer::<W128>(turn, form, call),
        "Places" => answer::<()>(turn, form, call),
        _ => Err(Failure::Unreadable("texts have no such scalars")),
    }
}

fn answer<T: TextScalar>(turn: &mut Turn, form: &str, call: &str) -> Result<String, Failure> {
    let (name, rest) = name_of(call);
    match name {
        "read" => read::<T>(turn, FIRST, rest),
        "text" => read::<T>(turn, "", rest),
        "write" => written::<T>(turn, Part::Below, form, rest),
        "write-whole" => written::<T>(turn, Part::Whole, form, rest),
        "write-mixed" => written::<T>(turn, Part::Mixed, form, rest),
        "write-list" => written::<T>(turn, Part::Below, "list", rest),
        "display-read" => shown_error::<T>(turn.alloc(), false, rest),
        "debug-read" => shown_error::<T>(turn.alloc(), true, rest),
        "error" => Err(failure_of(rest)),
        _ => valued::<T>(turn, name, rest),
    }
}

// The list that a text means.
fn read<T: TextScalar>(turn: &mut Turn, first: &str, lines: &str) -> Result<String, Failure> {
    let alloc = turn.alloc();
    let text = text_of(alloc, first, lines)?;
    turn.begin();
    let list: CooMatrix<T> = turn.end(load_coo_from_matrix_market_str(alloc, text.as_str()))?;
    Ok(listed(alloc, &list)?)
}

/// Returns the triplets of a matrix in its order, in brackets after its size.
pub fn listed<T: TextScalar, S: MatrixMarketExport<T>>(
    alloc: Global,
    matrix: &S,
) -> Result<String, AllocError> {
    let mut out = format!(in alloc; "[{}x{}", matrix.nrows(), matrix.ncols())?;
    for (row, col, value) in matrix.triplet_iter() {
        write!(out, " ({row},{col})=")?;
        draw_value(*value, &mut out)?;
    }
    out.push_str("]")?;
    Ok(out)
}

// The error of a text, as it is shown.
fn shown_error<T: TextScalar>(
    alloc: Global,
    for_debugging: bool,
    lines: &str,
) -> Result<String, Failure> {
    let text = text_of(alloc, FIRST, lines)?;
    let read: Result<CooMatrix<T>, MatrixMarketError> = load_coo_from_matrix_market_str(
        alloc,
        text.as_str(),
    );
    match read {
        Ok(_) => Err(Failure::Unreadable("the text has a meaning")),
        Err(error) if for_debugging => Ok(format!(in alloc; "{error:?}")?),
        Err(error) => Ok(format!(in alloc; "{error}")?),
    }
}
