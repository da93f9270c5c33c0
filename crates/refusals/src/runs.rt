//! Expressions run over texts, into a sink.

use crate::outcome::Outcome;
use crate::page::{Page, written};
use case_words::turn::Turn;
use nalgebra_sparse::expr::{Expr, Form, run as run_over, run_owned};
use nalgebra_sparse::io::Out;
use std::alloc::{AllocError, Global};

/// The texts that are run over.
const TEXTS: [&str; 2] = [
    "%%MatrixMarket matrix coordinate integer general\n2 2 3\n1 1 1\n1 2 2\n2 2 3\n",
    "%%MatrixMarket matrix array integer symmetric\n2 2\n4\n-5\n6\n",
];

/// Returns the outcome of a run. The case has the format and the words.
pub fn run(turn: &mut Turn, call: &str, case: &str) -> Outcome {
    let (form, words) = match case.split_once(' ') {
        Some(("rows", words)) => (Form::Rows, words),
        Some(("cols", words)) => (Form::Cols, words),
        _ => return Outcome::Unknown,
    };
    match Expr::from_words(turn.alloc(), words) {
        Ok(expr) => run_expr(turn, call, form, &expr),
        Err(_) => Outcome::Unready,
    }
}

fn run_expr(turn: &mut Turn, call: &str, form: Form, expr: &Expr) -> Outcome {
    let mut whole = Out::new(Page::new());
    if run_over(turn.alloc(), form, expr, &TEXTS, &mut whole).is_err() {
        return Outcome::Unready;
    }
    match call {
        "run" => {
            let mut out = Out::new(Page::new());
            turn.begin();
            let answer = turn.end(run_over(turn.alloc(), form, expr, &TEXTS, &mut out));
            written(answer, out, &whole.into_inner())
        }
        _ => run_over_owned(turn, form, expr, &whole.into_inner()),
    }
}

// A run over texts of its own, with what a run over borrowed texts writes.
fn run_over_owned(turn: &mut Turn, form: Form, expr: &Expr, whole: &Page) -> Outcome {
    match texts(turn.alloc()) {
        Ok(texts) => {
            let mut out = Out::new(Page::new());
            turn.begin();
            let answer = turn.end(run_owned(turn.alloc(), form, expr, texts, &mut out));
            written(answer, out, whole)
        }
        Err(_) => Outcome::Unready,
    }
}

fn texts(alloc: Global) -> Result<Vec<String>, AllocError> {
    let mut texts = Vec::with_capacity(alloc, TEXTS.len())?;
    for text in TEXTS {
        texts.push(String::from_str(alloc, text)?)?;
    }
    Ok(texts)
}
