//! Expressions: their values over matrices, and runs over texts.

use crate::texts::{FIRST, name_of};
use crate::written::{ROOM, below};
use case_matrices::compressed::{Compressed, shown};
use case_words::failure::Failure;
use case_words::lines::{text_of, unescaped};
use case_words::picture::list_of;
use case_words::turn::Turn;
use case_words::words::{Word, words_of};
use nalgebra_sparse::expr::{Expr, ExprError, Form, evaluate_cols, evaluate_rows, run, run_owned};
use nalgebra_sparse::io::{MatrixMarketExport, Out, save_to_matrix_market_str};
use nalgebra_sparse::ops::Op;
use nalgebra_sparse::scalar::W64;
use nalgebra_sparse::{CooMatrix, CscMatrix, CsrMatrix};
use std::alloc::{AllocError, Global};

/// A format in which expressions are evaluated.
trait Evaluated: Compressed<W64> + MatrixMarketExport<W64> {
    /// Returns the format in which a run writes the same matrix.
    fn form() -> Form;

    /// Returns the value of an expression.
    fn value_of(alloc: Global, expr: &Expr, inputs: &[CooMatrix<W64>]) -> Result<Self, ExprError>;
}

/// By rows.
impl Evaluated for CsrMatrix<W64> {
    fn form() -> Form {
        Form::Rows
    }

    fn value_of(alloc: Global, expr: &Expr, inputs: &[CooMatrix<W64>]) -> Result<Self, ExprError> {
        evaluate_rows(alloc, expr, inputs)
    }
}

/// By columns.
impl Evaluated for CscMatrix<W64> {
    fn form() -> Form {
        Form::Cols
    }

    fn value_of(alloc: Global, expr: &Expr, inputs: &[CooMatrix<W64>]) -> Result<Self, ExprError> {
        evaluate_cols(alloc, expr, inputs)
    }
}

/// Returns whether a call with this name is one on expressions.
pub fn is_on_expressions(name: &str) -> bool {
    name == "value" || name == "run"
}

/// Returns the answer of `value WORDS of [..] ..` or `run WORDS of TEXT & ..`.
pub fn answer_on_expressions(
    turn: &mut Turn,
    (scalar, form): (&str, &str),
    call: &str,
) -> Result<String, Failure> {
    let Some((words, inputs)) = call.split_once(" of ") else {
        return Err(Failure::Unreadable("an expression is of no inputs"));
    };
    let (name, words) = name_of(words);
    let words = unescaped(turn.alloc(), words.trim())?;
    match (scalar, name, form) {
        ("W64", "value", "rows") => value::<CsrMatrix<W64>>(turn, words.as_str(), inputs),
        ("W64", "value", _) => value::<CscMatrix<W64>>(turn, words.as_str(), inputs),
        ("W64", _, "rows") => run_over_texts(turn, Form::Rows, words.as_str(), inputs),
        ("W64", _, _) => run_over_texts(turn, Form::Cols, words.as_str(), inputs),
        _ => Err(Failure::Unreadable("expressions are over W64")),
    }
}

// The value of words over matrices. A run over the texts of the matrices must write it.
fn value<F: Evaluated>(turn: &mut Turn, words: &str, inputs: &str) -> Result<String, Failure> {
    let alloc = turn.alloc();
    let lists = lists_of(alloc, inputs)?;
    turn.begin();
    let value: Result<F, ExprError> = turn.end(value_of_words(alloc, words, &lists));
    let (texts, copies) = (
        texts_of_lists(alloc, &lists)?,
        texts_of_lists(alloc, &lists)?,
    );
    let written = ran(
        &mut Turn::new(alloc, 0, 0),
        F::form(),
        words,
        (&texts, copies),
    );
    agree(alloc, &value, written)?;
    shown(alloc, &value?)
}

fn value_of_words<F: Evaluated>(
    alloc: Global,
    words: &str,
    lists: &[CooMatrix<W64>],
) -> Result<F, ExprError> {
    let expr = Expr::from_words(alloc, words)?;
    F::value_of(alloc, &expr, lists)
}

// The lists of pictures.
fn lists_of(alloc: Global, inputs: &str) -> Result<Vec<CooMatrix<W64>>, Failure> {
    let mut lists = Vec::new(alloc);
    for word in &words_of(alloc, inputs)? {
        match *word {
            Word::Matrix(Op::NoOp(picture)) => lists.push(list_of(alloc, picture)?)?,
            _ => return Err(Failure::Unreadable("an input is not a matrix")),
        }
    }
    Ok(lists)
}

// The texts of lists.
fn texts_of_lists(alloc: Global, lists: &[CooMatrix<W64>]) -> Result<Vec<String>, AllocError> {
    let mut texts = Vec::new(alloc);
    for list in lists {
        texts.push(save_to_matrix_market_str(alloc, list)?)?;
    }
    Ok(texts)
}

// Whether a value is what a run has written, or both have one error.
fn agree<F: Evaluated>(
    alloc: Global,
    value: &Result<F, ExprError>,
    written: Result<String, Failure>,
) -> Result<(), Failure> {
    let same = match (value, written) {
        (Err(ExprError::OutOfMemory), _) => true,
        (_, Err(Failure::Memory)) => return Err(Failure::Memory),
        (Ok(value), Ok(text)) => {
            save_to_matrix_market_str(alloc, value)?.as_str() == text.as_str()
        }
        (Err(error), Err(Failure::Expression(other))) => *error == other,
        _ => false,
    };
    if same {
        return Ok(());
    }
    Err(Failure::Unreadable("a run has another answer"))
}

// What words write over texts, without its first lines.
fn run_over_texts(
    turn: &mut Turn,
    form: Form,
    words: &str,
    inputs: &str,
) -> Result<String, Failure> {
    let alloc = turn.alloc();
    let (texts, copies) = (texts_of(alloc, inputs)?, texts_of(alloc, inputs)?);
    let written = ran(turn, form, words, (&texts, copies))?;
    below(alloc, written.as_str())
}

// The texts of inputs.
fn texts_of(alloc: Global, inputs: &str) -> Result<Vec<String>, Failure> {
    let mut texts = Vec::new(alloc);
    for lines in inputs.split('&') {
        texts.push(text_of(alloc, FIRST, lines)?)?;
    }
    Ok(texts)
}

// What words write over texts: borrowed, and owned.
fn ran(
    turn: &mut Turn,
    form: Form,
    words: &str,
    (texts, copies): (&[String], Vec<String>),
) -> Result<String, Failure> {
    let alloc = turn.alloc();
    let texts = borrowed(alloc, texts)?;
    let mut first = Out::new(Vec::with_capacity(alloc, ROOM)?);
    let mut second = Out::new(Vec::with_capacity(alloc, ROOM)?);
    turn.begin();
    let answer = both(
        alloc,
        form,
        words,
        (&texts, copies),
        (&mut first, &mut second),
    );
    let answer = turn.end(answer);
    written_by(alloc, answer, first.into_inner(), second.into_inner())
}

fn borrowed(alloc: Global, texts: &[String]) -> Result<Vec<&str>, AllocError> {
    let mut borrowed = Vec::with_capacity(alloc, texts.len())?;
    for text in texts {
        borrowed.push(text.as_str())?;
    }
    Ok(borrowed)
}

// Runs words over texts, borrowed and owned.
fn both(
    alloc: Global,
    form: Form,
    words: &str,
    (texts, copies): (&[&str], Vec<String>),
    (first, second): (&mut Out<Vec<u8>>, &mut Out<Vec<u8>>),
) -> Result<(), Failure> {
    let expr = Expr::from_words(alloc, words)?;
    let borrowed = run(alloc, form, &expr, texts, first);
    let owned = run_owned(alloc, form, &expr, copies, second);
    match (borrowed, owned) {
        (Ok(()), Ok(())) => Ok(()),
        (Err(ExprError::OutOfMemory), _) | (_, Err(ExprError::OutOfMemory)) => Err(Failure::Memory),
        (Err(error), Err(other)) if error == other => Err(Failure::Expression(error)),
        (_, _) => Err(Failure::Unreadable("runs over borrowed and over owned texts differ")),
    }
}

// What both runs have written. Nothing is written if they end in an error other than that of memory.
fn written_by(
    alloc: Global,
    answer: Result<(), Failure>,
    first: Vec<u8>,
    second: Vec<u8>,
) -> Result<String, Failure> {
    match answer {
        Ok(()) if first.as_slice() == second.as_slice() => text_from(alloc, &first),
        Ok(()) => Err(Failure::Unreadable("the runs have written texts that differ")),
        Err(Failure::Memory) => Err(Failure::Memory),
        Err(failure) if first.is_empty() && second.is_empty() => Err(failure),
        Err(_) => Err(Failure::Unreadable("a run that ends in an error has written something")),
    }
}

fn text_from(alloc: Global, bytes: &[u8]) -> Result<String, Failure> {
    match std::str::from_utf8(bytes) {
        Ok(text) => Ok(String::from_str(alloc, text)?),
        Err(_) => Err(Failure::Unreadable("a run has written bytes that are not UTF-8")),
    }
}
