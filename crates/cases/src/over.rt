//! The scalars and the formats that rows are run over.

use crate::calls::answer;
use case_matrices::compressed::{Compressed, matrix_of, shown};
use case_texts::expressions::{answer_on_expressions, is_on_expressions};
use case_texts::texts::{answer_on_texts, is_on_texts, name_of};
use case_words::failure::Failure;
use case_words::scalar::Scalar;
use case_words::turn::Turn;
use nalgebra_sparse::ops::Op;
use nalgebra_sparse::scalar::{Mod, W32, W64, W128};
use nalgebra_sparse::{CscMatrix, CsrMatrix};
use std::alloc::{AllocError, Global};

/// Returns whether these are names of scalars and formats, with one of each.
pub fn is_over(words: &str) -> bool {
    let mut forms = false;
    let mut scalars = false;
    for word in words.split_whitespace() {
        if is_form(word) {
            forms = true;
        } else if is_scalar(word) {
            scalars = true;
        } else {
            return false;
        }
    }
    forms && scalars
}

fn is_form(name: &str) -> bool {
    name == "rows" || name == "columns"
}

const SCALARS: &[&str] = &[
    "W32", "W64", "W128", "Mod7", "Mod6", "Mod1", "Mod0", "i8", "i16", "i32", "i64", "i128",
    "Places",
];

// Whether this is the name of a scalar. Plain integers and the value of a pattern's entry are scalars of texts alone.
fn is_scalar(name: &str) -> bool {
    SCALARS.iter().any(|scalar| *scalar == name)
}

/// What a call answered, and whether it is what its row expects.
#[derive(Drop)]
pub struct Answer {
    pub text: String,
    pub fits: bool,
}

/// Returns the answer of a call over the scalar and in the format of these names, or `None` where one of them is no
/// such name.
pub fn answer_over(
    turn: &mut Turn,
    (scalar, form): (&str, &str),
    call: &str,
    wanted: &str,
) -> Result<Option<Answer>, AllocError> {
    if !is_form(form) || !is_scalar(scalar) {
        return Ok(None);
    }
    let (call, wanted) = (call.trim(), wanted.trim());
    let answer = answer_in(turn, (scalar, form), call);
    let text = text_of(turn.alloc(), answer)?;
    let fits = fits(text.as_str(), wanted) || shows(turn.alloc(), form, wanted, text.as_str());
    Ok(Some(Answer { text, fits }))
}

// The answer of a call over the scalar and in the format of these names.
fn answer_in(turn: &mut Turn, (scalar, form): (&str, &str), call: &str) -> Result<String, Failure> {
    let (name, _) = name_of(call);
    if is_on_texts(name) {
        return answer_on_texts(turn, (scalar, form), call);
    }
    if is_on_expressions(name) {
        return answer_on_expressions(turn, (scalar, form), call);
    }
    match scalar {
        "W32" => in_form::<W32>(turn, form, call),
        "W64" => in_form::<W64>(turn, form, call),
        "W128" => in_form::<W128>(turn, form, call),
        "Mod7" => in_form::<Mod<7>>(turn, form, call),
        "Mod6" => in_form::<Mod<6>>(turn, form, call),
        "Mod1" => in_form::<Mod<1>>(turn, form, call),
        "Mod0" => in_form::<Mod<0>>(turn, form, call),
        _ => Err(Failure::Unreadable("only calls on texts are over this type")),
    }
}

fn in_form<T: Scalar>(turn: &mut Turn, form: &str, call: &str) -> Result<String, Failure> {
    match form {
        "rows" => answer::<T, CsrMatrix<T>>(turn, call),
        _ => answer::<T, CscMatrix<T>>(turn, call),
    }
}

// The text of an answer.
fn text_of(alloc: Global, answer: Result<String, Failure>) -> Result<String, AllocError> {
    match answer {
        Ok(text) => Ok(text),
        Err(failure) => failure.text(alloc),
    }
}

// Whether an answer is the wanted one, or an error of the wanted kind. No row may expect to be unreadable.
fn fits(got: &str, wanted: &str) -> bool {
    match got.split_once(": ") {
        Some((kind, _)) => kind != "unreadable" && (got == wanted || kind == wanted),
        None => got == wanted,
    }
}

// Whether a picture with several triplets in a word, as `[9x9 (*,0)=1]`, shows the matrix whose picture the answer is.
fn shows(alloc: Global, form: &str, wanted: &str, got: &str) -> bool {
    let words = ["(*,", ",*)", "(even,", ",even)", "(odd,", ",odd)"];
    if !words.iter().any(|word| wanted.contains(*word)) {
        return false;
    }
    let redrawn = match form {
        "rows" => redrawn::<CsrMatrix<W128>>(alloc, wanted),
        _ => redrawn::<CscMatrix<W128>>(alloc, wanted),
    };
    match redrawn {
        Ok(picture) => picture.as_str() == got,
        Err(_) => false,
    }
}

// The picture of the matrix in brackets, as answers have it.
fn redrawn<F: Compressed<W128>>(alloc: Global, wanted: &str) -> Result<String, Failure> {
    match wanted
        .strip_prefix("[")
        .and_then(|rest| rest.strip_suffix("]"))
    {
        Some(picture) => {
            let matrix: F = matrix_of(alloc, Op::NoOp(picture))?;
            shown(alloc, &matrix)
        }
        None => Err(Failure::Unreadable("a picture has no brackets")),
    }
}
