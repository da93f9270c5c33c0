//! Calls by their words: templates such as `k A + l B`, and the operands that words give them.
//!
//! In a template `A`, `B` and `C` stand for matrices, `k` and `l` for numbers, `v` and `w` for names, and `..` for all
//! words that are left. Another part stands for itself.

use crate::words::Word;
use nalgebra_sparse::ops::Op;

/// The operands of a call. What its template does not name is empty or zero; without `..` the rest is all words.
#[derive(Clone, Copy)]
pub struct Operands<'a> {
    pub a: Op<&'a str>,
    pub b: Op<&'a str>,
    pub c: Op<&'a str>,
    pub k: i128,
    pub l: i128,
    pub v: &'a str,
    pub w: &'a str,
    pub rest: &'a [Word<'a>],
}

/// Returns the first call of a table whose template fits the words, and its operands.
pub fn call_of<'a, C: Copy>(
    calls: &[(&str, C)],
    words: &'a [Word<'a>],
) -> Option<(C, Operands<'a>)> {
    for (template, call) in calls {
        if let Some(given) = operands_by(template, words) {
            return Some((*call, given));
        }
    }
    None
}

// The operands that words give a template, or `None` if they do not fit it.
fn operands_by<'a>(template: &str, words: &'a [Word<'a>]) -> Option<Operands<'a>> {
    let mut given = without_operands(words);
    let mut count: usize = 0;
    for part in template.split_whitespace() {
        if part == ".." {
            return with_rest(given, count);
        }
        given = with(given, part, *words.get(count)?)?;
        count = count.saturating_add(1);
    }
    if count == words.len() {
        Some(given)
    } else {
        None
    }
}

fn without_operands<'a>(words: &'a [Word<'a>]) -> Operands<'a> {
    Operands {
        a: Op::NoOp(""),
        b: Op::NoOp(""),
        c: Op::NoOp(""),
        k: 0,
        l: 0,
        v: "",
        w: "",
        rest: words,
    }
}

// The operands with the words after the first ones as the rest.
fn with_rest<'a>(given: Operands<'a>, count: usize) -> Option<Operands<'a>> {
    if given.rest.len() < count {
        return None;
    }
    let rest = &given.rest[count..];
    Some(Operands { rest, ..given })
}

// The operands with a word as a part of the template, or `None` if it does not fit.
fn with<'a>(given: Operands<'a>, part: &str, word: Word<'a>) -> Option<Operands<'a>> {
    match (part, word) {
        ("A", Word::Matrix(a)) => Some(Operands { a, ..given }),
        ("B", Word::Matrix(b)) => Some(Operands { b, ..given }),
        ("C", Word::Matrix(c)) => Some(Operands { c, ..given }),
        ("k", Word::Number(k)) => Some(Operands { k, ..given }),
        ("l", Word::Number(l)) => Some(Operands { l, ..given }),
        ("v", Word::Name(v)) => Some(Operands { v, ..given }),
        ("w", Word::Name(w)) => Some(Operands { w, ..given }),
        (_, Word::Name(name)) if name == part => Some(given),
        (_, _) => None,
    }
}
