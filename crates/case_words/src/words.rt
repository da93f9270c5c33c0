//! The words of a call.

use crate::failure::Failure;
use nalgebra_sparse::ops::Op;
use std::alloc::Global;

/// A word of a call: a picture in brackets, after which `'` stands for the transpose, a number, or a name.
#[derive(Clone, Copy)]
pub enum Word<'a> {
    Matrix(Op<&'a str>),
    Number(i128),
    Name(&'a str),
}

/// Returns the words of a call.
pub fn words_of<'a>(alloc: Global, call: &'a str) -> Result<Vec<Word<'a>>, Failure> {
    let mut words = Vec::new(alloc);
    for (index, part) in call.split('[').enumerate() {
        let plain = if index == 0 {
            part
        } else {
            let (matrix, rest) = matrix_of(part)?;
            words.push(matrix)?;
            rest
        };
        for word in plain.split_whitespace() {
            words.push(word_of(word))?;
        }
    }
    Ok(words)
}

// The matrix whose picture begins a text, and what follows it.
fn matrix_of(text: &str) -> Result<(Word<'_>, &str), Failure> {
    let Some((picture, rest)) = text.split_once(']') else {
        return Err(Failure::Unreadable("a bracket is not closed"));
    };
    match rest.strip_prefix("'") {
        Some(rest) => Ok((Word::Matrix(Op::Transpose(picture)), rest)),
        None => Ok((Word::Matrix(Op::NoOp(picture)), rest)),
    }
}

fn word_of(word: &str) -> Word<'_> {
    match word.parse::<i128>() {
        Ok(number) => Word::Number(number),
        Err(_) => Word::Name(word),
    }
}

/// Returns the index that a word writes.
pub fn index_of(word: &str) -> Result<usize, Failure> {
    match word.parse::<usize>() {
        Ok(number) => Ok(number),
        Err(_) => Err(Failure::Unreadable("a word is not an index")),
    }
}

/// Returns the index of a number.
pub fn index_from(number: i128) -> Result<usize, Failure> {
    match usize::try_from(number) {
        Ok(index) => Ok(index),
        Err(_) => Err(Failure::Unreadable("a number is not an index")),
    }
}

/// Returns the sizes that a word `2x3` writes.
pub fn size_of(word: &str) -> Result<(usize, usize), Failure> {
    match word.split_once('x') {
        Some((rows, cols)) => Ok((index_of(rows)?, index_of(cols)?)),
        None => Err(Failure::Unreadable("a word is not a size")),
    }
}

/// Returns the row and the column that a word `(1,2)` writes.
pub fn place_of(word: &str) -> Result<(usize, usize), Failure> {
    match inside(word).and_then(|pair| pair.split_once(',')) {
        Some((row, col)) => Ok((index_of(row)?, index_of(col)?)),
        None => Err(Failure::Unreadable("a word is not a place")),
    }
}

/// Returns the text in the parentheses of a word.
pub fn inside(word: &str) -> Option<&str> {
    word.strip_prefix("(")?.strip_suffix(")")
}

/// Returns the indices that words write.
pub fn indices_of(alloc: Global, words: &str) -> Result<Vec<usize>, Failure> {
    let mut indices = Vec::new(alloc);
    for word in words.split_whitespace() {
        indices.push(index_of(word)?)?;
    }
    Ok(indices)
}
