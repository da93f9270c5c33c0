//! Values of expressions beside those of the slow evaluator.

use crate::matrices::list;
use reference_models::expressions::expression_value;
use sparse_algebra::scalar::W64;
use sparse_coo_dense::coo::CooMatrix;
use sparse_csr_csc::csr::CsrMatrix;
use sparse_expr::{Expr, ExprError, evaluate_cols, evaluate_rows};
use std::alloc::{AllocError, Global};
use std::test::Fail;

// The number of rows, that of columns, and triplets.
type List = (usize, usize, &'static [(usize, usize, i64)]);

// Some entries occur twice, one of them with the sum zero.
const SMALL: &[List] = &[
    (2, 2, &[(1, 0, 3), (0, 1, -2), (1, 0, -3), (1, 1, 5)]),
    (2, 3, &[(1, 2, 7), (0, 0, 2), (0, 2, -1)]),
    (3, 2, &[(2, 0, 4), (0, 1, -6), (0, 1, 1)]),
];

const SQUARE: &[List] = &[
    (3, 3, &[(0, 1, 2), (1, 2, -1), (2, 0, 3)]),
    (3, 3, &[(2, 2, 5), (0, 0, 1), (2, 2, -4), (1, 0, 6)]),
    (3, 3, &[(1, 1, -7)]),
];

fn matrices(alloc: Global, lists: &[List]) -> Result<Vec<CooMatrix<W64>>, AllocError> {
    let mut matrices = Vec::new(alloc);
    for &(nrows, ncols, triplets) in lists {
        matrices.push(list(alloc, nrows, ncols, triplets)?)?;
    }
    Ok(matrices)
}

fn are_same(fast: &CsrMatrix<W64>, slow: &CooMatrix<W64>) -> bool {
    fast.nrows() == slow.nrows()
        && fast.ncols() == slow.ncols()
        && fast.nnz() == slow.nnz()
        && fast.triplet_iter().zip(slow.triplet_iter()).all(|(a, b)| a.0 == b.0
            && a.1 == b.1
            && a.2.get() == b.2.get())
}

// Whether both evaluators gave this value or this refusal.
fn are_equal(
    fast: &Result<CsrMatrix<W64>, ExprError>,
    slow: &Result<CooMatrix<W64>, ExprError>,
) -> bool {
    match (fast, slow) {
        (Ok(fast), Ok(slow)) => are_same(fast, slow),
        (Err(fast), Err(slow)) => fast == slow,
        (Ok(_), Err(_)) | (Err(_), Ok(_)) => false,
    }
}

// Whether both evaluators give the expression this value or this refusal, by rows.
fn agree_by_rows(alloc: Global, expr: &Expr, inputs: &[CooMatrix<W64>]) -> bool {
    let slow = expression_value(alloc, expr, inputs);
    are_equal(&evaluate_rows(alloc, expr, inputs), &slow)
}

// The columns of the value, as the rows of the transpose.
fn evaluate_transposed(
    alloc: Global,
    expr: &Expr,
    inputs: &[CooMatrix<W64>],
) -> Result<CsrMatrix<W64>, ExprError> {
    match evaluate_cols(alloc, expr, inputs) {
        Ok(value) => Ok(value.transpose_as_csr()),
        Err(error) => Err(error),
    }
}

// The same by columns.
fn agree_by_cols(alloc: Global, expr: &Expr, transposed: &Expr, inputs: &[CooMatrix<W64>]) -> bool {
    let slow = expression_value(alloc, transposed, inputs);
    are_equal(&evaluate_transposed(alloc, expr, inputs), &slow)
}

// The expression of the words, transposed.
fn transposed(alloc: Global, words: &str) -> Result<Expr, ExprError> {
    let mut text = String::from_str(alloc, words)?;
    text.push_str(" t")?;
    Expr::from_words(alloc, &text)
}

// Whether the evaluators agree on the words, by rows and by columns.
fn agree(alloc: Global, words: &str, inputs: &[CooMatrix<W64>]) -> Result<bool, ExprError> {
    let expr = Expr::from_words(alloc, words)?;
    agree_on(alloc, words, &expr, inputs)
}

// The same of the expression that the words say.
fn agree_on(
    alloc: Global,
    words: &str,
    expr: &Expr,
    inputs: &[CooMatrix<W64>],
) -> Result<bool, ExprError> {
    let transposed = transposed(alloc, words)?;
    Ok(agree_by_rows(alloc, expr, inputs) && agree_by_cols(alloc, expr, &transposed, inputs))
}

// The last word is none.
const WORDS: [&str; 10] = ["1 ", "2 ", "3 ", "4 ", "+ ", "- ", "* ", "t ", "n ", ""];

// Five words, one for each digit of the number.
fn short_text(alloc: Global, number: usize) -> Result<String, AllocError> {
    let mut text = String::new(alloc);
    let mut left = number;
    for _ in 0..5 {
        text.push_str(WORDS[left % 10])?;
        left /= 10;
    }
    Ok(text)
}

// Whether the evaluators agree on the text of a number, or none if it says no expression.
fn agree_on_short(
    alloc: Global,
    number: usize,
    inputs: &[CooMatrix<W64>],
) -> Result<Option<bool>, ExprError> {
    let text = short_text(alloc, number)?;
    match agree(alloc, &text, inputs) {
        Ok(agreed) => Ok(Some(agreed)),
        Err(ExprError::OutOfMemory) => Err(ExprError::OutOfMemory),
        Err(_) => Ok(None),
    }
}

// The number of texts that say an expression, or the number of the first on which the evaluators differ.
fn count_agreed(
    alloc: Global,
    inputs: &[CooMatrix<W64>],
) -> Result<Result<usize, usize>, ExprError> {
    let mut count: usize = 0;
    for number in 0..100_000 {
        match agree_on_short(alloc, number, inputs)? {
            Some(true) => count = count.saturating_add(1),
            Some(false) => return Ok(Err(number)),
            None => {}
        }
    }
    Ok(Ok(count))
}

// The same over the small matrices.
fn count_agreed_on_small(alloc: Global) -> Result<Result<usize, usize>, ExprError> {
    let inputs = matrices(alloc, SMALL)?;
    count_agreed(alloc, &inputs)
}

#[test]
fn all_expressions_of_five_words(rt: HostRuntime) -> Result<(), Fail> {
    let count = count_agreed_on_small(rt.alloc())?;
    assert!(rt; count == Ok(4708), "{count:?}");
    Ok(())
}

// A word, and the number of operands after it, which the words that are left can reduce to one.
fn next_word(choice: usize, height: usize, left: usize) -> (&'static str, usize) {
    if height == 0 || (height <= left && choice % 8 < 3) {
        (WORDS[choice % 3], height.saturating_add(1))
    } else if height > left.saturating_add(1) || (height > 1 && choice % 8 < 6) {
        (WORDS[4 + choice % 3], height.saturating_sub(1))
    } else {
        (WORDS[7 + choice % 2], height)
    }
}

// This many words that say an expression, by a linear congruential generator (Knuth's MMIX).
fn long_text(alloc: Global, count: usize) -> Result<String, AllocError> {
    let mut text = String::new(alloc);
    let mut state: u64 = 1;
    let mut height = 0;
    for left in (0..count).rev() {
        state = state
            .wrapping_mul(6364136223846793005)
            .wrapping_add(1442695040888963407);
        let (word, after) = next_word(usize::from(state.to_be_bytes()[0]), height, left);
        text.push_str(word)?;
        height = after;
    }
    Ok(text)
}

// Whether the evaluators agree on a text of a thousand words over these matrices.
fn agree_on_long(alloc: Global, inputs: &[CooMatrix<W64>]) -> Result<bool, ExprError> {
    let text = long_text(alloc, 1000)?;
    if text.len() != 2000 {
        return Ok(false);
    }
    agree(alloc, &text, inputs)
}

// The same over the square matrices.
fn agree_on_long_of_square(alloc: Global) -> Result<bool, ExprError> {
    let inputs = matrices(alloc, SQUARE)?;
    agree_on_long(alloc, &inputs)
}

#[test]
fn an_expression_of_a_thousand_words(rt: HostRuntime) -> Result<(), Fail> {
    assert!(rt; agree_on_long_of_square(rt.alloc())?);
    Ok(())
}
