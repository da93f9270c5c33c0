//! The value of an expression over the texts of files, as a text.

ghost use Rattle.std.specs.Prelude.{IfOk, IfErr, map, string_bytes};
ghost use Rattle.sparse_compressed.specs.Compressed.{IsSound};
ghost use Rattle.sparse_expr.specs.PostfixWords.{words_of};
ghost use Rattle.mtxkit_eval.specs.Evaluated.{AllMeanWhole, HasText, HasValueBy, IsEvalFailure};
ghost use Rattle.mtxkit_eval.specs.Evaluated.{IsFirstMisread, IsUnparsed, IsValueFailure};
ghost use Rattle.mtxkit_eval.specs.Evaluated.{WritesValue};
ghost use Rattle.sparse_expr.specs.PostfixWords.{IsSaid};

use crate::error::{EvalError, expression_fault};
use crate::values::{evaluate_exact, evaluate_modulo};
use mtxkit_texts::{Failure, load_exact};
use sparse_algebra::scalar::W128;
use sparse_convert::serial::convert_csr_csc;
use sparse_csr_csc::csr::CsrMatrix;
use sparse_expr::{Expr, Form};
use sparse_io::{Banner, save_to_matrix_market_str_with};
use std::alloc::{AllocError, Global};

/// Returns the text of the value of an expression over the matrices of these texts. The expression is given by words in
/// postfix order, as for [`Expr::from_words`].
///
/// The values are those over the integers, or their remainders by `modulus` if there is one.
///
/// # Errors
///
/// Returns `Expression` if the words are not an expression, `Failed` with the failure of
/// [`load_exact`](mtxkit_texts::load_exact) for the first text that has one, and otherwise the errors of
/// [`evaluate_exact`] or [`evaluate_modulo`].
///
/// # Examples
///
/// ```rust
/// fn a_square_is_written(alloc: Global) -> Result<bool, Fail> {
///     let text = "%%MatrixMarket matrix coordinate integer general\n1 1 1\n1 1 3\n";
///     let texts = vec![in alloc; String::from_str(alloc, text)?]?;
///     let square = eval_text(alloc, None, Form::Rows, "1 1 *", &texts)?;
///     Ok(square.as_str().ends_with("1 1 1\n1 1 9\n"))
/// }
/// ```
pub fn eval_text(
    alloc: Global,
    modulus: Option<u64>,
    order: Form,
    words: &str,
    texts: &[String],
) -> Result<String, EvalError>
    ensures written { IfOk result (λ written. WritesValue modulus order words.now
        (map string_bytes texts.now) (string_bytes written)) }
    ensures refused { IfErr result
        (IsEvalFailure modulus words.now (map string_bytes texts.now)) }
{
    let expr = parsed(alloc, words)?;
    let inputs = load_all(alloc, texts)?;
    let value = evaluate(alloc, modulus, &expr, &inputs)?;
    Ok(written_in(alloc, order, &value)?)
}

// Returns the expression that words denote.
fn parsed(alloc: Global, words: &str) -> Result<Expr, EvalError>
    ensures said { IfOk result (IsSaid (words_of words.now)) }
    ensures refused { IfErr result (IsUnparsed words.now) }
{
    match Expr::from_words(alloc, words) {
        Ok(expr) => Ok(expr),
        Err(error) => Err(expression_fault(error)),
    }
}

// Returns the matrix of each text, with exact sums.
fn load_all(alloc: Global, texts: &[String]) -> Result<Vec<CsrMatrix<W128>>, Failure>
    ensures meant { IfOk result (λ v. AllMeanWhole (map string_bytes texts.now) v.items) }
    ensures refused { IfErr result (IsFirstMisread (map string_bytes texts.now)) }
{
    let mut matrices = Vec::new(alloc);
    for (index, text) in texts.iter().enumerate() {
        let loaded = load_exact(alloc, index + 1, text.as_str())?;
        matrices.push(loaded.matrix)?;
    }
    Ok(matrices)
}

// Returns the value of an expression, over the integers or modulo a number.
fn evaluate(
    alloc: Global,
    modulus: Option<u64>,
    expr: &Expr,
    inputs: &[CsrMatrix<W128>],
) -> Result<CsrMatrix<W128>, EvalError>
    ensures value { IfOk result (HasValueBy modulus inputs.now expr.now) }
    ensures refused { IfErr result (IsValueFailure modulus inputs.now expr.now) }
{
    match modulus {
        None => evaluate_exact(alloc, expr, inputs),
        Some(modulus) => evaluate_modulo(alloc, modulus, expr, inputs),
    }
}

// Returns the text of a matrix, row by row or column by column.
fn written_in(alloc: Global, order: Form, matrix: &CsrMatrix<W128>) -> Result<String, AllocError>
    ensures { IfOk result (λ written. HasText order matrix.now (string_bytes written)) }
{
    match order {
        Form::Rows => save_to_matrix_market_str_with(alloc, matrix, Banner::MixedCase),
        Form::Cols => {
            let columns = convert_csr_csc(alloc, matrix)?;
            save_to_matrix_market_str_with(alloc, &columns, Banner::MixedCase)
        }
    }
}
