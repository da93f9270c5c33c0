//! Evaluating an expression over Matrix Market texts, and writing its value as a text.

ghost use Rattle.std.specs.Prelude.{◌≡◌, ◌⊎◌, ◌+◌, ℕ, List, Ok, Err, map, OnOk, IfOk, OnErr, IfErr};
ghost use Rattle.std.specs.Prelude.{string_bytes};
ghost use Rattle.std.specs.Io.KnownBytes.{Appends};
ghost use Rattle.sparse_parser.specs.Meaning.{Means};
ghost use Rattle.sparse_io.specs.Sink.{AppendsSome};
ghost use Rattle.sparse_parser.specs.declared.error.MatrixMarketErrorKind.{MatrixMarketErrorKind};
ghost use Rattle.sparse_expr.specs.PostfixWords.{texts};
ghost use Rattle.sparse_expr.specs.Run.{AllMean, Writes, RefusesRun, scalar64};
ghost use Rattle.sparse_expr.specs.InnerRun.{RefusesLoad, RefusesSave, text_of_coo, numbers_of};
ghost use Rattle.sparse_expr.specs.Run.{effect};
ghost use Rattle.sparse_expr.specs.declared.error.ExprError.TheVariants.{Input, OutOfMemory};

use crate::error::ExprError;
use crate::evaluate::{evaluate_cols, evaluate_rows};
use crate::expr::Expr;
use sparse_algebra::recall;
use sparse_algebra::scalar::W64;
use sparse_coo_dense::coo::CooMatrix;
use sparse_io::{
    MatrixMarketErrorKind, MatrixMarketExport, Sink, load_coo_from_matrix_market_str,
    save_to_matrix_market,
};
use std::alloc::Global;

/// The order in which the entries of a matrix are written.
#[derive(Clone, Copy, Debug, PartialEq, Eq)]
pub enum Form {
    /// Row by row, with ascending columns.
    Rows,
    /// Column by column, with ascending rows.
    Cols,
}

/// Loads the texts in order, evaluates the expression over them, and writes its value.
///
/// # Errors
///
/// Returns `Input`, with the number of the text counted from 1, for the first text that has an error, and otherwise the
/// error of the expression; nothing is written in these cases. Returns `Write`, with the kind of the failure, if a
/// write fails; a prefix of the value's text has then been written. Returns `OutOfMemory` if an allocation fails;
/// nothing or a prefix has then been written.
///
/// # Examples
///
/// ```rust
/// fn a_square_is_written(alloc: Global) -> Result<bool, Fail> {
///     let text = "%%MatrixMarket matrix coordinate integer general\n1 1 1\n1 1 3\n";
///     let square = Expr::from_words(alloc, "1 1 *")?;
///     let mut out = Out::new(Vec::new(alloc));
///     run(alloc, Form::Rows, &square, &[text], &mut out)?;
///     Ok(out.into_inner().ends_with(b"1 1 1\n1 1 9\n"))
/// }
/// ```
pub fn run<W: Sink>(
    alloc: Global,
    order: Form,
    expr: &Expr,
    sources: &[&str],
    out: &mut W,
) -> Result<(), ExprError>
    ensures written { OnOk result
        (Writes order (texts sources.now) expr.now (W.accepted out.old) (W.accepted out.new)) }
    ensures none_failed { OnOk result (W.failures out.new ≡ W.failures out.old) }
    ensures refused { IfErr result (RefusesRun order (texts sources.now) expr.now
        (effect (W.accepted out.old) (W.accepted out.new)
        (W.failures out.old) (W.failures out.new) (W.last out.new))) }
{
    let inputs = load_all(alloc, sources)?;
    write_value(alloc, order, expr, &inputs, out)
}

/// As [`run`], but takes the texts by value, and drops each before it loads the next one.
///
/// It uses less memory than [`run`] if the caller does not need the texts any more.
///
/// # Examples
///
/// ```rust
/// fn a_double_is_written(alloc: Global) -> Result<bool, Fail> {
///     let text = "%%MatrixMarket matrix coordinate integer general\n1 1 1\n1 1 3\n";
///     let texts = vec![in alloc; String::from_str(alloc, text)?]?;
///     let double = Expr::from_words(alloc, "1 1 +")?;
///     let mut out = Out::new(Vec::new(alloc));
///     run_owned(alloc, Form::Rows, &double, texts, &mut out)?;
///     Ok(out.into_inner().ends_with(b"1 1 1\n1 1 6\n"))
/// }
/// ```
pub fn run_owned<W: Sink>(
    alloc: Global,
    order: Form,
    expr: &Expr,
    sources: Vec<String>,
    out: &mut W,
) -> Result<(), ExprError>
    ensures written { OnOk result (Writes order (map string_bytes sources.items) expr.now
        (W.accepted out.old) (W.accepted out.new)) }
    ensures none_failed { OnOk result (W.failures out.new ≡ W.failures out.old) }
    ensures refused { IfErr result (RefusesRun order (map string_bytes sources.items) expr.now
        (effect (W.accepted out.old) (W.accepted out.new)
        (W.failures out.old) (W.failures out.new) (W.last out.new))) }
{
    let inputs = load_owned(alloc, sources)?;
    write_value(alloc, order, expr, &inputs, out)
}

// Evaluates the expression over the loaded lists of triplets, and writes its value.
fn write_value<W: Sink>(
    alloc: Global,
    order: Form,
    expr: &Expr,
    inputs: &[CooMatrix<W64>],
    out: &mut W,
) -> Result<(), ExprError>
    ensures written { OnOk result ((texts : List (List ℕ))
        → AllMean texts (map numbers_of inputs.now)
        → Writes order texts expr.now (W.accepted out.old) (W.accepted out.new)) }
    ensures none_failed { OnOk result (W.failures out.new ≡ W.failures out.old) }
    ensures refused { IfErr result (λ e. (texts : List (List ℕ))
        → AllMean texts (map numbers_of inputs.now)
        → RefusesRun order texts expr.now (effect (W.accepted out.old) (W.accepted out.new)
        (W.failures out.old) (W.failures out.new) (W.last out.new)) e) }
{
    match order {
        Form::Rows => {
            let value = evaluate_rows(alloc, expr, inputs)?;
            recall(value.values());
            save(alloc, &value, out)
        }
        Form::Cols => {
            let value = evaluate_cols(alloc, expr, inputs)?;
            recall(value.values());
            save(alloc, &value, out)
        }
    }
}

// Loads the texts in order.
fn load_all(alloc: Global, sources: &[&str]) -> Result<Vec<CooMatrix<W64>>, ExprError>
    ensures meant { IfOk result (λ v. AllMean (texts sources.now) (map numbers_of v.items)) }
    ensures refused { IfErr result (RefusesLoad (texts sources.now)) }
{
    let mut inputs = Vec::new(alloc);
    for (index, text) in sources.iter().enumerate() {
        inputs.push(load(alloc, index + 1, text)?)?;
    }
    Ok(inputs)
}

// Loads the texts in order, and drops each before the next one is loaded.
fn load_owned(alloc: Global, sources: Vec<String>) -> Result<Vec<CooMatrix<W64>>, ExprError>
    ensures meant { IfOk result
        (λ v. AllMean (map string_bytes sources.items) (map numbers_of v.items)) }
    ensures refused { IfErr result (RefusesLoad (map string_bytes sources.items)) }
{
    let mut inputs = Vec::new(alloc);
    for text in sources {
        inputs.push(load(alloc, inputs.len() + 1, text.as_str())?)?;
    }
    Ok(inputs)
}

// Loads a text. Its number is that of the error, if it has one.
fn load(alloc: Global, number: usize, text: &str) -> Result<CooMatrix<W64>, ExprError>
    ensures meant { IfOk result (λ m. Means scalar64 text.now (Ok (numbers_of m))) }
    ensures refused { IfErr result (λ e. (e ≡ OutOfMemory)
        ⊎ ((kind : MatrixMarketErrorKind) × (e ≡ Input number kind)
        × Means scalar64 text.now (Err kind))) }
{
    match load_coo_from_matrix_market_str(alloc, text) {
        Ok(matrix) => Ok(matrix),
        Err(error) => match error.kind() {
            MatrixMarketErrorKind::OutOfMemory => Err(ExprError::OutOfMemory),
            kind => Err(ExprError::Input(number, kind)),
        },
    }
}

// Writes a matrix in the order of its format.
fn save<S, W>(alloc: Global, matrix: &S, out: &mut W) -> Result<(), ExprError>
where
    S: MatrixMarketExport<W64>,
    W: Sink,
    ensures none_failed { OnOk result (W.failures out.new ≡ W.failures out.old) }
    ensures all { OnOk result
        (Appends (W.accepted out.old) (W.accepted out.new) (text_of_coo (S.exported matrix.now))) }
    ensures prefix { OnErr result
        (AppendsSome (W.accepted out.old) (W.accepted out.new) (text_of_coo (S.exported matrix.now))) }
    ensures refused { IfErr result (RefusesSave
        (effect (W.accepted out.old) (W.accepted out.new)
        (W.failures out.old) (W.failures out.new) (W.last out.new))) }
{
    match save_to_matrix_market(alloc, out, matrix) {
        Ok(()) => Ok(()),
        Err(error) => match error.kind() {
            MatrixMarketErrorKind::IOError(kind) => Err(ExprError::Write(kind)),
            _ => Err(ExprError::OutOfMemory),
        },
    }
}
