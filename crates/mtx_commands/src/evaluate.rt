//! The commands `mtx rows` and `mtx cols`: the value of an expression over files.

ghost use Rattle.std.specs.Prelude.{◌≡◌, OnOk, OnErr, IfErr, map, string_bytes};
ghost use Rattle.nalgebra_sparse.specs.PostfixWords.{texts};
ghost use Rattle.nalgebra_sparse.specs.Run.{effect, RefusesRun, Writes};
ghost use Rattle.sparse_expr.specs.declared.error.ExprError.{ExprError};
ghost use Rattle.mtx_commands.specs.Commands.{IsEvaluated};
ghost use Rattle.mtx_commands.specs.Failures.{IsUnevaluated};
ghost use Rattle.mtx_commands.specs.Writes.{HasBegun};
ghost use Rattle.mtx_commands.specs.declared.cli.Failure.TheVariants.{Refused};

use crate::cli::Failure;
use crate::inputs::read_all;
use file_readings::Texts;
use nalgebra_sparse::expr::{Expr, Form, run_owned};
use nalgebra_sparse::io::Sink;
use std::alloc::Global;

/// Parses the expression, reads the files in order, and writes the expression's value over their texts.
#[tactic(auto, using(crate::proofs::Begun::not_begun))]
pub(crate) fn evaluate<T, W>(
    alloc: Global,
    inputs: &mut T,
    form: Form,
    expression: &str,
    paths: &[&str],
    out: &mut W,
) -> Result<(), Failure>
where
    T: Texts,
    W: Sink,
    ensures evaluated { OnOk result (IsEvaluated form expression.now (texts paths.now)
        (T.readings inputs.old) (T.readings inputs.new)
        (W.accepted out.old) (W.accepted out.new)) }
    ensures begun { OnErr result (HasBegun (IsEvaluated form expression.now (texts paths.now)
        (T.readings inputs.old) (T.readings inputs.new))
        (W.accepted out.old) (W.accepted out.new)) }
    ensures unfailed { OnOk result (W.failures out.new ≡ W.failures out.old) }
    ensures failed { IfErr result (IsUnevaluated form expression.now (texts paths.now)
        (T.readings inputs.old) (T.readings inputs.new)
        (effect (W.accepted out.old) (W.accepted out.new)
        (W.failures out.old) (W.failures out.new) (W.last out.new))) }
{
    let expr = Expr::from_words(alloc, expression)?;
    let contents = read_all(alloc, inputs, paths)?;
    write_value(alloc, form, &expr, contents, out)
}

// Writes the value of an expression whose inputs are these texts. Each text is dropped once it is parsed.
fn write_value<W: Sink>(
    alloc: Global,
    form: Form,
    expr: &Expr,
    sources: Vec<String>,
    out: &mut W,
) -> Result<(), Failure>
    ensures written { OnOk result (Writes form (map string_bytes sources.items) expr.now
        (W.accepted out.old) (W.accepted out.new)) }
    ensures begun { OnErr result (HasBegun (Writes form (map string_bytes sources.items) expr.now)
        (W.accepted out.old) (W.accepted out.new)) }
    ensures unfailed { OnOk result (W.failures out.new ≡ W.failures out.old) }
    ensures failed { IfErr result (λ e. (error : ExprError) × (e ≡ Refused error)
        × RefusesRun form (map string_bytes sources.items) expr.now
        (effect (W.accepted out.old) (W.accepted out.new)
        (W.failures out.old) (W.failures out.new) (W.last out.new)) error) }
{
    run_owned(alloc, form, expr, sources, out)?;
    Ok(())
}
