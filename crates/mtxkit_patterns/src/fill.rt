//! Counts what the factor of a matrix fills in, in an order of its rows and columns.

ghost use Rattle.std.specs.Prelude.{◌≡◌, ℕ, List, IfOk, IfErr, length, string_bytes};
ghost use Rattle.sparse_permutation.specs.Permutations.{IsOrder};
ghost use Rattle.mtxkit_patterns.specs.FillTexts.{IsUnfilled, SaysFill, SaysFillIn, fill_in};
ghost use Rattle.mtxkit_patterns.specs.FillTexts.{WritesFill, WritesFillIn};
ghost use Rattle.mtxkit_patterns.specs.Orders.{IsNoSquare};

use crate::counts::{FillCounts, fill_counts};
use crate::fill_json::json_of;
use crate::fill_lines::lines_of;
use crate::order_error::OrderError;
use crate::order_reading::read_order;
use crate::orders::{load_pattern, square_pattern};
use crate::permuted::fit;
use crate::square::{Method, order_of, permuted_pattern};
use mtxkit_facts::ReportFormat;
use sparse_algebra::recall;
use sparse_pattern::pattern::SparsityPattern;
use sparse_permutation::permutation::Permutation;
use std::alloc::{AllocError, Global};

/// Returns the facts about the fill of the square matrix of a text, in the order that a method computes, or in its own
/// order if there is no method. The values may be real or complex.
///
/// # Errors
///
/// Returns the errors of [`order_text`](crate::order_text).
pub fn fill_text(
    alloc: Global,
    form: ReportFormat,
    method: Option<Method>,
    text: &str,
) -> Result<String, OrderError>
    ensures written { IfOk result
        (λ written. WritesFill form method text.now (string_bytes written)) }
    ensures refused { IfErr result (IsNoSquare 1 text.now) }
{
    let pattern = square_pattern(alloc, 1, text)?;
    match method {
        Some(method) => Ok(computed(alloc, form, method, &pattern)?),
        None => Ok(natural(alloc, form, pattern)?),
    }
}

/// Returns the facts about the fill of the square matrix of a text, in the order that another text means. The values
/// may be real or complex.
///
/// # Errors
///
/// Returns the errors of [`read_order`] for text 1, those of [`load_places`](mtxkit_texts::load_places) for text 2,
/// `NotSquare` if the matrix is not square, and otherwise `OtherLength` if the order has another length than the
/// matrix has rows. Otherwise fails only if an allocation fails.
pub fn fill_text_in_order(
    alloc: Global,
    form: ReportFormat,
    order: &str,
    text: &str,
) -> Result<String, OrderError>
    ensures written { IfOk result
        (λ written. WritesFillIn form order.now text.now (string_bytes written)) }
    ensures refused { IfErr result (IsUnfilled order.now text.now) }
{
    let order = read_order(alloc, 1, order)?;
    let pattern = load_pattern(alloc, 2, text)?;
    fit(pattern.major_dim(), pattern.minor_dim(), &order)?;
    Ok(permuted(alloc, form, &pattern, &order)?)
}

// Returns the facts about the fill of a square pattern in its own order.
fn natural(
    alloc: Global,
    form: ReportFormat,
    pattern: SparsityPattern,
) -> Result<String, AllocError>
    requires { pattern.major_dim ≡ pattern.minor_dim }
    ensures { IfOk result (λ written. SaysFill form pattern (string_bytes written)) }
{
    written_in(alloc, form, fill_counts(alloc, pattern)?)
}

// Returns counts in this form.
fn written_in(alloc: Global, form: ReportFormat, counts: FillCounts) -> Result<String, AllocError>
    ensures { IfOk result (λ written. string_bytes written ≡ fill_in form counts) }
{
    match form {
        ReportFormat::Lines => lines_of(alloc, counts),
        ReportFormat::Json => json_of(alloc, counts),
    }
}

// Returns the facts about the fill of a square pattern in the order that a method computes.
fn computed(
    alloc: Global,
    form: ReportFormat,
    method: Method,
    pattern: &SparsityPattern,
) -> Result<String, AllocError>
    requires { pattern.now.major_dim ≡ pattern.now.minor_dim }
    ensures { IfOk result (λ written. (order : List ℕ) × (IsOrder order
        × SaysFillIn form order pattern.now (string_bytes written))) }
{
    let order = order_of(alloc, method, pattern)?;
    recall(order.order());
    permuted(alloc, form, pattern, &order)
}

// Returns the facts about the fill of a square pattern in this order.
fn permuted(
    alloc: Global,
    form: ReportFormat,
    pattern: &SparsityPattern,
    order: &Permutation,
) -> Result<String, AllocError>
    requires square { pattern.now.major_dim ≡ pattern.now.minor_dim }
    requires rows { pattern.now.major_dim ≡ length order.now }
    ensures { IfOk result (λ written. SaysFillIn form order.now pattern.now (string_bytes written)) }
{
    natural(alloc, form, permuted_pattern(alloc, pattern, order)?)
}
