//! Orders the rows and columns of square patterns.

ghost use Rattle.std.specs.Prelude.{◌≡◌, IfOk, IfErr, string_bytes};
ghost use Rattle.mtxkit_texts.specs.AnyField.{IsPlacesFailure};
ghost use Rattle.mtxkit_patterns.specs.Orders.{IsNoSquare, MeansPattern, WritesOrder};

use crate::order_error::OrderError;
use crate::order_texts::write_order;
use crate::square::{Method, order_of};
use mtxkit_texts::{Failure, load_places};
use sparse_pattern::pattern::SparsityPattern;
use std::alloc::Global;

/// Returns the text of an order of the rows and columns of the square matrix of a text: an array of one column, in which
/// each number from 1 to the number of rows occurs once.
///
/// # Errors
///
/// Returns the errors of [`load_places`], and `NotSquare` if the matrix is not square. Otherwise fails only if an
/// allocation fails.
pub fn order_text(alloc: Global, method: Method, text: &str) -> Result<String, OrderError>
    ensures written { IfOk result (λ written. WritesOrder text.now (string_bytes written)) }
    ensures refused { IfErr result (IsNoSquare 1 text.now) }
{
    let pattern = square_pattern(alloc, 1, text)?;
    let order = order_of(alloc, method, &pattern)?;
    Ok(write_order(alloc, order.order())?)
}

/// Returns the square pattern that a text means, whatever its values are. `number` is that of the text in the command.
pub(crate) fn square_pattern(
    alloc: Global,
    number: usize,
    text: &str,
) -> Result<SparsityPattern, OrderError>
    ensures meant { IfOk result (MeansPattern text.now) }
    ensures square { IfOk result (λ p. p.major_dim ≡ p.minor_dim) }
    ensures refused { IfErr result (IsNoSquare number text.now) }
{
    let pattern = load_pattern(alloc, number, text)?;
    if pattern.major_dim() != pattern.minor_dim() {
        return Err(OrderError::NotSquare(number));
    }
    Ok(pattern)
}

/// Returns the pattern that a text means, whatever its values are. `number` is that of the text in the command.
pub(crate) fn load_pattern(
    alloc: Global,
    number: usize,
    text: &str,
) -> Result<SparsityPattern, Failure>
    ensures meant { IfOk result (MeansPattern text.now) }
    ensures refused { IfErr result (IsPlacesFailure number text.now) }
{
    let (pattern, _values) = load_places(alloc, number, text)?
        .matrix
        .into_pattern_and_values();
    Ok(pattern)
}
