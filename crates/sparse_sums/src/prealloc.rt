//! Sums into the pattern of a given matrix.

ghost use Rattle.std.specs.Prelude.{◌≡◌, ℕ, ◌↔◌, true, false, IsTrue, IsOk, IfErr, OnOk};
ghost use Rattle.std.specs.Prelude.{OnErr, length, slice_index_or};
ghost use Rattle.sparse_algebra.specs.declared.error.OperationErrorKind.TheVariants.{InvalidPattern};
ghost use Rattle.sparse_compressed.specs.Compressed.{IsOffset, IsSound};
ghost use Rattle.sparse_compressed.specs.PlainOfLanes.{plain_of_rows, plain_of_cols};
ghost use Rattle.sparse_algebra.specs.Operands.{plain_op};
ghost use Rattle.sparse_algebra.specs.Prealloc.{plain_update, IsCovered};
ghost use Rattle.sparse_sums.specs.InnerTargets.{lanes_of_op, ContainsPatternOf};
ghost use Rattle.sparse_compressed.specs.InnerUpdates.{AreUpdated};
ghost use Rattle.sparse_algebra.specs.Prealloc.{plain_transpose_if};

use crate::in_order::{add_in_order, covers_lanes};
use sparse_algebra::error::OperationError;
use sparse_algebra::operand::Op;
use sparse_algebra::recall;
use sparse_algebra::scalar::Ring;
use sparse_compressed::scaling::scale_values;
use sparse_compressed::{CsMatrix, offset_of};
use sparse_csr_csc::csc::CscMatrix;
use sparse_csr_csc::csr::CsrMatrix;
use sparse_pattern::pattern::SparsityPattern;

/// Replaces `c` by `beta * c + alpha * op(a)`, and keeps the pattern of `c`.
///
/// `op(a)` must have the shape of `c`.
///
/// Fails with [`InvalidPattern`](sparse_algebra::error::OperationErrorKind::InvalidPattern) if and only if `op(a)` has
/// an entry at a row and column where `c` has none, whatever its value is; `c` is then unchanged.
///
/// Without a transpose it makes two passes over the rows of `c` and of `a` side by side; with one, two binary searches
/// in a row of `c` for each entry of `a`; in both cases one more pass over the values of `c`. Allocates nothing.
pub fn spadd_csr_prealloc<T: Ring>(
    beta: T,
    c: &mut CsrMatrix<T>,
    alpha: T,
    a: Op<&CsrMatrix<T>>,
) -> Result<(), OperationError>
    requires rows { (plain_op T.ring (λ m. plain_of_rows T.ring T.value m.now) a).rows
        ≡ c.old.pattern.major_dim }
    requires cols { (plain_op T.ring (λ m. plain_of_rows T.ring T.value m.now) a).cols
        ≡ c.old.pattern.minor_dim }
    ensures covered { IsOk result
        ↔ IsCovered (plain_op T.ring (λ m. plain_of_rows T.ring T.value m.now) a.entry)
        (plain_of_rows T.ring T.value c.old) }
    ensures kind { IfErr result (λ e. e ≡ InvalidPattern) }
    ensures unchanged { OnErr result (c.new ≡ c.old) }
    ensures pattern { c.new.pattern ≡ c.old.pattern }
    ensures updated { OnOk result (plain_of_rows T.ring T.value c.new
        ≡ plain_update T.ring (T.value beta) (plain_of_rows T.ring T.value c.old) (T.value alpha)
        (plain_op T.ring (λ m. plain_of_rows T.ring T.value m.now) a.entry)) }
{
    recall(c.values());
    let (pattern, values) = c.pattern_and_values_mut();
    match a {
        Op::NoOp(a) => add_into(beta, pattern, values, alpha, false, a.cs()),
        Op::Transpose(a) => add_into(beta, pattern, values, alpha, true, a.cs()),
    }
}

/// Replaces `c` by `beta * c + alpha * op(a)`, and keeps the pattern of `c`.
///
/// `op(a)` must have the shape of `c`.
///
/// Fails with [`InvalidPattern`](sparse_algebra::error::OperationErrorKind::InvalidPattern) if and only if `op(a)` has
/// an entry at a row and column where `c` has none, whatever its value is; `c` is then unchanged.
///
/// Without a transpose it makes two passes over the columns of `c` and of `a` side by side; with one, two binary
/// searches in a column of `c` for each entry of `a`; in both cases one more pass over the values of `c`. Allocates
/// nothing.
pub fn spadd_csc_prealloc<T: Ring>(
    beta: T,
    c: &mut CscMatrix<T>,
    alpha: T,
    a: Op<&CscMatrix<T>>,
) -> Result<(), OperationError>
    requires rows { (plain_op T.ring (λ m. plain_of_cols T.ring T.value m.now) a).rows
        ≡ c.old.pattern.minor_dim }
    requires cols { (plain_op T.ring (λ m. plain_of_cols T.ring T.value m.now) a).cols
        ≡ c.old.pattern.major_dim }
    ensures covered { IsOk result
        ↔ IsCovered (plain_op T.ring (λ m. plain_of_cols T.ring T.value m.now) a.entry)
        (plain_of_cols T.ring T.value c.old) }
    ensures kind { IfErr result (λ e. e ≡ InvalidPattern) }
    ensures unchanged { OnErr result (c.new ≡ c.old) }
    ensures pattern { c.new.pattern ≡ c.old.pattern }
    ensures updated { OnOk result (plain_of_cols T.ring T.value c.new
        ≡ plain_update T.ring (T.value beta) (plain_of_cols T.ring T.value c.old) (T.value alpha)
        (plain_op T.ring (λ m. plain_of_cols T.ring T.value m.now) a.entry)) }
{
    recall(c.values());
    let (pattern, values) = c.pattern_and_values_mut();
    match a {
        Op::NoOp(a) => add_into(beta, pattern, values, alpha, false, a.cs()),
        Op::Transpose(a) => add_into(beta, pattern, values, alpha, true, a.cs()),
    }
}

// Multiplies the values of the target by `beta` and adds `alpha` times those of the operand, or of its transpose.
// Returns an error, before any value is written, if the target lacks an entry of the operand.
fn add_into<T: Ring>(
    beta: T,
    pattern: &SparsityPattern,
    values: &mut [T],
    alpha: T,
    transposed: bool,
    a: &CsMatrix<T>,
) -> Result<(), OperationError>
    requires count { length values.old ≡ length pattern.now.indices }
    requires lanes { lanes_of_op transposed a.now.pattern ≡ pattern.now.major_dim }
    ensures count { length values.new ≡ length values.old }
    ensures covered { IsOk result ↔ ContainsPatternOf pattern.now transposed a.now.pattern }
    ensures kind { IfErr result (λ e. e ≡ InvalidPattern) }
    ensures unchanged { OnErr result (values.new ≡ values.old) }
    ensures sound { IsSound a.now }
    ensures added { OnOk result (AreUpdated T.ring T.value T.zero_value pattern.now
        (T.value beta) (T.value alpha)
        (plain_transpose_if T.ring transposed (plain_of_rows T.ring T.value a.now)).value
        values.old values.new) }
{
    recall(pattern.major_offsets());
    if !covers(pattern, transposed, a.pattern()) {
        return Err(OperationError::of_sum_pattern());
    }
    scale_values(beta, values);
    add_entries(pattern, values, alpha, transposed, a);
    Ok(())
}

// Returns whether the pattern of the target contains that of the operand, or of its transpose.
fn covers(target: &SparsityPattern, transposed: bool, a: &SparsityPattern) -> bool
    requires { lanes_of_op transposed a.now ≡ target.now.major_dim }
    ensures { IsTrue result ↔ ContainsPatternOf target.now transposed a.now }
{
    if transposed {
        covers_transposed(target, a)
    } else {
        covers_lanes(target, a)
    }
}

// Adds `alpha` times each entry of the operand, or of its transpose, to the entry of the target with the same row and
// column.
fn add_entries<T: Ring>(
    target: &SparsityPattern,
    values: &mut [T],
    alpha: T,
    transposed: bool,
    a: &CsMatrix<T>,
)
    requires count { length values.old ≡ length target.now.indices }
    requires lanes { lanes_of_op transposed a.now.pattern ≡ target.now.major_dim }
    requires covered { ContainsPatternOf target.now transposed a.now.pattern }
    ensures count { length values.new ≡ length values.old }
    ensures added { (i j p : ℕ) → IsOffset target.now i j p
        → T.value (slice_index_or values.new p T.zero_value)
        ≡ T.ring.add (T.value (slice_index_or values.old p T.zero_value))
        (T.ring.mul (T.value alpha)
        ((plain_transpose_if T.ring transposed (plain_of_rows T.ring T.value a.now)).value i j)) }
{
    if transposed {
        add_transposed(target, values, alpha, a);
    } else {
        add_in_order(target, values, alpha, a);
    }
}

// Returns whether the pattern of the target contains that of the operand's transpose.
fn covers_transposed(target: &SparsityPattern, a: &SparsityPattern) -> bool
    requires { a.now.minor_dim ≡ target.now.major_dim }
    ensures { IsTrue result ↔ ContainsPatternOf target.now true a.now }
{
    recall(target.major_offsets());
    recall(a.major_offsets());
    for (i, j) in a.entries() {
        match offset_of(target, j, i) {
            Some(_) => {}
            None => return false,
        }
    }
    true
}

// Adds `alpha` times each entry of the operand's transpose to the entry of the target with the same row and column.
fn add_transposed<T: Ring>(target: &SparsityPattern, values: &mut [T], alpha: T, a: &CsMatrix<T>)
    requires count { length values.old ≡ length target.now.indices }
    requires covered { ContainsPatternOf target.now true a.now.pattern }
    ensures count { length values.new ≡ length values.old }
    ensures added { (i j p : ℕ) → IsOffset target.now i j p
        → T.value (slice_index_or values.new p T.zero_value)
        ≡ T.ring.add (T.value (slice_index_or values.old p T.zero_value))
        (T.ring.mul (T.value alpha)
        ((plain_of_rows T.ring T.value a.now).value j i)) }
{
    recall(target.major_offsets());
    for (i, j, value) in a.triplet_iter() {
        match offset_of(target, j, i) {
            Some(at) => values[at] = values[at].add(alpha.mul(*value)),
            None => {}
        }
    }
}
