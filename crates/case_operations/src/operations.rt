//! Calls that are written with the signs of arithmetic, calls on vectors, and factorisations.

use crate::dense_products::{DenseProducts, dense_product, dense_product_into};
use crate::factors::{FACTORINGS, factored};
use crate::in_place::{CHANGES, InPlace, in_place};
use crate::numbers::number;
use crate::patterns::{PATTERNS, Patterns, joined_pattern};
use crate::products::{Products, product_into};
use crate::sums::{JOINS, Sums, joined, sum_into};
use crate::systems::solution;
use crate::unchecked::{Unchecked, Way, product_into_by};
use crate::vectors::{VECTORS, Vectors, with_vector};
use case_matrices::compressed::Compressed;
use case_words::failure::Failure;
use case_words::scalar::{Scalar, scalar_from};
use case_words::templates::{Operands, call_of};
use case_words::turn::Turn;
use case_words::words::Word;
use nalgebra_sparse::{CscMatrix, CsrMatrix};

/// The arithmetic of a format.
pub trait Operations<T: Scalar>: Sums<T>
    + InPlace<T>
    + Products<T>
    + Unchecked<T>
    + DenseProducts<T>
    + Patterns<T>
    + Vectors<T> {}

impl<T: Scalar> Operations<T> for CsrMatrix<T> {}

impl<T: Scalar> Operations<T> for CscMatrix<T> {}

/// Returns what a call of the arithmetic of matrices and scalars answers.
pub fn operation<T: Scalar, F: Compressed<T> + Operations<T>>(
    turn: &mut Turn,
    words: &[Word<'_>],
) -> Result<String, Failure> {
    if let Some((call, given)) = call_of(JOINS, words) {
        return joined::<T, F>(turn, call, given);
    }
    if let Some((call, given)) = call_of(UPDATES, words) {
        return updated_by::<T, F>(turn, call, given);
    }
    if let Some((call, given)) = call_of(CHANGES, words) {
        return in_place::<T, F>(turn, call, given);
    }
    if let Some((call, given)) = call_of(PATTERNS, words) {
        return joined_pattern::<T, F>(turn, call, given);
    }
    if let Some((call, given)) = call_of(VECTORS, words) {
        return with_vector::<T, F>(turn, call, given);
    }
    on_columns::<T, F>(turn, words)
}

// The answer of a product with a dense matrix, of a system or a factorisation by columns, or of numbers.
fn on_columns<T: Scalar, F: Compressed<T> + DenseProducts<T>>(
    turn: &mut Turn,
    words: &[Word<'_>],
) -> Result<String, Failure> {
    if let Some((call, given)) = call_of(WITH_DENSE, words) {
        return with_dense::<T, F>(turn, call, given);
    }
    if let Some((call, given)) = call_of(FACTORINGS, words) {
        return factored::<T>(turn, call, given);
    }
    number::<T>(turn, words)
}

/// A call that updates its target.
#[derive(Clone, Copy)]
enum Update {
    Sum,
    Product,
    Unchecked,
    Counted,
    Dense,
}

// Here k is alpha, and l is beta.
const UPDATES: &[(&str, Update)] = &[
    ("l C += k A", Update::Sum),
    ("l C += k A B", Update::Product),
    ("unchecked l C += k A B", Update::Unchecked),
    ("counted l C += k A B", Update::Counted),
    ("l C += k A * B", Update::Dense),
];

// The target after one of these calls.
fn updated_by<T: Scalar, F: Compressed<T> + Operations<T>>(
    turn: &mut Turn,
    call: Update,
    given: Operands<'_>,
) -> Result<String, Failure> {
    let scalars: (T, T) = (scalar_from(given.l)?, scalar_from(given.k)?);
    match call {
        Update::Sum => sum_into::<T, F>(turn, scalars, given),
        Update::Product => product_into::<T, F>(turn, scalars, given),
        Update::Unchecked => product_into_by::<T, F>(turn, (Way::Plain, scalars), given),
        Update::Counted => product_into_by::<T, F>(turn, (Way::Counted, scalars), given),
        Update::Dense => dense_product_into::<T, F>(turn.alloc(), scalars, given),
    }
}

#[derive(Clone, Copy)]
enum WithDense {
    Product,
    Solution,
}

const WITH_DENSE: &[(&str, WithDense)] = &[
    ("A * B", WithDense::Product),
    ("A \\ B", WithDense::Solution),
];

fn with_dense<T: Scalar, F: Compressed<T> + DenseProducts<T>>(
    turn: &mut Turn,
    call: WithDense,
    given: Operands<'_>,
) -> Result<String, Failure> {
    match call {
        WithDense::Product => dense_product::<T, F>(turn, given),
        WithDense::Solution => solution::<T>(turn.alloc(), given.a, given.b),
    }
}
