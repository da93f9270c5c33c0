//! Exact factors of a matrix whose rows and columns are permuted.

use crate::orders::permutation_of;
use case_matrices::compressed::{plain_dense_of, square_of};
use case_words::drawing::{draw_values, picture};
use case_words::failure::Failure;
use case_words::scalar::Scalar;
use case_words::templates::Operands;
use case_words::turn::Turn;
use case_words::words::Word;
use nalgebra_sparse::ldl::Ldl;
use nalgebra_sparse::ops::Op;
use nalgebra_sparse::ordered::OrderedLdl;
use std::alloc::Global;

/// A call that factors a matrix in an order.
#[derive(Clone, Copy)]
pub enum OrderedCall {
    Given,
    GivenCopy,
    GivenSolution,
    Solution,
}

pub const ORDERED_CALLS: &[(&str, OrderedCall)] = &[
    ("ldl A in ..", OrderedCall::Given),
    ("copy ldl A in ..", OrderedCall::GivenCopy),
    ("ldl A \\ B in ..", OrderedCall::GivenSolution),
    ("ordered ldl A \\ B", OrderedCall::Solution),
];

/// Returns the answer of one of these calls.
pub fn ordered_call<T: Scalar>(
    turn: &mut Turn,
    call: OrderedCall,
    given: Operands<'_>,
) -> Result<String, Failure> {
    match call {
        OrderedCall::Given => factors::<T>(turn, given),
        OrderedCall::GivenCopy => copied::<T>(turn, given),
        OrderedCall::GivenSolution => solution::<T>(turn, given),
        OrderedCall::Solution => solution_by_degree::<T>(turn, given),
    }
}

// The factors in the order that words write.
fn in_order<T: Scalar>(
    turn: &mut Turn,
    a: Op<&str>,
    words: &[Word<'_>],
) -> Result<OrderedLdl<T>, Failure> {
    let alloc = turn.alloc();
    let matrix = square_of::<T>(alloc, a)?;
    let permutation = permutation_of(alloc, words)?;
    turn.begin();
    Ok(turn.end(Ldl::factor_in_order(alloc, &matrix, permutation))?)
}

fn factors<T: Scalar>(turn: &mut Turn, given: Operands<'_>) -> Result<String, Failure> {
    let ordered = in_order::<T>(turn, given.a, given.rest)?;
    factors_text(turn.alloc(), &ordered)
}

// The factor L, and after it the diagonal of D.
fn factors_text<T: Scalar>(alloc: Global, ordered: &OrderedLdl<T>) -> Result<String, Failure> {
    if ordered.permutation().len() != ordered.factors().l().nrows() {
        return Err(Failure::Unreadable("an order has another length"));
    }
    let mut out = picture(alloc, ordered.factors().l())?;
    draw_values(ordered.factors().d(), &mut out)?;
    Ok(out)
}

// The factors of a copy.
fn copied<T: Scalar>(turn: &mut Turn, given: Operands<'_>) -> Result<String, Failure> {
    let alloc = turn.alloc();
    let ordered = in_order::<T>(&mut Turn::new(alloc, 0, 0), given.a, given.rest)?;
    turn.begin();
    let copy = turn.end(ordered.clone(alloc))?;
    factors_text(alloc, &copy)
}

fn solution<T: Scalar>(turn: &mut Turn, given: Operands<'_>) -> Result<String, Failure> {
    let alloc = turn.alloc();
    let ordered = in_order::<T>(&mut Turn::new(alloc, 0, 0), given.a, given.rest)?;
    solved(turn, &ordered, given.b)
}

// The solution of a symmetric system, whose requests for memory are the turn's.
fn solved<T: Scalar>(
    turn: &mut Turn,
    ordered: &OrderedLdl<T>,
    b: Op<&str>,
) -> Result<String, Failure> {
    let alloc = turn.alloc();
    let mut x = plain_dense_of::<T>(alloc, b)?;
    if x.nrows() != ordered.permutation().len() {
        return Err(Failure::Misfit);
    }
    turn.begin();
    turn.end(ordered.solve_mut(alloc, &mut x))?;
    Ok(picture(alloc, &x)?)
}

// The solution in the order of `minimum_degree`.
fn solution_by_degree<T: Scalar>(turn: &mut Turn, given: Operands<'_>) -> Result<String, Failure> {
    let alloc = turn.alloc();
    let matrix = square_of::<T>(alloc, given.a)?;
    turn.begin();
    let ordered = turn.end(Ldl::factor_ordered(alloc, &matrix))?;
    solved(&mut Turn::new(alloc, 0, 0), &ordered, given.b)
}
