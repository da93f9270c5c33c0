//! Permutations: how they are made, inverted and composed.

use case_words::drawing::draw_indices;
use case_words::failure::Failure;
use case_words::templates::Operands;
use case_words::turn::Turn;
use case_words::words::{Word, index_from};
use nalgebra_sparse::ordering::Permutation;
use std::alloc::{AllocError, Global};

/// A call of a permutation.
#[derive(Clone, Copy)]
pub enum OrderCall {
    Identity,
    Of,
    Copy,
    Inverse,
    Compose,
}

pub const ORDER_CALLS: &[(&str, OrderCall)] = &[
    ("order identity k", OrderCall::Identity),
    ("order of ..", OrderCall::Of),
    ("order copy ..", OrderCall::Copy),
    ("order inverse ..", OrderCall::Inverse),
    ("order compose ..", OrderCall::Compose),
];

/// Returns the answer of one of these calls.
pub fn order_call(
    turn: &mut Turn,
    call: OrderCall,
    given: Operands<'_>,
) -> Result<String, Failure> {
    match call {
        OrderCall::Identity => identity(turn, index_from(given.k)?),
        OrderCall::Of => of_indices(turn, given.rest),
        OrderCall::Copy => copy(turn, given.rest),
        OrderCall::Inverse => inverse(turn, given.rest),
        OrderCall::Compose => compose(turn, given.rest),
    }
}

/// Returns the permutation of the order that words write.
pub fn permutation_of(alloc: Global, words: &[Word<'_>]) -> Result<Permutation, Failure> {
    Ok(Permutation::try_from_order(alloc, indices_of(alloc, words)?)?)
}

/// Returns the text of the permutation that a call made.
pub fn made_order(alloc: Global, made: Result<Permutation, AllocError>) -> Result<String, Failure> {
    order_text(alloc, &made?)
}

// The indices of a permutation, whose number must be its length.
fn order_text(alloc: Global, permutation: &Permutation) -> Result<String, Failure> {
    let order = permutation.order();
    if permutation.len() != order.len() || permutation.is_empty() != order.is_empty() {
        return Err(Failure::Unreadable("an order has another length"));
    }
    let mut out = String::from_str(alloc, "order")?;
    draw_indices(order, &mut out)?;
    Ok(out)
}

fn indices_of(alloc: Global, words: &[Word<'_>]) -> Result<Vec<usize>, Failure> {
    let mut indices = Vec::new(alloc);
    for word in words {
        match *word {
            Word::Number(number) => indices.push(index_from(number)?)?,
            _ => return Err(Failure::Unreadable("a word is not an index")),
        }
    }
    Ok(indices)
}

fn identity(turn: &mut Turn, size: usize) -> Result<String, Failure> {
    turn.begin();
    let made = turn.end(Permutation::identity(turn.alloc(), size));
    made_order(turn.alloc(), made)
}

fn of_indices(turn: &mut Turn, words: &[Word<'_>]) -> Result<String, Failure> {
    let indices = indices_of(turn.alloc(), words)?;
    turn.begin();
    let made = turn.end(Permutation::try_from_order(turn.alloc(), indices))?;
    order_text(turn.alloc(), &made)
}

// A copy, which must equal the permutation.
fn copy(turn: &mut Turn, words: &[Word<'_>]) -> Result<String, Failure> {
    let permutation = permutation_of(turn.alloc(), words)?;
    turn.begin();
    let copy = turn.end(permutation.clone(turn.alloc()))?;
    if copy != permutation {
        return Err(Failure::Unreadable("a copy is another permutation"));
    }
    order_text(turn.alloc(), &copy)
}

fn inverse(turn: &mut Turn, words: &[Word<'_>]) -> Result<String, Failure> {
    let permutation = permutation_of(turn.alloc(), words)?;
    turn.begin();
    let made = turn.end(permutation.inverse(turn.alloc()));
    made_order(turn.alloc(), made)
}

// The permutation of the words before the name `then`, followed by that of the words after it.
fn compose(turn: &mut Turn, words: &[Word<'_>]) -> Result<String, Failure> {
    let (first, next) = around_then(words)?;
    let first = permutation_of(turn.alloc(), first)?;
    let next = permutation_of(turn.alloc(), next)?;
    turn.begin();
    let made = turn.end(first.compose(turn.alloc(), &next))?;
    order_text(turn.alloc(), &made)
}

fn around_then<'a>(words: &'a [Word<'a>]) -> Result<(&'a [Word<'a>], &'a [Word<'a>]), Failure> {
    for (at, word) in words.iter().enumerate() {
        if let Word::Name("then") = *word {
            let (first, next) = words.split_at(at);
            return Ok((first, &next[1..]));
        }
    }
    Err(Failure::Unreadable("the name `then` is missing"))
}
