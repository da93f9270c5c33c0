//! Lists of triplets whose values are counted, and lists with reserved memory.

use crate::outcome::{Outcome, of_error};
use case_words::turn::Turn;
use nalgebra_sparse::CooMatrix;
use nalgebra_sparse::scalar::W64;
use std::alloc::{AllocError, Global};
use std::rc::Rc;

/// Returns the outcome of a call on a list.
pub fn run(turn: &mut Turn, call: &str) -> Outcome {
    match call {
        "CooMatrix::try_from_triplets_iter" => from_iterator(turn),
        "CooMatrix::reserve" => reserve(turn),
        _ => Outcome::Unknown,
    }
}

// Triplets whose values are shared, so that one can see whether they are dropped.
type Shared = (usize, usize, Rc<u8>);

// A list from an iterator. After a refusal no value is alive but the first.
fn from_iterator(turn: &mut Turn) -> Outcome {
    match shared(turn.alloc()) {
        Some((first, triplets)) => {
            let alloc = turn.alloc();
            turn.begin();
            let made = turn.end(CooMatrix::try_from_triplets_iter(
                alloc,
                3,
                3,
                triplets.into_iter(),
            ));
            let outcome = match made {
                Ok(list) => Outcome::Answered(list.nnz() as u64),
                Err(_) => Outcome::Refused,
            };
            outcome.leaving(Rc::strong_count(&first) == 1)
        }
        None => Outcome::Unready,
    }
}

fn shared(alloc: Global) -> Option<(Rc<u8>, Vec<Shared>)> {
    let first = Rc::new(alloc, 7).ok()?;
    let mut triplets = Vec::new(alloc);
    for row in 0..3 {
        for col in 0..3 {
            let value = first.clone().ok()?;
            triplets.push((row, col, value)).ok()?;
        }
    }
    Some((first, triplets))
}

// Room for five triplets, and five pushes, which make no request.
fn reserve(turn: &mut Turn) -> Outcome {
    let mut list = CooMatrix::new(turn.alloc(), 3, 3);
    turn.begin();
    match turn.end(list.reserve(5)) {
        Ok(()) => push_five(list),
        Err(error) => of_error(&error).leaving(list.nnz() == 0),
    }
}

fn push_five(mut list: CooMatrix<W64>) -> Outcome {
    for _ in 0..5 {
        match push(&mut list) {
            Some(Ok(())) => {}
            _ => return Outcome::Failed,
        }
    }
    Outcome::Answered(list.nnz() as u64)
}

fn push(list: &mut CooMatrix<W64>) -> Option<Result<(), AllocError>> {
    if list.nrows() < 2 || list.ncols() < 3 {
        return None;
    }
    Some(list.push(1, 2, W64::new(9)))
}
