//! Lists of triplets: how they grow, are cleared, written, copied, and taken from an iterator.

use case_matrices::compressed::{dense_of, made_list, updated};
use case_words::drawing::{draw_indices, draw_values, triplets};
use case_words::failure::Failure;
use case_words::picture::list_of;
use case_words::scalar::{Scalar, scalar_of};
use case_words::templates::Operands;
use case_words::turn::Turn;
use case_words::words::{Word, index_from, place_of, size_of};
use nalgebra_sparse::CooMatrix;
use nalgebra_sparse::dense::DMatrix;
use std::alloc::Global;

/// A call of a list.
#[derive(Clone, Copy)]
pub enum ListCall {
    Push,
    PushBlock,
    Reserve,
    Collect,
    Zeros,
    Copy,
    Data,
    Lists,
    Clear,
    Double,
}

pub const LISTS: &[(&str, ListCall)] = &[
    ("triplets push w A", ListCall::Push),
    ("triplets push w B A", ListCall::PushBlock),
    ("triplets reserve k A", ListCall::Reserve),
    ("triplets collect w ..", ListCall::Collect),
    ("triplets zeros w", ListCall::Zeros),
    ("triplets copy A", ListCall::Copy),
    ("triplets data A", ListCall::Data),
    ("triplets lists A", ListCall::Lists),
    ("triplets clear A", ListCall::Clear),
    ("triplets double A", ListCall::Double),
];

/// Returns the answer of one of these calls.
pub fn list_call<T: Scalar>(
    turn: &mut Turn,
    call: ListCall,
    given: Operands<'_>,
) -> Result<String, Failure> {
    match call {
        ListCall::Collect => collect::<T>(turn, size_of(given.w)?, given.rest),
        ListCall::Zeros => zeros::<T>(turn.alloc(), size_of(given.w)?),
        _ => of_list::<T>(turn, call, given),
    }
}

fn of_list<T: Scalar>(
    turn: &mut Turn,
    call: ListCall,
    given: Operands<'_>,
) -> Result<String, Failure> {
    let mut list: CooMatrix<T> = list_of(turn.alloc(), given.a.into_inner())?;
    match call {
        ListCall::Push => push(turn, &mut list, given.w),
        ListCall::PushBlock => push_block(turn, &mut list, given),
        ListCall::Reserve => reserve(turn, &mut list, given.k),
        ListCall::Copy => copy(turn, &list),
        ListCall::Data => data(turn, &list),
        ListCall::Lists => lists(turn.alloc(), list),
        ListCall::Clear => cleared(turn.alloc(), list),
        _ => doubled(turn.alloc(), list),
    }
}

// The triplets of a list.
fn drawn<T: Scalar>(alloc: Global, list: &CooMatrix<T>) -> Result<String, Failure> {
    Ok(triplets(alloc, list)?)
}

// The list with one more triplet.
fn push<T: Scalar>(
    turn: &mut Turn,
    list: &mut CooMatrix<T>,
    triplet: &str,
) -> Result<String, Failure> {
    let triplet = triplet_of(triplet)?;
    let before = drawn(turn.alloc(), list)?;
    turn.begin();
    let answer = turn.end(add_triplet(list, triplet));
    updated(answer, before, drawn(turn.alloc(), list))
}

fn add_triplet<T: Scalar>(
    list: &mut CooMatrix<T>,
    (row, col, value): (usize, usize, T),
) -> Result<(), Failure> {
    if row < list.nrows() && col < list.ncols() {
        return Ok(list.push(row, col, value)?);
    }
    Err(Failure::Misfit)
}

// The row, the column and the value that a word `(1,2)=3` writes.
fn triplet_of<T: Scalar>(word: &str) -> Result<(usize, usize, T), Failure> {
    let Some((place, value)) = word.split_once('=') else {
        return Err(Failure::Unreadable("a word is not a triplet"));
    };
    let (row, col) = place_of(place)?;
    Ok((row, col, scalar_of(value)?))
}

// The list with the triplets of a dense block after its own.
fn push_block<T: Scalar>(
    turn: &mut Turn,
    list: &mut CooMatrix<T>,
    given: Operands<'_>,
) -> Result<String, Failure> {
    let place = place_of(given.w)?;
    let block = dense_of(turn.alloc(), given.b)?;
    let before = drawn(turn.alloc(), list)?;
    turn.begin();
    let answer = turn.end(add_block(list, place, &block));
    updated(answer, before, drawn(turn.alloc(), list))
}

fn add_block<T: Scalar>(
    list: &mut CooMatrix<T>,
    (row, col): (usize, usize),
    block: &DMatrix<T>,
) -> Result<(), Failure> {
    if block.nrows() == 0 || block.ncols() == 0 {
        return Ok(list.push_matrix(row, col, block)?);
    }
    let (nrows, ncols) = (list.nrows(), list.ncols());
    if nrows < row || ncols < col || nrows - row < block.nrows() || ncols - col < block.ncols() {
        return Err(Failure::Misfit);
    }
    Ok(list.push_matrix(row, col, block)?)
}

// The list with room for more triplets.
fn reserve<T: Scalar>(
    turn: &mut Turn,
    list: &mut CooMatrix<T>,
    count: i128,
) -> Result<String, Failure> {
    let count = index_from(count)?;
    let before = drawn(turn.alloc(), list)?;
    turn.begin();
    let answer = turn.end(add_room(list, count));
    updated(answer, before, drawn(turn.alloc(), list))
}

fn add_room<T: Scalar>(list: &mut CooMatrix<T>, count: usize) -> Result<(), Failure> {
    Ok(list.reserve(count)?)
}

// The list of the triplets that an iterator yields.
fn collect<T: Scalar>(
    turn: &mut Turn,
    (nrows, ncols): (usize, usize),
    words: &[Word<'_>],
) -> Result<String, Failure> {
    let alloc = turn.alloc();
    let given = triplets_of::<T>(alloc, words)?;
    turn.begin();
    let made = turn.end(CooMatrix::try_from_triplets_iter(alloc, nrows, ncols, given.into_iter()))?;
    Ok(triplets(alloc, &made)?)
}

fn triplets_of<T: Scalar>(
    alloc: Global,
    words: &[Word<'_>],
) -> Result<Vec<(usize, usize, T)>, Failure> {
    let mut triplets = Vec::new(alloc);
    for word in words {
        match *word {
            Word::Name(word) => triplets.push(triplet_of(word)?)?,
            _ => return Err(Failure::Unreadable("a word is not a triplet")),
        }
    }
    Ok(triplets)
}

// The list of this size without triplets, which both constructors give.
fn zeros<T: Scalar>(alloc: Global, (nrows, ncols): (usize, usize)) -> Result<String, Failure> {
    let list: CooMatrix<T> = CooMatrix::zeros(alloc, nrows, ncols);
    if list != CooMatrix::new(alloc, nrows, ncols) {
        return Err(Failure::Unreadable("the two lists without triplets differ"));
    }
    Ok(triplets(alloc, &list)?)
}

fn copy<T: Scalar>(turn: &mut Turn, list: &CooMatrix<T>) -> Result<String, Failure> {
    turn.begin();
    let copy = turn.end(list.clone(turn.alloc()));
    made_list(turn.alloc(), copy)
}

// A cleared list, all of whose parts must be empty.
fn cleared<T: Scalar>(alloc: Global, mut list: CooMatrix<T>) -> Result<String, Failure> {
    list.clear_triplets();
    if list.row_indices().is_empty() && list.col_indices().is_empty() {
        return drawn(alloc, &list);
    }
    Err(Failure::Unreadable("a cleared list has indices"))
}

// The list of its data struct.
fn data<T: Scalar>(turn: &mut Turn, list: &CooMatrix<T>) -> Result<String, Failure> {
    let alloc = turn.alloc();
    turn.begin();
    let data = turn.end(list.to_data(alloc))?;
    let copy = CooMatrix::try_from_data(data)?;
    Ok(triplets(alloc, &copy)?)
}

// The rows, the columns and the values of a list, as it is taken apart.
fn lists<T: Scalar>(alloc: Global, list: CooMatrix<T>) -> Result<String, Failure> {
    let (rows, cols, values) = list.disassemble();
    let mut out = String::from_str(alloc, "rows")?;
    draw_indices(&rows, &mut out)?;
    out.push_str(" cols")?;
    draw_indices(&cols, &mut out)?;
    out.push_str(" values")?;
    draw_values(&values, &mut out)?;
    Ok(out)
}

fn doubled<T: Scalar>(alloc: Global, mut list: CooMatrix<T>) -> Result<String, Failure> {
    for (_, _, value) in list.triplet_iter_mut() {
        *value = value.add(*value);
    }
    drawn(alloc, &list)
}
