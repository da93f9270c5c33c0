//! Patterns, whose lanes are rows here: how they are made, copied, compared, transposed and read.

use case_matrices::compressed::matrix_of;
use case_matrices::conversions::truth;
use case_words::drawing::{
    PatternByRows, draw_indices, draw_triplet, draw_values, is_large, or_none, picture,
};
use case_words::failure::Failure;
use case_words::scalar::{Scalar, scalars_from};
use case_words::templates::Operands;
use case_words::turn::Turn;
use case_words::words::{Word, index_from, size_of};
use nalgebra_sparse::ops::Op;
use nalgebra_sparse::pattern::{SparsityPattern, SparsityPatternFormatError, check};
use nalgebra_sparse::scalar::{Ring, W64};
use nalgebra_sparse::{CsrMatrix, SparseFormatError};
use std::alloc::{AllocError, Global};

/// A call of a pattern.
#[derive(Clone, Copy)]
pub enum PatternCall {
    Zeros,
    Of,
    Kind,
    Lane,
    Equal,
    Copy,
    Transpose,
    TransposeWith,
    Data,
    Arrays,
    Entries,
}

pub const PATTERN_CALLS: &[(&str, PatternCall)] = &[
    ("pattern zeros w", PatternCall::Zeros),
    ("pattern of w ..", PatternCall::Of),
    ("pattern kind w ..", PatternCall::Kind),
    ("pattern lane k A", PatternCall::Lane),
    ("pattern equal A B", PatternCall::Equal),
    ("pattern copy A", PatternCall::Copy),
    ("pattern transpose A", PatternCall::Transpose),
    ("pattern transpose A values ..", PatternCall::TransposeWith),
    ("pattern data A", PatternCall::Data),
    ("pattern arrays A", PatternCall::Arrays),
    ("pattern entries A", PatternCall::Entries),
];

/// Returns the answer of one of these calls.
pub fn pattern_call(
    turn: &mut Turn,
    call: PatternCall,
    given: Operands<'_>,
) -> Result<String, Failure> {
    match call {
        PatternCall::Zeros => zeros(turn, size_of(given.w)?),
        PatternCall::Of | PatternCall::Kind => made(turn.alloc(), call, given),
        _ => of_pattern(turn, call, given),
    }
}

fn of_pattern(turn: &mut Turn, call: PatternCall, given: Operands<'_>) -> Result<String, Failure> {
    let pattern = pattern_of(turn.alloc(), given.a)?;
    match call {
        PatternCall::Lane => lane(turn.alloc(), &pattern, given.k),
        PatternCall::Equal => equal(turn.alloc(), &pattern, given.b),
        PatternCall::Copy => copy(turn, &pattern),
        PatternCall::Transpose => transpose(turn, &pattern),
        PatternCall::TransposeWith => transpose_with::<W64>(turn, &pattern, given.rest),
        PatternCall::Data => data(turn, &pattern),
        PatternCall::Arrays => arrays(turn.alloc(), pattern),
        _ => entries(turn.alloc(), &pattern),
    }
}

// The pattern of a picture.
fn pattern_of(alloc: Global, picture: Op<&str>) -> Result<SparsityPattern, Failure> {
    let matrix: CsrMatrix<W64> = matrix_of(alloc, picture)?;
    let (pattern, _) = matrix.into_pattern_and_values();
    Ok(pattern)
}

// The picture of a pattern, or the size and the entries of a large one, each as a one.
fn text_of(alloc: Global, pattern: SparsityPattern) -> Result<String, AllocError> {
    let size = (pattern.major_dim(), pattern.minor_dim());
    if !is_large(size) {
        return picture(alloc, &PatternByRows(pattern));
    }
    let mut out = format!(in alloc; "[{}x{}", size.0, size.1)?;
    for (lane, index) in pattern.entries() {
        draw_triplet(lane, index, W64::one(), &mut out)?;
    }
    out.push_str("]")?;
    Ok(out)
}

// Appends the entries, each after a space.
fn draw_places(pattern: &SparsityPattern, out: &mut String) -> Result<(), AllocError> {
    for (lane, index) in pattern.entries() {
        write!(out, " ({lane},{index})")?;
    }
    Ok(())
}

fn zeros(turn: &mut Turn, (lanes, length): (usize, usize)) -> Result<String, Failure> {
    turn.begin();
    let made = turn.end(SparsityPattern::zeros(turn.alloc(), lanes, length));
    made_text(turn.alloc(), made)
}

// The text of the pattern that a call made.
fn made_text(alloc: Global, made: Result<SparsityPattern, AllocError>) -> Result<String, Failure> {
    Ok(text_of(alloc, made?)?)
}

// The answer of `pattern of SIZE offsets .. indices ..`, or of `pattern kind ..`, where a fault is that of a matrix.
fn made(alloc: Global, call: PatternCall, given: Operands<'_>) -> Result<String, Failure> {
    let (lanes, length) = size_of(given.w)?;
    let (offsets, indices) = arrays_of(alloc, given.rest)?;
    let checked = check(lanes, length, &offsets, &indices);
    match SparsityPattern::try_from_offsets_and_indices(lanes, length, offsets, indices) {
        Ok(pattern) if checked.is_ok() => made_text(alloc, Ok(pattern)),
        Err(fault) if checked == Err(fault) => Err(fault_of(alloc, call, fault)?),
        _ => Err(Failure::Unreadable("borrowed arrays have another fault")),
    }
}

// The failure of a fault.
fn fault_of(
    alloc: Global,
    call: PatternCall,
    fault: SparsityPatternFormatError,
) -> Result<Failure, AllocError> {
    match call {
        PatternCall::Kind => as_of_matrix(alloc, fault),
        _ => Ok(Failure::from(fault)),
    }
}

// The fault as the error of a matrix, whose message must be its text.
fn as_of_matrix(alloc: Global, fault: SparsityPatternFormatError) -> Result<Failure, AllocError> {
    let error = SparseFormatError::from(fault);
    let text = format!(in alloc; "{error}")?;
    if text.as_str() != error.message() {
        return Ok(Failure::Unreadable("an error has another message"));
    }
    Ok(Failure::from(error))
}

// The offsets and the indices that words write.
fn arrays_of(alloc: Global, words: &[Word<'_>]) -> Result<(Vec<usize>, Vec<usize>), Failure> {
    let (mut offsets, mut indices) = (Vec::new(alloc), Vec::new(alloc));
    let mut behind = false;
    for word in words {
        match *word {
            Word::Number(number) if behind => indices.push(index_from(number)?)?,
            Word::Number(number) => offsets.push(index_from(number)?)?,
            Word::Name("offsets") => {}
            Word::Name("indices") => behind = true,
            _ => return Err(Failure::Unreadable("a word is not of an array")),
        }
    }
    Ok((offsets, indices))
}

// The indices of a lane, or `none` out of bounds.
fn lane(alloc: Global, pattern: &SparsityPattern, index: i128) -> Result<String, Failure> {
    let index = index_from(index)?;
    let Some(indices) = pattern.get_lane(index) else {
        return Ok(String::from_str(alloc, "none")?);
    };
    if pattern.major_dim() <= index || pattern.lane(index) != indices {
        return Err(Failure::Unreadable("two ways find different lanes"));
    }
    let mut out = String::from_str(alloc, "indices")?;
    draw_indices(indices, &mut out)?;
    Ok(out)
}

fn equal(alloc: Global, left: &SparsityPattern, b: Op<&str>) -> Result<String, Failure> {
    let right = pattern_of(alloc, b)?;
    truth(alloc, *left == right)
}

fn copy(turn: &mut Turn, pattern: &SparsityPattern) -> Result<String, Failure> {
    turn.begin();
    let copy = turn.end(pattern.clone(turn.alloc()));
    made_text(turn.alloc(), copy)
}

fn transpose(turn: &mut Turn, pattern: &SparsityPattern) -> Result<String, Failure> {
    turn.begin();
    let transposed = turn.end(pattern.transpose(turn.alloc()));
    made_text(turn.alloc(), transposed)
}

// The pattern of its data struct.
fn data(turn: &mut Turn, pattern: &SparsityPattern) -> Result<String, Failure> {
    turn.begin();
    let data = turn.end(pattern.to_data(turn.alloc()))?;
    let copy = SparsityPattern::try_from_data(data)?;
    made_text(turn.alloc(), Ok(copy))
}

// The offsets and the indices, borrowed and as the pattern is taken apart.
fn arrays(alloc: Global, pattern: SparsityPattern) -> Result<String, Failure> {
    let borrowed = arrays_text(alloc, pattern.major_offsets(), pattern.minor_indices())?;
    let (offsets, indices) = pattern.disassemble();
    let taken = arrays_text(alloc, &offsets, &indices)?;
    if taken.as_str() != borrowed.as_str() {
        return Err(Failure::Unreadable("the arrays differ as they are taken out"));
    }
    Ok(taken)
}

fn arrays_text(alloc: Global, offsets: &[usize], indices: &[usize]) -> Result<String, AllocError> {
    let mut out = String::from_str(alloc, "offsets")?;
    draw_indices(offsets, &mut out)?;
    out.push_str(" indices")?;
    draw_indices(indices, &mut out)?;
    Ok(out)
}

// The entries in order.
fn entries(alloc: Global, pattern: &SparsityPattern) -> Result<String, Failure> {
    let mut out = String::new(alloc);
    draw_places(pattern, &mut out)?;
    Ok(or_none(alloc, out.as_str())?)
}

// The transpose, and its values after it.
fn transpose_with<T: Scalar>(
    turn: &mut Turn,
    pattern: &SparsityPattern,
    words: &[Word<'_>],
) -> Result<String, Failure> {
    let alloc = turn.alloc();
    let values: Vec<T> = scalars_from(alloc, words)?;
    if values.len() != pattern.nnz() {
        return Err(Failure::Misfit);
    }
    turn.begin();
    let (transposed, moved) = turn.end(pattern.transpose_with(alloc, &values))?;
    with_values(alloc, transposed, &moved)
}

fn with_values<T: Scalar>(
    alloc: Global,
    pattern: SparsityPattern,
    values: &[T],
) -> Result<String, Failure> {
    let mut out = text_of(alloc, pattern)?;
    out.push_str(" values")?;
    draw_values(values, &mut out)?;
    Ok(out)
}
