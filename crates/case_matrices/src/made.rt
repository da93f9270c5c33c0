//! Matrices of unsorted arrays and of patterns, zeros and identities, and the parts of a matrix.

use crate::arrays::{Arrays, Size};
use crate::compressed::{Compressed, made, matrix_of, shown};
use crate::conversions::arrays_text;
use case_words::drawing::{PatternByColumns, PatternByRows, draw_values, picture};
use case_words::failure::Failure;
use case_words::scalar::{Scalar, scalars_from};
use case_words::templates::Operands;
use case_words::turn::Turn;
use case_words::words::{index_from, size_of};
use nalgebra_sparse::ops::Op;
use nalgebra_sparse::pattern::SparsityPattern;
use nalgebra_sparse::{CscMatrix, CsrMatrix};
use std::alloc::{AllocError, Global};

/// How matrices of a format are made, and what they are taken apart into.
pub trait Made<T: Scalar> {
    /// Returns the matrix of arrays whose lanes need not be sorted, given the number of lanes and their length.
    fn of_unsorted(alloc: Global, size: Size, arrays: Arrays<T>) -> Result<Self, Failure>;

    /// Returns the matrix of a pattern and values.
    fn of_parts(pattern: SparsityPattern, values: Vec<T>) -> Result<Self, Failure>;

    /// Returns the matrix of this size without entries.
    fn of_size(alloc: Global, size: Size) -> Result<Self, Failure>;

    /// Returns the identity of an order.
    fn of_order(alloc: Global, order: usize) -> Result<Self, Failure>;

    /// Returns the offsets, the indices and the values.
    fn into_arrays(self) -> Arrays<T>;

    /// Returns the pattern and the values.
    fn into_parts(self) -> (SparsityPattern, Vec<T>);

    /// Returns the matrix of its pattern and values, which are not tested.
    fn rejoined(self) -> Self;

    /// Returns how the transpose in the other format, which takes over the arrays, is shown.
    fn shown_as_transpose(self, alloc: Global) -> Result<String, Failure>;

    /// Returns the picture of a pattern.
    fn pattern_picture(alloc: Global, pattern: SparsityPattern) -> Result<String, AllocError>;
}

/// By rows.
impl<T: Scalar> Made<T> for CsrMatrix<T> {
    fn of_unsorted(
        alloc: Global,
        (nrows, ncols): Size,
        (offsets, indices, values): Arrays<T>,
    ) -> Result<Self, Failure> {
        Ok(CsrMatrix::try_from_unsorted_csr_data(alloc, nrows, ncols, offsets, indices, values)?)
    }

    fn of_parts(pattern: SparsityPattern, values: Vec<T>) -> Result<Self, Failure> {
        Ok(CsrMatrix::try_from_pattern_and_values(pattern, values)?)
    }

    fn of_size(alloc: Global, (nrows, ncols): Size) -> Result<Self, Failure> {
        Ok(CsrMatrix::zeros(alloc, nrows, ncols)?)
    }

    fn of_order(alloc: Global, order: usize) -> Result<Self, Failure> {
        Ok(CsrMatrix::identity(alloc, order)?)
    }

    fn into_arrays(self) -> Arrays<T> {
        self.disassemble()
    }

    fn into_parts(self) -> (SparsityPattern, Vec<T>) {
        self.into_pattern_and_values()
    }

    fn rejoined(self) -> Self {
        let (pattern, values) = self.into_pattern_and_values();
        CsrMatrix::from_pattern_and_values_unchecked(pattern, values)
    }

    fn shown_as_transpose(self, alloc: Global) -> Result<String, Failure> {
        shown(alloc, &self.transpose_as_csc())
    }

    fn pattern_picture(alloc: Global, pattern: SparsityPattern) -> Result<String, AllocError> {
        picture(alloc, &PatternByRows(pattern))
    }
}

/// By columns.
impl<T: Scalar> Made<T> for CscMatrix<T> {
    fn of_unsorted(
        alloc: Global,
        (ncols, nrows): Size,
        (offsets, indices, values): Arrays<T>,
    ) -> Result<Self, Failure> {
        Ok(CscMatrix::try_from_unsorted_csc_data(alloc, nrows, ncols, offsets, indices, values)?)
    }

    fn of_parts(pattern: SparsityPattern, values: Vec<T>) -> Result<Self, Failure> {
        Ok(CscMatrix::try_from_pattern_and_values(pattern, values)?)
    }

    fn of_size(alloc: Global, (nrows, ncols): Size) -> Result<Self, Failure> {
        Ok(CscMatrix::zeros(alloc, nrows, ncols)?)
    }

    fn of_order(alloc: Global, order: usize) -> Result<Self, Failure> {
        Ok(CscMatrix::identity(alloc, order)?)
    }

    fn into_arrays(self) -> Arrays<T> {
        self.disassemble()
    }

    fn into_parts(self) -> (SparsityPattern, Vec<T>) {
        self.into_pattern_and_values()
    }

    fn rejoined(self) -> Self {
        let (pattern, values) = self.into_pattern_and_values();
        CscMatrix::from_pattern_and_values_unchecked(pattern, values)
    }

    fn shown_as_transpose(self, alloc: Global) -> Result<String, Failure> {
        shown(alloc, &self.transpose_as_csr())
    }

    fn pattern_picture(alloc: Global, pattern: SparsityPattern) -> Result<String, AllocError> {
        picture(alloc, &PatternByColumns(pattern))
    }
}

/// A call that makes a matrix of parts, or takes one apart.
#[derive(Clone, Copy)]
pub enum MadeCall {
    Zeros,
    Identity,
    Join,
    Parts,
    Disassemble,
    Rejoin,
    TransposeAs,
}

pub const MADE: &[(&str, MadeCall)] = &[
    ("zeros w", MadeCall::Zeros),
    ("identity k", MadeCall::Identity),
    ("join A values ..", MadeCall::Join),
    ("parts A", MadeCall::Parts),
    ("disassemble A", MadeCall::Disassemble),
    ("rejoin A", MadeCall::Rejoin),
    ("transpose-as A", MadeCall::TransposeAs),
];

/// Returns the answer of one of these calls.
pub fn made_call<T: Scalar, F: Compressed<T> + Made<T>>(
    turn: &mut Turn,
    call: MadeCall,
    given: Operands<'_>,
) -> Result<String, Failure> {
    match call {
        MadeCall::Zeros => zeros::<T, F>(turn, size_of(given.w)?),
        MadeCall::Identity => identity::<T, F>(turn, index_from(given.k)?),
        MadeCall::Join => joined_parts::<T, F>(turn, given),
        _ => taken_apart::<T, F>(turn.alloc(), call, given.a),
    }
}

fn zeros<T: Scalar, F: Compressed<T> + Made<T>>(
    turn: &mut Turn,
    size: Size,
) -> Result<String, Failure> {
    turn.begin();
    let zeros: Result<F, Failure> = turn.end(F::of_size(turn.alloc(), size));
    made(turn.alloc(), zeros)
}

fn identity<T: Scalar, F: Compressed<T> + Made<T>>(
    turn: &mut Turn,
    order: usize,
) -> Result<String, Failure> {
    turn.begin();
    let identity: Result<F, Failure> = turn.end(F::of_order(turn.alloc(), order));
    made(turn.alloc(), identity)
}

// The matrix of the pattern of another one and values.
fn joined_parts<T: Scalar, F: Compressed<T> + Made<T>>(
    turn: &mut Turn,
    given: Operands<'_>,
) -> Result<String, Failure> {
    let values = scalars_from(turn.alloc(), given.rest)?;
    let matrix: F = matrix_of(turn.alloc(), given.a)?;
    let (pattern, _) = matrix.into_parts();
    turn.begin();
    let joined: Result<F, Failure> = turn.end(F::of_parts(pattern, values));
    made(turn.alloc(), joined)
}

fn taken_apart<T: Scalar, F: Compressed<T> + Made<T>>(
    alloc: Global,
    call: MadeCall,
    a: Op<&str>,
) -> Result<String, Failure> {
    let matrix: F = matrix_of(alloc, a)?;
    match call {
        MadeCall::Parts => parts::<T, F>(alloc, matrix),
        MadeCall::Disassemble => disassembled::<T, F>(alloc, matrix),
        MadeCall::Rejoin => made(alloc, Ok(matrix.rejoined())),
        _ => matrix.shown_as_transpose(alloc),
    }
}

fn disassembled<T: Scalar, F: Made<T>>(alloc: Global, matrix: F) -> Result<String, Failure> {
    let (offsets, indices, values) = matrix.into_arrays();
    arrays_text(alloc, (&offsets, &indices, &values))
}

fn parts<T: Scalar, F: Made<T>>(alloc: Global, matrix: F) -> Result<String, Failure> {
    let (pattern, values) = matrix.into_parts();
    let mut out = F::pattern_picture(alloc, pattern)?;
    out.push_str(" values")?;
    draw_values(&values, &mut out)?;
    Ok(out)
}
