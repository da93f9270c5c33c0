//! Matrices that are made of one: its transpose, triangles and diagonal, its copy, its negative, multiples and
//! quotients.

use case_matrices::compressed::{Compressed, inner_of, made, matrix_of};
use case_words::failure::Failure;
use case_words::picture::list_of;
use case_words::scalar::{Scalar, scalar_from};
use case_words::templates::Operands;
use case_words::turn::Turn;
use nalgebra_sparse::ops::Op;
use nalgebra_sparse::ops::serial::{
    div_scalar_csc, div_scalar_csr, neg_csc, neg_csr, scale_csc, scale_csr,
};
use nalgebra_sparse::{CscMatrix, CsrMatrix};
use std::alloc::Global;

/// A call that makes a matrix of one.
#[derive(Clone, Copy)]
pub enum Shape {
    Upper,
    Lower,
    Diagonal,
    Copy,
    Negative,
    Multiple,
    Quotient,
}

pub const SHAPES: &[(&str, Shape)] = &[
    ("upper A", Shape::Upper),
    ("lower A", Shape::Lower),
    ("diagonal A", Shape::Diagonal),
    ("copy A", Shape::Copy),
    ("- A", Shape::Negative),
    ("k A", Shape::Multiple),
    ("A / k", Shape::Quotient),
];

/// These calls of a format.
pub trait Shapes<T: Scalar> {
    fn shaped(&self, alloc: Global, call: Shape, k: T) -> Result<Self, Failure>;
}

/// By rows.
impl<T: Scalar> Shapes<T> for CsrMatrix<T> {
    fn shaped(&self, alloc: Global, call: Shape, k: T) -> Result<Self, Failure> {
        let made = match call {
            Shape::Upper => self.upper_triangle(alloc),
            Shape::Lower => self.lower_triangle(alloc),
            Shape::Diagonal => self.diagonal_as_csr(alloc),
            Shape::Copy => self.clone(alloc),
            Shape::Negative => neg_csr(alloc, self),
            Shape::Multiple => scale_csr(alloc, self, k),
            Shape::Quotient => return Ok(div_scalar_csr(alloc, self, k)?),
        };
        Ok(made?)
    }
}

/// By columns.
impl<T: Scalar> Shapes<T> for CscMatrix<T> {
    fn shaped(&self, alloc: Global, call: Shape, k: T) -> Result<Self, Failure> {
        let made = match call {
            Shape::Upper => self.upper_triangle(alloc),
            Shape::Lower => self.lower_triangle(alloc),
            Shape::Diagonal => self.diagonal_as_csc(alloc),
            Shape::Copy => self.clone(alloc),
            Shape::Negative => neg_csc(alloc, self),
            Shape::Multiple => scale_csc(alloc, self, k),
            Shape::Quotient => return Ok(div_scalar_csc(alloc, self, k)?),
        };
        Ok(made?)
    }
}

/// Returns the answer of one of these calls.
pub fn shaped<T: Scalar, F: Compressed<T> + Shapes<T>>(
    turn: &mut Turn,
    call: Shape,
    given: Operands<'_>,
) -> Result<String, Failure> {
    let k: T = scalar_from(given.k)?;
    let matrix: F = matrix_of(turn.alloc(), given.a)?;
    turn.begin();
    let shaped = turn.end(matrix.shaped(turn.alloc(), call, k));
    made(turn.alloc(), shaped)
}

/// Returns the answer of `A` or `A'`: a list of triplets, compressed, or the transpose of that.
pub fn read<T: Scalar, F: Compressed<T>>(turn: &mut Turn, a: Op<&str>) -> Result<String, Failure> {
    match a {
        Op::NoOp(picture) => compressed::<T, F>(turn, picture),
        Op::Transpose(_) => transposed::<T, F>(turn, a),
    }
}

fn compressed<T: Scalar, F: Compressed<T>>(
    turn: &mut Turn,
    picture: &str,
) -> Result<String, Failure> {
    let list = list_of(turn.alloc(), picture)?;
    turn.begin();
    let matrix: F = turn.end(F::from_list(turn.alloc(), &list))?;
    made(turn.alloc(), Ok(matrix))
}

fn transposed<T: Scalar, F: Compressed<T>>(
    turn: &mut Turn,
    a: Op<&str>,
) -> Result<String, Failure> {
    let matrix: F = inner_of(turn.alloc(), a)?;
    turn.begin();
    let transposed: F = turn.end(matrix.transposed(turn.alloc()))?;
    made(turn.alloc(), Ok(transposed))
}
