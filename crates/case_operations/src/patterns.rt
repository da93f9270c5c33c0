//! Patterns of sums and products.

use case_matrices::compressed::{Compressed, matrix_of};
use case_words::drawing::{PatternByColumns, PatternByRows, picture};
use case_words::failure::Failure;
use case_words::scalar::Scalar;
use case_words::templates::Operands;
use case_words::turn::Turn;
use nalgebra_sparse::ops::serial::{spadd_pattern, spmm_csc_pattern, spmm_csr_pattern};
use nalgebra_sparse::{CscMatrix, CsrMatrix};

/// A call that makes the pattern of a sum or a product.
#[derive(Clone, Copy)]
pub enum Joined {
    Sum,
    Product,
}

pub const PATTERNS: &[(&str, Joined)] = &[
    ("pattern A + B", Joined::Sum),
    ("pattern A B", Joined::Product),
];

/// The patterns of the sums and products of a format.
pub trait Patterns<T: Scalar> {
    fn sum_pattern(&self, turn: &mut Turn, other: &Self) -> Result<String, Failure>;

    fn product_pattern(&self, turn: &mut Turn, other: &Self) -> Result<String, Failure>;
}

/// By rows.
impl<T: Scalar> Patterns<T> for CsrMatrix<T> {
    fn sum_pattern(&self, turn: &mut Turn, other: &Self) -> Result<String, Failure> {
        if self.nrows() != other.nrows() || self.ncols() != other.ncols() {
            return Err(Failure::Misfit);
        }
        turn.begin();
        let made = turn.end(spadd_pattern(turn.alloc(), self.pattern(), other.pattern()))?;
        Ok(picture(turn.alloc(), &PatternByRows(made))?)
    }

    fn product_pattern(&self, turn: &mut Turn, other: &Self) -> Result<String, Failure> {
        if self.ncols() != other.nrows() {
            return Err(Failure::Misfit);
        }
        turn.begin();
        let made = turn.end(spmm_csr_pattern(turn.alloc(), self.pattern(), other.pattern()))?;
        Ok(picture(turn.alloc(), &PatternByRows(made))?)
    }
}

/// By columns.
impl<T: Scalar> Patterns<T> for CscMatrix<T> {
    fn sum_pattern(&self, turn: &mut Turn, other: &Self) -> Result<String, Failure> {
        if self.nrows() != other.nrows() || self.ncols() != other.ncols() {
            return Err(Failure::Misfit);
        }
        turn.begin();
        let made = turn.end(spadd_pattern(turn.alloc(), self.pattern(), other.pattern()))?;
        Ok(picture(turn.alloc(), &PatternByColumns(made))?)
    }

    fn product_pattern(&self, turn: &mut Turn, other: &Self) -> Result<String, Failure> {
        if self.ncols() != other.nrows() {
            return Err(Failure::Misfit);
        }
        turn.begin();
        let made = turn.end(spmm_csc_pattern(turn.alloc(), self.pattern(), other.pattern()))?;
        Ok(picture(turn.alloc(), &PatternByColumns(made))?)
    }
}

/// Returns the answer of one of these calls.
pub fn joined_pattern<T: Scalar, F: Compressed<T> + Patterns<T>>(
    turn: &mut Turn,
    call: Joined,
    given: Operands<'_>,
) -> Result<String, Failure> {
    let left: F = matrix_of(turn.alloc(), given.a)?;
    let right: F = matrix_of(turn.alloc(), given.b)?;
    match call {
        Joined::Sum => left.sum_pattern(turn, &right),
        Joined::Product => left.product_pattern(turn, &right),
    }
}
