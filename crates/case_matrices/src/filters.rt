//! Filters.

use crate::compressed::{Compressed, made, matrix_of};
use case_words::failure::Failure;
use case_words::scalar::Scalar;
use case_words::templates::Operands;
use case_words::turn::Turn;
use case_words::words::place_of;
use nalgebra_sparse::{CscMatrix, CsrMatrix};
use std::alloc::Global;

/// Which entries a filter keeps.
#[derive(Clone, Copy)]
pub enum Kept {
    All,
    None,
    OffDiagonal,
    Nonzero,
    At(usize, usize),
}

impl Kept {
    // What a word names: `all`, `none`, `off-diagonal`, `nonzero`, or a row and a column.
    fn of(word: &str) -> Result<Kept, Failure> {
        match word {
            "all" => Ok(Kept::All),
            "none" => Ok(Kept::None),
            "off-diagonal" => Ok(Kept::OffDiagonal),
            "nonzero" => Ok(Kept::Nonzero),
            _ => {
                let (row, col) = place_of(word)?;
                Ok(Kept::At(row, col))
            }
        }
    }

    // Whether an entry is kept.
    fn keeps<T: Scalar>(self, row: usize, col: usize, value: T) -> bool {
        match self {
            Kept::All => true,
            Kept::None => false,
            Kept::OffDiagonal => row != col,
            Kept::Nonzero => value.number() != 0,
            Kept::At(i, j) => row == i && col == j,
        }
    }
}

/// The filter of a format.
pub trait Filters<T: Scalar> {
    fn filtered(&self, alloc: Global, kept: Kept) -> Result<Self, Failure>;
}

/// By rows.
impl<T: Scalar> Filters<T> for CsrMatrix<T> {
    fn filtered(&self, alloc: Global, kept: Kept) -> Result<Self, Failure> {
        Ok(self.filter(alloc, |row, col, value| kept.keeps(row, col, *value))?)
    }
}

/// By columns.
impl<T: Scalar> Filters<T> for CscMatrix<T> {
    fn filtered(&self, alloc: Global, kept: Kept) -> Result<Self, Failure> {
        Ok(self.filter(alloc, |row, col, value| kept.keeps(row, col, *value))?)
    }
}

/// Returns the answer of `keep WHICH A`.
pub fn keep<T: Scalar, F: Compressed<T> + Filters<T>>(
    turn: &mut Turn,
    given: Operands<'_>,
) -> Result<String, Failure> {
    let kept = Kept::of(given.w)?;
    let matrix: F = matrix_of(turn.alloc(), given.a)?;
    turn.begin();
    let filtered = turn.end(matrix.filtered(turn.alloc(), kept));
    made(turn.alloc(), filtered)
}
