//! Matrices that are changed in place: negatives, multiples and quotients.

use case_matrices::compressed::{Compressed, matrix_of, shown, updated};
use case_words::failure::Failure;
use case_words::scalar::{Scalar, scalar_from};
use case_words::templates::Operands;
use case_words::turn::Turn;
use nalgebra_sparse::ops::Op;
use nalgebra_sparse::ops::serial::{div_scalar_mut_csc, div_scalar_mut_csr};
use nalgebra_sparse::{CscMatrix, CsrMatrix};
use std::alloc::Global;

/// A call that changes a matrix in place.
#[derive(Clone, Copy)]
pub enum Change {
    Negate,
    Multiply,
    /// The multiple by a scalar that is passed by reference.
    MultiplyBy,
    Divide,
}

pub const CHANGES: &[(&str, Change)] = &[
    ("negate A", Change::Negate),
    ("A *= k", Change::Multiply),
    ("A /= k", Change::Divide),
];

/// The calls that change the values of a format in place.
pub trait InPlace<T: Scalar> {
    /// Negates or multiplies each value.
    fn changed(self, call: Change, k: T) -> Self;

    /// Divides each value.
    fn divide(&mut self, k: T) -> Result<(), Failure>;
}

/// By rows.
impl<T: Scalar> InPlace<T> for CsrMatrix<T> {
    fn changed(self, call: Change, k: T) -> Self {
        let mut matrix = self;
        match call {
            Change::Negate => return -matrix,
            Change::MultiplyBy => matrix *= &k,
            _ => matrix *= k,
        }
        matrix
    }

    fn divide(&mut self, k: T) -> Result<(), Failure> {
        Ok(div_scalar_mut_csr(self, k)?)
    }
}

/// By columns.
impl<T: Scalar> InPlace<T> for CscMatrix<T> {
    fn changed(self, call: Change, k: T) -> Self {
        let mut matrix = self;
        match call {
            Change::Negate => return -matrix,
            Change::MultiplyBy => matrix *= &k,
            _ => matrix *= k,
        }
        matrix
    }

    fn divide(&mut self, k: T) -> Result<(), Failure> {
        Ok(div_scalar_mut_csc(self, k)?)
    }
}

/// Returns the answer of one of these calls. The multiple by a scalar must be the one by a reference to it.
pub fn in_place<T: Scalar, F: Compressed<T> + InPlace<T>>(
    turn: &mut Turn,
    call: Change,
    given: Operands<'_>,
) -> Result<String, Failure> {
    let k: T = scalar_from(given.k)?;
    match call {
        Change::Divide => divided::<T, F>(turn.alloc(), given.a, k),
        Change::Negate => changed::<T, F>(turn.alloc(), call, given.a, k),
        _ => multiplied::<T, F>(turn.alloc(), given.a, k),
    }
}

fn changed<T: Scalar, F: Compressed<T> + InPlace<T>>(
    alloc: Global,
    call: Change,
    a: Op<&str>,
    k: T,
) -> Result<String, Failure> {
    let matrix: F = matrix_of(alloc, a)?;
    let changed = matrix.changed(call, k);
    shown(alloc, &changed)
}

fn multiplied<T: Scalar, F: Compressed<T> + InPlace<T>>(
    alloc: Global,
    a: Op<&str>,
    k: T,
) -> Result<String, Failure> {
    let by_value = changed::<T, F>(alloc, Change::Multiply, a, k)?;
    let by_reference = changed::<T, F>(alloc, Change::MultiplyBy, a, k)?;
    if by_value.as_str() != by_reference.as_str() {
        return Err(Failure::Unreadable("the multiple by a reference differs"));
    }
    Ok(by_value)
}

fn divided<T: Scalar, F: Compressed<T> + InPlace<T>>(
    alloc: Global,
    a: Op<&str>,
    k: T,
) -> Result<String, Failure> {
    let mut matrix: F = matrix_of(alloc, a)?;
    let before = shown(alloc, &matrix)?;
    let answer = matrix.divide(k);
    updated(answer, before, shown(alloc, &matrix))
}
