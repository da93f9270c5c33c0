//! Sums, differences and products, and sums into a given matrix.

ghost use Rattle.std.specs.Prelude.{◌≡◌};
ghost use Rattle.nalgebra_sparse.specs.Operands.{plain_op};
ghost use Rattle.nalgebra_sparse.specs.PlainOfLanes.{plain_of_rows, plain_of_cols};

use case_matrices::compressed::{Compressed, inner_of, made, matrix_of, operand, shown, updated};
use case_words::failure::Failure;
use case_words::scalar::{Scalar, scalar_from};
use case_words::templates::Operands;
use case_words::turn::Turn;
use nalgebra_sparse::ops::Op;
use nalgebra_sparse::ops::serial::{
    add_csc, add_csr, add_scaled_csc, add_scaled_csr, mul_csc, mul_csr, spadd_csc_prealloc,
    spadd_csr_prealloc, sub_csc, sub_csr,
};
use nalgebra_sparse::{CscMatrix, CsrMatrix};
use std::alloc::Global;

/// A call that joins two matrices.
#[derive(Clone, Copy)]
pub enum Join {
    Sum,
    Difference,
    ScaledSum,
    Product,
}

pub const JOINS: &[(&str, Join)] = &[
    ("A + B", Join::Sum),
    ("A - B", Join::Difference),
    ("k A + l B", Join::ScaledSum),
    ("A B", Join::Product),
];

/// The sums and products of a format.
pub trait Sums<T: Scalar> {
    /// Returns the sum, the difference, or the sum of multiples of two matrices.
    fn sum(
        &self,
        alloc: Global,
        call: Join,
        scalars: (T, T),
        other: &Self,
    ) -> Result<Self, Failure>;

    fn product(&self, alloc: Global, other: &Self) -> Result<Self, Failure>;

    /// Updates this to `beta C + alpha A`.
    fn add_multiple(&mut self, scalars: (T, T), a: Op<&Self>) -> Result<(), Failure>;
}

/// By rows.
impl<T: Scalar> Sums<T> for CsrMatrix<T> {
    fn sum(
        &self,
        alloc: Global,
        call: Join,
        (k, l): (T, T),
        other: &Self,
    ) -> Result<Self, Failure> {
        if self.nrows() != other.nrows() || self.ncols() != other.ncols() {
            return Err(Failure::Misfit);
        }
        let made = match call {
            Join::Sum => add_csr(alloc, self, other),
            Join::Difference => sub_csr(alloc, self, other),
            _ => add_scaled_csr(alloc, k, self, l, other),
        };
        Ok(made?)
    }

    fn product(&self, alloc: Global, other: &Self) -> Result<Self, Failure> {
        if self.ncols() != other.nrows() {
            return Err(Failure::Misfit);
        }
        Ok(mul_csr(alloc, self, other)?)
    }

    fn add_multiple(&mut self, (beta, alpha): (T, T), a: Op<&Self>) -> Result<(), Failure> {
        if size_by_rows(a) != (self.nrows(), self.ncols()) {
            return Err(Failure::Misfit);
        }
        Ok(spadd_csr_prealloc(beta, self, alpha, a)?)
    }
}

/// By columns.
impl<T: Scalar> Sums<T> for CscMatrix<T> {
    fn sum(
        &self,
        alloc: Global,
        call: Join,
        (k, l): (T, T),
        other: &Self,
    ) -> Result<Self, Failure> {
        if self.nrows() != other.nrows() || self.ncols() != other.ncols() {
            return Err(Failure::Misfit);
        }
        let made = match call {
            Join::Sum => add_csc(alloc, self, other),
            Join::Difference => sub_csc(alloc, self, other),
            _ => add_scaled_csc(alloc, k, self, l, other),
        };
        Ok(made?)
    }

    fn product(&self, alloc: Global, other: &Self) -> Result<Self, Failure> {
        if self.ncols() != other.nrows() {
            return Err(Failure::Misfit);
        }
        Ok(mul_csc(alloc, self, other)?)
    }

    fn add_multiple(&mut self, (beta, alpha): (T, T), a: Op<&Self>) -> Result<(), Failure> {
        if size_by_columns(a) != (self.nrows(), self.ncols()) {
            return Err(Failure::Misfit);
        }
        Ok(spadd_csc_prealloc(beta, self, alpha, a)?)
    }
}

/// Returns the numbers of rows and columns of an operand by rows.
pub fn size_by_rows<T: Scalar>(a: Op<&CsrMatrix<T>>) -> (usize, usize)
    ensures rows { result.0
        ≡ (plain_op T.ring (λ m. plain_of_rows T.ring T.value m.now) a.entry).rows }
    ensures cols { result.1
        ≡ (plain_op T.ring (λ m. plain_of_rows T.ring T.value m.now) a.entry).cols }
{
    match a {
        Op::NoOp(a) => (a.nrows(), a.ncols()),
        Op::Transpose(a) => (a.ncols(), a.nrows()),
    }
}

/// Returns the numbers of rows and columns of an operand by columns.
pub fn size_by_columns<T: Scalar>(a: Op<&CscMatrix<T>>) -> (usize, usize)
    ensures rows { result.0
        ≡ (plain_op T.ring (λ m. plain_of_cols T.ring T.value m.now) a.entry).rows }
    ensures cols { result.1
        ≡ (plain_op T.ring (λ m. plain_of_cols T.ring T.value m.now) a.entry).cols }
{
    match a {
        Op::NoOp(a) => (a.nrows(), a.ncols()),
        Op::Transpose(a) => (a.ncols(), a.nrows()),
    }
}

/// Returns the answer of one of these calls.
pub fn joined<T: Scalar, F: Compressed<T> + Sums<T>>(
    turn: &mut Turn,
    call: Join,
    given: Operands<'_>,
) -> Result<String, Failure> {
    let scalars: (T, T) = (scalar_from(given.k)?, scalar_from(given.l)?);
    let left: F = matrix_of(turn.alloc(), given.a)?;
    let right: F = matrix_of(turn.alloc(), given.b)?;
    turn.begin();
    let joined = turn.end(match call {
        Join::Product => left.product(turn.alloc(), &right),
        _ => left.sum(turn.alloc(), call, scalars, &right),
    });
    made(turn.alloc(), joined)
}

/// Returns the target after `beta C += alpha A`, which is `beta C + alpha A` on the entries of C.
pub fn sum_into<T: Scalar, F: Compressed<T> + Sums<T>>(
    turn: &mut Turn,
    scalars: (T, T),
    given: Operands<'_>,
) -> Result<String, Failure> {
    let a: F = inner_of(turn.alloc(), given.a)?;
    let mut c: F = matrix_of(turn.alloc(), given.c)?;
    added(turn, scalars, &mut c, operand(given.a, &a))
}

fn added<T: Scalar, F: Compressed<T> + Sums<T>>(
    turn: &mut Turn,
    scalars: (T, T),
    c: &mut F,
    a: Op<&F>,
) -> Result<String, Failure> {
    let before = shown(turn.alloc(), c)?;
    turn.begin();
    let answer = turn.end(c.add_multiple(scalars, a));
    updated(answer, before, shown(turn.alloc(), c))
}
