//! Products into a matrix that has each of their entries, which the call does not test.

ghost use Rattle.std.specs.Prelude.{◌≡◌, IsTrue};
ghost use Rattle.nalgebra_sparse.specs.Operands.{plain_op};
ghost use Rattle.nalgebra_sparse.specs.Plain.{plain_product};
ghost use Rattle.nalgebra_sparse.specs.PlainOfLanes.{plain_of_rows, plain_of_cols};
ghost use Rattle.nalgebra_sparse.specs.Prealloc.{IsCovered};

use crate::sums::{size_by_columns, size_by_rows};
use case_matrices::compressed::{Compressed, inner_of, matrix_of, operand, shown, updated};
use case_words::failure::Failure;
use case_words::scalar::Scalar;
use case_words::templates::Operands;
use case_words::turn::Turn;
use nalgebra_sparse::ops::serial::{
    spmm_csc_prealloc, spmm_csc_prealloc_unchecked, spmm_csr_prealloc, spmm_csr_prealloc_unchecked,
    spmm_csr_prealloc_unchecked_counted,
};
use nalgebra_sparse::ops::{Op, Steps};
use nalgebra_sparse::{CscMatrix, CsrMatrix};
use std::alloc::Global;

/// A call that does not test the entries.
#[derive(Clone, Copy)]
pub enum Way {
    Plain,
    Counted,
}

/// The products of a format into a matrix that has each of their entries.
pub trait Unchecked<T: Scalar> {
    /// Updates this to `beta C + alpha A B`, by the call that this way names.
    fn add_covered_product(
        &mut self,
        turn: &mut Turn,
        way: (Way, (T, T)),
        a: Op<&Self>,
        b: Op<&Self>,
    ) -> Result<(), Failure>;
}

const LACKS: Failure = Failure::Unreadable("the target lacks a place of the product");

/// By rows.
impl<T: Scalar> Unchecked<T> for CsrMatrix<T> {
    fn add_covered_product(
        &mut self,
        turn: &mut Turn,
        (way, (beta, alpha)): (Way, (T, T)),
        a: Op<&Self>,
        b: Op<&Self>,
    ) -> Result<(), Failure> {
        let (left, right) = (size_by_rows(a), size_by_rows(b));
        if left.1 != right.0 || left.0 != self.nrows() || right.1 != self.ncols() {
            return Err(Failure::Misfit);
        }
        let alloc = turn.alloc();
        if !covers_rows(alloc, self, a, b) {
            return Err(LACKS);
        }
        turn.begin();
        let answer = match way {
            Way::Plain => spmm_csr_prealloc_unchecked(alloc, beta, self, alpha, a, b),
            Way::Counted => {
                let mut steps = Steps::new();
                spmm_csr_prealloc_unchecked_counted(alloc, beta, self, alpha, a, b, &mut steps)
            }
        };
        Ok(turn.end(answer)?)
    }
}

/// By columns. No call counts its steps.
impl<T: Scalar> Unchecked<T> for CscMatrix<T> {
    fn add_covered_product(
        &mut self,
        turn: &mut Turn,
        (way, (beta, alpha)): (Way, (T, T)),
        a: Op<&Self>,
        b: Op<&Self>,
    ) -> Result<(), Failure> {
        let (left, right) = (size_by_columns(a), size_by_columns(b));
        if left.1 != right.0 || left.0 != self.nrows() || right.1 != self.ncols() {
            return Err(Failure::Misfit);
        }
        let alloc = turn.alloc();
        if matches!(way, Way::Counted) || !covers_columns(alloc, self, a, b) {
            return Err(LACKS);
        }
        turn.begin();
        let answer = spmm_csc_prealloc_unchecked(alloc, beta, self, alpha, a, b);
        Ok(turn.end(answer)?)
    }
}

// Whether the target has the entries of the product: only then the checked product is made.
fn covers_rows<T: Scalar>(
    alloc: Global,
    c: &CsrMatrix<T>,
    a: Op<&CsrMatrix<T>>,
    b: Op<&CsrMatrix<T>>,
) -> bool
    requires inner { (plain_op T.ring (λ m. plain_of_rows T.ring T.value m.now) a).cols
        ≡ (plain_op T.ring (λ m. plain_of_rows T.ring T.value m.now) b).rows }
    requires rows { (plain_op T.ring (λ m. plain_of_rows T.ring T.value m.now) a).rows
        ≡ c.now.pattern.major_dim }
    requires cols { (plain_op T.ring (λ m. plain_of_rows T.ring T.value m.now) b).cols
        ≡ c.now.pattern.minor_dim }
    ensures { IsTrue result → IsCovered (plain_product T.ring
        (plain_op T.ring (λ m. plain_of_rows T.ring T.value m.now) a.entry)
        (plain_op T.ring (λ m. plain_of_rows T.ring T.value m.now) b.entry))
        (plain_of_rows T.ring T.value c.now) }
{
    match c.clone(alloc) {
        Ok(mut copy) => match spmm_csr_prealloc(alloc, T::zero(), &mut copy, T::one(), a, b) {
            Ok(()) => true,
            Err(_) => false,
        },
        Err(_) => false,
    }
}

// Whether the target has the entries of the product: only then the checked product is made.
fn covers_columns<T: Scalar>(
    alloc: Global,
    c: &CscMatrix<T>,
    a: Op<&CscMatrix<T>>,
    b: Op<&CscMatrix<T>>,
) -> bool
    requires inner { (plain_op T.ring (λ m. plain_of_cols T.ring T.value m.now) a).cols
        ≡ (plain_op T.ring (λ m. plain_of_cols T.ring T.value m.now) b).rows }
    requires rows { (plain_op T.ring (λ m. plain_of_cols T.ring T.value m.now) a).rows
        ≡ c.now.pattern.minor_dim }
    requires cols { (plain_op T.ring (λ m. plain_of_cols T.ring T.value m.now) b).cols
        ≡ c.now.pattern.major_dim }
    ensures { IsTrue result → IsCovered (plain_product T.ring
        (plain_op T.ring (λ m. plain_of_cols T.ring T.value m.now) a.entry)
        (plain_op T.ring (λ m. plain_of_cols T.ring T.value m.now) b.entry))
        (plain_of_cols T.ring T.value c.now) }
{
    match c.clone(alloc) {
        Ok(mut copy) => match spmm_csc_prealloc(alloc, T::zero(), &mut copy, T::one(), a, b) {
            Ok(()) => true,
            Err(_) => false,
        },
        Err(_) => false,
    }
}

/// Returns the target after `unchecked beta C += alpha A B` or `counted beta C += alpha A B`.
pub fn product_into_by<T: Scalar, F: Compressed<T> + Unchecked<T>>(
    turn: &mut Turn,
    way: (Way, (T, T)),
    given: Operands<'_>,
) -> Result<String, Failure> {
    let a: F = inner_of(turn.alloc(), given.a)?;
    let b: F = inner_of(turn.alloc(), given.b)?;
    let mut c: F = matrix_of(turn.alloc(), given.c)?;
    let (a, b) = (operand(given.a, &a), operand(given.b, &b));
    added(turn, way, &mut c, a, b)
}

fn added<T: Scalar, F: Compressed<T> + Unchecked<T>>(
    turn: &mut Turn,
    way: (Way, (T, T)),
    c: &mut F,
    a: Op<&F>,
    b: Op<&F>,
) -> Result<String, Failure> {
    let before = shown(turn.alloc(), c)?;
    let answer = c.add_covered_product(turn, way, a, b);
    updated(answer, before, shown(turn.alloc(), c))
}
