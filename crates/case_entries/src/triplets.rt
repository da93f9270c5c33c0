//! The triplets of compressed matrices in order, and writes to all values.

use case_matrices::compressed::{Compressed, matrix_of, shown};
use case_words::drawing::{draw_triplet, or_none};
use case_words::failure::Failure;
use case_words::scalar::Scalar;
use case_words::templates::Operands;
use case_words::turn::Turn;
use nalgebra_sparse::{CscMatrix, CsrMatrix};
use std::alloc::{AllocError, Global};

/// A way to all values for writing.
#[derive(Clone, Copy)]
pub enum ValuesWay {
    /// By `values_mut`.
    Values,
    /// By `csr_data_mut` or `csc_data_mut`.
    Arrays,
    /// By `pattern_and_values_mut`.
    Pattern,
    /// By `triplet_iter_mut`.
    Triplets,
    /// By `row_iter_mut` or `col_iter_mut`.
    Lanes,
}

const WAYS: &[ValuesWay] = &[
    ValuesWay::Arrays,
    ValuesWay::Pattern,
    ValuesWay::Triplets,
    ValuesWay::Lanes,
];

/// The triplets of a format.
pub trait Triplets<T: Scalar> {
    /// Appends the triplets.
    fn draw_triplets(&self, out: &mut String) -> Result<(), AllocError>;

    /// Appends the triplets with copies of the values.
    fn draw_copies(&self, out: &mut String) -> Result<(), AllocError>;

    /// Appends the triplets for writing.
    fn draw_triplets_mut(&mut self, out: &mut String) -> Result<(), AllocError>;

    /// Doubles each stored value.
    fn double(&mut self, way: ValuesWay);
}

/// By rows.
impl<T: Scalar> Triplets<T> for CsrMatrix<T> {
    fn draw_triplets(&self, out: &mut String) -> Result<(), AllocError> {
        for (row, col, value) in self.triplet_iter() {
            draw_triplet(row, col, *value, out)?;
        }
        Ok(())
    }

    fn draw_copies(&self, out: &mut String) -> Result<(), AllocError> {
        for (row, col, value) in self.triplet_iter().cloned_values() {
            draw_triplet(row, col, value, out)?;
        }
        Ok(())
    }

    fn draw_triplets_mut(&mut self, out: &mut String) -> Result<(), AllocError> {
        for (row, col, value) in self.triplet_iter_mut() {
            draw_triplet(row, col, *value, out)?;
        }
        Ok(())
    }

    fn double(&mut self, way: ValuesWay) {
        match way {
            ValuesWay::Values => double(self.values_mut()),
            ValuesWay::Arrays => double(self.csr_data_mut().2),
            ValuesWay::Pattern => double(self.pattern_and_values_mut().1),
            ValuesWay::Triplets => double_triplets_by_rows(self),
            ValuesWay::Lanes => double_rows(self),
        }
    }
}

/// By columns.
impl<T: Scalar> Triplets<T> for CscMatrix<T> {
    fn draw_triplets(&self, out: &mut String) -> Result<(), AllocError> {
        for (row, col, value) in self.triplet_iter() {
            draw_triplet(row, col, *value, out)?;
        }
        Ok(())
    }

    fn draw_copies(&self, out: &mut String) -> Result<(), AllocError> {
        for (row, col, value) in self.triplet_iter().cloned_values() {
            draw_triplet(row, col, value, out)?;
        }
        Ok(())
    }

    fn draw_triplets_mut(&mut self, out: &mut String) -> Result<(), AllocError> {
        for (row, col, value) in self.triplet_iter_mut() {
            draw_triplet(row, col, *value, out)?;
        }
        Ok(())
    }

    fn double(&mut self, way: ValuesWay) {
        match way {
            ValuesWay::Values => double(self.values_mut()),
            ValuesWay::Arrays => double(self.csc_data_mut().2),
            ValuesWay::Pattern => double(self.pattern_and_values_mut().1),
            ValuesWay::Triplets => double_triplets_by_columns(self),
            ValuesWay::Lanes => double_columns(self),
        }
    }
}

fn double<T: Scalar>(values: &mut [T]) {
    for value in values.iter_mut() {
        *value = value.add(*value);
    }
}

fn double_triplets_by_rows<T: Scalar>(matrix: &mut CsrMatrix<T>) {
    for (_, _, value) in matrix.triplet_iter_mut() {
        *value = value.add(*value);
    }
}

fn double_rows<T: Scalar>(matrix: &mut CsrMatrix<T>) {
    for mut lane in matrix.row_iter_mut() {
        double(lane.values_mut());
    }
}

fn double_triplets_by_columns<T: Scalar>(matrix: &mut CscMatrix<T>) {
    for (_, _, value) in matrix.triplet_iter_mut() {
        *value = value.add(*value);
    }
}

fn double_columns<T: Scalar>(matrix: &mut CscMatrix<T>) {
    for mut lane in matrix.col_iter_mut() {
        double(lane.values_mut());
    }
}

/// A call on all triplets.
#[derive(Clone, Copy)]
pub enum TripletCall {
    InOrder,
    Double,
}

pub const TRIPLETS: &[(&str, TripletCall)] = &[
    ("triplets A", TripletCall::InOrder),
    ("double A", TripletCall::Double),
];

/// Returns the answer of one of these calls, each in all ways that the library has.
pub fn triplets_call<T: Scalar, F: Compressed<T> + Triplets<T>>(
    turn: &mut Turn,
    call: TripletCall,
    given: Operands<'_>,
) -> Result<String, Failure> {
    let mut matrix: F = matrix_of(turn.alloc(), given.a)?;
    match call {
        TripletCall::InOrder => in_order::<T, F>(turn.alloc(), &mut matrix),
        TripletCall::Double => doubled::<T, F>(turn.alloc(), &matrix),
    }
}

// The triplets in order. Those with copies of the values and those for writing must be the same.
fn in_order<T: Scalar, F: Triplets<T>>(alloc: Global, matrix: &mut F) -> Result<String, Failure> {
    let mut read = String::new(alloc);
    matrix.draw_triplets(&mut read)?;
    let mut copied = String::new(alloc);
    matrix.draw_copies(&mut copied)?;
    let mut written = String::new(alloc);
    matrix.draw_triplets_mut(&mut written)?;
    if copied.as_str() != read.as_str() || written.as_str() != read.as_str() {
        return Err(Failure::Unreadable("two ways find different triplets"));
    }
    Ok(or_none(alloc, read.as_str())?)
}

// The matrix with each value doubled. All ways must leave the same matrix.
fn doubled<T: Scalar, F: Compressed<T> + Triplets<T>>(
    alloc: Global,
    matrix: &F,
) -> Result<String, Failure> {
    let after = doubled_in(alloc, matrix, ValuesWay::Values)?;
    for way in WAYS {
        let other = doubled_in(alloc, matrix, *way)?;
        if other.as_str() != after.as_str() {
            return Err(Failure::Unreadable("two ways to write all values differ"));
        }
    }
    Ok(after)
}

fn doubled_in<T: Scalar, F: Compressed<T> + Triplets<T>>(
    alloc: Global,
    matrix: &F,
    way: ValuesWay,
) -> Result<String, Failure> {
    let mut copy = matrix.copied(alloc)?;
    copy.double(way);
    shown(alloc, &copy)
}
