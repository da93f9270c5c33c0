//! What the tests share: matrices made from arrays, the example that most of them read, and comparisons.

use sparse_algebra::scalar::W64;
use sparse_csr_csc::csc::CscMatrix;
use sparse_csr_csc::csr::CsrMatrix;
use sparse_pattern::error::SparseFormatError;
use std::alloc::{AllocError, Global};
use std::rc::Rc;

/// The number of lanes, their length, the offsets, the indices and the values of a matrix.
pub type Arrays<'a, T> = (usize, usize, &'a [usize], &'a [usize], &'a [T]);

/// The rows 1 . 0 and . 4 ., whose zero is stored, by rows.
pub const BY_ROWS: Arrays<'static, i32> = (2, 3, &[0, 2, 3], &[0, 2, 1], &[1, 0, 4]);

/// The same matrix by columns.
pub const BY_COLUMNS: Arrays<'static, i32> = (3, 2, &[0, 1, 2, 3], &[0, 1, 0], &[1, 4, 0]);

// Copies of the offsets, the indices and the values.
fn copied<T: Copy>(
    alloc: Global,
    arrays: Arrays<'_, T>,
) -> Result<(Vec<usize>, Vec<usize>, Vec<T>), AllocError> {
    Ok((
        arrays.2.to_vec(alloc)?,
        arrays.3.to_vec(alloc)?,
        arrays.4.to_vec(alloc)?,
    ))
}

/// The CSR matrix of arrays whose rows are sorted.
pub fn csr<T: Copy>(
    alloc: Global,
    arrays: Arrays<'_, T>,
) -> Result<CsrMatrix<T>, SparseFormatError> {
    let (offsets, indices, values) = copied(alloc, arrays)?;
    CsrMatrix::try_from_csr_data(arrays.0, arrays.1, offsets, indices, values)
}

/// The CSC matrix of arrays whose columns are sorted.
pub fn csc<T: Copy>(
    alloc: Global,
    arrays: Arrays<'_, T>,
) -> Result<CscMatrix<T>, SparseFormatError> {
    let (offsets, indices, values) = copied(alloc, arrays)?;
    CscMatrix::try_from_csc_data(arrays.1, arrays.0, offsets, indices, values)
}

/// The CSR matrix of arrays whose rows need not be sorted.
pub fn unsorted_csr(
    alloc: Global,
    arrays: Arrays<'_, i32>,
) -> Result<CsrMatrix<i32>, SparseFormatError> {
    let (offsets, indices, values) = copied(alloc, arrays)?;
    CsrMatrix::try_from_unsorted_csr_data(alloc, arrays.0, arrays.1, offsets, indices, values)
}

/// The CSC matrix of arrays whose columns need not be sorted.
pub fn unsorted_csc(
    alloc: Global,
    arrays: Arrays<'_, i32>,
) -> Result<CscMatrix<i32>, SparseFormatError> {
    let (offsets, indices, values) = copied(alloc, arrays)?;
    CscMatrix::try_from_unsorted_csc_data(alloc, arrays.1, arrays.0, offsets, indices, values)
}

/// Whether two slices are equal. A call takes the prover less time than `==` with its references.
pub fn are_equal<T: PartialEq>(left: &[T], right: &[T]) -> bool {
    left == right
}

/// This many copies of one value.
pub fn copies(alloc: Global, one: &Rc<i32>, count: usize) -> Result<Vec<Rc<i32>>, AllocError> {
    let mut values = Vec::with_capacity(alloc, count)?;
    for _ in 0..count {
        values.push(one.clone()?)?;
    }
    Ok(values)
}

/// The CSR matrix of arrays whose rows are sorted, over wrapping integers.
pub fn wrapping_csr(alloc: Global, arrays: Arrays<'_, i64>) -> Option<CsrMatrix<W64>> {
    let mut values = Vec::new(alloc);
    for number in arrays.4 {
        values.push(W64::new(*number)).ok()?;
    }
    csr(
        alloc,
        (arrays.0, arrays.1, arrays.2, arrays.3, values.as_slice()),
    )
    .ok()
}

/// Whether a matrix by rows was made, with these columns and values.
pub fn holds(made: Option<CsrMatrix<W64>>, columns: &[usize], numbers: &[i64]) -> bool {
    match made {
        Some(matrix) => are_equal(matrix.col_indices(), columns) && are(matrix.values(), numbers),
        None => false,
    }
}

/// Whether a matrix by columns was made, with these rows and values.
pub fn holds_by_columns(made: Option<CscMatrix<W64>>, rows: &[usize], numbers: &[i64]) -> bool {
    match made {
        Some(matrix) => are_equal(matrix.row_indices(), rows) && are(matrix.values(), numbers),
        None => false,
    }
}

/// Whether the values are these numbers.
pub fn are(values: &[W64], numbers: &[i64]) -> bool {
    if values.len() != numbers.len() {
        return false;
    }
    for (value, number) in values.iter().zip(numbers) {
        if value.get() != *number {
            return false;
        }
    }
    true
}
