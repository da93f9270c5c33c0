//! Matrices and lists of arrays.

use crate::compressed::shown;
use crate::conversions::{Conversions, arrays_text};
use crate::made::Made;
use case_words::drawing::triplets;
use case_words::failure::Failure;
use case_words::scalar::{Scalar, scalars_of};
use case_words::turn::Turn;
use case_words::words::{indices_of, size_of};
use nalgebra_sparse::{CooMatrix, CscMatrix, CsrMatrix};
use std::alloc::Global;

/// Two numbers: of rows and columns, or of lanes and possible indices of a lane.
pub type Size = (usize, usize);

/// The offsets, the indices and the values of a matrix, or the rows, the columns and the values of a list.
pub type Arrays<T> = (Vec<usize>, Vec<usize>, Vec<T>);

/// Returns the size and the arrays of a text `2x3 offsets 0 2 3 indices 0 2 1 values 1 0 4`.
pub fn matrix_arrays<T: Scalar>(alloc: Global, text: &str) -> Result<(Size, Arrays<T>), Failure> {
    let (size, arrays) = parted(text, "offsets")?;
    let (offsets, arrays) = parted(arrays, "indices")?;
    let (indices, values) = parted(arrays, "values")?;
    Ok((
        size_of(size.trim())?,
        arrays_of(alloc, offsets, indices, values)?,
    ))
}

/// Returns the size and the arrays of a text `2x3 rows 0 0 1 cols 0 2 1 values 1 0 4`.
pub fn list_arrays<T: Scalar>(alloc: Global, text: &str) -> Result<(Size, Arrays<T>), Failure> {
    let (size, arrays) = parted(text, "rows")?;
    let (rows, arrays) = parted(arrays, "cols")?;
    let (cols, values) = parted(arrays, "values")?;
    Ok((size_of(size.trim())?, arrays_of(alloc, rows, cols, values)?))
}

// The texts before and after the name of an array.
fn parted<'a>(text: &'a str, name: &str) -> Result<(&'a str, &'a str), Failure> {
    text.split_once(name)
        .ok_or(Failure::Unreadable("an array is missing"))
}

fn arrays_of<T: Scalar>(
    alloc: Global,
    firsts: &str,
    seconds: &str,
    values: &str,
) -> Result<Arrays<T>, Failure> {
    Ok((
        indices_of(alloc, firsts)?,
        indices_of(alloc, seconds)?,
        scalars_of(alloc, values)?,
    ))
}

/// Returns the answer of `csr 2x3 offsets .. indices .. values ..`.
pub fn csr<T: Scalar>(turn: &mut Turn, text: &str) -> Result<String, Failure> {
    let alloc = turn.alloc();
    let ((nrows, ncols), (offsets, indices, values)) = matrix_arrays::<T>(alloc, text)?;
    turn.begin();
    let made = turn.end(CsrMatrix::try_from_csr_data(nrows, ncols, offsets, indices, values))?;
    shown(alloc, &made)
}

/// Returns the answer of `csc 2x3 offsets .. indices .. values ..`.
pub fn csc<T: Scalar>(turn: &mut Turn, text: &str) -> Result<String, Failure> {
    let alloc = turn.alloc();
    let ((nrows, ncols), (offsets, indices, values)) = matrix_arrays::<T>(alloc, text)?;
    turn.begin();
    let made = turn.end(CscMatrix::try_from_csc_data(nrows, ncols, offsets, indices, values))?;
    shown(alloc, &made)
}

/// Returns the answer of `unsorted 2x3 offsets .. indices .. values ..`: the arrays of the matrix of 2 lanes.
pub fn unsorted<T: Scalar, F: Drop + Conversions<T> + Made<T>>(
    turn: &mut Turn,
    text: &str,
) -> Result<String, Failure> {
    let alloc = turn.alloc();
    let (size, arrays) = matrix_arrays::<T>(alloc, text)?;
    turn.begin();
    let made: F = turn.end(F::of_unsorted(alloc, size, arrays))?;
    arrays_text(alloc, made.arrays())
}

/// Returns the answer of `coo 2x3 rows .. cols .. values ..`: the triplets of the list.
pub fn coo<T: Scalar>(turn: &mut Turn, text: &str) -> Result<String, Failure> {
    let alloc = turn.alloc();
    let ((nrows, ncols), (rows, cols, values)) = list_arrays::<T>(alloc, text)?;
    turn.begin();
    let list = turn.end(CooMatrix::try_from_triplets(nrows, ncols, rows, cols, values))?;
    Ok(triplets(alloc, &list)?)
}
