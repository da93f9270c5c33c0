//! Compressed matrices, by rows and by columns, and those that pictures show.

ghost use Rattle.std.specs.Prelude.{◌≡◌, IfOk};

use case_words::drawing::{Drawn, is_large, picture, triplets};
use case_words::failure::Failure;
use case_words::picture::list_of;
use case_words::scalar::Scalar;
use nalgebra_sparse::convert::serial::{
    convert_coo_csc, convert_coo_csr, convert_coo_dense, convert_csc_coo, convert_csr_coo,
};
use nalgebra_sparse::dense::DMatrix;
use nalgebra_sparse::ops::Op;
use nalgebra_sparse::{CooMatrix, CscMatrix, CsrMatrix};
use std::alloc::{AllocError, Global};

/// A compressed matrix.
pub trait Compressed<T: Scalar>: Drawn + Drop {
    /// Returns the matrix of a list.
    fn from_list(alloc: Global, list: &CooMatrix<T>) -> Result<Self, AllocError>;

    /// Returns the list of the matrix.
    fn to_list(&self, alloc: Global) -> Result<CooMatrix<T>, AllocError>;

    /// Returns the transpose.
    fn transposed(&self, alloc: Global) -> Result<Self, AllocError>;

    /// Returns a copy.
    fn copied(&self, alloc: Global) -> Result<Self, AllocError>;
}

/// By rows.
impl<T: Scalar> Compressed<T> for CsrMatrix<T> {
    fn from_list(alloc: Global, list: &CooMatrix<T>) -> Result<Self, AllocError> {
        convert_coo_csr(alloc, list)
    }

    fn to_list(&self, alloc: Global) -> Result<CooMatrix<T>, AllocError> {
        convert_csr_coo(alloc, self)
    }

    fn transposed(&self, alloc: Global) -> Result<Self, AllocError> {
        self.transpose(alloc)
    }

    fn copied(&self, alloc: Global) -> Result<Self, AllocError> {
        self.clone(alloc)
    }
}

/// By columns.
impl<T: Scalar> Compressed<T> for CscMatrix<T> {
    fn from_list(alloc: Global, list: &CooMatrix<T>) -> Result<Self, AllocError> {
        convert_coo_csc(alloc, list)
    }

    fn to_list(&self, alloc: Global) -> Result<CooMatrix<T>, AllocError> {
        convert_csc_coo(alloc, self)
    }

    fn transposed(&self, alloc: Global) -> Result<Self, AllocError> {
        self.transpose(alloc)
    }

    fn copied(&self, alloc: Global) -> Result<Self, AllocError> {
        self.clone(alloc)
    }
}

/// Returns the compressed matrix of a picture, transposed where the picture is.
pub fn matrix_of<T: Scalar, F: Compressed<T>>(
    alloc: Global,
    picture: Op<&str>,
) -> Result<F, Failure> {
    let matrix: F = inner_of(alloc, picture)?;
    match picture {
        Op::NoOp(_) => Ok(matrix),
        Op::Transpose(_) => Ok(matrix.transposed(alloc)?),
    }
}

/// Returns the square matrix of a picture, by columns.
pub fn square_of<T: Scalar>(alloc: Global, a: Op<&str>) -> Result<CscMatrix<T>, Failure>
    ensures { IfOk result (λ m. m.pattern.minor_dim ≡ m.pattern.major_dim) }
{
    let matrix: CscMatrix<T> = matrix_of(alloc, a)?;
    if matrix.nrows() != matrix.ncols() {
        return Err(Failure::Misfit);
    }
    Ok(matrix)
}

/// Returns the compressed matrix of a picture that an operation takes as it is or transposed.
pub fn inner_of<T: Scalar, F: Compressed<T>>(
    alloc: Global,
    picture: Op<&str>,
) -> Result<F, Failure> {
    let list = list_of(alloc, picture.into_inner())?;
    Ok(F::from_list(alloc, &list)?)
}

/// Returns the picture of an operand that a call takes as it is alone.
pub fn plain<'a>(picture: Op<&'a str>) -> Result<&'a str, Failure> {
    match picture {
        Op::NoOp(picture) => Ok(picture),
        Op::Transpose(_) => Err(Failure::Unreadable("the call takes no transpose")),
    }
}

/// Returns the list of a picture that no transpose may follow.
pub fn plain_list_of<T: Scalar>(alloc: Global, picture: Op<&str>) -> Result<CooMatrix<T>, Failure> {
    list_of(alloc, plain(picture)?)
}

/// Returns the dense matrix of a picture that no transpose may follow.
pub fn plain_dense_of<T: Scalar>(alloc: Global, picture: Op<&str>) -> Result<DMatrix<T>, Failure> {
    dense_of(alloc, Op::NoOp(plain(picture)?))
}

/// Returns the dense matrix of a picture that an operation takes as it is or transposed.
pub fn dense_of<T: Scalar>(alloc: Global, picture: Op<&str>) -> Result<DMatrix<T>, Failure> {
    let list = list_of(alloc, picture.into_inner())?;
    Ok(convert_coo_dense(alloc, &list)?)
}

/// Returns a matrix as the operand that its picture is.
pub fn operand<'a, M>(picture: Op<&str>, matrix: &'a M) -> Op<&'a M> {
    match picture {
        Op::NoOp(_) => Op::NoOp(matrix),
        Op::Transpose(_) => Op::Transpose(matrix),
    }
}

/// Returns the picture of a matrix, or the triplets of a large one.
pub fn shown<T: Scalar, F: Compressed<T>>(alloc: Global, matrix: &F) -> Result<String, Failure> {
    if is_large(matrix.size()) {
        return Ok(triplets(alloc, &matrix.to_list(alloc)?)?);
    }
    Ok(picture(alloc, matrix)?)
}

/// Returns what is shown of the matrix that a call made.
pub fn made<T: Scalar, F: Compressed<T>>(
    alloc: Global,
    made: Result<F, Failure>,
) -> Result<String, Failure> {
    shown(alloc, &made?)
}

/// Returns the triplets of the list that a call made.
pub fn made_list<T: Scalar>(
    alloc: Global,
    made: Result<CooMatrix<T>, AllocError>,
) -> Result<String, Failure> {
    Ok(triplets(alloc, &made?)?)
}

/// Returns the picture of what a call made.
pub fn made_picture<D: Drawn + Drop>(
    alloc: Global,
    made: Result<D, AllocError>,
) -> Result<String, Failure> {
    Ok(picture(alloc, &made?)?)
}

/// Returns the answer of an update, given how its target was shown before and after: an error must leave it as it was.
pub fn updated(
    answer: Result<(), Failure>,
    before: String,
    after: Result<String, Failure>,
) -> Result<String, Failure> {
    match answer {
        Ok(()) => after,
        Err(failure) => unchanged(failure, before, after?),
    }
}

fn unchanged(failure: Failure, before: String, after: String) -> Result<String, Failure> {
    if before.as_str() == after.as_str() {
        return Err(failure);
    }
    Err(Failure::Unreadable("an error changed the target"))
}
