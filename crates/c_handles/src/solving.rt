//! Triangular solves with matrices held by handles, in place in the array of the right-hand side.

ghost use Rattle.std.specs.Prelude.{◌≡◌, ◌≢◌, ◌*◌, length, None, Some};
ghost use Rattle.std.specs.Prelude.{Err, IfOk, IfErr, OnOk, OnErr};
ghost use Rattle.sparse_algebra.specs.Plain.{Plain};
ghost use Rattle.sparse_algebra.specs.WrappingValues.{w64_value};
ghost use Rattle.sparse_algebra.specs.declared.error.OperationErrorKind.TheVariants.{Singular};
ghost use Rattle.sparse_coo_dense.specs.DensePlain.{plain_of_dense};
ghost use Rattle.c_arrays.specs.Arrays.{plain_by_values, ring64};
ghost use Rattle.c_arrays.specs.Refused.{IsOutOfMemoryOr};
ghost use Rattle.c_arrays.specs.declared.refusal.Refusal.TheVariants.{EmptyHandle};
ghost use Rattle.c_arrays.specs.declared.refusal.Refusal.TheVariants.{ShapeMismatch};
ghost use Rattle.sparse_compressed.specs.PlainOfLanes.{plain_of_cols, plain_of_rows};
ghost use Rattle.c_handles.specs.Held.{plain_held};
ghost use Rattle.c_handles.specs.Solved.{as_lower, triangle_of, IsSingularPart};
ghost use Rattle.c_handles.specs.Solved.{IsSingularSystem, IsUnsolved, SolvesTriangle};
ghost use Rattle.c_handles.specs.declared.solving.Triangle.TheVariants.{Lower};
ghost use Rattle.sparse_dense_ops.specs.Solutions.{IsSolution};

use crate::handle::MatrixHandle;
use crate::held::shared;
use c_arrays::dense::dense_matrix_of;
use c_arrays::refusal::Refusal;
use c_arrays::scalars::put_scalars;
use sparse_algebra::error::OperationError;
use sparse_algebra::operand::Op;
use sparse_algebra::scalar::W64;
use sparse_coo_dense::dense::DMatrix;
use sparse_csr_csc::csc::CscMatrix;
use sparse_csr_csc::csr::CsrMatrix;
use sparse_dense_ops::spsolve_csc_lower_triangular;
use sparse_products::transposes::transposed_csr;
use std::alloc::{AllocError, Global};

/// Which triangle of a matrix is the matrix of a system of equations.
#[derive(Clone, Copy)]
pub enum Triangle {
    /// The part on and below the diagonal.
    Lower,
    /// The part on and above the diagonal.
    Upper,
}

/// Solves `T X = B`, or `Tᵀ X = B` if `transposed` is set, in place: T is a triangle of the matrix that `a` holds, and
/// `values` has the values of B before the call and those of X after it. B and X are dense matrices with `cols`
/// columns, stored column by column.
///
/// # Errors
///
/// Returns `EmptyHandle` if `a` is empty, `ShapeMismatch` if its matrix is not square, `InvalidStructure` if `values`
/// does not have `cols` values for each row, and `Singular` if `cols` is not 0 and some diagonal entry is missing or
/// has no inverse. Otherwise fails only if an allocation fails. On an error `values` is unchanged.
pub fn solve_triangle(
    alloc: Global,
    a: &mut MatrixHandle,
    triangle: Triangle,
    transposed: bool,
    cols: usize,
    values: &mut [i64],
) -> Result<(), Refusal>
    ensures kept { a.new.value ≡ a.old.value }
    ensures missing { a.old.value ≡ None → result ≡ Err EmptyHandle }
    ensures solved { OnOk result (SolvesTriangle triangle transposed (plain_held a.old.value) cols
        values.old values.new) }
    ensures unchanged { OnErr result (values.new ≡ values.old) }
    ensures fault { IfErr result (IsOutOfMemoryOr (IsUnsolved triangle a.old.value cols values.old)) }
{
    let a = shared(alloc, a)?;
    let x = solution(alloc, &a, triangle, transposed, cols, values)?;
    put_dense(&x, values);
    Ok(())
}

/// Returns the number of rows of a square matrix, which is its number of columns.
///
/// # Errors
///
/// Returns `ShapeMismatch` if the matrix is not square.
pub(crate) fn size_of(a: &CsrMatrix<W64>) -> Result<usize, Refusal>
    ensures rows { IfOk result (λ n. n ≡ a.now.pattern.major_dim) }
    ensures cols { IfOk result (λ n. n ≡ a.now.pattern.minor_dim) }
    ensures kind { IfErr result (λ refusal. refusal ≡ ShapeMismatch) }
    ensures fault { OnErr result (a.now.pattern.major_dim ≢ a.now.pattern.minor_dim) }
{
    if a.nrows() != a.ncols() {
        return Err(Refusal::ShapeMismatch);
    }
    Ok(a.nrows())
}

/// Overwrites an array with the values of a dense matrix, column by column. The array must have as many values.
pub(crate) fn put_dense(x: &DMatrix<W64>, values: &mut [i64])
    requires { length values.old ≡ x.now.nrows * x.now.ncols }
    ensures { plain_by_values ring64 x.now.nrows x.now.ncols values.new
        ≡ plain_of_dense ring64 w64_value x.now }
{
    put_scalars(values, x.as_slice());
}

// Returns the X with T X = B, or with Tᵀ X = B if `transposed` is set: T is a triangle of `a`.
fn solution(
    alloc: Global,
    a: &CsrMatrix<W64>,
    triangle: Triangle,
    transposed: bool,
    cols: usize,
    b: &[i64],
) -> Result<DMatrix<W64>, Refusal>
    ensures rows { IfOk result (λ x. x.nrows ≡ a.now.pattern.major_dim) }
    ensures cols { IfOk result (λ x. x.ncols ≡ cols) }
    ensures sized { OnOk result (length b.now ≡ a.now.pattern.major_dim * cols) }
    ensures square { OnOk result (a.now.pattern.major_dim ≡ a.now.pattern.minor_dim) }
    ensures regular { OnOk result
        (IsSingularSystem triangle (plain_of_rows ring64 w64_value a.now) cols → ⊥) }
    ensures solved { IfOk result (λ x. IsSolution ring64
        (triangle_of triangle transposed (plain_of_rows ring64 w64_value a.now))
        (plain_of_dense ring64 w64_value x)
        (plain_by_values ring64 a.now.pattern.major_dim cols b.now)) }
    ensures fault { IfErr result (IsOutOfMemoryOr (IsUnsolved triangle (Some a.now) cols b.now)) }
{
    let size = size_of(a)?;
    let mut x = dense_matrix_of(alloc, size, cols, b)?;
    solve_part(alloc, a, triangle, transposed, &mut x)?;
    Ok(x)
}

// Solves in place with a triangle of `a`, or with its transpose if `transposed` is set. The matrix is copied.
fn solve_part(
    alloc: Global,
    a: &CsrMatrix<W64>,
    triangle: Triangle,
    transposed: bool,
    b: &mut DMatrix<W64>,
) -> Result<(), Refusal>
    requires square { a.now.pattern.minor_dim ≡ a.now.pattern.major_dim }
    requires fits { b.old.nrows ≡ a.now.pattern.major_dim }
    ensures rows { b.new.nrows ≡ b.old.nrows }
    ensures cols { b.new.ncols ≡ b.old.ncols }
    ensures solved { OnOk result (IsSolution ring64
        (triangle_of triangle transposed (plain_of_rows ring64 w64_value a.now))
        (plain_of_dense ring64 w64_value b.new) (plain_of_dense ring64 w64_value b.old)) }
    ensures regular { OnOk result
        (IsSingularSystem triangle (plain_of_rows ring64 w64_value a.now) b.old.ncols → ⊥) }
    ensures fault { IfErr result (IsOutOfMemoryOr
        (IsSingularPart triangle (plain_of_rows ring64 w64_value a.now) b.old.ncols)) }
{
    let columns = columns_of(alloc, a, triangle)?;
    substitute(&columns, transposed_as_lower(triangle, transposed), b)?;
    Ok(())
}

/// Returns, by columns, a matrix whose lower triangle can replace the given triangle of `a` in a solve: `a` itself for
/// the lower triangle, and the transpose of `a` for the upper triangle, which is the transpose of its lower triangle.
///
/// Fails only if an allocation fails.
pub(crate) fn columns_of(
    alloc: Global,
    a: &CsrMatrix<W64>,
    triangle: Triangle,
) -> Result<CscMatrix<W64>, AllocError>
    ensures { IfOk result (λ m. plain_of_cols ring64 w64_value m
        ≡ as_lower triangle (plain_of_rows ring64 w64_value a.now)) }
{
    match triangle {
        Triangle::Lower => Ok(transposed_csr(alloc, a)?.transpose_as_csc()),
        Triangle::Upper => Ok(a.clone(alloc)?.transpose_as_csc()),
    }
}

// Returns whether the solve takes the transpose of the lower triangle of the matrix from `columns_of`.
fn transposed_as_lower(triangle: Triangle, transposed: bool) -> bool
    ensures { (a : Plain ring64) → triangle_of Lower result (as_lower triangle a)
        ≡ triangle_of triangle transposed a }
{
    match triangle {
        Triangle::Lower => transposed,
        Triangle::Upper => !transposed,
    }
}

// Solves in place with the lower triangle of `l`, or with its transpose if `transposed` is set.
fn substitute(
    l: &CscMatrix<W64>,
    transposed: bool,
    b: &mut DMatrix<W64>,
) -> Result<(), OperationError>
    requires square { l.now.pattern.minor_dim ≡ l.now.pattern.major_dim }
    requires fits { b.old.nrows ≡ l.now.pattern.major_dim }
    ensures rows { b.new.nrows ≡ b.old.nrows }
    ensures cols { b.new.ncols ≡ b.old.ncols }
    ensures solved { OnOk result (IsSolution ring64
        (triangle_of Lower transposed (plain_of_cols ring64 w64_value l.now))
        (plain_of_dense ring64 w64_value b.new) (plain_of_dense ring64 w64_value b.old)) }
    ensures kind { IfErr result (λ e. e ≡ Singular) }
    ensures singular { OnErr result
        (IsSingularSystem Lower (plain_of_cols ring64 w64_value l.now) b.old.ncols) }
    ensures regular { OnOk result
        (IsSingularSystem Lower (plain_of_cols ring64 w64_value l.now) b.old.ncols → ⊥) }
{
    if transposed {
        spsolve_csc_lower_triangular(Op::Transpose(l), b)
    } else {
        spsolve_csc_lower_triangular(Op::NoOp(l), b)
    }
}
