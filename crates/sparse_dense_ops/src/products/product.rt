//! Products of a sparse and a dense matrix.

ghost use Rattle.std.specs.Prelude.{◌≡◌, IfOk};
ghost use Rattle.sparse_algebra.specs.Plain.{plain_product};
ghost use Rattle.sparse_algebra.specs.Prealloc.{plain_update};
ghost use Rattle.sparse_coo_dense.specs.DensePlain.{plain_of_dense, plain_full};
ghost use Rattle.sparse_compressed.specs.PlainOfLanes.{plain_of_rows, plain_of_cols};
ghost use Rattle.sparse_dense_ops.specs.DenseOperands.{op_cols, op_dense, op_rows};

use crate::products::update::update;
use sparse_algebra::operand::Op;
use sparse_algebra::scalar::Ring;
use sparse_coo_dense::dense::DMatrix;
use sparse_csr_csc::csc::CscMatrix;
use sparse_csr_csc::csr::CsrMatrix;
use std::alloc::{AllocError, Global};

/// Replaces `c` by `beta * c + alpha * op(a) * op(b)`.
///
/// The inner dimensions of `op(a)` and `op(b)` must be equal, and `c` must have the shape of their product.
///
/// One multiplication for each entry of `a` and column of `c`, and two for each value of `c` (one more for each value
/// of `b` if `a` is transposed). If `a` is not transposed, each of its rows is read once for four columns. Allocates
/// nothing.
///
/// # Examples
///
/// ```rust
/// fn a_product_is_added_to_a_dense_matrix(alloc: Global) -> Result<bool, Fail> {
///     let a = CsrMatrix::<W64>::identity(alloc, 2)?;
///     let b = DMatrix::repeat(alloc, 2, 1, W64::new(3))?;
///     let mut c = DMatrix::repeat(alloc, 2, 1, W64::new(1))?;
///     spmm_csr_dense(W64::new(1), &mut c, W64::new(2), Op::NoOp(&a), Op::NoOp(&b));
///     Ok(c == DMatrix::repeat(alloc, 2, 1, W64::new(7))?)
/// }
/// ```
pub fn spmm_csr_dense<T: Ring>(
    beta: T,
    c: &mut DMatrix<T>,
    alpha: T,
    a: Op<&CsrMatrix<T>>,
    b: Op<&DMatrix<T>>,
)
    requires inner { (op_rows T.ring T.value a).cols ≡ (op_dense T.ring T.value b).rows }
    requires rows { (op_rows T.ring T.value a).rows ≡ c.old.nrows }
    requires cols { (op_dense T.ring T.value b).cols ≡ c.old.ncols }
    ensures rows { c.new.nrows ≡ c.old.nrows }
    ensures cols { c.new.ncols ≡ c.old.ncols }
    ensures updated { plain_of_dense T.ring T.value c.new
        ≡ plain_update T.ring (T.value beta) (plain_of_dense T.ring T.value c.old) (T.value alpha)
        (plain_product T.ring (op_rows T.ring T.value a.entry) (op_dense T.ring T.value b.entry)) }
{
    match a {
        Op::NoOp(a) => update(beta, c, alpha, a.cs(), false, b),
        Op::Transpose(a) => update(beta, c, alpha, a.cs(), true, b),
    }
}

/// Replaces `c` by `beta * c + alpha * op(a) * op(b)`.
///
/// The inner dimensions of `op(a)` and `op(b)` must be equal, and `c` must have the shape of their product.
///
/// One multiplication for each entry of `a` and column of `c`, and two for each value of `c` (one more for each value
/// of `b` if `a` is not transposed). If `a` is transposed, each of its columns is read once for four columns of `c`.
/// Allocates nothing.
///
/// # Examples
///
/// ```rust
/// fn a_product_by_columns_replaces_a_dense_matrix(alloc: Global) -> Result<bool, Fail> {
///     let a = CscMatrix::<W64>::identity(alloc, 2)?;
///     let b = DMatrix::repeat(alloc, 2, 1, W64::new(3))?;
///     let mut c = DMatrix::repeat(alloc, 2, 1, W64::new(9))?;
///     spmm_csc_dense(W64::new(0), &mut c, W64::new(1), Op::NoOp(&a), Op::NoOp(&b));
///     Ok(c == b)
/// }
/// ```
pub fn spmm_csc_dense<T: Ring>(
    beta: T,
    c: &mut DMatrix<T>,
    alpha: T,
    a: Op<&CscMatrix<T>>,
    b: Op<&DMatrix<T>>,
)
    requires inner { (op_cols T.ring T.value a).cols ≡ (op_dense T.ring T.value b).rows }
    requires rows { (op_cols T.ring T.value a).rows ≡ c.old.nrows }
    requires cols { (op_dense T.ring T.value b).cols ≡ c.old.ncols }
    ensures rows { c.new.nrows ≡ c.old.nrows }
    ensures cols { c.new.ncols ≡ c.old.ncols }
    ensures updated { plain_of_dense T.ring T.value c.new
        ≡ plain_update T.ring (T.value beta) (plain_of_dense T.ring T.value c.old) (T.value alpha)
        (plain_product T.ring (op_cols T.ring T.value a.entry) (op_dense T.ring T.value b.entry)) }
{
    match a {
        Op::NoOp(a) => update(beta, c, alpha, a.cs(), true, b),
        Op::Transpose(a) => update(beta, c, alpha, a.cs(), false, b),
    }
}

/// Returns the dense product `a * b`.
///
/// `a.ncols()` must equal `b.nrows()`. One multiplication for each entry of `a` and column of `b`, and two for each
/// value of the result. Allocates only the result, and fails only if that allocation fails or the number of its values
/// exceeds `usize::MAX`.
///
/// # Examples
///
/// ```rust
/// fn a_matrix_times_a_dense_matrix(alloc: Global) -> Result<bool, Fail> {
///     let dense = DMatrix::from_row_slice(alloc, 2, 2, &[1, 2, 0, 3].map(W64::new))?;
///     let a = convert_dense_csr(alloc, &dense)?;
///     let square = mul_csr_dense(alloc, &a, &dense)?;
///     Ok(square.as_slice() == [1, 0, 8, 9].map(W64::new).as_slice())
/// }
/// ```
pub fn mul_csr_dense<T: Ring>(
    alloc: Global,
    a: &CsrMatrix<T>,
    b: &DMatrix<T>,
) -> Result<DMatrix<T>, AllocError>
    requires { a.now.pattern.minor_dim ≡ b.now.nrows }
    ensures { IfOk result (λ c. plain_of_dense T.ring T.value c
        ≡ plain_full T.ring (plain_product T.ring (plain_of_rows T.ring T.value a.now)
        (plain_of_dense T.ring T.value b.now))) }
{
    let mut product = DMatrix::zeros(alloc, a.nrows(), b.ncols())?;
    spmm_csr_dense(T::zero(), &mut product, T::one(), Op::NoOp(a), Op::NoOp(b));
    Ok(product)
}

/// Returns the dense product `a * b`.
///
/// `a.ncols()` must equal `b.nrows()`. One multiplication for each entry of `a` and column of `b`, one for each value
/// of `b`, and one for each value of the result. Allocates only the result, and fails only if that allocation fails or
/// the number of its values exceeds `usize::MAX`.
///
/// # Examples
///
/// ```rust
/// fn a_matrix_by_columns_times_a_dense_matrix(alloc: Global) -> Result<bool, Fail> {
///     let dense = DMatrix::from_row_slice(alloc, 2, 2, &[1, 2, 0, 3].map(W64::new))?;
///     let a = convert_dense_csc(alloc, &dense)?;
///     let square = mul_csc_dense(alloc, &a, &dense)?;
///     Ok(square.as_slice() == [1, 0, 8, 9].map(W64::new).as_slice())
/// }
/// ```
pub fn mul_csc_dense<T: Ring>(
    alloc: Global,
    a: &CscMatrix<T>,
    b: &DMatrix<T>,
) -> Result<DMatrix<T>, AllocError>
    requires { a.now.pattern.major_dim ≡ b.now.nrows }
    ensures { IfOk result (λ c. plain_of_dense T.ring T.value c
        ≡ plain_full T.ring (plain_product T.ring (plain_of_cols T.ring T.value a.now)
        (plain_of_dense T.ring T.value b.now))) }
{
    let mut product = DMatrix::zeros(alloc, a.nrows(), b.ncols())?;
    spmm_csc_dense(T::zero(), &mut product, T::one(), Op::NoOp(a), Op::NoOp(b));
    Ok(product)
}
