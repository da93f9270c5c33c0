//! The solve of a triangular system.

ghost use Rattle.std.specs.Prelude.{◌≡◌, ◌<◌, ◌↔◌, IsErr, OnOk, OnErr, IfErr};
ghost use Rattle.std.specs.Bool.{MatchBool};
ghost use Rattle.sparse_algebra.specs.declared.error.OperationErrorKind.TheVariants.{Singular};
ghost use Rattle.sparse_algebra.specs.Operands.{inner_of, plain_op};
ghost use Rattle.sparse_coo_dense.specs.DensePlain.{plain_of_dense};
ghost use Rattle.sparse_algebra.specs.Plain.{Plain};
ghost use Rattle.sparse_compressed.specs.Compressed.{Compressed, IsSound};
ghost use Rattle.sparse_compressed.specs.PlainOfLanes.{plain_of_cols};
ghost use Rattle.sparse_dense_ops.specs.Solutions.{plain_lower, IsSolution};
ghost use Rattle.sparse_dense_ops.specs.Solutions.{IsSingular, HasSameValues};
ghost use Rattle.sparse_dense_ops.specs.InnerColumns.{HasPivots};

use crate::solve::column::column_below;
use crate::solve::substitution::solve_columns;
use sparse_algebra::error::OperationError;
use sparse_algebra::operand::Op;
use sparse_algebra::scalar::Units;
use sparse_coo_dense::dense::DMatrix;
use sparse_csr_csc::csc::CscMatrix;

/// Solves `op(T) X = B` in place, where `T` is the part of `l` on and below its diagonal. `b` holds B on entry and X on
/// return.
///
/// `l` must be square, with as many rows as `b`. Of the entries above the diagonal only the indices are read, to find
/// the diagonal.
///
/// Forward substitution, or backward for a transposed operand (Davis 2006, chapter 3): one multiplication for each
/// entry of `T` and column of `b`. Allocates nothing.
///
/// # Errors
///
/// Returns `Singular` if and only if `b` has a column and some diagonal entry of `l` is not stored or has no inverse.
/// The whole diagonal is tested before anything is written, so `b` is then unchanged.
///
/// # Examples
///
/// ```rust
/// fn a_triangular_system_is_solved(alloc: Global) -> Result<bool, Fail> {
///     let dense = DMatrix::from_row_slice(alloc, 2, 2, &[1, 0, 2, 1].map(W64::new))?;
///     let l = convert_dense_csc(alloc, &dense)?;
///     let mut b = DMatrix::from_column_slice(alloc, 2, 1, &[3, 8].map(W64::new))?;
///     spsolve_csc_lower_triangular(Op::NoOp(&l), &mut b)?;
///     Ok(b.as_slice() == [3, 2].map(W64::new).as_slice())
/// }
/// ```
pub fn spsolve_csc_lower_triangular<T: Units>(
    l: Op<&CscMatrix<T>>,
    b: &mut DMatrix<T>,
) -> Result<(), OperationError>
    requires square { (inner_of l).now.pattern.minor_dim ≡ (inner_of l).now.pattern.major_dim }
    requires rows { b.old.nrows ≡ (inner_of l).now.pattern.major_dim }
    ensures rows { b.new.nrows ≡ b.old.nrows }
    ensures cols { b.new.ncols ≡ b.old.ncols }
    ensures solved { OnOk result (IsSolution T.ring
        (plain_op T.ring (λ m. plain_lower T.ring (plain_of_cols T.ring T.value m.now)) l.entry)
        (plain_of_dense T.ring T.value b.new) (plain_of_dense T.ring T.value b.old)) }
    ensures singular { IsErr result ↔ ((0 < b.old.ncols)
        × IsSingular T.ring T.value
        (plain_lower T.ring (plain_of_cols T.ring T.value (inner_of l.entry).now))) }
    ensures above { (m : Compressed T) (x : Plain T.ring)
        → plain_lower T.ring (plain_of_cols T.ring T.value m)
        ≡ plain_lower T.ring (plain_of_cols T.ring T.value (inner_of l.entry).now)
        → IsSolution T.ring
        (plain_op T.ring (λ _. plain_lower T.ring (plain_of_cols T.ring T.value m)) l.entry)
        x (plain_of_dense T.ring T.value b.old)
        → OnOk result (HasSameValues T.ring b.old.nrows b.old.ncols x
        (plain_of_dense T.ring T.value b.new)) }
    ensures kind { IfErr result (λ e. e ≡ Singular) }
    ensures unchanged { OnErr result (b.new ≡ b.old) }
{
    let (t, ncols) = (l.into_inner(), b.ncols());
    if !can_solve(t, ncols) {
        return Err(OperationError::of_singular_diagonal());
    }
    solve_columns(l, b);
    Ok(())
}

// Whether there is no column to solve for, or each diagonal entry is stored and has an inverse.
fn can_solve<T: Units>(l: &CscMatrix<T>, ncols: usize) -> bool
    requires square { l.now.pattern.minor_dim ≡ l.now.pattern.major_dim }
    ensures cases { MatchBool result
        (0 < ncols → HasPivots T.ring T.value (plain_of_cols T.ring T.value l.now))
        ((0 < ncols) × IsSingular T.ring T.value (plain_of_cols T.ring T.value l.now)) }
    ensures sound { 0 < ncols → IsSound l.now }
{
    ncols == 0 || has_pivots(l)
}

// Whether each diagonal entry is stored and has an inverse.
fn has_pivots<T: Units>(l: &CscMatrix<T>) -> bool
    requires square { l.now.pattern.minor_dim ≡ l.now.pattern.major_dim }
    ensures cases { MatchBool result (HasPivots T.ring T.value (plain_of_cols T.ring T.value l.now))
        (IsSingular T.ring T.value (plain_of_cols T.ring T.value l.now)) }
    ensures sound { IsSound l.now }
{
    let count = l.pattern().major_dim();
    for k in 0..count {
        let Some(_column) = column_below(l, k) else {
            return false;
        };
    }
    true
}
