//! Solves of systems of equations over any ring.

ghost use Rattle.std.specs.Prelude.{◌≡◌, ◌<◌, IfOk, IfErr, OnOk, OnErr};
ghost use Rattle.sparse_algebra.specs.declared.error.OperationErrorKind.TheVariants.{Singular};
ghost use Rattle.sparse_coo_dense.specs.DensePlain.{plain_of_dense};
ghost use Rattle.sparse_compressed.specs.PlainOfLanes.{plain_of_cols};
ghost use Rattle.sparse_dense_ops.specs.Solutions.{plain_lower, IsSingular, IsSolution};
ghost use Rattle.sparse_c.specs.InnerModulusLaws.{numbers_listed, numbers_unlisted};
ghost use Rattle.sparse_c.specs.Solved.{transposed_if, IsFaultOfLower, SolvesLower};
ghost use Rattle.sparse_c.specs.Symmetric.{IsFaultOfSymmetric, SolvesSymmetric};
ghost use Rattle.sparse_c.specs.Systems.{IsFaultOfEquation, Solves, SolvesSystem};
ghost use Rattle.c_arrays.specs.Arrays.{plain_by_values};
ghost use Rattle.c_arrays.specs.Refused.{IsOutOfMemoryOr, IsSystemSound};

pub(crate) mod factors;
pub(crate) mod fill;
pub(crate) mod pivot;
pub(crate) mod solve;
pub(crate) mod symmetric;

use crate::arguments::{Equation, Numbers, System};
use crate::moduli::Call;
use c_arrays::dense::dense_matrix_of;
use c_arrays::lanes::Lanes;
use c_arrays::number::Number;
use c_arrays::refusal::Refusal;
use c_arrays::writing::finish_dense;
use sparse_algebra::error::OperationError;
use sparse_algebra::operand::Op;
use sparse_coo_dense::dense::DMatrix;
use sparse_csr_csc::csc::CscMatrix;
use sparse_dense_ops::spsolve_csc_lower_triangular;
use sparse_factor::ldl::Ldl;
use std::alloc::Global;

impl<'a> Call<Numbers<'a>> for System<'_> {
    ghost fits = { λ s. (s.matrix.pattern.minor_dim ≡ s.size)
        × (s.matrix.pattern.major_dim ≡ s.size) };

    ghost does = { SolvesSystem };

    /// Writes the solution.
    fn run<T: Number>(self, alloc: Global, out: &mut Numbers<'a>) -> i32 {
        finish_dense(solution::<T>(alloc, self), out.values)
    }

    ghost listed = { λ m _. numbers_listed m };

    ghost unlisted = { λ m _. numbers_unlisted m };
}

// Returns the solution of a system.
fn solution<T: Number>(alloc: Global, system: System<'_>) -> Result<DMatrix<T>, Refusal>
    requires rows { system.matrix.pattern.minor_dim ≡ system.size }
    requires cols { system.matrix.pattern.major_dim ≡ system.size }
    ensures rows { IfOk result (λ x. x.nrows ≡ system.entry.size) }
    ensures cols { IfOk result (λ x. x.ncols ≡ system.entry.cols) }
    ensures solved { let s = system.entry in IfOk result (λ x. Solves T.ring T.value s.equation
        s.matrix (plain_of_dense T.ring T.value x) (plain_by_values T.ring s.size s.cols s.b.now)
        s.size s.cols) }
    ensures sound { let s = system.entry in
        OnOk result (IsSystemSound s.matrix s.size s.cols s.b.now) }
    ensures fault { let s = system.entry in IfErr result (IsOutOfMemoryOr (IsFaultOfEquation T.ring
        T.value s.equation s.matrix s.size s.cols s.b.now)) }
{
    let System {
        equation,
        matrix,
        size,
        cols,
        b,
    } = system;
    match equation {
        Equation::Lower(transposed) => lower_solution(alloc, matrix, transposed, (size, cols), b),
        Equation::Symmetric => symmetric_solution(alloc, matrix, (size, cols), b),
    }
}

// Returns the solution of the system with the lower triangle of a CSC matrix, or with the transpose of this triangle.
fn lower_solution<T: Number>(
    alloc: Global,
    l: Lanes<'_>,
    transposed: bool,
    shape: (usize, usize),
    b: &[i64],
) -> Result<DMatrix<T>, Refusal>
    requires rows { l.pattern.minor_dim ≡ shape.0 }
    requires cols { l.pattern.major_dim ≡ shape.0 }
    ensures rows { IfOk result (λ x. x.nrows ≡ shape.0) }
    ensures cols { IfOk result (λ x. x.ncols ≡ shape.1) }
    ensures solved { IfOk result (λ x. SolvesLower T.ring T.value transposed l.entry shape.1
        (plain_of_dense T.ring T.value x)
        (plain_by_values T.ring shape.0 shape.1 b.now)) }
    ensures sound { OnOk result (IsSystemSound l.entry shape.0 shape.1 b.now) }
    ensures fault { IfErr result (IsOutOfMemoryOr
        (IsFaultOfLower T.ring T.value l.entry shape.0 shape.1 b.now)) }
{
    let l = l.columns::<T>(alloc)?;
    let (size, cols) = shape;
    let mut x = dense_matrix_of(alloc, size, cols, b)?;
    solve_triangle(&l, transposed, &mut x)?;
    Ok(x)
}

// Solves in place with the lower triangle of `l`, or with its transpose if `transposed` is set.
fn solve_triangle<T: Number>(
    l: &CscMatrix<T>,
    transposed: bool,
    b: &mut DMatrix<T>,
) -> Result<(), OperationError>
    requires square { l.now.pattern.minor_dim ≡ l.now.pattern.major_dim }
    requires fits { b.old.nrows ≡ l.now.pattern.major_dim }
    ensures rows { b.new.nrows ≡ b.old.nrows }
    ensures cols { b.new.ncols ≡ b.old.ncols }
    ensures solved { OnOk result (IsSolution T.ring (transposed_if T.ring transposed
        (plain_lower T.ring (plain_of_cols T.ring T.value l.now)))
        (plain_of_dense T.ring T.value b.new) (plain_of_dense T.ring T.value b.old)) }
    ensures kind { IfErr result (λ e. e ≡ Singular) }
    ensures singular { OnErr result ((0 < b.old.ncols) × IsSingular T.ring T.value
        (plain_lower T.ring (plain_of_cols T.ring T.value l.now))) }
    ensures regular { OnOk result ((0 < b.old.ncols) × IsSingular T.ring T.value
        (plain_lower T.ring (plain_of_cols T.ring T.value l.now)) → ⊥) }
{
    if transposed {
        spsolve_csc_lower_triangular(Op::Transpose(l), b)
    } else {
        spsolve_csc_lower_triangular(Op::NoOp(l), b)
    }
}

// Returns the solution of the system with the symmetric matrix whose entries on and above the diagonal are those of a
// CSC matrix.
fn symmetric_solution<T: Number>(
    alloc: Global,
    a: Lanes<'_>,
    shape: (usize, usize),
    b: &[i64],
) -> Result<DMatrix<T>, Refusal>
    requires rows { a.pattern.minor_dim ≡ shape.0 }
    requires cols { a.pattern.major_dim ≡ shape.0 }
    ensures rows { IfOk result (λ x. x.nrows ≡ shape.0) }
    ensures cols { IfOk result (λ x. x.ncols ≡ shape.1) }
    ensures solved { IfOk result (λ x. SolvesSymmetric T.ring T.value a.entry
        (plain_of_dense T.ring T.value x)
        (plain_by_values T.ring shape.0 shape.1 b.now) shape.0 shape.1) }
    ensures sound { OnOk result (IsSystemSound a.entry shape.0 shape.1 b.now) }
    ensures fault { IfErr result (IsOutOfMemoryOr
        (IsFaultOfSymmetric T.ring T.value a.entry shape.0 shape.1 b.now)) }
{
    let a = a.columns::<T>(alloc)?;
    let (size, cols) = shape;
    let mut x = dense_matrix_of(alloc, size, cols, b)?;
    let factors = Ldl::factor(alloc, &a)?;
    factors.solve_mut(&mut x);
    Ok(x)
}
