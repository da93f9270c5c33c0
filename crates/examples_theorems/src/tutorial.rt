//! The functions of docs/TUTORIAL.md, but for those of the sections on rings and on theorems.

ghost use Rattle.std.specs.Prelude.{◌≡◌, true, IfOk};
ghost use Rattle.nalgebra_sparse.specs.Plain.{plain_identity, plain_product};
ghost use Rattle.nalgebra_sparse.specs.PlainOfLanes.{plain_of_rows};

use crate::example::holds;
use nalgebra_sparse::convert::serial::{convert_coo_csc, convert_coo_csr, convert_dense_csc};
use nalgebra_sparse::dense::DMatrix;
use nalgebra_sparse::factorization::CscSymbolicCholesky;
use nalgebra_sparse::io::load_coo_from_matrix_market_str;
use nalgebra_sparse::laws::compressed::{equal_law, stands_law};
use nalgebra_sparse::laws::plain::identity_product_law;
use nalgebra_sparse::ldl::Ldl;
use nalgebra_sparse::ops::Op;
use nalgebra_sparse::ops::serial::{OperationError, mul_csr, spsolve_csc_lower_triangular};
use nalgebra_sparse::scalar::{Mod, Ring, W64};
use nalgebra_sparse::{CooMatrix, CscMatrix, CsrMatrix};
use std::alloc::{AllocError, Global};
use std::test::Fail;

fn repeated_triplets_are_summed(alloc: Global) -> Result<bool, Fail> {
    let mut list = CooMatrix::new(alloc, 2, 2);
    for (row, col, value) in &[(0, 0, 1), (0, 1, 2), (1, 1, 3), (1, 1, -3)] {
        if *row < list.nrows() && *col < list.ncols() {
            list.push(*row, *col, W64::new(*value))?;
        }
    }
    let matrix = convert_coo_csr(alloc, &list)?;
    if matrix.ncols() != matrix.nrows() {
        return Ok(false);
    }
    let square = mul_csr(alloc, &matrix, &matrix)?;
    Ok(square.values() == [1, 2, 0].map(W64::new).as_slice())
}

const SYMMETRIC: &str = "%%MatrixMarket matrix coordinate integer symmetric
4 4 6
1 1 4
2 2 4
3 3 4
4 4 4
3 1 1
4 1 1
";

fn a_symmetric_file_fills_in(alloc: Global) -> Result<bool, Fail> {
    let list: CooMatrix<W64> = load_coo_from_matrix_market_str(alloc, SYMMETRIC)?;
    let matrix = convert_coo_csc(alloc, &list)?;
    if matrix.nrows() != matrix.ncols() {
        return Ok(false);
    }
    let factor = CscSymbolicCholesky::factor(alloc, matrix.pattern().clone(alloc)?)?;
    Ok(factor.l_pattern().minor_indices() == [0, 2, 3, 1, 2, 3, 3].as_slice())
}

fn a_system_is_solved_modulo_seven(alloc: Global) -> Result<bool, Fail> {
    let dense = DMatrix::from_row_slice(alloc, 2, 2, &[2, 0, 1, 3].map(Mod::<7>::new))?;
    let l = convert_dense_csc(alloc, &dense)?;
    let mut b = DMatrix::from_column_slice(alloc, 2, 1, &[1, 5].map(Mod::new))?;
    spsolve_csc_lower_triangular(Op::NoOp(&l), &mut b)?;
    Ok(b.as_slice() == [4, 5].map(Mod::new).as_slice())
}

// The matrix of a grid of 5 by 5 points, on and above the diagonal: 4 at each point, -1 between neighbours,
// which is 100 modulo 101.
fn grid(alloc: Global) -> Result<CooMatrix<Mod<101>>, AllocError> {
    let mut list = CooMatrix::new(alloc, 25, 25);
    for i in 0..25 {
        push_within(&mut list, i, i, 4)?;
        push_within(&mut list, i, i + 5, 100)?;
        if i % 5 < 4 {
            push_within(&mut list, i, i + 1, 100)?;
        }
    }
    Ok(list)
}

// Appends a triplet if it is within the shape.
fn push_within(
    list: &mut CooMatrix<Mod<101>>,
    row: usize,
    col: usize,
    value: u64,
) -> Result<(), AllocError> {
    if row < list.nrows() && col < list.ncols() {
        list.push(row, col, Mod::new(value))?;
    }
    Ok(())
}

// Solves A X = B in natural order, and returns the number of entries of the factor.
fn solve(
    alloc: Global,
    a: &CscMatrix<Mod<101>>,
    b: &mut DMatrix<Mod<101>>,
) -> Result<usize, OperationError>
    requires square { a.now.pattern.minor_dim ≡ a.now.pattern.major_dim }
    requires rows { b.old.nrows ≡ a.now.pattern.minor_dim }
{
    let natural = Ldl::factor(alloc, a)?;
    natural.solve_mut(b);
    Ok(natural.l().nnz())
}

// The same in an order of little fill.
fn solve_ordered(
    alloc: Global,
    a: &CscMatrix<Mod<101>>,
    b: &mut DMatrix<Mod<101>>,
) -> Result<usize, OperationError>
    requires square { a.now.pattern.minor_dim ≡ a.now.pattern.major_dim }
    requires rows { b.old.nrows ≡ a.now.pattern.minor_dim }
{
    let ordered = Ldl::factor_ordered(alloc, a)?;
    ordered.solve_mut(alloc, b)?;
    Ok(ordered.factors().l().nnz())
}

fn a_grid_is_ordered_and_solved(alloc: Global) -> Result<bool, Fail> {
    let a = convert_coo_csc(alloc, &grid(alloc)?)?;
    let mut x = DMatrix::repeat(alloc, 25, 1, Mod::new(1))?;
    let mut y = DMatrix::repeat(alloc, 25, 1, Mod::new(1))?;
    if a.nrows() != a.ncols() || a.nrows() != x.nrows() || a.nrows() != y.nrows() {
        return Ok(false);
    }
    let entries = solve(alloc, &a, &mut x)?;
    let fewer = solve_ordered(alloc, &a, &mut y)?;
    Ok(x == y && entries == 129 && fewer < 129)
}

// A law: the identity times a matrix is that matrix.
fn identity_is_neutral<T: Ring>(a: &CsrMatrix<T>)
    ensures neutral { plain_product T.ring (plain_identity T.ring a.now.pattern.major_dim)
        (plain_of_rows T.ring T.value a.now) ≡ plain_of_rows T.ring T.value a.now }
{
    // These calls cost nothing: they tell the prover that the arrays are sound, what they stand for, and a law.
    let _ = a.values();
    stands_law::<T>();
    identity_product_law::<T>();
}

// Multiplies by the identity from the left, which changes nothing.
fn times_one<T: Ring>(alloc: Global, a: &CsrMatrix<T>) -> Result<CsrMatrix<T>, AllocError>
    ensures { IfOk result
        (λ m. plain_of_rows T.ring T.value m ≡ plain_of_rows T.ring T.value a.now) }
{
    identity_is_neutral(a);
    let identity = CsrMatrix::identity(alloc, a.nrows())?;
    mul_csr(alloc, &identity, a)
}

// Returns whether two products are `==`, which is whether they mean one matrix.
fn is_one_matrix<T: Ring>(a: &CsrMatrix<T>, b: &CsrMatrix<T>) -> bool
    ensures { result ≡ true
        → plain_of_rows T.ring T.value a.now ≡ plain_of_rows T.ring T.value b.now }
{
    // These calls cost nothing: they tell the prover that the arrays are sound, and what `==` means.
    let _ = a.values();
    let _ = b.values();
    equal_law::<T>();
    *a == *b
}

// Appends a triplet with this value in each row, in the first column.
fn push_in_each_row(list: &mut CooMatrix<W64>, value: W64) -> Result<(), AllocError> {
    for row in 0..list.nrows() {
        // A test after which the condition of `push` is known.
        if row < list.nrows() && 0 < list.ncols() {
            list.push(row, 0, value)?;
        }
    }
    Ok(())
}

fn the_identity_changes_nothing(alloc: Global) -> Result<bool, Fail> {
    let mut list = CooMatrix::new(alloc, 3, 2);
    push_in_each_row(&mut list, W64::new(7))?;
    let matrix = convert_coo_csr(alloc, &list)?;
    let product = times_one(alloc, &matrix)?;
    Ok(is_one_matrix(&product, &matrix))
}

#[test]
fn the_tutorial(rt: HostRuntime) {
    let alloc = rt.alloc();
    assert!(rt; holds(&rt, repeated_triplets_are_summed(alloc)));
    assert!(rt; holds(&rt, a_symmetric_file_fills_in(alloc)));
    assert!(rt; holds(&rt, a_system_is_solved_modulo_seven(alloc)));
    assert!(rt; holds(&rt, a_grid_is_ordered_and_solved(alloc)));
    assert!(rt; holds(&rt, the_identity_changes_nothing(alloc)));
}
