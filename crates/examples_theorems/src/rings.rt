//! Matrices over rings made of rings: the tutorial's section of this name.

ghost use Rattle.std.specs.Prelude.{◌≡◌, IfOk};

use crate::example::holds;
use nalgebra_sparse::CsrMatrix;
use nalgebra_sparse::convert::serial::{convert_dense_csc, convert_dense_csr};
use nalgebra_sparse::dense::DMatrix;
use nalgebra_sparse::ops::Op;
use nalgebra_sparse::ops::serial::{mul_csr, mul_csr_dense, spsolve_csc_lower_triangular};
use nalgebra_sparse::rings::{Dual, Gaussian, Pair};
use nalgebra_sparse::scalar::{Mod, Ring, W64, Zero};
use std::alloc::{AllocError, Global};
use std::test::Fail;

// The matrix with this one entry.
fn one_entry<T: Zero + Copy>(alloc: Global, entry: T) -> Result<CsrMatrix<T>, AllocError>
    ensures rows { IfOk result (λ m. m.pattern.major_dim ≡ 1) }
    ensures cols { IfOk result (λ m. m.pattern.minor_dim ≡ 1) }
{
    convert_dense_csr(alloc, &DMatrix::repeat(alloc, 1, 1, entry)?)
}

fn the_derivative_of_a_square_is_twice_the_number(alloc: Global) -> Result<bool, Fail> {
    let x = one_entry(alloc, Dual::variable(W64::new(5)))?;
    let square = mul_csr(alloc, &x, &x)?;
    Ok(square.values() == [Dual::new(W64::new(25), W64::new(10))].as_slice())
}

fn a_solve_differentiates_itself(alloc: Global) -> Result<bool, Fail> {
    let [two, zero, three] = [2, 0, 3].map(|number| Dual::constant(Mod::<7>::new(number)));
    let parameter = Dual::variable(Mod::new(1));
    let dense = DMatrix::from_row_slice(alloc, 2, 2, &[two, zero, parameter, three])?;
    let l = convert_dense_csc(alloc, &dense)?;
    let right = [1, 5].map(|number| Dual::constant(Mod::new(number)));
    let mut b = DMatrix::from_column_slice(alloc, 2, 1, &right)?;
    spsolve_csc_lower_triangular(Op::NoOp(&l), &mut b)?;
    Ok(
        b.get(0, 0) == Dual::constant(Mod::new(4))
            && b.get(1, 0) == Dual::new(Mod::new(5), Mod::new(1)),
    )
}

fn a_quarter_turn_taken_twice_is_a_half_turn(alloc: Global) -> Result<bool, Fail> {
    let quarter = one_entry(alloc, Gaussian::new(W64::zero(), W64::one()))?;
    let half = mul_csr(alloc, &quarter, &quarter)?;
    Ok(half.values() == [Gaussian::new(W64::new(-1), W64::zero())].as_slice())
}

// A number modulo the primes 2^61 - 1 and 2^64 - 59.
fn residues(number: u64) -> Pair<Mod<2305843009213693951>, Mod<18446744073709551557>> {
    Pair::new(Mod::new(number), Mod::new(number))
}

fn a_product_past_64_bits_is_recovered(alloc: Global) -> Result<bool, Fail> {
    let entries = [1 << 61, 1 << 62].map(residues);
    let row = convert_dense_csr(alloc, &DMatrix::from_row_slice(alloc, 1, 2, &entries)?)?;
    let column = DMatrix::from_column_slice(alloc, 2, 1, &entries)?;
    match mul_csr_dense(alloc, &row, &column)?.as_slice() {
        [entry] => Ok(entry.combine() == Some(5 << 122)),
        _ => Ok(false),
    }
}

#[test]
fn rings_made_of_rings(rt: HostRuntime) {
    let alloc = rt.alloc();
    assert!(rt; holds(&rt, the_derivative_of_a_square_is_twice_the_number(alloc)));
    assert!(rt; holds(&rt, a_solve_differentiates_itself(alloc)));
    assert!(rt; holds(&rt, a_quarter_turn_taken_twice_is_a_half_turn(alloc)));
    assert!(rt; holds(&rt, a_product_past_64_bits_is_recovered(alloc)));
}
