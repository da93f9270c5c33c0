//! Products whose steps are counted, with bounds on the steps that are proved from the public clauses alone.

ghost use Rattle.std.specs.Prelude.{◌≤◌, ◌*◌, IfOk};
ghost use Rattle.tests_acceptance.specs.Small.{IsSmall};
ghost use Rattle.nalgebra_sparse.specs.Numbers.{w64_number};

use nalgebra_sparse::CsrMatrix;
use nalgebra_sparse::laws::compressed::stands_law;
use nalgebra_sparse::laws::plain::identity_product_law;
use nalgebra_sparse::ops::serial::{OperationError, spmm_csr_prealloc_unchecked_counted};
use nalgebra_sparse::ops::{Op, Steps};
use nalgebra_sparse::scalar::{Ring, W64, Zero};
use std::alloc::Global;
use std::test::Fail;

// The matrix with the rows `1 2` and `0 3`, without the zero.
fn small(alloc: Global) -> Result<CsrMatrix<W64>, Fail>
    ensures { IfOk result (IsSmall w64_number) }
{
    let offsets = vec![in alloc; 0, 2, 3]?;
    let columns = vec![in alloc; 0, 1, 1]?;
    let values = vec![in alloc; W64::new(1), W64::new(2), W64::new(3)]?;
    Ok(CsrMatrix::try_from_csr_data(2, 2, offsets, columns, values)?)
}

// Returns the steps of the product of that matrix with itself.
fn steps_of_a_small_square(alloc: Global) -> Result<Steps, Fail>
    ensures least { IfOk result (λ steps. 4 ≤ steps) }
    ensures most { IfOk result (λ steps. steps ≤ 10) }
{
    let matrix = small(alloc)?;
    let mut square = small(alloc)?;
    let (zero, one) = (W64::zero(), W64::one());
    let operand = Op::NoOp(&matrix);
    let mut steps = Steps::new();
    spmm_csr_prealloc_unchecked_counted(
        alloc,
        zero,
        &mut square,
        one,
        operand,
        operand,
        &mut steps,
    )?;
    Ok(steps)
}

// Returns the steps of the product of an identity with itself.
fn steps_of_an_identity<T: Ring>(alloc: Global, n: usize) -> Result<Steps, OperationError>
    ensures least { IfOk result (λ steps. n ≤ steps) }
    ensures most { IfOk result (λ steps. steps ≤ 3 * n) }
{
    // The calls cost nothing: their contracts tell the prover which entries an identity and its square have.
    stands_law::<T>();
    identity_product_law::<T>();
    let matrix = CsrMatrix::<T>::identity(alloc, n)?;
    let mut square = CsrMatrix::<T>::identity(alloc, n)?;
    let (zero, one) = (T::zero(), T::one());
    let operand = Op::NoOp(&matrix);
    let mut steps = Steps::new();
    spmm_csr_prealloc_unchecked_counted(
        alloc,
        zero,
        &mut square,
        one,
        operand,
        operand,
        &mut steps,
    )?;
    Ok(steps)
}

#[test]
fn counted_products_are_made(rt: HostRuntime) -> Result<(), Fail> {
    let _small = steps_of_a_small_square(rt.alloc())?;
    let _large = steps_of_an_identity::<W64>(rt.alloc(), 2000)?;
    Ok(())
}
