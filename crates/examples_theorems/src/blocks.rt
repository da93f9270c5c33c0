//! Products by blocks of rows, which several machines can compute.

ghost use Rattle.std.specs.Prelude.{◌≡◌, ℕ, ◌+◌, ◌≤◌, IfOk, List, OnOk};
ghost use Rattle.nalgebra_sparse.specs.Coo.{appended};
ghost use Rattle.nalgebra_sparse.specs.Plain.{Plain, IsProper, IsWithin, plain_product, plain_sum};
ghost use Rattle.nalgebra_sparse.specs.PlainOfLanes.{plain_of_rows};
ghost use Rattle.examples_theorems.specs.InnerRowBlocks.{one_in_block};
ghost use Rattle.examples_theorems.specs.OnlySolutions.{Solves};
ghost use Rattle.examples_theorems.specs.RowBlocks.{col_block, row_block, row_blocks, stacked};
ghost use Rattle.examples_theorems.specs.RowBlocks.{total_size};

use crate::example::{holds, three_rows};
use nalgebra_sparse::CooMatrix;
use nalgebra_sparse::convert::serial::convert_coo_csr;
use nalgebra_sparse::csr::CsrMatrix;
use nalgebra_sparse::laws::compressed::stands_law;
use nalgebra_sparse::ops::serial::mul_csr;
use nalgebra_sparse::scalar::{Ring, W64};
use std::alloc::{AllocError, Global};
use std::test::Fail;

// A block of rows of a product is the product of these rows of the left operand with the right one. A block of columns
// is the product of the left operand with these columns of the right one.
fn product_blocks_law<T: Ring>()
    ensures rows { (a b : Plain T.ring) (start count : ℕ)
        → plain_product T.ring (row_block T.ring start count a) b
        ≡ row_block T.ring start count (plain_product T.ring a b) }
    ensures cols { (a b : Plain T.ring) (start count : ℕ)
        → plain_product T.ring a (col_block T.ring start count b)
        ≡ col_block T.ring start count (plain_product T.ring a b) }
{}

// A block of rows of a sum is the sum of the operands' blocks.
fn sum_blocks_law<T: Ring>()
    ensures { (a b : Plain T.ring) (start count : ℕ)
        → plain_sum T.ring (row_block T.ring start count a) (row_block T.ring start count b)
        ≡ row_block T.ring start count (plain_sum T.ring a b) }
{}

// A block of columns of a solution solves the system of these columns of the right side.
fn solution_blocks_law<T: Ring>()
    ensures { (s x b : Plain T.ring) (start count : ℕ) → start + count ≤ b.cols
        → Solves T.ring s x b
        → Solves T.ring s (col_block T.ring start count x) (col_block T.ring start count b) }
{}

// Consecutive blocks of rows, which may have any sizes, are the matrix again once they are stacked.
fn stacked_law<T: Ring>()
    ensures { (a : Plain T.ring) (sizes : List ℕ)
        → IsWithin a → IsProper a → total_size sizes ≡ a.rows
        → stacked T.ring a.cols (row_blocks T.ring 0 sizes a) ≡ a }
{}

// Appends a triplet of a matrix to the list of a block of rows, if it lies in the block.
fn push_inside<T: Ring>(
    list: &mut CooMatrix<T>,
    start: usize,
    row: usize,
    col: usize,
    value: T,
) -> Result<(), AllocError>
    ensures { OnOk result (list.new ≡ appended list.old
        (one_in_block start list.old.nrows list.old.ncols (row, col, value))) }
{
    if start <= row && row - start < list.nrows() && col < list.ncols() {
        list.push(row - start, col, value)?;
    }
    Ok(())
}

// Returns `count` rows of the matrix, from the row `start` on.
fn rows_from<T: Ring>(
    alloc: Global,
    a: &CsrMatrix<T>,
    start: usize,
    count: usize,
) -> Result<CsrMatrix<T>, AllocError>
    ensures plain { IfOk result (λ m. plain_of_rows T.ring T.value m
        ≡ row_block T.ring start count (plain_of_rows T.ring T.value a.now)) }
    ensures minor { IfOk result (λ m. m.pattern.minor_dim ≡ a.now.pattern.minor_dim) }
{
    // This call costs nothing: it tells the prover that the entries lie within the shape.
    stands_law::<T>();
    let mut block = CooMatrix::new(alloc, count, a.ncols());
    for (row, col, value) in a.triplet_iter() {
        push_inside(&mut block, start, row, col, *value)?;
    }
    let rows = convert_coo_csr(alloc, &block)?;
    Ok(rows)
}

// Returns `count` rows of the product, from the row `start` on. Only these rows of `a` are multiplied.
fn multiply_rows<T: Ring>(
    alloc: Global,
    a: &CsrMatrix<T>,
    b: &CsrMatrix<T>,
    start: usize,
    count: usize,
) -> Result<CsrMatrix<T>, AllocError>
    requires { a.now.pattern.minor_dim ≡ b.now.pattern.major_dim }
    ensures { IfOk result (λ m. plain_of_rows T.ring T.value m ≡ row_block T.ring start count
        (plain_product T.ring (plain_of_rows T.ring T.value a.now)
        (plain_of_rows T.ring T.value b.now))) }
{
    product_blocks_law::<T>();
    let rows = rows_from(alloc, a, start, count)?;
    let product = mul_csr(alloc, &rows, b)?;
    Ok(product)
}

// Whether the last two rows of the square of `1 2 0`, `0 3 4` and `5 0 6` are `20 9 36` and `35 10 36`.
fn two_rows_of_a_square(alloc: Global) -> Result<bool, Fail> {
    let a = three_rows(alloc, &[1, 2, 0, 0, 3, 4, 5, 0, 6])?;
    let rows = multiply_rows(alloc, &a, &a, 1, 2)?;
    let offsets = [0, 3, 6].as_slice();
    let columns = [0, 1, 2, 0, 1, 2].as_slice();
    let values = [20, 9, 36, 35, 10, 36].map(W64::new);
    Ok(rows.nrows() == 2 && rows.csr_data() == (offsets, columns, values.as_slice()))
}

#[test]
fn blocks_are_multiplied(rt: HostRuntime) {
    assert!(rt; holds(&rt, two_rows_of_a_square(rt.alloc())));
}
