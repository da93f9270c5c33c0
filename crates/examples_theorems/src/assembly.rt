//! Assembly of a sparse matrix from dense blocks, as finite element codes do it.

ghost use Rattle.std.specs.Prelude.{◌≡◌, ◌↔◌, All, IfOk, IsTrue};
ghost use Rattle.nalgebra_sparse.specs.Compressed.{IsSound};
ghost use Rattle.nalgebra_sparse.specs.PlainOfLanes.{plain_of_rows};
ghost use Rattle.examples_theorems.specs.Assembly.{LiesWithin, assembled};

use crate::example::holds;
use crate::parts::Block;
use nalgebra_sparse::CooMatrix;
use nalgebra_sparse::convert::serial::convert_coo_csr;
use nalgebra_sparse::csr::CsrMatrix;
use nalgebra_sparse::dense::DMatrix;
use nalgebra_sparse::scalar::{Ring, W64};
use std::alloc::{AllocError, Global};
use std::test::Fail;

// Whether the block lies within a matrix of this shape.
fn lies_within<T>(nrows: usize, ncols: usize, block: &Block<T>) -> bool
    ensures { IsTrue result ↔ LiesWithin nrows ncols block.now }
{
    block.row <= nrows
        && block.matrix.nrows() <= nrows - block.row
        && block.col <= ncols
        && block.matrix.ncols() <= ncols - block.col
}

// Whether each block lies within a matrix of this shape.
fn all_within<T>(nrows: usize, ncols: usize, blocks: &[Block<T>]) -> bool
    ensures { IsTrue result ↔ All (LiesWithin nrows ncols) blocks.now }
{
    blocks.iter().all(|block| lies_within(nrows, ncols, block))
}

// Returns the sum of the blocks, each at its row and column of a matrix of zeros of this shape.
fn assemble<T: Ring>(
    alloc: Global,
    nrows: usize,
    ncols: usize,
    blocks: &[Block<T>],
) -> Result<CsrMatrix<T>, AllocError>
    requires { All (LiesWithin nrows ncols) blocks.now }
    ensures plain { IfOk result (λ m. plain_of_rows T.ring T.value m
        ≡ assembled T.ring T.value nrows ncols blocks.now) }
    ensures sound { IfOk result IsSound }
{
    let mut list = CooMatrix::new(alloc, nrows, ncols);
    for block in blocks {
        // This call costs nothing: it tells the prover that the block has a value at each row and column.
        let _ = block.matrix.as_slice();
        list.push_matrix(block.row, block.col, &block.matrix)?;
    }
    let matrix = convert_coo_csr(alloc, &list)?;
    Ok(matrix)
}

// The stiffness matrix of an element, at this row and column.
fn element(alloc: Global, row: usize, col: usize) -> Result<Block<W64>, AllocError> {
    let matrix = DMatrix::from_row_slice(alloc, 2, 2, &[1, -1, -1, 1].map(W64::new))?;
    Ok(Block { row, col, matrix })
}

// Whether two elements, at (0, 0) and (1, 1), have the rows 1 -1 0, -1 2 -1 and 0 -1 1.
fn two_elements(alloc: Global) -> Result<bool, Fail> {
    let blocks = [element(alloc, 0, 0)?, element(alloc, 1, 1)?];
    if !all_within(3, 3, &blocks) {
        return Ok(false);
    }
    let matrix = assemble(alloc, 3, 3, &blocks)?;
    let offsets = [0, 2, 5, 7].as_slice();
    let columns = [0, 1, 0, 1, 2, 1, 2].as_slice();
    let values = [1, -1, -1, 2, -1, -1, 1].map(W64::new);
    Ok(matrix.csr_data() == (offsets, columns, values.as_slice()))
}

// Whether a block that ends past the last column does not lie within the matrix.
fn a_block_is_outside(alloc: Global) -> Result<bool, Fail> {
    let blocks = [element(alloc, 0, 2)?];
    Ok(!all_within(2, 3, &blocks) && all_within(2, 4, &blocks))
}

#[test]
fn blocks_are_assembled(rt: HostRuntime) {
    assert!(rt; holds(&rt, two_elements(rt.alloc())));
    assert!(rt; holds(&rt, a_block_is_outside(rt.alloc())));
}
