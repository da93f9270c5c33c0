//! Appending a dense block to a list of triplets.

ghost use Rattle.std.specs.Prelude.{◌≡◌, ◌+◌, ◌*◌, ◌<◌, ◌≤◌, ◌^◌, ◌⊎◌, ℕ, ◌++◌, length, vec_len};
ghost use Rattle.std.specs.Prelude.{vec_capacity, IsOk, OnOk, OnErr};
ghost use Rattle.sparse_coo_dense.specs.Coo.{zip_triplets, appended, AreParts};
ghost use Rattle.sparse_coo_dense.specs.Blocks.{block_triplets, IsEmptyBlock, IsBlockInside};

use super::{CooMatrix, reserve_each};
use crate::dense::DMatrix;
use std::alloc::AllocError;

impl<T: Copy> CooMatrix<T> {
    /// Appends a triplet for each value of a dense block whose first value is at row `r` and column `c`. Zeros are
    /// included; the triplets follow the block column by column.
    ///
    /// The block must lie within the matrix, unless it is empty. An empty block adds nothing at any offset. Fails only
    /// if an allocation fails; the matrix is then unchanged.
    ///
    /// # Examples
    ///
    /// ```rust
    /// fn a_block_is_appended(alloc: Global) -> Result<bool, Fail> {
    ///     let block = DMatrix::repeat(alloc, 1, 2, 4)?;
    ///     let mut matrix = CooMatrix::new(alloc, 2, 3);
    ///     if matrix.nrows() >= 1 + block.nrows() && matrix.ncols() >= 1 + block.ncols() {
    ///         matrix.push_matrix(1, 1, &block)?;
    ///     }
    ///     Ok(matrix.col_indices() == [1, 2].as_slice())
    /// }
    /// ```
    pub fn push_matrix(&mut self, r: usize, c: usize, matrix: &DMatrix<T>) -> Result<(), AllocError>
        requires { IsEmptyBlock matrix.now ⊎ IsBlockInside self.old r c matrix.now }
        ensures ok { OnOk result (self.new ≡ appended self.old (block_triplets r c matrix.now)) }
        ensures err { OnErr result (self.new ≡ self.old) }
        ensures empty { IsEmptyBlock matrix.now → IsOk result }
    {
        let count = matrix.as_slice().len();
        if count == 0 {
            return Ok(());
        }
        reserve_each(
            &mut self.row_indices,
            &mut self.col_indices,
            &mut self.values,
            count,
        )?;
        push_block(
            &mut self.row_indices,
            &mut self.col_indices,
            &mut self.values,
            r,
            c,
            matrix,
        );
        Ok(())
    }
}

// Appends the rows, the columns and the values of a block to three lists, which must have memory for them.
fn push_block<T: Copy>(
    rows: &mut Vec<usize>,
    cols: &mut Vec<usize>,
    values: &mut Vec<T>,
    r: usize,
    c: usize,
    matrix: &DMatrix<T>,
)
    requires full { length matrix.now.values ≡ matrix.now.nrows * matrix.now.ncols }
    requires row_room { vec_len rows.old + length matrix.now.values ≤ vec_capacity rows.old }
    requires col_room { vec_len cols.old + length matrix.now.values ≤ vec_capacity cols.old }
    requires room { vec_len values.old + length matrix.now.values ≤ vec_capacity values.old }
    requires row_fits { r + matrix.now.nrows < 2 ^ 64 }
    requires col_fits { c + matrix.now.ncols < 2 ^ 64 }
    requires row_count { length rows.old.items ≡ length values.old.items }
    requires col_count { length cols.old.items ≡ length values.old.items }
    ensures triplets { zip_triplets rows.new.items cols.new.items values.new.items
        ≡ zip_triplets rows.old.items cols.old.items values.old.items
        ++ block_triplets r c matrix.now }
    ensures parts { (n m : ℕ) → AreParts n m rows.old.items cols.old.items values.old.items
        → r + matrix.now.nrows ≤ n → c + matrix.now.ncols ≤ m
        → AreParts n m rows.new.items cols.new.items values.new.items }
{
    for j in 0..matrix.ncols() {
        for (i, value) in matrix.column(j).iter().enumerate() {
            rows.push_reserved(r + i);
            cols.push_reserved(c + j);
            values.push_reserved(*value);
        }
    }
}
