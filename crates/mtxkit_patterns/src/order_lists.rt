//! Lists of triplets that are columns of numbers, and the indices that these numbers count from 1.

ghost use Rattle.std.specs.Prelude.{◌≡◌, ◌↔◌, IfOk, IsTrue, EachIndex, map, slice_index};
ghost use Rattle.mtxkit_patterns.specs.OrderLists.{IsColumn, index_of};

use sparse_coo_dense::coo::CooMatrix;
use std::alloc::{AllocError, Global};

/// Returns whether the triplets of a list are those of a column from the top, one in each row.
pub(crate) fn is_column(list: &CooMatrix<i128>) -> bool
    ensures { IsTrue result ↔ IsColumn list.now }
{
    list.ncols() == 1 && list.nnz() == list.nrows() && counts_up(list.row_indices())
}

// Returns whether the numbers are 0, 1, 2 and so on.
fn counts_up(numbers: &[usize]) -> bool
    ensures { IsTrue result ↔ EachIndex numbers.now (λ k. slice_index numbers.now k ≡ k) }
{
    for (k, number) in numbers.iter().enumerate() {
        if *number != k {
            return false;
        }
    }
    true
}

/// Returns the indices that these numbers count from 1; a number that counts none gives one that exceeds every length.
///
/// Fails only if an allocation fails.
pub(crate) fn indices_of(alloc: Global, numbers: &[i128]) -> Result<Vec<usize>, AllocError>
    ensures { IfOk result (λ indices. indices.items ≡ map index_of numbers.now) }
{
    let mut indices = Vec::with_capacity(alloc, numbers.len())?;
    for number in numbers {
        indices.push(index_of(*number))?;
    }
    Ok(indices)
}

// Returns the index that a number counts from 1, or one that exceeds every length.
fn index_of(number: i128) -> usize
    ensures { result ≡ index_of number }
{
    match usize::try_from(number) {
        Ok(number) if number > 0 => number - 1,
        _ => usize::MAX,
    }
}
