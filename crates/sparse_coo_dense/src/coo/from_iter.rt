//! Construction from an iterator over triplets.

ghost use Rattle.std.specs.Prelude.{◌≡◌, ◌⊎◌, map, IfOk, IfErr};
ghost use Rattle.std.specs.Iterator.{IsFinite};
ghost use Rattle.std.specs.Iterator.Runs.{WholeRun};
ghost use Rattle.sparse_coo_dense.specs.Coo.{coo_of, IsInside};
ghost use Rattle.sparse_coo_dense.specs.TripletFaults.{IsSomeOutside};
ghost use Rattle.sparse_pattern.specs.declared.error.SparseFormatErrorKind.TheVariants.{IndexOutOfBounds};
ghost use Rattle.sparse_pattern.specs.declared.error.SparseFormatErrorKind.TheVariants.{OutOfMemory};

use super::CooMatrix;
use sparse_pattern::error::SparseFormatError;
use std::alloc::{AllocError, Global};

impl<T> CooMatrix<T> {
    /// Returns the matrix of the triplets that an iterator yields, in the same order.
    ///
    /// The iterator must be finite.
    ///
    /// # Errors
    ///
    /// Returns `OutOfMemory` if an allocation fails while the triplets are collected. Otherwise returns
    /// `IndexOutOfBounds` if a row index is not less than `nrows` or a column index is not less than `ncols`.
    pub fn try_from_triplets_iter<I: Iterator<Item = (usize, usize, T)>>(
        alloc: Global,
        nrows: usize,
        ncols: usize,
        triplets: I,
    ) -> Result<Self, SparseFormatError>
    where
        T: Drop,
        requires can { I.can_next triplets }
        requires ends { IsFinite (I.remaining triplets) }
        ensures ok { IfOk result (λ m. WholeRun I.next_gives triplets
            (λ run. m ≡ coo_of nrows ncols run.items)) }
        ensures inside { IfOk result IsInside }
        ensures kinds { IfErr result (λ e. (e ≡ OutOfMemory) ⊎ (e ≡ IndexOutOfBounds)) }
        ensures outside { IfErr result (λ e. e ≡ IndexOutOfBounds
            → WholeRun I.next_gives triplets (λ run. IsSomeOutside nrows ncols run.items)) }
    {
        let (row_indices, col_indices, values) = split_triplets(alloc, triplets)?;
        CooMatrix::try_from_triplets(nrows, ncols, row_indices, col_indices, values)
    }
}

// Returns the rows, the columns and the values of the triplets that an iterator yields.
fn split_triplets<T: Drop, I: Iterator<Item = (usize, usize, T)>>(
    alloc: Global,
    triplets: I,
) -> Result<(Vec<usize>, Vec<usize>, Vec<T>), AllocError>
    requires can { I.can_next triplets }
    requires ends { IsFinite (I.remaining triplets) }
    ensures { IfOk result (λ parts. WholeRun I.next_gives triplets (λ run.
        (parts.0.items ≡ map (λ t. t.0) run.items)
        × (parts.1.items ≡ map (λ t. t.1) run.items)
        × (parts.2.items ≡ map (λ t. t.2) run.items))) }
{
    let mut row_indices = Vec::new(alloc);
    let mut col_indices = Vec::new(alloc);
    let mut values = Vec::new(alloc);
    for (row, col, value) in triplets {
        row_indices.push(row)?;
        col_indices.push(col)?;
        values.push(value)?;
    }
    Ok((row_indices, col_indices, values))
}
