//! Assembly of a CSR or a CSC matrix from triplets, over any ring.

ghost use Rattle.std.specs.Prelude.{◌≡◌, IfOk, IfErr, OnOk};
ghost use Rattle.sparse_algebra.specs.Moduli.{mod_ring};
ghost use Rattle.sparse_coo_dense.specs.Coo.{AreParts};
ghost use Rattle.sparse_compressed.specs.PlainOfLanes.{plain_of_rows};
ghost use Rattle.sparse_c.specs.InnerModulusLaws.{rows_listed, rows_unlisted};
ghost use Rattle.sparse_c.specs.Orders.{assembly_of, Assembles};
ghost use Rattle.c_arrays.specs.Refused.{IsFaultOfList, IsOutOfMemoryOr};

use crate::arguments::{Order, OutputArrays, Triplets};
use crate::moduli::Call;
use c_arrays::number::Number;
use c_arrays::refusal::Refusal;
use c_arrays::triplets::list_of;
use c_arrays::writing::finish_rows;
use sparse_convert::serial::{convert_coo_csc, convert_coo_csr};
use sparse_csr_csc::csr::CsrMatrix;
use std::alloc::Global;

impl<'a> Call<OutputArrays<'a>> for Triplets<'_> {
    ghost does = { Assembles };

    /// Writes the matrix of the triplets. The values of triplets with the same row and column are added.
    fn run<T: Number>(self, alloc: Global, out: &mut OutputArrays<'a>) -> i32 {
        let answer = assembled::<T>(alloc, self);
        finish_rows(answer, out.offsets, out.indices, out.values, out.places)
    }

    ghost listed = { λ m t. rows_listed m (assembly_of (mod_ring m) t) };

    ghost unlisted = { λ m t. rows_unlisted m (assembly_of (mod_ring m) t) };
}

// Returns the CSR matrix of the triplets, or the CSR matrix of its transpose, which has the arrays of the CSC matrix.
pub(crate) fn assembled<T: Number>(
    alloc: Global,
    triplets: Triplets<'_>,
) -> Result<CsrMatrix<T>, Refusal>
    ensures plain { IfOk result
        (λ m. plain_of_rows T.ring T.value m ≡ assembly_of T.ring triplets.entry) }
    ensures sound { let t = triplets.entry in OnOk result
        (AreParts t.rows t.cols t.row_indices.now t.col_indices.now t.values.now) }
    ensures fault { let t = triplets.entry in IfErr result (IsOutOfMemoryOr
        (IsFaultOfList t.rows t.cols t.row_indices.now t.col_indices.now t.values.now)) }
{
    let Triplets {
        order,
        rows,
        cols,
        row_indices,
        col_indices,
        values,
    } = triplets;
    let list = list_of(alloc, rows, cols, row_indices, col_indices, values)?;
    match order {
        Order::Rows => Ok(convert_coo_csr(alloc, &list)?),
        Order::Columns => Ok(convert_coo_csc(alloc, &list)?.transpose_as_csr()),
    }
}
