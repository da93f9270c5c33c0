//! Products of matrices over residues, which handles hold, and dense matrices.

ghost use Rattle.std.specs.Prelude.{◌≡◌, ◌*◌, None, Some};
ghost use Rattle.sparse_c.specs.HeldRings.{WritesHeldProduct};
ghost use Rattle.sparse_c.specs.Rooms.{Shows};
ghost use Rattle.c_arrays.specs.Reduced.{IsReduced};
ghost use Rattle.c_arrays.specs.Statuses.{number_of};
ghost use Rattle.c_arrays.specs.declared.refusal.Refusal.TheVariants.{EmptyHandle};
ghost use Rattle.c_handles.specs.Rings.{arrays_held, modulus_held};

use crate::arguments::{DenseOperands, Numbers};
use crate::moduli::by_modulus;
use c_handles::handle::RingHandle;
use c_handles::held::shared;
use c_handles::ring_matrix::RingMatrix;
use std::alloc::Global;

/// Writes the product of the matrix that `a` holds and a dense matrix with `cols` columns. The dense matrices are stored
/// column by column.
#[unsafe(no_mangle)]
pub extern "C" fn nalgebra_sparse_ring_matrix_multiply_dense(
    alloc: Global,
    a: &mut RingHandle,
    cols: usize,
    b_values: &[i64],
    out_values: &mut [i64],
) -> i32
    ensures kept { a.new.value ≡ a.old.value }
    ensures missing { a.old.value ≡ None → result ≡ number_of EmptyHandle }
    ensures answered { WritesHeldProduct a.old.value cols b_values.now
        out_values.old out_values.new result }
    ensures reduced { Shows (IsReduced (modulus_held a.old.value))
        ((arrays_held a.old.value).pattern.major_dim * cols) out_values.new result }
{
    match shared(alloc, a) {
        Ok(a) => write_product(alloc, &a, cols, b_values, out_values),
        Err(refusal) => refusal.status(),
    }
}

// Writes the product of a matrix and a dense matrix with `cols` columns.
fn write_product<'a>(
    alloc: Global,
    a: &'a RingMatrix,
    cols: usize,
    b: &'a [i64],
    out: &mut [i64],
) -> i32
    ensures answered { WritesHeldProduct (Some a.now) cols b.now out.old out.new result }
    ensures reduced { Shows (IsReduced a.now.modulus) (a.now.matrix.pattern.major_dim * cols)
        out.new result }
{
    let operands = DenseOperands {
        a: a.lanes(),
        inner: a.matrix.ncols(),
        cols,
        b,
    };
    let mut out = Numbers { values: out };
    by_modulus(alloc, a.modulus, operands, &mut out)
}
