//! Transposes, sums and products of matrices that handles hold.

ghost use Rattle.std.specs.Prelude.{◌≡◌, ◌⊎◌, ◌*◌, length, pos, None};
ghost use Rattle.sparse_algebra.specs.Integers.{element_of};
ghost use Rattle.sparse_algebra.specs.Plain.{plain_difference, plain_product};
ghost use Rattle.sparse_algebra.specs.Plain.{plain_scaled, plain_sum};
ghost use Rattle.sparse_algebra.specs.Plain.{plain_transpose};
ghost use Rattle.c_arrays.specs.Arrays.{ring64, HoldsDense};
ghost use Rattle.c_arrays.specs.Rests.{KeepsBehind};
ghost use Rattle.c_arrays.specs.Statuses.{number_of};
ghost use Rattle.c_arrays.specs.declared.refusal.Refusal.TheVariants.{EmptyHandle, OutOfMemory};
ghost use Rattle.c_handles.specs.Held.{plain_held, Answers, IsEmpty};
ghost use Rattle.c_handles.specs.Held.{Holds, HoldsProduct, HoldsSum};
ghost use Rattle.c_handles.specs.Held.{IsSumError, IsProductError};
ghost use Rattle.c_handles.specs.Dense.{dense_product, IsDenseProductError};

use crate::status::status;
use c_handles::dense::multiply_dense;
use c_handles::handle::MatrixHandle;
use c_handles::operations;
use std::alloc::Global;

/// Stores in `out` the transpose of the matrix that `a` holds.
#[unsafe(no_mangle)]
pub extern "C" fn nalgebra_sparse_matrix_transpose(
    alloc: Global,
    a: &mut MatrixHandle,
    out: &mut MatrixHandle,
) -> i32
    ensures kept { a.new.value ≡ a.old.value }
    ensures missing { a.old.value ≡ None → result ≡ number_of EmptyHandle }
    ensures answer { Answers result (IsEmpty a.old.value) (out.new.value ≡ out.old.value)
        (Holds out.new.value (plain_transpose ring64 (plain_held a.old.value))) }
{
    status!(operations::transpose(alloc, a, out))
}

/// Stores in `out` the matrix that `a` holds, times a number.
#[unsafe(no_mangle)]
pub extern "C" fn nalgebra_sparse_matrix_scale(
    alloc: Global,
    factor: i64,
    a: &mut MatrixHandle,
    out: &mut MatrixHandle,
) -> i32
    ensures kept { a.new.value ≡ a.old.value }
    ensures missing { a.old.value ≡ None → result ≡ number_of EmptyHandle }
    ensures answer { Answers result (IsEmpty a.old.value) (out.new.value ≡ out.old.value)
        (Holds out.new.value
        (plain_scaled ring64 (element_of ring64 factor) (plain_held a.old.value))) }
{
    status!(operations::scale(alloc, factor, a, out))
}

/// Stores in `out` the sum of the matrices that `a` and `b` hold.
#[unsafe(no_mangle)]
pub extern "C" fn nalgebra_sparse_matrix_add(
    alloc: Global,
    a: &mut MatrixHandle,
    b: &mut MatrixHandle,
    out: &mut MatrixHandle,
) -> i32
    ensures kept { (a.new.value ≡ a.old.value) × (b.new.value ≡ b.old.value) }
    ensures first_missing { a.old.value ≡ None → result ≡ number_of EmptyHandle }
    ensures second_missing { b.old.value ≡ None
        → (result ≡ number_of EmptyHandle) ⊎ (result ≡ number_of OutOfMemory) }
    ensures answer { Answers result (IsSumError a.old.value b.old.value)
        (out.new.value ≡ out.old.value) (HoldsSum a.old.value b.old.value
        (plain_sum ring64 (plain_held a.old.value) (plain_held b.old.value))
        out.new.value) }
{
    status!(operations::add(alloc, a, b, out))
}

/// Stores in `out` the difference `a - b` of the matrices that `a` and `b` hold.
#[unsafe(no_mangle)]
pub extern "C" fn nalgebra_sparse_matrix_subtract(
    alloc: Global,
    a: &mut MatrixHandle,
    b: &mut MatrixHandle,
    out: &mut MatrixHandle,
) -> i32
    ensures kept { (a.new.value ≡ a.old.value) × (b.new.value ≡ b.old.value) }
    ensures first_missing { a.old.value ≡ None → result ≡ number_of EmptyHandle }
    ensures second_missing { b.old.value ≡ None
        → (result ≡ number_of EmptyHandle) ⊎ (result ≡ number_of OutOfMemory) }
    ensures answer { Answers result (IsSumError a.old.value b.old.value)
        (out.new.value ≡ out.old.value) (HoldsSum a.old.value b.old.value
        (plain_difference ring64 (plain_held a.old.value) (plain_held b.old.value))
        out.new.value) }
{
    status!(operations::subtract(alloc, a, b, out))
}

/// Stores in `out` the sum `alpha * a + beta * b` of multiples of the matrices that `a` and `b` hold.
#[unsafe(no_mangle)]
pub extern "C" fn nalgebra_sparse_matrix_add_scaled(
    alloc: Global,
    alpha: i64,
    a: &mut MatrixHandle,
    beta: i64,
    b: &mut MatrixHandle,
    out: &mut MatrixHandle,
) -> i32
    ensures kept { (a.new.value ≡ a.old.value) × (b.new.value ≡ b.old.value) }
    ensures first_missing { a.old.value ≡ None → result ≡ number_of EmptyHandle }
    ensures second_missing { b.old.value ≡ None
        → (result ≡ number_of EmptyHandle) ⊎ (result ≡ number_of OutOfMemory) }
    ensures answer { Answers result (IsSumError a.old.value b.old.value)
        (out.new.value ≡ out.old.value) (HoldsSum a.old.value b.old.value
        (plain_sum ring64 (plain_scaled ring64 (element_of ring64 alpha) (plain_held a.old.value))
        (plain_scaled ring64 (element_of ring64 beta) (plain_held b.old.value))) out.new.value) }
{
    status!(operations::add_scaled(alloc, alpha, a, beta, b, out))
}

/// Stores in `out` the product `a * b` of the matrices that `a` and `b` hold.
#[unsafe(no_mangle)]
pub extern "C" fn nalgebra_sparse_matrix_multiply(
    alloc: Global,
    a: &mut MatrixHandle,
    b: &mut MatrixHandle,
    out: &mut MatrixHandle,
) -> i32
    ensures kept { (a.new.value ≡ a.old.value) × (b.new.value ≡ b.old.value) }
    ensures first_missing { a.old.value ≡ None → result ≡ number_of EmptyHandle }
    ensures second_missing { b.old.value ≡ None
        → (result ≡ number_of EmptyHandle) ⊎ (result ≡ number_of OutOfMemory) }
    ensures answer { Answers result (IsProductError a.old.value b.old.value)
        (out.new.value ≡ out.old.value) (HoldsProduct a.old.value b.old.value
        (plain_product ring64 (plain_held a.old.value) (plain_held b.old.value))
        out.new.value) }
{
    status!(operations::multiply(alloc, a, b, out))
}

/// Writes the product of the matrix that `a` holds and a dense matrix with `cols` columns. The dense matrices are stored
/// column by column.
#[unsafe(no_mangle)]
pub extern "C" fn nalgebra_sparse_matrix_multiply_dense(
    alloc: Global,
    a: &mut MatrixHandle,
    cols: usize,
    b_values: &[i64],
    out_values: &mut [i64],
) -> i32
    ensures kept { a.new.value ≡ a.old.value }
    ensures missing { a.old.value ≡ None → result ≡ number_of EmptyHandle }
    ensures sized { result ≡ pos 0
        → length b_values.now ≡ (plain_held a.old.value).cols * cols }
    ensures answer { let m = plain_held a.old.value in
        Answers result (IsDenseProductError a.old.value cols b_values.now out_values.old)
        (out_values.new ≡ out_values.old)
        (HoldsDense (dense_product m cols b_values.now) out_values.new
        × KeepsBehind (m.rows * cols) out_values.old out_values.new) }
{
    status!(multiply_dense(alloc, a, cols, b_values, out_values))
}
