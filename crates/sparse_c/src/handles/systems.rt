//! Systems of equations with matrices and with factors that handles hold.

ghost use Rattle.std.specs.Prelude.{◌≡◌, None};
ghost use Rattle.sparse_algebra.specs.Plain.{plain_transpose};
ghost use Rattle.c_arrays.specs.Arrays.{place_count, ring64, output_arrays};
ghost use Rattle.c_arrays.specs.Statuses.{number_of};
ghost use Rattle.c_arrays.specs.declared.refusal.Refusal.TheVariants.{EmptyHandle};
ghost use Rattle.c_handles.specs.Held.{plain_held, Answers, IsEmpty};
ghost use Rattle.c_handles.specs.Factored.{l_held, product_held, size_held};
ghost use Rattle.c_handles.specs.Factored.{HasNoSystem, HoldsFactors, IsUnfactored};
ghost use Rattle.c_handles.specs.Solved.{IsUnsolved, SolvesInPlace, SolvesTriangle};
ghost use Rattle.c_handles.specs.declared.solving.Triangle.TheVariants.{Lower, Upper};
ghost use Rattle.sparse_c.specs.Factors.{WritesHeldFactors};

use crate::status::status;
use crate::systems::factors::finish_factors;
use c_handles::factoring::{factor, solve_factored};
use c_handles::handle::{FactorHandle, MatrixHandle};
use c_handles::held::{clear, share};
use c_handles::reading::{copied_factors, factor_sizes};
use c_handles::solving::{Triangle, solve_triangle};
use std::alloc::Global;

/// Replaces B by the X for which `L X = B`, or `Lᵀ X = B` if `transposed` is set.
///
/// L is the lower triangle, with the diagonal, of the matrix that a handle holds. B and X are dense matrices with
/// `cols` columns, stored column by column.
#[unsafe(no_mangle)]
pub extern "C" fn nalgebra_sparse_matrix_solve_lower(
    alloc: Global,
    a: &mut MatrixHandle,
    transposed: bool,
    cols: usize,
    values: &mut [i64],
) -> i32
    ensures kept { a.new.value ≡ a.old.value }
    ensures missing { a.old.value ≡ None → result ≡ number_of EmptyHandle }
    ensures answer { Answers result (IsUnsolved Lower a.old.value cols values.old)
        (values.new ≡ values.old)
        (SolvesTriangle Lower transposed (plain_held a.old.value) cols values.old values.new) }
{
    status!(solve_triangle(alloc, a, Triangle::Lower, transposed, cols, values))
}

/// Replaces B by the X for which `U X = B`, or `Uᵀ X = B` if `transposed` is set.
///
/// U is the upper triangle, with the diagonal, of the matrix that a handle holds. B and X are dense matrices with
/// `cols` columns, stored column by column.
#[unsafe(no_mangle)]
pub extern "C" fn nalgebra_sparse_matrix_solve_upper(
    alloc: Global,
    a: &mut MatrixHandle,
    transposed: bool,
    cols: usize,
    values: &mut [i64],
) -> i32
    ensures kept { a.new.value ≡ a.old.value }
    ensures missing { a.old.value ≡ None → result ≡ number_of EmptyHandle }
    ensures answer { Answers result (IsUnsolved Upper a.old.value cols values.old)
        (values.new ≡ values.old)
        (SolvesTriangle Upper transposed (plain_held a.old.value) cols values.old values.new) }
{
    status!(solve_triangle(alloc, a, Triangle::Upper, transposed, cols, values))
}

/// Stores the exact factors L D Lᵀ of a symmetric matrix in a handle.
///
/// The entries on and above the diagonal of the symmetric matrix are those of the matrix that `a` holds.
#[unsafe(no_mangle)]
pub extern "C" fn nalgebra_sparse_matrix_factor(
    alloc: Global,
    a: &mut MatrixHandle,
    out: &mut FactorHandle,
) -> i32
    ensures kept { a.new.value ≡ a.old.value }
    ensures missing { a.old.value ≡ None → result ≡ number_of EmptyHandle }
    ensures answer { Answers result (IsUnfactored a.old.value) (out.new.value ≡ out.old.value)
        (HoldsFactors out.new.value (plain_held a.old.value)) }
{
    status!(factor(alloc, a, out))
}

/// Replaces B by the X for which `A X = B`, with the factors that a handle holds: A is `L D Lᵀ`, or `Pᵀ L D Lᵀ P` for
/// factors with a permutation P. B and X are dense matrices with `cols` columns, stored column by column.
#[unsafe(no_mangle)]
pub extern "C" fn nalgebra_sparse_factors_solve(
    alloc: Global,
    factors: &mut FactorHandle,
    cols: usize,
    values: &mut [i64],
) -> i32
    ensures kept { factors.new.value ≡ factors.old.value }
    ensures missing { factors.old.value ≡ None → result ≡ number_of EmptyHandle }
    ensures answer { Answers result (HasNoSystem factors.old.value cols values.old)
        (values.new ≡ values.old) (SolvesInPlace (product_held factors.old.value)
        (size_held factors.old.value) cols values.old values.new) }
{
    status!(solve_factored(alloc, factors, cols, values))
}

/// Writes the number of rows of the factor L that a handle holds, which is its number of columns, and its number of
/// entries.
#[unsafe(no_mangle)]
pub extern "C" fn nalgebra_sparse_factors_sizes(
    alloc: Global,
    factors: &mut FactorHandle,
    out_size: &mut usize,
    out_places: &mut usize,
) -> i32
    ensures kept { factors.new.value ≡ factors.old.value }
    ensures missing { factors.old.value ≡ None → result ≡ number_of EmptyHandle }
    ensures answer { let l = l_held factors.old.value in
        Answers result (IsEmpty factors.old.value)
        ((out_size.new ≡ out_size.old) × (out_places.new ≡ out_places.old))
        ((out_size.new ≡ l.rows) × (out_size.new ≡ l.cols)
        × (out_places.new ≡ place_count (plain_transpose ring64 l))) }
{
    match factor_sizes(alloc, factors) {
        Ok((size, places)) => {
            *out_size = size;
            *out_places = places;
            0
        }
        Err(refusal) => refusal.status(),
    }
}

/// Writes the columns of the factor L and the diagonal of the factor D that a handle holds, and the number of entries of
/// L.
#[unsafe(no_mangle)]
pub extern "C" fn nalgebra_sparse_factors_read(
    alloc: Global,
    factors: &mut FactorHandle,
    out_offsets: &mut [usize],
    out_indices: &mut [usize],
    out_values: &mut [i64],
    out_diagonal: &mut [i64],
    out_places: &mut usize,
) -> i32
    ensures kept { factors.new.value ≡ factors.old.value }
    ensures missing { factors.old.value ≡ None → result ≡ number_of EmptyHandle }
    ensures answered { WritesHeldFactors factors.old.value
        (output_arrays out_offsets.old out_indices.old out_values.old out_places.old)
        (output_arrays out_offsets.new out_indices.new out_values.new out_places.new)
        out_diagonal.old out_diagonal.new result }
{
    let answer = copied_factors(alloc, factors);
    finish_factors(
        answer,
        out_offsets,
        out_indices,
        out_values,
        out_diagonal,
        out_places,
    )
}

/// Stores in `out` the factors that `factors` holds: both handles share them.
#[unsafe(no_mangle)]
pub extern "C" fn nalgebra_sparse_factors_clone(
    alloc: Global,
    factors: &mut FactorHandle,
    out: &mut FactorHandle,
) -> i32
    ensures kept { factors.new.value ≡ factors.old.value }
    ensures missing { factors.old.value ≡ None → result ≡ number_of EmptyHandle }
    ensures answer { Answers result (IsEmpty factors.old.value)
        (out.new.value ≡ out.old.value) (out.new.value ≡ factors.old.value) }
{
    status!(share(alloc, factors, out))
}

/// Empties a handle, and drops the factors that it holds, if it holds any.
#[unsafe(no_mangle)]
pub extern "C" fn nalgebra_sparse_factors_free(alloc: Global, factors: &mut FactorHandle)
    ensures { factors.new.value ≡ None }
{
    clear(alloc, factors);
}
