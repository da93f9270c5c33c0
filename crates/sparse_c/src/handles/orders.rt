//! Orders of the rows and columns of matrices that handles hold, and exact factors in these orders.

ghost use Rattle.std.specs.Prelude.{◌≡◌, None};
ghost use Rattle.c_arrays.specs.Statuses.{number_of};
ghost use Rattle.c_arrays.specs.declared.refusal.Refusal.TheVariants.{EmptyHandle};
ghost use Rattle.c_handles.specs.Factored.{order_held};
ghost use Rattle.c_handles.specs.Held.{plain_held, Answers};
ghost use Rattle.c_handles.specs.Ordered.{HoldsFactorsInOrder, IsOrderUnwritten};
ghost use Rattle.c_handles.specs.Ordered.{IsUnfactoredInOrder, WritesOrder};
ghost use Rattle.sparse_c.specs.HeldOrders.{OrdersHeld};

use crate::status::status;
use c_handles::factoring::factor_in_order;
use c_handles::handle::{FactorHandle, MatrixHandle};
use c_handles::ordering::{Method, factor_order, order};
use std::alloc::Global;

/// Writes the approximate minimum degree order of the square matrix that a handle holds, in which its factors have
/// little fill.
#[unsafe(no_mangle)]
pub extern "C" fn nalgebra_sparse_matrix_minimum_degree(
    alloc: Global,
    a: &mut MatrixHandle,
    out_order: &mut [usize],
) -> i32
    ensures kept { a.new.value ≡ a.old.value }
    ensures missing { a.old.value ≡ None → result ≡ number_of EmptyHandle }
    ensures answer { OrdersHeld a.old.value out_order.old out_order.new result }
{
    status!(order(alloc, a, Method::MinimumDegree, out_order))
}

/// Writes the reverse Cuthill-McKee order of the square matrix that a handle holds, in which its entries are close to
/// the diagonal.
#[unsafe(no_mangle)]
pub extern "C" fn nalgebra_sparse_matrix_reverse_cuthill_mckee(
    alloc: Global,
    a: &mut MatrixHandle,
    out_order: &mut [usize],
) -> i32
    ensures kept { a.new.value ≡ a.old.value }
    ensures missing { a.old.value ≡ None → result ≡ number_of EmptyHandle }
    ensures answer { OrdersHeld a.old.value out_order.old out_order.new result }
{
    status!(order(alloc, a, Method::ReverseCuthillMckee, out_order))
}

/// Stores the exact factors L D Lᵀ of P A Pᵀ in a handle, with the permutation P.
///
/// The entries on and above the diagonal of the symmetric matrix A are those of the matrix that `a` holds. P takes the
/// rows and columns of A in the given order.
#[unsafe(no_mangle)]
pub extern "C" fn nalgebra_sparse_matrix_factor_in_order(
    alloc: Global,
    a: &mut MatrixHandle,
    order: &[usize],
    out: &mut FactorHandle,
) -> i32
    ensures kept { a.new.value ≡ a.old.value }
    ensures missing { a.old.value ≡ None → result ≡ number_of EmptyHandle }
    ensures answer { Answers result (IsUnfactoredInOrder a.old.value order.now)
        (out.new.value ≡ out.old.value)
        (HoldsFactorsInOrder out.new.value order.now (plain_held a.old.value)) }
{
    status!(factor_in_order(alloc, a, order, out))
}

/// Writes the order of the factors that a handle holds: the permutation P for which they are the factors of P A Pᵀ.
#[unsafe(no_mangle)]
pub extern "C" fn nalgebra_sparse_factors_order(
    alloc: Global,
    factors: &mut FactorHandle,
    out_order: &mut [usize],
) -> i32
    ensures kept { factors.new.value ≡ factors.old.value }
    ensures missing { factors.old.value ≡ None → result ≡ number_of EmptyHandle }
    ensures answer { Answers result (IsOrderUnwritten factors.old.value out_order.old)
        (out_order.new ≡ out_order.old)
        (WritesOrder (order_held factors.old.value) out_order.old out_order.new) }
{
    status!(factor_order(alloc, factors, out_order))
}
