//! Transposes, multiples, sums and products of matrices over residues that handles hold.

ghost use Rattle.std.specs.Prelude.{◌≡◌, ◌↔◌, ◌⊎◌, None, Some, IfOk, IfErr, IsErrAnd, IsTrue};
ghost use Rattle.std.specs.Prelude.{Err};
ghost use Rattle.std.specs.Arc.{arc_value};
ghost use Rattle.sparse_algebra.specs.Integers.{element_of};
ghost use Rattle.sparse_algebra.specs.Moduli.{mod_ring};
ghost use Rattle.sparse_algebra.specs.Plain.{plain_difference, plain_product};
ghost use Rattle.sparse_algebra.specs.Plain.{plain_scaled, plain_sum};
ghost use Rattle.sparse_algebra.specs.Plain.{plain_transpose};
ghost use Rattle.sparse_c.specs.Combinations.{combined_by, HaveShapesFor};
ghost use Rattle.sparse_c.specs.HeldRings.{CombinesHeld, IsNoOperand, IsNoPair};
ghost use Rattle.sparse_c.specs.declared.arguments.Combination.TheVariants.{Difference, Multiples};
ghost use Rattle.sparse_c.specs.declared.arguments.Combination.TheVariants.{Product, Sum};
ghost use Rattle.c_arrays.specs.Refused.{IsOutOfMemoryOr};
ghost use Rattle.c_arrays.specs.Statuses.{number_of};
ghost use Rattle.c_arrays.specs.declared.refusal.Refusal.TheVariants.{EmptyHandle, OutOfMemory};
ghost use Rattle.c_handles.specs.Held.{Answers, IsEmpty};
ghost use Rattle.c_handles.specs.Rings.{modulus_held, residues_held, HoldsModulo};

use crate::arguments::{Combination, Multiple, Pair};
use crate::handles::rings::tasks::{Task, store};
use c_arrays::refusal::Refusal;
use c_handles::handle::RingHandle;
use c_handles::held::shared;
use c_handles::held_rings::shared_ring_pair;
use c_handles::ring_matrix::RingMatrix;
use sparse_csr_csc::csr::CsrMatrix;
use std::alloc::Global;
use std::sync::Arc;

/// Stores in `out` the transpose of the matrix that `a` holds.
#[unsafe(no_mangle)]
pub extern "C" fn nalgebra_sparse_ring_matrix_transpose(
    alloc: Global,
    a: &mut RingHandle,
    out: &mut RingHandle,
) -> i32
    ensures kept { a.new.value ≡ a.old.value }
    ensures missing { a.old.value ≡ None → result ≡ number_of EmptyHandle }
    ensures answer { let m = modulus_held a.old.value in
        Answers result (IsNoOperand a.old.value) (out.new.value ≡ out.old.value) (HoldsModulo m
        out.new.value (plain_transpose (mod_ring m) (residues_held m a.old.value))) }
{
    match shared(alloc, a) {
        Ok(a) => store(alloc, a.modulus, Task::Transpose(a.lanes()), out),
        Err(refusal) => refusal.status(),
    }
}

/// Stores in `out` the matrix that `a` holds, times a number.
#[unsafe(no_mangle)]
pub extern "C" fn nalgebra_sparse_ring_matrix_scale(
    alloc: Global,
    factor: i64,
    a: &mut RingHandle,
    out: &mut RingHandle,
) -> i32
    ensures kept { a.new.value ≡ a.old.value }
    ensures missing { a.old.value ≡ None → result ≡ number_of EmptyHandle }
    ensures answer { let m = modulus_held a.old.value in let ring = mod_ring m in
        Answers result (IsNoOperand a.old.value) (out.new.value ≡ out.old.value) (HoldsModulo m
        out.new.value (plain_scaled ring (element_of ring factor) (residues_held m a.old.value))) }
{
    match shared(alloc, a) {
        Ok(a) => {
            let multiple = Multiple {
                factor,
                a: a.lanes(),
            };
            store(alloc, a.modulus, Task::Scale(multiple), out)
        }
        Err(refusal) => refusal.status(),
    }
}

/// Stores in `out` the sum of the matrices that `a` and `b` hold.
#[unsafe(no_mangle)]
pub extern "C" fn nalgebra_sparse_ring_matrix_add(
    alloc: Global,
    a: &mut RingHandle,
    b: &mut RingHandle,
    out: &mut RingHandle,
) -> i32
    ensures kept { (a.new.value ≡ a.old.value) × (b.new.value ≡ b.old.value) }
    ensures first_missing { a.old.value ≡ None → result ≡ number_of EmptyHandle }
    ensures second_missing { b.old.value ≡ None
        → (result ≡ number_of EmptyHandle) ⊎ (result ≡ number_of OutOfMemory) }
    ensures answer { CombinesHeld Sum (λ ring a b. plain_sum ring a b)
        a.old.value b.old.value out.old.value out.new.value result }
{
    combine(alloc, Combination::Sum, (1, 1), a, b, out)
}

/// Stores in `out` the difference `a - b` of the matrices that `a` and `b` hold.
#[unsafe(no_mangle)]
pub extern "C" fn nalgebra_sparse_ring_matrix_subtract(
    alloc: Global,
    a: &mut RingHandle,
    b: &mut RingHandle,
    out: &mut RingHandle,
) -> i32
    ensures kept { (a.new.value ≡ a.old.value) × (b.new.value ≡ b.old.value) }
    ensures first_missing { a.old.value ≡ None → result ≡ number_of EmptyHandle }
    ensures second_missing { b.old.value ≡ None
        → (result ≡ number_of EmptyHandle) ⊎ (result ≡ number_of OutOfMemory) }
    ensures answer { CombinesHeld Difference (λ ring a b. plain_difference ring a b)
        a.old.value b.old.value out.old.value out.new.value result }
{
    combine(alloc, Combination::Difference, (1, 1), a, b, out)
}

/// Stores in `out` the sum `alpha * a + beta * b` of multiples of the matrices that `a` and `b` hold.
#[unsafe(no_mangle)]
pub extern "C" fn nalgebra_sparse_ring_matrix_add_scaled(
    alloc: Global,
    alpha: i64,
    a: &mut RingHandle,
    beta: i64,
    b: &mut RingHandle,
    out: &mut RingHandle,
) -> i32
    ensures kept { (a.new.value ≡ a.old.value) × (b.new.value ≡ b.old.value) }
    ensures first_missing { a.old.value ≡ None → result ≡ number_of EmptyHandle }
    ensures second_missing { b.old.value ≡ None
        → (result ≡ number_of EmptyHandle) ⊎ (result ≡ number_of OutOfMemory) }
    ensures answer { CombinesHeld Multiples
        (λ ring a b. plain_sum ring (plain_scaled ring (element_of ring alpha) a)
        (plain_scaled ring (element_of ring beta) b))
        a.old.value b.old.value out.old.value out.new.value result }
{
    combine(alloc, Combination::Multiples, (alpha, beta), a, b, out)
}

/// Stores in `out` the product `a * b` of the matrices that `a` and `b` hold.
#[unsafe(no_mangle)]
pub extern "C" fn nalgebra_sparse_ring_matrix_multiply(
    alloc: Global,
    a: &mut RingHandle,
    b: &mut RingHandle,
    out: &mut RingHandle,
) -> i32
    ensures kept { (a.new.value ≡ a.old.value) × (b.new.value ≡ b.old.value) }
    ensures first_missing { a.old.value ≡ None → result ≡ number_of EmptyHandle }
    ensures second_missing { b.old.value ≡ None
        → (result ≡ number_of EmptyHandle) ⊎ (result ≡ number_of OutOfMemory) }
    ensures answer { CombinesHeld Product (λ ring a b. plain_product ring a b)
        a.old.value b.old.value out.old.value out.new.value result }
{
    combine(alloc, Combination::Product, (1, 1), a, b, out)
}

// Stores in `out` the combination of the matrices that `a` and `b` hold. The scales are those of `Multiples`.
fn combine(
    alloc: Global,
    how: Combination,
    scales: (i64, i64),
    a: &mut RingHandle,
    b: &mut RingHandle,
    out: &mut RingHandle,
) -> i32
    ensures kept { (a.new.value ≡ a.old.value) × (b.new.value ≡ b.old.value) }
    ensures first_missing { a.old.value ≡ None → result ≡ number_of EmptyHandle }
    ensures second_missing { b.old.value ≡ None
        → (result ≡ number_of EmptyHandle) ⊎ (result ≡ number_of OutOfMemory) }
    ensures answer { CombinesHeld how (λ ring a b. combined_by ring how
        (element_of ring scales.0) a (element_of ring scales.1) b)
        a.old.value b.old.value out.old.value out.new.value result }
{
    match operands(alloc, how, a, b) {
        Ok((a, b)) => {
            let pair = Pair {
                how,
                alpha: scales.0,
                a: a.lanes(),
                beta: scales.1,
                b: b.lanes(),
            };
            store(alloc, a.modulus, Task::Combine(pair), out)
        }
        Err(refusal) => refusal.status(),
    }
}

// Returns the matrices that two handles hold, with shared ownership: of one modulus, and of shapes that fit.
fn operands(
    alloc: Global,
    how: Combination,
    a: &mut RingHandle,
    b: &mut RingHandle,
) -> Result<(Arc<RingMatrix>, Arc<RingMatrix>), Refusal>
    ensures kept { (a.new.value ≡ a.old.value) × (b.new.value ≡ b.old.value) }
    ensures first_missing { a.old.value ≡ None → result ≡ Err EmptyHandle }
    ensures second_missing { b.old.value ≡ None
        → IsErrAnd result (IsOutOfMemoryOr (IsEmpty b.old.value)) }
    ensures first { IfOk result (λ p. a.old.value ≡ Some (arc_value p.0)) }
    ensures second { IfOk result (λ p. b.old.value ≡ Some (arc_value p.1)) }
    ensures ring { IfOk result (λ p. (arc_value p.1).modulus ≡ (arc_value p.0).modulus) }
    ensures shapes { IfOk result
        (λ p. HaveShapesFor how (arc_value p.0).matrix (arc_value p.1).matrix) }
    ensures fault { IfErr result (IsOutOfMemoryOr (IsNoPair how a.old.value b.old.value)) }
{
    let (a, b) = shared_ring_pair(alloc, a, b)?;
    if !do_fit(how, &a.matrix, &b.matrix) {
        return Err(Refusal::ShapeMismatch);
    }
    Ok((a, b))
}

// Returns whether a combination is defined for the shapes of two matrices.
fn do_fit(how: Combination, a: &CsrMatrix<i64>, b: &CsrMatrix<i64>) -> bool
    ensures { IsTrue result ↔ HaveShapesFor how a.now b.now }
{
    match how {
        Combination::Product => a.ncols() == b.nrows(),
        _ => a.nrows() == b.nrows() && a.ncols() == b.ncols(),
    }
}
