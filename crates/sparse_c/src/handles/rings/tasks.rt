//! Calls that return a matrix over any ring, and the matrices that they put behind handles.

ghost use Rattle.std.specs.Prelude.{◌≡◌, IfOk, IfErr, OnOk};
ghost use Rattle.sparse_algebra.specs.Integers.{element_of};
ghost use Rattle.sparse_algebra.specs.Moduli.{mod_ring};
ghost use Rattle.sparse_algebra.specs.Plain.{plain_scaled, plain_transpose};
ghost use Rattle.sparse_compressed.specs.Compressed.{IsSound};
ghost use Rattle.sparse_compressed.specs.PlainOfLanes.{plain_of_rows};
ghost use Rattle.sparse_c.specs.InnerModulusLaws.{rows_listed, rows_unlisted};
ghost use Rattle.sparse_c.specs.InnerTaskLaws.{returned_listed, returned_unlisted};
ghost use Rattle.sparse_c.specs.Moduli.{moduli, IsFaultModulo, IsNoneOf};
ghost use Rattle.sparse_c.specs.Tasks.{result_of, AreOperands, CanRun, IsFaultOfTask};
ghost use Rattle.sparse_c.specs.Tasks.{Returns, WritesResult};
ghost use Rattle.c_arrays.specs.Arrays.{plain_by_rows};
ghost use Rattle.c_arrays.specs.Refused.{IsFaultOf, IsOutOfMemoryOr};
ghost use Rattle.c_arrays.specs.Statuses.{number_of};
ghost use Rattle.c_arrays.specs.declared.refusal.Refusal.TheVariants.{UnknownChoice};
ghost use Rattle.c_handles.specs.Held.{Answers};
ghost use Rattle.c_handles.specs.Rings.{HoldsModulo};

use crate::arguments::{Multiple, OutputArrays, Pair, Triplets};
use crate::assembly::assembling::assembled;
use crate::moduli::{Call, by_modulus};
use crate::operations::combining::combined;
use crate::status::status;
use c_arrays::lanes::Lanes;
use c_arrays::number::Number;
use c_arrays::refusal::Refusal;
use c_arrays::writing::finish_rows;
use c_handles::handle::RingHandle;
use c_handles::held::put;
use c_handles::ring_matrix::{RingMatrix, numbers_of};
use sparse_csr_csc::csr::CsrMatrix;
use sparse_products::transposes::transposed_csr;
use sparse_sums::scale_csr;
use std::alloc::Global;

/// A call that returns a CSR matrix, with its operands.
#[derive(Drop)]
pub(crate) enum Task<'a> {
    /// The matrix with these arrays.
    Rows(Lanes<'a>),
    /// The matrix of triplets.
    Assemble(Triplets<'a>),
    /// The transpose of a matrix.
    Transpose(Lanes<'a>),
    /// A multiple of a matrix.
    Scale(Multiple<'a>),
    /// A sum, a difference or a product of two matrices.
    Combine(Pair<'a>),
}

/// Stores the result of a task over the residues modulo `modulus` in a handle, and returns the status of the call.
pub(crate) fn store(alloc: Global, modulus: u64, task: Task<'_>, out: &mut RingHandle) -> i32
    requires { CanRun task }
    ensures answer { Answers result (IsFaultModulo modulus (IsFaultOfTask task.entry))
        (out.new.value ≡ out.old.value) (AreOperands task.entry
        × HoldsModulo modulus out.new.value (result_of (mod_ring modulus) task.entry)) }
    ensures unlisted { IsNoneOf moduli modulus → result ≡ number_of UnknownChoice }
{
    let mut matrix = None;
    let status = by_modulus(alloc, modulus, task, &mut matrix);
    match matrix {
        None => status,
        Some(matrix) => status!(put(alloc, RingMatrix { modulus, matrix }, out)),
    }
}

impl Call<Option<CsrMatrix<i64>>> for Task<'_> {
    ghost fits = { CanRun };

    ghost does = { Returns };

    /// Returns the matrix of the integers that represent the entries of the result.
    fn run<T: Number>(self, alloc: Global, out: &mut Option<CsrMatrix<i64>>) -> i32 {
        match numbers::<T>(alloc, self) {
            Ok(matrix) => {
                *out = Some(matrix);
                0
            }
            Err(refusal) => refusal.status(),
        }
    }

    ghost listed = { returned_listed };

    ghost unlisted = { returned_unlisted };
}

impl<'a> Call<OutputArrays<'a>> for Task<'_> {
    ghost fits = { CanRun };

    ghost does = { WritesResult };

    /// Writes the result.
    fn run<T: Number>(self, alloc: Global, out: &mut OutputArrays<'a>) -> i32 {
        let answer = computed::<T>(alloc, self);
        finish_rows(answer, out.offsets, out.indices, out.values, out.places)
    }

    ghost listed = { λ m task. rows_listed m (result_of (mod_ring m) task) };

    ghost unlisted = { λ m task. rows_unlisted m (result_of (mod_ring m) task) };
}

// Returns the integers that represent the entries of the result of a task.
fn numbers<T: Number>(alloc: Global, task: Task<'_>) -> Result<CsrMatrix<i64>, Refusal>
    requires { CanRun task }
    ensures plain { IfOk result (λ m. plain_by_rows T.ring m ≡ result_of T.ring task.entry) }
    ensures sound { OnOk result (AreOperands task.entry) }
    ensures fault { IfErr result (IsOutOfMemoryOr (IsFaultOfTask task.entry)) }
{
    let matrix = computed::<T>(alloc, task)?;
    Ok(numbers_of(alloc, matrix)?)
}

// Returns the result of a task.
fn computed<T: Number>(alloc: Global, task: Task<'_>) -> Result<CsrMatrix<T>, Refusal>
    requires { CanRun task }
    ensures plain { IfOk result
        (λ m. plain_of_rows T.ring T.value m ≡ result_of T.ring task.entry) }
    ensures sound { OnOk result (AreOperands task.entry) }
    ensures fault { IfErr result (IsOutOfMemoryOr (IsFaultOfTask task.entry)) }
{
    match task {
        Task::Rows(a) => a.rows(alloc),
        Task::Assemble(triplets) => assembled(alloc, triplets),
        Task::Transpose(a) => transposed(alloc, a),
        Task::Scale(multiple) => scaled(alloc, multiple),
        Task::Combine(pair) => combined(alloc, pair),
    }
}

// Returns the transpose of a CSR matrix.
fn transposed<T: Number>(alloc: Global, a: Lanes<'_>) -> Result<CsrMatrix<T>, Refusal>
    ensures plain { IfOk result (λ m. plain_of_rows T.ring T.value m
        ≡ plain_transpose T.ring (plain_by_rows T.ring a.entry)) }
    ensures sound { OnOk result (IsSound a.entry) }
    ensures fault { IfErr result (IsOutOfMemoryOr (IsFaultOf a.entry)) }
{
    let a = a.rows::<T>(alloc)?;
    Ok(transposed_csr(alloc, &a)?)
}

// Returns the product of an integer and a CSR matrix.
fn scaled<T: Number>(alloc: Global, multiple: Multiple<'_>) -> Result<CsrMatrix<T>, Refusal>
    ensures plain { let q = multiple.entry in IfOk result (λ m. plain_of_rows T.ring T.value m
        ≡ plain_scaled T.ring (element_of T.ring q.factor) (plain_by_rows T.ring q.a)) }
    ensures sound { OnOk result (IsSound multiple.entry.a) }
    ensures fault { IfErr result (IsOutOfMemoryOr (IsFaultOf multiple.entry.a)) }
{
    let Multiple { factor, a, .. } = multiple;
    let a = a.rows::<T>(alloc)?;
    Ok(scale_csr(alloc, &a, T::from_number(factor))?)
}
