//! Products of a CSR matrix and a dense matrix.

ghost use Rattle.std.specs.Prelude.{◌≡◌, ◌*◌, pos, IfOk, IfErr, OnOk};
ghost use Rattle.sparse_algebra.specs.Moduli.{mod_ring};
ghost use Rattle.sparse_algebra.specs.Plain.{plain_product};
ghost use Rattle.sparse_coo_dense.specs.DensePlain.{plain_full, plain_of_dense};
ghost use Rattle.sparse_compressed.specs.Compressed.{arrays_of};
ghost use Rattle.sparse_c.specs.Dense.{IsDenseTooLong, MultipliesDense, WritesValues};
ghost use Rattle.sparse_c.specs.InnerModulusLaws.{numbers_listed, numbers_unlisted};
ghost use Rattle.sparse_c.specs.Moduli.{moduli, IsFaultModulo, IsNoneOf};
ghost use Rattle.sparse_c.specs.Rooms.{Shows};
ghost use Rattle.c_arrays.specs.Arrays.{plain_by_rows, plain_by_values, ring64, HoldsDense};
ghost use Rattle.c_arrays.specs.Reduced.{IsReduced};
ghost use Rattle.c_arrays.specs.Refused.{IsFaultOfSystem, IsOutOfMemoryOr};
ghost use Rattle.c_arrays.specs.Refused.{IsSystemSound};
ghost use Rattle.c_arrays.specs.Statuses.{number_of};
ghost use Rattle.c_arrays.specs.declared.refusal.Refusal.TheVariants.{UnknownChoice};

use crate::arguments::{DenseOperands, Numbers, lanes};
use crate::moduli::{Call, by_modulus};
use c_arrays::dense::dense_matrix_of;
use c_arrays::number::Number;
use c_arrays::refusal::Refusal;
use c_arrays::writing::finish_dense;
use sparse_algebra::scalar::W64;
use sparse_coo_dense::dense::DMatrix;
use sparse_dense_ops::mul_csr_dense;
use std::alloc::Global;

/// Writes the product of a CSR matrix and a dense matrix: `a` with `rows` rows and `inner` columns, `b` with `inner`
/// rows and `cols` columns. The dense matrices are stored column by column.
#[unsafe(no_mangle)]
pub extern "C" fn nalgebra_sparse_multiply_dense(
    alloc: Global,
    rows: usize,
    inner: usize,
    cols: usize,
    a_offsets: &[usize],
    a_indices: &[usize],
    a_values: &[i64],
    b_values: &[i64],
    out_values: &mut [i64],
) -> i32
    ensures answered { let a = arrays_of rows inner a_offsets.now a_indices.now a_values.now in
        WritesValues (IsSystemSound a inner cols b_values.now)
        (IsFaultOfSystem a inner cols b_values.now)
        (HoldsDense (plain_full ring64 (plain_product ring64 (plain_by_rows ring64 a)
        (plain_by_values ring64 inner cols b_values.now)))) (IsDenseTooLong rows cols)
        (rows * cols) out_values.old out_values.new result }
{
    let operands = DenseOperands {
        a: lanes!(rows, inner, a_offsets, a_indices, a_values),
        inner,
        cols,
        b: b_values,
    };
    let mut out = Numbers { values: out_values };
    operands.run::<W64>(alloc, &mut out)
}

/// Writes the product of a CSR matrix and a dense matrix over the residues modulo a listed number.
#[unsafe(no_mangle)]
pub extern "C" fn nalgebra_sparse_multiply_dense_mod(
    alloc: Global,
    modulus: u64,
    rows: usize,
    inner: usize,
    cols: usize,
    a_offsets: &[usize],
    a_indices: &[usize],
    a_values: &[i64],
    b_values: &[i64],
    out_values: &mut [i64],
) -> i32
    ensures answered { let a = arrays_of rows inner a_offsets.now a_indices.now a_values.now in
        let ring = mod_ring modulus in
        WritesValues (IsSystemSound a inner cols b_values.now)
        (IsFaultModulo modulus (IsFaultOfSystem a inner cols b_values.now))
        (HoldsDense (plain_full ring (plain_product ring (plain_by_rows ring a)
        (plain_by_values ring inner cols b_values.now)))) (IsDenseTooLong rows cols)
        (rows * cols) out_values.old out_values.new result }
    ensures reduced { Shows (IsReduced modulus) (rows * cols) out_values.new result }
    ensures unlisted { IsNoneOf moduli modulus → result ≡ number_of UnknownChoice }
{
    let operands = DenseOperands {
        a: lanes!(rows, inner, a_offsets, a_indices, a_values),
        inner,
        cols,
        b: b_values,
    };
    let mut out = Numbers { values: out_values };
    by_modulus(alloc, modulus, operands, &mut out)
}

impl<'a> Call<Numbers<'a>> for DenseOperands<'_> {
    ghost fits = { λ f. f.a.pattern.minor_dim ≡ f.inner };

    ghost does = { MultipliesDense };

    /// Writes the product.
    fn run<T: Number>(self, alloc: Global, out: &mut Numbers<'a>) -> i32 {
        finish_dense(dense_product::<T>(alloc, self), out.values)
    }

    ghost listed = { λ m _. numbers_listed m };

    ghost unlisted = { λ m _. numbers_unlisted m };
}

// Returns the product of a CSR matrix and a dense matrix.
fn dense_product<T: Number>(
    alloc: Global,
    operands: DenseOperands<'_>,
) -> Result<DMatrix<T>, Refusal>
    requires { operands.a.pattern.minor_dim ≡ operands.inner }
    ensures plain { let f = operands.entry in IfOk result (λ d. plain_of_dense T.ring T.value d
        ≡ plain_full T.ring (plain_product T.ring (plain_by_rows T.ring f.a)
        (plain_by_values T.ring f.inner f.cols f.b.now))) }
    ensures sound { let f = operands.entry in
        OnOk result (IsSystemSound f.a f.inner f.cols f.b.now) }
    ensures fault { let f = operands.entry in
        IfErr result (IsOutOfMemoryOr (IsFaultOfSystem f.a f.inner f.cols f.b.now)) }
{
    let DenseOperands { a, inner, cols, b } = operands;
    let a = a.rows(alloc)?;
    let b = dense_matrix_of(alloc, inner, cols, b)?;
    Ok(mul_csr_dense(alloc, &a, &b)?)
}
