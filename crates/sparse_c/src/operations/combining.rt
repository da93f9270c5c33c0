//! Sums, differences and products of CSR matrices, over any ring.

ghost use Rattle.std.specs.Prelude.{◌≡◌, IfOk, IfErr, IfSome, OnOk};
ghost use Rattle.sparse_algebra.specs.Integers.{element_of};
ghost use Rattle.sparse_algebra.specs.Moduli.{mod_ring};
ghost use Rattle.sparse_compressed.specs.Compressed.{IsSound};
ghost use Rattle.sparse_compressed.specs.PlainOfLanes.{plain_of_rows};
ghost use Rattle.sparse_c.specs.Combinations.{combination_of, CanCombine, Combines};
ghost use Rattle.sparse_c.specs.Combinations.{IsOfOneShape, IsSumOf};
ghost use Rattle.sparse_c.specs.InnerModulusLaws.{rows_listed, rows_unlisted};
ghost use Rattle.c_arrays.specs.Refused.{IsFaultOfPair, IsOutOfMemoryOr};

use crate::arguments::{Combination, OutputArrays, Pair};
use crate::moduli::Call;
use c_arrays::number::Number;
use c_arrays::refusal::Refusal;
use c_arrays::sums::{Multiples, write_sum};
use c_arrays::writing::finish_rows;
use sparse_csr_csc::csr::CsrMatrix;
use sparse_products::serial::mul_csr;
use sparse_sums::{add_csr, add_scaled_csr, sub_csr};
use std::alloc::Global;

impl<'a> Call<OutputArrays<'a>> for Pair<'_> {
    ghost fits = { CanCombine };

    ghost does = { Combines };

    /// Writes the combination of two CSR matrices. If the output arrays have room for the entries of both operands, a
    /// sum is merged straight into them, without an allocation.
    fn run<T: Number>(self, alloc: Global, out: &mut OutputArrays<'a>) -> i32 {
        let lanes = self.a.major_dim;
        let most = self.a.indices.len() + self.b.indices.len();
        if let Some((alpha, beta)) = scales::<T>(self.how, self.alpha, self.beta) {
            if lanes < out.offsets.len() && most <= out.indices.len() && most <= out.values.len() {
                let Pair { a, b, .. } = self;
                let multiples = Multiples { alpha, a, beta, b };
                return write_sum(multiples, out.offsets, out.indices, out.values, out.places);
            }
        }
        let answer = combined::<T>(alloc, self);
        finish_rows(answer, out.offsets, out.indices, out.values, out.places)
    }

    ghost listed = { λ m p. rows_listed m (combination_of (mod_ring m) p) };

    ghost unlisted = { λ m p. rows_unlisted m (combination_of (mod_ring m) p) };
}

// Returns the scales alpha and beta with which a combination is `alpha * a + beta * b`, or `None` for a product.
fn scales<T: Number>(how: Combination, alpha: i64, beta: i64) -> Option<(T, T)>
    ensures shapes { IfSome result (λ _. IsOfOneShape how) }
    ensures sum { IfSome result (λ f. IsSumOf T.ring how (element_of T.ring alpha)
        (element_of T.ring beta) (T.value f.0) (T.value f.1)) }
{
    match how {
        Combination::Sum => Some((T::one(), T::one())),
        Combination::Difference => Some((T::one(), T::one().neg())),
        Combination::Multiples => Some((T::from_number(alpha), T::from_number(beta))),
        Combination::Product => None,
    }
}

// Returns the combination of two CSR matrices.
pub(crate) fn combined<T: Number>(alloc: Global, pair: Pair<'_>) -> Result<CsrMatrix<T>, Refusal>
    requires { CanCombine pair }
    ensures plain { IfOk result
        (λ m. plain_of_rows T.ring T.value m ≡ combination_of T.ring pair.entry) }
    ensures sound { OnOk result (IsSound pair.entry.a × IsSound pair.entry.b) }
    ensures fault { IfErr result (IsOutOfMemoryOr (IsFaultOfPair pair.entry.a pair.entry.b)) }
{
    let Pair {
        how,
        alpha,
        a,
        beta,
        b,
        ..
    } = pair;
    let a = a.rows(alloc)?;
    let b = b.rows(alloc)?;
    match how {
        Combination::Sum => Ok(add_csr(alloc, &a, &b)?),
        Combination::Difference => Ok(sub_csr(alloc, &a, &b)?),
        Combination::Multiples => {
            let (alpha, beta) = (T::from_number(alpha), T::from_number(beta));
            Ok(add_scaled_csr(alloc, alpha, &a, beta, &b)?)
        }
        Combination::Product => Ok(mul_csr(alloc, &a, &b)?),
    }
}
