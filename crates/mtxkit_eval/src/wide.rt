//! Finds the first value that does not fit in 64 bits.

ghost use Rattle.std.specs.Prelude.{◌≡◌, All, IfSome, None};
ghost use Rattle.std.specs.Int.{w64};
ghost use Rattle.std.specs.Int.RustNames.{FitsSigned};
ghost use Rattle.sparse_algebra.specs.Plain.{row_order};
ghost use Rattle.sparse_algebra.specs.Whole.{whole_ring};
ghost use Rattle.mtxkit_eval.specs.Values.{exact_of, IsFirstWide};

use sparse_algebra::scalar::W128;
use sparse_csr_csc::csr::CsrMatrix;

/// Returns the row and the column of the first entry, row by row, whose value does not fit in 64 bits.
pub(crate) fn first_wide(matrix: &CsrMatrix<W128>) -> Option<(usize, usize)>
    ensures none { result ≡ None
        → All (λ t. FitsSigned w64 t.2) (row_order whole_ring (exact_of matrix.now)) }
    ensures first { IfSome result (λ p. IsFirstWide (exact_of matrix.now) p.0 p.1) }
{
    for (row, col, value) in matrix.triplet_iter() {
        if i64::try_from(value.get()).is_err() {
            return Some((row, col));
        }
    }
    None
}
