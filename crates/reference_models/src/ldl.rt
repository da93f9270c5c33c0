//! The exact factorisation `L D L^T`, equation by equation.

ghost use Rattle.std.specs.Prelude.{◌≡◌, ℕ, ◌<◌, ◌≤◌, true, false, IfOk, MatchOption};
ghost use Rattle.reference_models.specs.DenseFactors.{AreDenseFactorsOf, HasNoDenseFactors};
ghost use Rattle.reference_models.specs.InnerEquations.{AreFirstFactors, HasNoColumns, HaveOneSize};
ghost use Rattle.reference_models.specs.InnerEquations.{IsColumnDivided, left_at};

use sparse_algebra::scalar::{Ring, Units};
use sparse_coo_dense::dense::DMatrix;
use std::alloc::{AllocError, Global};

/// The unit lower triangle L and the diagonal of D.
#[derive(Drop)]
pub struct DenseFactors<T> {
    pub l: DMatrix<T>,
    pub d: Vec<T>,
}

/// Returns the factors of the symmetric matrix whose entries on and above the diagonal are those of `a`, or `None` if
/// it has none.
///
/// The equations `L D L^T = M` are solved column by column: that at (j, j) gives the pivot, and those below it give the
/// column. Fails only if an allocation fails.
pub fn factors_by_columns<T: Units>(
    alloc: Global,
    a: &DMatrix<T>,
) -> Result<Option<DenseFactors<T>>, AllocError>
    requires { a.now.ncols ≡ a.now.nrows }
    ensures { IfOk result (λ factors. MatchOption factors
        (HasNoDenseFactors T.ring T.value a.now)
        (λ s. AreDenseFactorsOf T.ring T.value T.zero_value a.now s.l s.d.items)) }
{
    let mut l = DMatrix::zeros(alloc, a.nrows(), a.nrows())?;
    let mut d = vec![in alloc; T::zero(); a.nrows()]?;
    if find_columns(a, &mut l, &mut d) {
        Ok(Some(DenseFactors { l, d }))
    } else {
        Ok(None)
    }
}

// Finds the columns of L, and the diagonal of D, from zeros. Returns whether each pivot has an inverse.
fn find_columns<T: Units>(a: &DMatrix<T>, l: &mut DMatrix<T>, d: &mut [T]) -> bool
    requires start { AreFirstFactors T.ring T.value T.zero_value a.now l.old d.old 0 }
    ensures factors { result ≡ true
        → AreFirstFactors T.ring T.value T.zero_value a.now l.new d.new a.now.nrows }
    ensures none { result ≡ false → HasNoColumns T.ring T.value a.now }
{
    for j in 0..a.nrows() {
        let pivot = find_left(a, l, d, j, j);
        let Some(inverse) = pivot.recip() else {
            return false;
        };
        divide_column(a, l, d, j, inverse);
        l.set(j, j, T::one());
        d[j] = pivot;
    }
    true
}

// Sets column j of L below the diagonal to what remains there after the columns before it are subtracted, times the
// inverse of the pivot.
fn divide_column<T: Ring>(a: &DMatrix<T>, l: &mut DMatrix<T>, d: &[T], j: usize, inverse: T)
    requires size { HaveOneSize a.now l.old d.now }
    requires column { j < a.now.nrows }
    ensures { IsColumnDivided T.ring T.value T.zero_value a.now d.now j (T.value inverse)
        l.old l.new }
{
    for i in j + 1..a.nrows() {
        let left = find_left(a, l, d, i, j);
        l.set(i, j, left.mul(inverse));
    }
}

// Returns the entry of the symmetric matrix at (i, j), less `l(i, k) d(k) l(j, k)` for each column k of L before j.
fn find_left<T: Ring>(a: &DMatrix<T>, l: &DMatrix<T>, d: &[T], i: usize, j: usize) -> T
    requires size { HaveOneSize a.now l.now d.now }
    requires lower { j ≤ i }
    requires row { i < a.now.nrows }
    ensures { T.value result ≡ left_at T.ring T.value T.zero_value a.now l.now d.now j i }
{
    let mut left = a.get(j, i);
    for k in 0..j {
        left = left.add(l.get(i, k).mul(d[k]).mul(l.get(j, k)).neg());
    }
    left
}
