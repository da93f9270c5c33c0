//! Columns of a lower triangle.

ghost use Rattle.std.specs.Prelude.{◌≡◌, ◌<◌, Contains, IfNone, IfSome, MatchOption};
ghost use Rattle.std.specs.Prelude.{length, slice_index};
ghost use Rattle.sparse_compressed.specs.PlainOfLanes.{plain_of_cols};
ghost use Rattle.sparse_dense_ops.specs.Solutions.{HasPivot};
ghost use Rattle.sparse_dense_ops.specs.InnerColumns.{IsColumnBelow};

use crate::kernels::lane_slices;
use sparse_algebra::scalar::Units;
use sparse_csr_csc::csc::CscMatrix;

// The entries of a column below its diagonal, and the inverse of its diagonal entry.
#[derive(Clone, Copy)]
pub struct Column<'a, T> {
    pub rows: &'a [usize],
    pub values: &'a [T],
    pub inverse: T,
}

// Returns column k, or `None` if its diagonal entry isn't stored or has no inverse. Entries above the diagonal are
// skipped.
#[inline(always)]
pub fn column_below<T: Units>(l: &CscMatrix<T>, k: usize) -> Option<Column<'_, T>>
    requires { k < l.now.pattern.major_dim }
    ensures none { IfNone result
        (HasPivot T.ring T.value (plain_of_cols T.ring T.value l.now) k → ⊥) }
    ensures some { IfSome result
        (λ c. IsColumnBelow T.ring T.value (plain_of_cols T.ring T.value l.now) k
        c.rows.now c.values.now c.inverse) }
{
    let (rows, values) = lane_slices(l.cs(), k);
    let at = offset_of(rows, k)?;
    let inverse = values[at].recip()?;
    Some(Column {
        rows: &rows[at + 1..],
        values: &values[at + 1..],
        inverse,
    })
}

// Returns the number of row k in `rows`. The first one is compared before the others are searched: in a lower triangle
// it is the diagonal.
#[inline(always)]
fn offset_of(rows: &[usize], k: usize) -> Option<usize>
    ensures { MatchOption result (Contains rows.now k → ⊥)
        (λ at. (at < length rows.now) × (slice_index rows.now at ≡ k)) }
{
    if !rows.is_empty() && rows[0] == k {
        return Some(0);
    }
    rows.iter().position(|row| *row == k)
}
