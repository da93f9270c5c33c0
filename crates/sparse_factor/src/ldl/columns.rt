//! The columns of L D Lᵀ, left-looking, one after the other.

ghost use Rattle.std.specs.Prelude.{◌≡◌, ℕ, ◌+◌, ◌<◌, ◌≤◌, length, slice_index_or, IfErr, OnErr};
ghost use Rattle.std.specs.Prelude.{OnOk};
ghost use Rattle.sparse_compressed.specs.Compressed.{IsSound, compressed_of};
ghost use Rattle.sparse_compressed.specs.PlainOfLanes.{plain_of_cols};
ghost use Rattle.sparse_factor.specs.InnerFactors.{AreCursors, AreInverses, ArePartFactors};
ghost use Rattle.sparse_factor.specs.InnerFactors.{IsColumnGathered};
ghost use Rattle.sparse_factor.specs.InnerFactors.{IsFilledPattern, IsIncluded, IsUpdated};
ghost use Rattle.sparse_factor.specs.InnerFactors.{IsLowerPattern};
ghost use Rattle.sparse_factor.specs.InnerNested.{AreNested};
ghost use Rattle.sparse_algebra.specs.declared.error.OperationErrorKind.TheVariants.{Singular};
ghost use Rattle.sparse_pattern.specs.TransposedPattern.{IsTransposedPattern};
ghost use Rattle.sparse_dense_ops.specs.SparseVectors.{elements};

use super::nested::takes_four;
use super::updates::{subtract_four, subtract_one};
use sparse_algebra::error::OperationError;
use sparse_algebra::recall;
use sparse_algebra::scalar::{Ring, Units};
use sparse_csr_csc::csc::CscMatrix;
use sparse_dense_ops::axpy_csc_col;
use sparse_pattern::pattern::SparsityPattern;

// What is known of the pattern of L before its values are: its transpose, whose lanes are the rows of L, and for each
// column whether it is nested in the next one.
#[derive(Drop)]
pub struct Structure<'a> {
    pub rows: &'a SparsityPattern,
    pub nested: &'a [bool],
}

// Computes the columns of L, the diagonal of D and the inverses of its entries, for the symmetric matrix whose lower
// triangle is `lower`.
//
// Left-looking (Davis 2006, chapter 4): column j of L is column j of the matrix, less the updates by the columns before
// it that have row j, divided by the pivot. `cursors` has for each column of L the offset of its first row from j on.
// `column` is a scratch column: before step j it has the pivots in the rows before j, and zeros from row j on. On return
// it has all pivots.
pub fn factor_columns<T: Units>(
    lower: &CscMatrix<T>,
    structure: &Structure<'_>,
    l: &mut CscMatrix<T>,
    inverses: &mut [T],
    cursors: &mut [usize],
    column: &mut [T],
) -> Result<(), OperationError>
    requires filled { IsFilledPattern l.old.pattern }
    requires included { IsIncluded lower.now.pattern l.old.pattern }
    requires transposed { IsTransposedPattern l.old.pattern structure.now.rows.now }
    requires nested { AreNested l.old.pattern structure.now.nested.now }
    requires pivots { length inverses.old ≡ l.old.pattern.major_dim }
    requires count { l.old.pattern.major_dim ≤ length cursors.old }
    requires cursors { AreCursors l.old.pattern 0 cursors.old }
    requires rows { length column.old ≡ l.old.pattern.major_dim }
    requires empty { (i : ℕ) → i < length column.old
        → elements T.ring T.value T.zero_value column.old i ≡ T.ring.zero }
    ensures pattern { l.new.pattern ≡ l.old.pattern }
    ensures sound { IsSound l.new }
    ensures pivots { length column.new ≡ length column.old }
    ensures factors { OnOk result (ArePartFactors T.ring T.value (length column.old)
        (length column.old) (plain_of_cols T.ring T.value lower.now).value
        (plain_of_cols T.ring T.value l.new).value
        (elements T.ring T.value T.zero_value column.new)) }
    ensures inverses { OnOk result (AreInverses T.ring T.value T.zero_value column.new inverses.new) }
    ensures singular { OnErr result ((m : ℕ → ℕ → T.ring.Carrier) (c : ℕ → T.ring.Carrier)
        → ArePartFactors T.ring T.value (length column.old) (length column.old)
        (plain_of_cols T.ring T.value lower.now).value m c → ⊥) }
    ensures kind { IfErr result (λ e. e ≡ Singular) }
{
    recall(l.values());
    let (pattern, values) = l.pattern_and_values_mut();
    for j in 0..inverses.len() {
        axpy_csc_col(T::one(), lower, j, column);
        update_column(pattern, values, structure, j, cursors, column);
        let pivot = column[j];
        let Some(inverse) = pivot.recip() else {
            return Err(OperationError::of_singular_diagonal());
        };
        gather_column(pattern, j, inverse, values, column);
        // Later steps do not change row j of the scratch column.
        column[j] = pivot;
        inverses[j] = inverse;
    }
    Ok(())
}

// Updates column j: subtracts from it, from row j on, each column k before it that has row j, times pivot k and the
// entry (j, k) of L. Moves the cursors past row j. `column` has the pivots in the rows before j.
fn update_column<T: Ring>(
    pattern: &SparsityPattern,
    values: &[T],
    structure: &Structure<'_>,
    j: usize,
    cursors: &mut [usize],
    column: &mut [T],
)
    requires square { pattern.now.minor_dim ≡ pattern.now.major_dim }
    requires lower { IsLowerPattern pattern.now }
    requires fits { length values.now ≡ length pattern.now.indices }
    requires lane { j < pattern.now.minor_dim }
    requires transposed { IsTransposedPattern pattern.now structure.now.rows.now }
    requires nested { AreNested pattern.now structure.now.nested.now }
    requires count { pattern.now.major_dim ≤ length cursors.old }
    requires cursors { AreCursors pattern.now j cursors.old }
    requires rows { length column.old ≡ pattern.now.major_dim }
    ensures count { length cursors.new ≡ length cursors.old }
    ensures cursors { AreCursors pattern.now (j + 1) cursors.new }
    ensures rows { length column.new ≡ length column.old }
    ensures above { (i : ℕ) → i < j → T.value (slice_index_or column.new i T.zero_value)
        ≡ T.value (slice_index_or column.old i T.zero_value) }
    ensures left { IsUpdated T.ring (length column.old) j
        (plain_of_cols T.ring T.value (compressed_of pattern.now values.now)).value
        (elements T.ring T.value T.zero_value column.old) j
        (elements T.ring T.value T.zero_value column.new)
        (elements T.ring T.value T.zero_value column.old) }
{
    recall(pattern.minor_indices());
    recall(structure.rows.minor_indices());
    let (row, nested) = (structure.rows.lane(j), structure.nested);
    let mut q = 0;
    while q < row.len() {
        let k = row[q];
        if takes_four(nested, row, q) {
            subtract_four(pattern, values, k, cursors, column);
            q += 4;
        } else {
            subtract_one(pattern, values, k, j, cursors, column);
            q += 1;
        }
    }
}

// Gathers the entries of column j of L from the scratch column, times the inverse of the pivot, and clears them there.
fn gather_column<T: Ring>(
    pattern: &SparsityPattern,
    j: usize,
    inverse: T,
    values: &mut [T],
    column: &mut [T],
)
    requires lane { j < pattern.now.major_dim }
    requires count { length values.old ≡ length pattern.now.indices }
    requires rows { length column.old ≡ pattern.now.minor_dim }
    ensures gathered { IsColumnGathered T.ring T.value T.zero_value pattern.now j (T.value inverse)
        values.old values.new column.old column.new }
{
    let (offsets, rows) = (pattern.major_offsets(), pattern.minor_indices());
    for at in offsets[j]..offsets[j + 1] {
        let i = rows[at];
        values[at] = column[i].mul(inverse);
        column[i] = T::zero();
    }
}
