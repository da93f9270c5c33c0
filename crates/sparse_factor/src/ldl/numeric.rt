//! The numeric factorisation on the pattern of the fill.

ghost use Rattle.std.specs.Prelude.{◌≡◌, ℕ, ◌⊎◌, length, replicate, IfErr, IfOk};
ghost use Rattle.sparse_algebra.specs.Plain.{plain_transpose};
ghost use Rattle.sparse_compressed.specs.PlainOfLanes.{plain_of_cols};
ghost use Rattle.sparse_factor.specs.Fill.{InFill, UpperBase, StoresByColumns};
ghost use Rattle.sparse_factor.specs.Factorisations.{IsFactorisation, plain_upper};
ghost use Rattle.sparse_factor.specs.Factors.{HasNoFactors, symmetric_of};
ghost use Rattle.sparse_factor.specs.InnerFactors.{AreInverses, ArePartFactors, IsFilledPattern};
ghost use Rattle.sparse_factor.specs.InnerFactors.{IsIncluded};
ghost use Rattle.sparse_algebra.specs.declared.error.OperationErrorKind.TheVariants.{OutOfMemory};
ghost use Rattle.sparse_algebra.specs.declared.error.OperationErrorKind.TheVariants.{Singular};
ghost use Rattle.sparse_pattern.specs.Raw.{IsEntry};
ghost use Rattle.sparse_pattern.specs.TransposedPattern.{IsTransposedPattern};
ghost use Rattle.sparse_dense_ops.specs.SparseVectors.{elements};

use super::columns::{Structure, factor_columns};
use super::nested::nested_columns;
use sparse_algebra::error::OperationError;
use sparse_algebra::recall;
use sparse_algebra::scalar::{Ring, Units, Zero};
use sparse_compressed::laws::{kept_cols_law, transpose_law};
use sparse_csr_csc::csc::CscMatrix;
use sparse_pattern::pattern::SparsityPattern;
use std::alloc::{AllocError, Global};

// Returns L, the diagonal of D, and the inverses of its entries, given the pattern of L.
pub fn factor_on_fill<T: Units>(
    alloc: Global,
    a: &CscMatrix<T>,
    pattern: SparsityPattern,
) -> Result<(CscMatrix<T>, Vec<T>, Vec<T>), OperationError>
    requires square { a.now.pattern.minor_dim ≡ a.now.pattern.major_dim }
    requires rows { pattern.minor_dim ≡ a.now.pattern.minor_dim }
    requires columns { pattern.major_dim ≡ a.now.pattern.major_dim }
    requires fill { StoresByColumns (InFill (UpperBase a.now.pattern)) pattern }
    ensures pattern { IfOk result (λ r. r.0.pattern ≡ pattern) }
    ensures count { IfOk result (λ r. length r.1.items ≡ pattern.minor_dim) }
    ensures inverses { IfOk result
        (λ r. AreInverses T.ring T.value T.zero_value r.1.items r.2.items) }
    ensures factors { IfOk result (λ r. IsFactorisation T.ring T.value
        (symmetric_of T.ring T.value a.now) (plain_of_cols T.ring T.value r.0)
        (elements T.ring T.value T.zero_value r.1.items)) }
    ensures singular { IfErr result (λ e. e ≡ Singular → HasNoFactors T.ring T.value a.now) }
    ensures kinds { IfErr result (λ e. (e ≡ Singular) ⊎ (e ≡ OutOfMemory)) }
{
    let lower = lower_triangle(alloc, a)?;
    let rows = pattern.transpose(alloc)?;
    let l = matrix_of_zeros(alloc, pattern)?;
    factor_lower(alloc, &lower, &rows, l)
}

// Returns the transposed upper triangle: column j is row j of the matrix, from the diagonal on.
fn lower_triangle<T: Ring>(alloc: Global, a: &CscMatrix<T>) -> Result<CscMatrix<T>, AllocError>
    ensures rows { IfOk result (λ m. m.pattern.minor_dim ≡ a.now.pattern.major_dim) }
    ensures columns { IfOk result (λ m. m.pattern.major_dim ≡ a.now.pattern.minor_dim) }
    ensures plain { IfOk result (λ m. plain_of_cols T.ring T.value m ≡ plain_transpose T.ring
        (plain_upper T.ring (plain_of_cols T.ring T.value a.now))) }
    ensures entries { IfOk result (λ m. (i j : ℕ) → IsEntry m.pattern j i
        → UpperBase a.now.pattern i j) }
{
    recall(a.values());
    kept_cols_law::<T>();
    transpose_law::<T>();
    a.upper_triangle(alloc)?.transpose(alloc)
}

// Returns the matrix that stores a zero for each entry of a pattern.
fn matrix_of_zeros<T: Zero + Copy>(
    alloc: Global,
    pattern: SparsityPattern,
) -> Result<CscMatrix<T>, AllocError>
    ensures pattern { IfOk result (λ m. m.pattern ≡ pattern) }
{
    let values = zeros(alloc, pattern.nnz())?;
    Ok(CscMatrix::from_pattern_and_values_unchecked(pattern, values))
}

// Returns `count` zeros.
fn zeros<T: Zero + Copy>(alloc: Global, count: usize) -> Result<Vec<T>, AllocError>
    ensures { IfOk result (λ zeros. zeros.items ≡ replicate count T.zero_value) }
{
    let mut zeros = Vec::with_capacity(alloc, count)?;
    for _ in 0..count {
        zeros.push(T::zero())?;
    }
    Ok(zeros)
}

// Returns L, the diagonal of D, and the inverses of its entries, for the symmetric matrix whose lower triangle is
// `lower`. `l` has the pattern of L, and `rows` is its transpose.
fn factor_lower<T: Units>(
    alloc: Global,
    lower: &CscMatrix<T>,
    rows: &SparsityPattern,
    mut l: CscMatrix<T>,
) -> Result<(CscMatrix<T>, Vec<T>, Vec<T>), OperationError>
    requires filled { IsFilledPattern l.pattern }
    requires included { IsIncluded lower.now.pattern l.pattern }
    requires transposed { IsTransposedPattern l.pattern rows.now }
    ensures pattern { IfOk result (λ r. r.0.pattern ≡ l.pattern) }
    ensures count { IfOk result (λ r. length r.1.items ≡ l.pattern.major_dim) }
    ensures factors { IfOk result (λ r. ArePartFactors T.ring T.value l.pattern.major_dim
        l.pattern.major_dim (plain_of_cols T.ring T.value lower.now).value
        (plain_of_cols T.ring T.value r.0).value
        (elements T.ring T.value T.zero_value r.1.items)) }
    ensures inverses { IfOk result
        (λ r. AreInverses T.ring T.value T.zero_value r.1.items r.2.items) }
    ensures singular { IfErr result (λ e. e ≡ Singular → (m : ℕ → ℕ → T.ring.Carrier)
        (c : ℕ → T.ring.Carrier) → ArePartFactors T.ring T.value l.pattern.major_dim
        l.pattern.major_dim (plain_of_cols T.ring T.value lower.now).value m c → ⊥) }
    ensures kinds { IfErr result (λ e. (e ≡ Singular) ⊎ (e ≡ OutOfMemory)) }
{
    let n = l.ncols();
    let mut inverses = zeros(alloc, n)?;
    let mut d = zeros(alloc, n)?;
    let mut cursors = Vec::from_slice(alloc, l.col_offsets())?;
    let nested = nested_columns(alloc, l.pattern())?;
    let structure = Structure {
        rows,
        nested: &nested,
    };
    factor_columns(
        lower,
        &structure,
        &mut l,
        &mut inverses,
        &mut cursors,
        &mut d,
    )?;
    Ok((l, d, inverses))
}
