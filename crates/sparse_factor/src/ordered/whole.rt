//! Symmetric matrices with both triangles stored, and their permutations.

ghost use Rattle.std.specs.Prelude.{◌≡◌, nat_lt, length, map, IfOk};
ghost use Rattle.std.specs.List.{filter};
ghost use Rattle.sparse_algebra.specs.Plain.{plain_kept};
ghost use Rattle.sparse_coo_dense.specs.DensePlain.{plain_of_dense};
ghost use Rattle.sparse_compressed.specs.Compressed.{lane_triplets, transposed, IsSound};
ghost use Rattle.sparse_compressed.specs.PlainOfLanes.{plain_of_cols};
ghost use Rattle.sparse_factor.specs.Factors.{symmetric_of};
ghost use Rattle.sparse_permutation.specs.PermutedPlain.{plain_permuted, plain_rows_permuted};

use sparse_algebra::recall;
use sparse_algebra::scalar::Ring;
use sparse_compressed::laws::{kept_cols_law, transpose_law};
use sparse_coo_dense::dense::DMatrix;
use sparse_csr_csc::csc::CscMatrix;
use sparse_permutation::laws::dense_rows_law;
use sparse_permutation::permutation::Permutation;
use sparse_permutation::rows::permute_rows;
use sparse_permutation::symmetric::permute_symmetric_csc;
use sparse_sums::add_csc;
use std::alloc::{AllocError, Global};

// Returns the symmetric matrix whose entries on and above the diagonal are those of `a`.
pub fn symmetric_matrix<T: Ring>(
    alloc: Global,
    a: &CscMatrix<T>,
) -> Result<CscMatrix<T>, AllocError>
    requires square { a.now.pattern.minor_dim ≡ a.now.pattern.major_dim }
    ensures rows { IfOk result (λ m. m.pattern.minor_dim ≡ a.now.pattern.minor_dim) }
    ensures columns { IfOk result (λ m. m.pattern.major_dim ≡ a.now.pattern.minor_dim) }
    ensures plain { IfOk result (λ m. plain_of_cols T.ring T.value m
        ≡ symmetric_of T.ring T.value a.now) }
{
    recall(a.values());
    kept_cols_law::<T>();
    transpose_law::<T>();
    let upper = a.upper_triangle(alloc)?;
    let mirrored = upper.transpose(alloc)?;
    let below = below_diagonal(alloc, &mirrored)?;
    let whole = add_csc(alloc, &upper, &below)?;
    Ok(whole)
}

// Returns the entries below the diagonal.
fn below_diagonal<T: Ring>(alloc: Global, a: &CscMatrix<T>) -> Result<CscMatrix<T>, AllocError>
    ensures rows { IfOk result (λ m. m.pattern.minor_dim ≡ a.now.pattern.minor_dim) }
    ensures columns { IfOk result (λ m. m.pattern.major_dim ≡ a.now.pattern.major_dim) }
    ensures kept { IfOk result (λ m. map transposed (lane_triplets m)
        ≡ filter (λ t. nat_lt t.1 t.0) (map transposed (lane_triplets a.now))) }
    ensures plain { IfOk result (λ m. plain_of_cols T.ring T.value m
        ≡ plain_kept T.ring (λ i j. nat_lt j i) (plain_of_cols T.ring T.value a.now)) }
{
    kept_cols_law::<T>();
    a.filter(alloc, |row, column, _| column < row)
}

// Returns P A Pᵀ, and drops A.
pub fn permuted_matrix<T: Ring>(
    alloc: Global,
    a: CscMatrix<T>,
    permutation: &Permutation,
) -> Result<CscMatrix<T>, AllocError>
    requires square { a.pattern.minor_dim ≡ a.pattern.major_dim }
    requires length { a.pattern.minor_dim ≡ length permutation.now }
    ensures rows { IfOk result (λ m. m.pattern.minor_dim ≡ a.pattern.minor_dim) }
    ensures columns { IfOk result (λ m. m.pattern.major_dim ≡ a.pattern.major_dim) }
    ensures sound { IfOk result IsSound }
    ensures plain { IfOk result (λ m. plain_of_cols T.ring T.value m
        ≡ plain_permuted T.ring permutation.now (plain_of_cols T.ring T.value a)) }
{
    match permute_symmetric_csc(alloc, &a, permutation) {
        Ok(permuted) => Ok(permuted),
        Err(_) => Err(AllocError),
    }
}

// Returns P B.
pub fn permuted_rows<T: Ring>(
    alloc: Global,
    b: &DMatrix<T>,
    permutation: &Permutation,
) -> Result<DMatrix<T>, AllocError>
    requires rows { b.now.nrows ≡ length permutation.now }
    ensures rows { IfOk result (λ d. d.nrows ≡ b.now.nrows) }
    ensures cols { IfOk result (λ d. d.ncols ≡ b.now.ncols) }
    ensures plain { IfOk result (λ d. plain_of_dense T.ring T.value d
        ≡ plain_rows_permuted T.ring permutation.now (plain_of_dense T.ring T.value b.now)) }
{
    recall(b.as_slice());
    recall(permutation.order());
    dense_rows_law::<T>();
    match permute_rows(alloc, b, permutation) {
        Ok(moved) => Ok(moved),
        Err(_) => Err(AllocError),
    }
}
