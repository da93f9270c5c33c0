//! Lists of triplets whose rows and columns are renumbered by a permutation.

ghost use Rattle.std.specs.Prelude.{◌≡◌, ◌<◌, All, length, map, slice_index};
ghost use Rattle.sparse_coo_dense.specs.Coo.{AreParts, coo_of, zip_triplets};
ghost use Rattle.sparse_permutation.specs.InnerRenumbered.{renumbered_coo};

use crate::permutation::Permutation;
use sparse_coo_dense::coo::CooMatrix;

// Returns the list with each index replaced by the number that a permutation has there. Both dimensions must be the
// length of the permutation.
pub(crate) fn renumber<T: Copy>(list: CooMatrix<T>, numbers: &Permutation) -> CooMatrix<T>
    requires rows { list.nrows ≡ length numbers.now }
    requires cols { list.ncols ≡ length numbers.now }
    ensures { result ≡ renumbered_coo numbers.now list }
{
    let (nrows, ncols) = (list.nrows(), list.ncols());
    let (rows, cols, values) = list.disassemble();
    let order = numbers.order();
    let new_rows = renumber_indices(rows, order);
    let new_cols = renumber_indices(cols, order);
    coo_from_lists(nrows, ncols, new_rows, new_cols, values)
}

// Replaces each index by the number there.
fn renumber_indices(mut indices: Vec<usize>, numbers: &[usize]) -> Vec<usize>
    requires { All (λ i. i < length numbers.now) indices.items }
    ensures { result.items ≡ map (λ i. slice_index numbers.now i) indices.items }
{
    for index in indices.iter_mut() {
        *index = numbers[*index];
    }
    indices
}

// Returns the coordinate list of three lists, which have the same length and indices within the shape.
fn coo_from_lists<T: Copy>(
    nrows: usize,
    ncols: usize,
    rows: Vec<usize>,
    cols: Vec<usize>,
    values: Vec<T>,
) -> CooMatrix<T>
    requires { AreParts nrows ncols rows.items cols.items values.items }
    ensures { result ≡ coo_of nrows ncols (zip_triplets rows.items cols.items values.items) }
{
    match CooMatrix::try_from_triplets(nrows, ncols, rows, cols, values) {
        Ok(coo) => coo,
        Err(_) => unreachable!(),
    }
}
