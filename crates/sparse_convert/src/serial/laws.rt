//! The three representations of a matrix: a list of triplets, CSR and CSC.

ghost use Rattle.std.specs.Prelude.{◌≡◌, true};
ghost use Rattle.sparse_coo_dense.specs.Coo.{Coo};
ghost use Rattle.sparse_compressed.specs.Compressed.{Compressed, IsSound, compressed_eq};
ghost use Rattle.sparse_coo_dense.specs.CooPlain.{plain_of_coo};
ghost use Rattle.sparse_compressed.specs.PlainOfLanes.{plain_of_rows, plain_of_cols};
ghost use Rattle.sparse_convert.specs.OneMatrix.{Representation, Triplets, Rows, Cols, coo_of_rows};
ghost use Rattle.sparse_convert.specs.OneMatrix.{coo_of_cols, IsSoundRepresentation, ConvertsTo};
ghost use Rattle.sparse_convert.specs.OneMatrix.{MeanOneMatrix};

use sparse_algebra::scalar::Ring;
use sparse_compressed::laws::equal_law;

/// A list of triplets, a CSR matrix and a CSC matrix that are converted from one another represent the same matrix.
///
/// This holds for any first representation and any sequence of conversions (`three_representations`). CSR matrices
/// converted from the same representation are `==`, and so are CSC matrices (`rows_equal`, `cols_equal`). A matrix
/// converted to a list and back is `==` to the original (`rows_and_back`, `cols_and_back`). Lists that represent the
/// same matrix convert to CSR matrices that are `==`, and to CSC matrices that are `==` (`same_lists`).
pub fn one_matrix_law<T: Ring>()
    ensures three_representations { (x : Representation T) (a : Coo T) (m n : Compressed T)
        → IsSoundRepresentation x
        → ConvertsTo T.ring T.value x (Triplets a) → ConvertsTo T.ring T.value x (Rows m)
        → ConvertsTo T.ring T.value x (Cols n)
        → MeanOneMatrix T.ring T.value a m n }
    ensures rows_equal { (x : Representation T) (m n : Compressed T) → IsSoundRepresentation x
        → ConvertsTo T.ring T.value x (Rows m) → ConvertsTo T.ring T.value x (Rows n)
        → compressed_eq T.eq m n ≡ true }
    ensures cols_equal { (x : Representation T) (m n : Compressed T) → IsSoundRepresentation x
        → ConvertsTo T.ring T.value x (Cols m) → ConvertsTo T.ring T.value x (Cols n)
        → compressed_eq T.eq m n ≡ true }
    ensures rows_and_back { (m n : Compressed T) → IsSound m → IsSound n
        → plain_of_rows T.ring T.value n ≡ plain_of_coo T.ring T.value (coo_of_rows m)
        → compressed_eq T.eq m n ≡ true }
    ensures cols_and_back { (m n : Compressed T) → IsSound m → IsSound n
        → plain_of_cols T.ring T.value n ≡ plain_of_coo T.ring T.value (coo_of_cols m)
        → compressed_eq T.eq m n ≡ true }
    ensures same_lists { (a b : Coo T) (m n k l : Compressed T) → IsSound m → IsSound n → IsSound k
        → IsSound l
        → plain_of_coo T.ring T.value a ≡ plain_of_coo T.ring T.value b
        → MeanOneMatrix T.ring T.value a m n → MeanOneMatrix T.ring T.value b k l
        → (compressed_eq T.eq m k ≡ true) × (compressed_eq T.eq n l ≡ true) }
{
    equal_law::<T>();
}
