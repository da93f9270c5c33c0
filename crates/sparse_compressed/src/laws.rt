//! Laws of compressed matrices. Each is stated as the postcondition of an empty function.

ghost use Rattle.std.specs.Prelude.{◌≡◌, ℕ, ◌↔◌, Bool, true, map, Some};
ghost use Rattle.std.specs.List.{filter};
ghost use Rattle.sparse_algebra.specs.Plain.{Plain, plain_kept, plain_transpose, row_order};
ghost use Rattle.sparse_pattern.specs.Raw.{Raw, IsValid};
ghost use Rattle.sparse_compressed.specs.ColumnOrder.{col_order};
ghost use Rattle.sparse_compressed.specs.Compressed.{Compressed, IsOffset};
ghost use Rattle.sparse_compressed.specs.Compressed.{IsSound, lane_triplets};
ghost use Rattle.sparse_compressed.specs.Compressed.{transposed, compressed_eq};
ghost use Rattle.sparse_compressed.specs.StoredEntries.{find_offset};
ghost use Rattle.sparse_compressed.specs.Filter.{HasShapeOf};
ghost use Rattle.sparse_compressed.specs.PlainOfLanes.{meant, plain_of_rows, plain_of_cols};
ghost use Rattle.sparse_compressed.specs.ArraysDeterminePlain.{HasLanesAsRows, HasLanesAsCols};
ghost use Rattle.sparse_compressed.specs.TransposedMatrix.{IsTranspose};

use sparse_algebra::scalar::Ring;

/// Compressed matrices over a ring are `==` if and only if they represent the same plain matrix.
pub fn equal_law<T: Ring>()
    ensures rows { (m n : Compressed T) → IsSound m → IsSound n
        → (compressed_eq T.eq m n ≡ true)
        ↔ (plain_of_rows T.ring T.value m ≡ plain_of_rows T.ring T.value n) }
    ensures cols { (m n : Compressed T) → IsSound m → IsSound n
        → (compressed_eq T.eq m n ≡ true)
        ↔ (plain_of_cols T.ring T.value m ≡ plain_of_cols T.ring T.value n) }
{}

/// The arrays of a sound matrix determine its plain matrix: it has their shape, places and values, and it is the only
/// plain matrix that has them.
pub fn stands_law<T: Ring>()
    ensures rows { (m : Compressed T) → IsSound m
        → HasLanesAsRows T.ring T.value m (plain_of_rows T.ring T.value m) }
    ensures cols { (m : Compressed T) → IsSound m
        → HasLanesAsCols T.ring T.value m (plain_of_cols T.ring T.value m) }
    ensures one_by_rows { (m : Compressed T) (a : Plain T.ring) → IsSound m
        → HasLanesAsRows T.ring T.value m a → plain_of_rows T.ring T.value m ≡ a }
    ensures one_by_cols { (m : Compressed T) (a : Plain T.ring) → IsSound m
        → HasLanesAsCols T.ring T.value m a → plain_of_cols T.ring T.value m ≡ a }
{}

/// The triplets of a matrix by rows are the places of its plain matrix with their values, row by row, columns
/// increasing.
pub fn row_order_law<T: Ring>()
    ensures { (m : Compressed T)
        → IsSound m → meant T.ring T.value (lane_triplets m)
        ≡ row_order T.ring (plain_of_rows T.ring T.value m) }
{}

/// The triplets of a matrix by columns are the places of its plain matrix with their values, column by column, rows
/// increasing.
pub fn col_order_law<T: Ring>()
    ensures { (m : Compressed T)
        → IsSound m → meant T.ring T.value (map transposed (lane_triplets m))
        ≡ col_order T.ring (plain_of_cols T.ring T.value m) }
{}

/// A look-up of an entry returns its offset if the entry is stored, and otherwise `None`.
pub fn place_law()
    ensures { (d : Raw) → IsValid d → (i j p : ℕ) → (find_offset d i j ≡ Some p) ↔ IsOffset d i j p }
{}

/// Keeping the triplets by rows that pass a test keeps exactly those places of the plain matrix, with their values.
pub fn kept_rows_law<T: Ring>()
    ensures { (test : ℕ → ℕ → Bool) (m n : Compressed T)
        → HasShapeOf m n → lane_triplets n ≡ filter (λ t. test t.0 t.1) (lane_triplets m)
        → plain_of_rows T.ring T.value n ≡ plain_kept T.ring test (plain_of_rows T.ring T.value m) }
{}

/// Keeping the triplets by columns that pass a test keeps exactly those places of the plain matrix, with their values.
pub fn kept_cols_law<T: Ring>()
    ensures { (test : ℕ → ℕ → Bool) (m n : Compressed T)
        → HasShapeOf m n → map transposed (lane_triplets n)
        ≡ filter (λ t. test t.0 t.1) (map transposed (lane_triplets m))
        → plain_of_cols T.ring T.value n ≡ plain_kept T.ring test (plain_of_cols T.ring T.value m) }
{}

/// A transpose represents the transposed plain matrix, by rows and by columns.
pub fn transpose_law<T: Ring>()
    ensures rows { (m n : Compressed T) → IsSound m → IsSound n → IsTranspose m n
        → plain_of_rows T.ring T.value n ≡ plain_transpose T.ring (plain_of_rows T.ring T.value m) }
    ensures cols { (m n : Compressed T) → IsSound m → IsSound n → IsTranspose m n
        → plain_of_cols T.ring T.value n ≡ plain_transpose T.ring (plain_of_cols T.ring T.value m) }
{}

/// The transpose of a matrix by rows, read by columns, represents the same plain matrix, and vice versa.
pub fn other_form_law<T: Ring>()
    ensures rows_to_cols { (m n : Compressed T) → IsSound m → IsSound n → IsTranspose m n
        → plain_of_cols T.ring T.value n ≡ plain_of_rows T.ring T.value m }
    ensures cols_to_rows { (m n : Compressed T) → IsSound m → IsSound n → IsTranspose m n
        → plain_of_rows T.ring T.value n ≡ plain_of_cols T.ring T.value m }
{}

/// The transpose of a matrix is unique.
pub fn one_transpose_law<T>()
    ensures { (m n k : Compressed T) → IsSound n → IsSound k → IsTranspose m n → IsTranspose m k
        → n ≡ k }
{}

/// The transpose of the transpose of a matrix is the matrix itself.
pub fn transpose_twice_law<T>()
    ensures { (m n k : Compressed T) → IsSound m → IsSound k → IsTranspose m n → IsTranspose n k
        → k ≡ m }
{}
