//! Laws of the meaning of texts. Each law is the postcondition of an empty function.

ghost use Rattle.std.specs.Prelude.{◌≡◌, ◌<◌, ◌^◌, ℕ, List, All, length, Ok};
ghost use Rattle.sparse_coo_dense.specs.Coo.{Coo, IsInside};
ghost use Rattle.sparse_parser.specs.declared.header.Header.{Header};
ghost use Rattle.sparse_parser.specs.Grammar.{IsDocument};
ghost use Rattle.sparse_parser.specs.Reads.{Read};
ghost use Rattle.sparse_parser.specs.Meaning.{Means};
ghost use Rattle.sparse_io.specs.declared.banner.Banner.{Banner};
ghost use Rattle.sparse_io.specs.Written.{text_with};

use sparse_market_scalar::MatrixMarketScalar;

/// A text has at most one header, one size line and one list of data lines.
pub fn one_document()
    ensures { (text : List ℕ) (h g : Header) (s z : List (List ℕ)) (ls ks : List (List (List ℕ)))
        → IsDocument text h s ls → IsDocument text g z ks → (h ≡ g) × (s ≡ z) × (ls ≡ ks) }
{}

/// Each text has a meaning for each scalar type.
pub fn each_text_means<T: MatrixMarketScalar>()
    ensures { (text : List ℕ) → (r : Read (Coo T.scalar.Value)) × Means T.scalar text r }
{}

/// A text has at most one meaning for a scalar type.
pub fn one_meaning<T: MatrixMarketScalar>()
    ensures { (text : List ℕ) (r s : Read (Coo T.scalar.Value))
        → Means T.scalar text r → Means T.scalar text s → r ≡ s }
{}

/// The text of a matrix means that matrix, for the same scalar type and each first word.
///
/// The shape and the number of triplets must fit in `usize`, the triplets must lie within the shape, and their values
/// must be values of the type.
pub fn round_trip<T: MatrixMarketScalar>()
    ensures { (banner : Banner) (m : Coo T.scalar.Value)
        → m.nrows < 2 ^ 64 → m.ncols < 2 ^ 64 → length m.triplets < 2 ^ 64
        → IsInside m → All (λ t. T.scalar.IsValue t.2) m.triplets
        → Means T.scalar (text_with banner T.scalar.name T.scalar.text m) (Ok m) }
{}
