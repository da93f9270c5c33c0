//! Equality of coordinate matrices.

ghost use Rattle.std.specs.Prelude.{◌≡◌};

use super::CooMatrix;

impl<T> CooMatrix<T> {
    ghost use Rattle.sparse_coo_dense.specs.CooEquality.{coo_shape_eq, coo_indices_eq};

    // Returns whether the shapes are equal.
    fn has_same_shape(&self, other: &Self) -> bool
        ensures { result ≡ coo_shape_eq self.now other.now }
    {
        self.nrows() == other.nrows() && self.ncols() == other.ncols()
    }

    // Returns whether the shapes and the lists of rows and of columns are equal.
    fn has_same_indices(&self, other: &Self) -> bool
        ensures { result ≡ coo_indices_eq self.now other.now }
    {
        self.has_same_shape(other)
            && self.row_indices() == other.row_indices()
            && self.col_indices() == other.col_indices()
    }
}

/// Matrices are equal if their shapes and their lists of triplets are. Lists in a different order are not equal.
impl<T: PartialEq> PartialEq for CooMatrix<T> {
    ghost use Rattle.sparse_coo_dense.specs.CooEquality.{coo_eq, coo_eq-laws};

    ghost eq = { coo_eq T.eq };

    ghost laws = { coo_eq-laws T.laws };

    fn eq(&self, other: &Self) -> bool {
        self.has_same_indices(other) && self.values() == other.values()
    }
}

impl<T: Eq> Eq for CooMatrix<T> {
    ghost use Rattle.sparse_coo_dense.specs.CooEquality.{coo_eq-equiv};

    ghost laws = { coo_eq-equiv T.Eq.laws };
}
