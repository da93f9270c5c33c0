//! Equality of dense matrices.

ghost use Rattle.std.specs.Prelude.{◌≡◌};

use super::DMatrix;

impl<T> DMatrix<T> {
    ghost use Rattle.sparse_coo_dense.specs.DenseEquality.{dense_shape_eq};

    // Returns whether the shapes are equal.
    fn has_same_shape(&self, other: &Self) -> bool
        ensures { result ≡ dense_shape_eq self.now other.now }
    {
        self.nrows() == other.nrows() && self.ncols() == other.ncols()
    }
}

/// Matrices are equal if their shapes are equal and they have equal values at each row and column.
impl<T: PartialEq> PartialEq for DMatrix<T> {
    ghost use Rattle.sparse_coo_dense.specs.DenseEquality.{dense_eq, dense_eq-laws};

    ghost eq = { dense_eq T.eq };

    ghost laws = { dense_eq-laws T.laws };

    fn eq(&self, other: &Self) -> bool {
        self.has_same_shape(other) && self.as_slice() == other.as_slice()
    }
}

impl<T: Eq> Eq for DMatrix<T> {
    ghost use Rattle.sparse_coo_dense.specs.DenseEquality.{dense_eq-equiv};

    ghost laws = { dense_eq-equiv T.Eq.laws };
}
