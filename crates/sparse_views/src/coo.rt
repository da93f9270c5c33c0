//! Borrowed lists of triplets.

ghost use Rattle.std.specs.Prelude.{◌≡◌, ◌<◌, ◌≤◌, ⊤, length, map, All, Any, MatchBool};
ghost use Rattle.std.specs.Prelude.{IfOk, IfErr, IsOk, OnOk};
ghost use Rattle.sparse_coo_dense.specs.Coo.{coo_of, zip_triplets, AreParts, IsInside};
ghost use Rattle.sparse_coo_dense.specs.TripletFaults.{IsFirstTripletFault};

use sparse_coo_dense::coo::CooMatrix;
use sparse_pattern::error::{SparseFormatError, SparseFormatErrorKind};
use std::alloc::{AllocError, Global};
use std::marker::Model;

/// A list of triplets (row, column, value) whose three arrays are borrowed.
///
/// The same row and column may occur in more than one triplet; their values are then added, as in a [`CooMatrix`].
///
/// # Examples
///
/// ```rust
/// fn borrowed_triplets_are_compressed(alloc: Global) -> Result<bool, Fail> {
///     let values = [W64::new(5), W64::new(6)];
///     let view = CooView::try_from_triplets(2, 3, &[1, 1], &[2, 2], &values)?;
///     let matrix = convert_coo_csr(alloc, &view.to_coo(alloc)?)?;
///     Ok(matrix.values() == [W64::new(11)].as_slice())
/// }
/// ```
#[derive(Debug, Drop)]
pub struct CooView<'a, T> {
    nrows: usize,
    ncols: usize,
    row_indices: &'a [usize],
    col_indices: &'a [usize],
    values: &'a [T],
}

impl<'a, T> Model for CooView<'a, T> {
    ghost use Rattle.sparse_coo_dense.specs.Coo.{Coo, coo_code, coo_of, zip_triplets, AreParts};

    ghost Value = { Coo T };

    ghost coded = { coo_code T.code };

    ghost view = { λ m. coo_of m.nrows m.ncols
        (zip_triplets m.row_indices.now m.col_indices.now m.values.now) };

    ghost invariant = { λ m. AreParts m.nrows m.ncols m.row_indices.now m.col_indices.now
        m.values.now };
}

impl<'a, T> CooView<'a, T> {
    /// Returns a view of a list.
    ///
    /// Constant time. Copies nothing and allocates nothing.
    ///
    /// # Examples
    ///
    /// ```rust
    /// fn a_view_shows_the_triplets(alloc: Global) -> Result<bool, Fail> {
    ///     let mut matrix = CooMatrix::new(alloc, 1, 2);
    ///     matrix.push(0, 1, 5)?;
    ///     let view = CooView::of(&matrix);
    ///     Ok(view.col_indices() == [1].as_slice() && view.to_coo(alloc)? == matrix)
    /// }
    /// ```
    pub fn of(matrix: &'a CooMatrix<T>) -> Self
        ensures { result ≡ matrix.now }
    {
        CooView {
            nrows: matrix.nrows(),
            ncols: matrix.ncols(),
            row_indices: matrix.row_indices(),
            col_indices: matrix.col_indices(),
            values: matrix.values(),
        }
    }

    /// Returns a view of the triplets with these rows, columns and values.
    ///
    /// Linear in the number of triplets. Copies nothing and allocates nothing.
    ///
    /// # Errors
    ///
    /// Returns the first fault, as [`CooMatrix::try_from_triplets`] does: different numbers of rows and columns,
    /// different numbers of columns and values, a row index not less than `nrows`, a column index not less than
    /// `ncols`.
    ///
    /// # Examples
    ///
    /// ```rust
    /// fn a_borrowed_value_is_missing() -> bool {
    ///     match CooView::<i32>::try_from_triplets(2, 3, &[1], &[2], &[]) {
    ///         Ok(_) => false,
    ///         Err(error) => *error.kind() == SparseFormatErrorKind::InvalidStructure,
    ///     }
    /// }
    /// ```
    pub fn try_from_triplets(
        nrows: usize,
        ncols: usize,
        row_indices: &'a [usize],
        col_indices: &'a [usize],
        values: &'a [T],
    ) -> Result<Self, SparseFormatError>
        ensures ok { IfOk result (λ m. m ≡ coo_of nrows ncols
            (zip_triplets row_indices.now col_indices.now values.now)) }
        ensures valid { OnOk result
            (AreParts nrows ncols row_indices.now col_indices.now values.now) }
        ensures fault { IfErr result (IsFirstTripletFault nrows ncols
            row_indices.now col_indices.now (length values.now)) }
        ensures accepted { AreParts nrows ncols row_indices.now col_indices.now values.now
            → IsOk result }
    {
        if row_indices.len() != col_indices.len() {
            return Err(count_error("Number of row and col indices must be the same."));
        }
        if col_indices.len() != values.len() {
            return Err(count_error("Number of col indices and values must be the same."));
        }
        if !all_below(row_indices, nrows) {
            return Err(bounds_error("Row index out of bounds."));
        }
        if !all_below(col_indices, ncols) {
            return Err(bounds_error("Col index out of bounds."));
        }
        Ok(CooView {
            nrows,
            ncols,
            row_indices,
            col_indices,
            values,
        })
    }

    /// Returns the number of rows.
    pub fn nrows(&self) -> usize
        ensures { result ≡ self.now.nrows }
    {
        self.nrows
    }

    /// Returns the number of columns.
    pub fn ncols(&self) -> usize
        ensures { result ≡ self.now.ncols }
    {
        self.ncols
    }

    /// Returns the number of triplets. Repeated entries are counted each time.
    pub fn nnz(&self) -> usize
        ensures { result ≡ length self.now.triplets }
    {
        self.values.len()
    }

    /// Returns the row of each triplet.
    pub fn row_indices(&self) -> &'a [usize]
        ensures rows { result.now ≡ map (λ t. t.0) self.now.triplets }
        ensures inside { IsInside self.now }
    {
        self.row_indices
    }

    /// Returns the column of each triplet.
    pub fn col_indices(&self) -> &'a [usize]
        ensures cols { result.now ≡ map (λ t. t.1) self.now.triplets }
        ensures inside { IsInside self.now }
    {
        self.col_indices
    }

    /// Returns the value of each triplet.
    pub fn values(&self) -> &'a [T]
        ensures { result.now ≡ map (λ t. t.2) self.now.triplets }
    {
        self.values
    }
}

impl<'a, T: Copy> CooView<'a, T> {
    /// Returns a list with copies of the triplets, in the same order.
    ///
    /// Linear in the number of triplets; the memory is the result's. Fails only if an allocation fails.
    pub fn to_coo(&self, alloc: Global) -> Result<CooMatrix<T>, AllocError>
        ensures { IfOk result (λ m. m ≡ self.now) }
    {
        let rows = Vec::from_slice(alloc, self.row_indices)?;
        let cols = Vec::from_slice(alloc, self.col_indices)?;
        let values = Vec::from_slice(alloc, self.values)?;
        match CooMatrix::try_from_triplets(self.nrows, self.ncols, rows, cols, values) {
            Ok(matrix) => Ok(matrix),
            Err(_) => unreachable!(),
        }
    }
}

impl<'a, T> Clone for CooView<'a, T> {
    ghost is_clone = { λ s t. t ≡ s };

    ghost is_infallible = { λ _. ⊤ };

    fn clone(&self) -> Result<CooView<'a, T>, AllocError> {
        Ok(CooView {
            nrows: self.nrows,
            ncols: self.ncols,
            row_indices: self.row_indices,
            col_indices: self.col_indices,
            values: self.values,
        })
    }
}

// Returns the error of numbers of indices and values that differ.
fn count_error(message: &'static str) -> SparseFormatError
    ensures { result ≡ SparseFormatErrorKind.InvalidStructure }
{
    SparseFormatError::new(SparseFormatErrorKind::InvalidStructure, message)
}

// Returns the error of an index that is out of bounds.
fn bounds_error(message: &'static str) -> SparseFormatError
    ensures { result ≡ SparseFormatErrorKind.IndexOutOfBounds }
{
    SparseFormatError::new(SparseFormatErrorKind::IndexOutOfBounds, message)
}

// Returns whether each index is less than the bound.
fn all_below(indices: &[usize], bound: usize) -> bool
    ensures { MatchBool result (All (λ i. i < bound) indices.now)
        (Any (λ i. bound ≤ i) indices.now) }
{
    indices.iter().all(|&index| index < bound)
}
