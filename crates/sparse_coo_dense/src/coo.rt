//! Matrices in coordinate format: lists of triplets.

ghost use Rattle.std.specs.Prelude.{◌≡◌, ◌+◌, ◌<◌, ◌≤◌, [], ◌∷◌, length, map, vec_len};
ghost use Rattle.std.specs.Prelude.{vec_capacity, IsOk, IfOk, IfErr, OnOk, OnErr};
ghost use Rattle.sparse_coo_dense.specs.Coo.{coo_of, zip_triplets, appended, AreParts, IsInside};
ghost use Rattle.sparse_coo_dense.specs.TripletFaults.{IsFirstTripletFault};

use sparse_pattern::error::SparseFormatError;
use std::alloc::{AllocError, Global};
use std::marker::Model;
use triplet_fault::first_fault;

pub(crate) mod append;
mod data;
mod equality;
mod from_iter;
mod iter;
mod push_matrix;
mod triplet_fault;

pub use iter::{CooTripletIter, CooTripletIterMut};

/// A sparse matrix in coordinate format: a list of triplets (row, column, value).
///
/// The same row and column may occur in more than one triplet; the value there is then the sum of their values.
///
/// # Examples
///
/// ```rust
/// fn repeated_triplets_are_kept(alloc: Global) -> Result<bool, Fail> {
///     let mut matrix = CooMatrix::new(alloc, 2, 3);
///     matrix.push(1, 2, 5)?;
///     matrix.push(1, 2, 6)?;
///     Ok(matrix.values() == [5, 6].as_slice())
/// }
/// ```
#[derive(Debug, Drop)]
pub struct CooMatrix<T> {
    nrows: usize,
    ncols: usize,
    row_indices: Vec<usize>,
    col_indices: Vec<usize>,
    values: Vec<T>,
}

impl<T> Model for CooMatrix<T> {
    ghost use Rattle.sparse_coo_dense.specs.Coo.{Coo, coo_code, coo_of, zip_triplets};

    ghost Value = { Coo T };

    ghost coded = { coo_code T.code };

    ghost use Rattle.sparse_coo_dense.specs.Coo.{AreParts};

    ghost view = { λ m. coo_of m.nrows m.ncols
        (zip_triplets m.row_indices.items m.col_indices.items m.values.items) };

    ghost invariant = { λ m. AreParts m.nrows m.ncols m.row_indices.items m.col_indices.items
        m.values.items };
}

impl<T> CooMatrix<T> {
    /// Returns a matrix without triplets. Allocates nothing.
    pub fn new(alloc: Global, nrows: usize, ncols: usize) -> Self
        ensures { result ≡ coo_of nrows ncols [] }
    {
        CooMatrix {
            nrows,
            ncols,
            row_indices: Vec::new(alloc),
            col_indices: Vec::new(alloc),
            values: Vec::new(alloc),
        }
    }

    /// Returns a matrix without triplets, as [`CooMatrix::new`] does. Allocates nothing.
    pub fn zeros(alloc: Global, nrows: usize, ncols: usize) -> Self
        ensures { result ≡ coo_of nrows ncols [] }
    {
        CooMatrix::new(alloc, nrows, ncols)
    }

    /// Returns the matrix of the triplets given as three lists.
    ///
    /// Linear in the number of triplets. Allocates nothing.
    ///
    /// # Errors
    ///
    /// Returns the first fault in this order: different numbers of rows and columns, different numbers of columns and
    /// values, a row index not less than `nrows`, a column index not less than `ncols`. The lists are dropped.
    ///
    /// # Examples
    ///
    /// ```rust
    /// fn lists_become_triplets(alloc: Global) -> Result<bool, Fail> {
    ///     let rows = Vec::from_slice(alloc, &[0, 1])?;
    ///     let cols = Vec::from_slice(alloc, &[2, 0])?;
    ///     let values = Vec::from_slice(alloc, &[5, 7])?;
    ///     let matrix = CooMatrix::try_from_triplets(2, 3, rows, cols, values)?;
    ///     Ok(matrix.triplet_iter().next() == Some((0, 2, &5)))
    /// }
    /// ```
    ///
    /// ```rust
    /// fn a_row_is_out_of_bounds(alloc: Global) -> Result<bool, Fail> {
    ///     let rows = Vec::from_slice(alloc, &[2])?;
    ///     let cols = Vec::from_slice(alloc, &[0])?;
    ///     let values = Vec::from_slice(alloc, &[5])?;
    ///     match CooMatrix::try_from_triplets(2, 3, rows, cols, values) {
    ///         Ok(_matrix) => Ok(false),
    ///         Err(error) => Ok(*error.kind() == SparseFormatErrorKind::IndexOutOfBounds),
    ///     }
    /// }
    /// ```
    pub fn try_from_triplets(
        nrows: usize,
        ncols: usize,
        row_indices: Vec<usize>,
        col_indices: Vec<usize>,
        values: Vec<T>,
    ) -> Result<Self, SparseFormatError>
    where
        T: Drop,
        ensures ok { IfOk result (λ m. m ≡ coo_of nrows ncols
            (zip_triplets row_indices.items col_indices.items values.items)) }
        ensures valid { OnOk result
            (AreParts nrows ncols row_indices.items col_indices.items values.items) }
        ensures fault { IfErr result (IsFirstTripletFault nrows ncols
            row_indices.items col_indices.items (length values.items)) }
        ensures accepted { AreParts nrows ncols row_indices.items col_indices.items values.items
            → IsOk result }
    {
        if let Some(fault) = first_fault(nrows, ncols, &row_indices, &col_indices, values.len()) {
            return Err(fault.error());
        }
        Ok(CooMatrix {
            nrows,
            ncols,
            row_indices,
            col_indices,
            values,
        })
    }

    /// Reserves memory for at least `additional` more triplets. Fails only if an allocation fails.
    pub fn reserve(&mut self, additional: usize) -> Result<(), AllocError>
        ensures { self.new ≡ self.old }
    {
        reserve_each(
            &mut self.row_indices,
            &mut self.col_indices,
            &mut self.values,
            additional,
        )
    }

    /// Appends a triplet. `i` must be less than `nrows()`, and `j` less than `ncols()`.
    ///
    /// Amortised constant time. Fails only if an allocation fails; the matrix is then unchanged.
    pub fn push(&mut self, i: usize, j: usize, v: T) -> Result<(), AllocError>
    where
        T: Drop,
        requires row { i < self.old.nrows }
        requires col { j < self.old.ncols }
        ensures ok { OnOk result (self.new ≡ appended self.old ((i, j, v) ∷ [])) }
        ensures err { OnErr result (self.new ≡ self.old) }
    {
        reserve_each(
            &mut self.row_indices,
            &mut self.col_indices,
            &mut self.values,
            1,
        )?;
        self.row_indices.push_reserved(i);
        self.col_indices.push_reserved(j);
        self.values.push_reserved(v);
        Ok(())
    }

    /// Removes all triplets. The shape is unchanged, and the memory is kept for later triplets.
    ///
    /// # Examples
    ///
    /// ```rust
    /// fn triplets_are_dropped(alloc: Global) -> Result<bool, Fail> {
    ///     let mut matrix = CooMatrix::new(alloc, 2, 3);
    ///     matrix.push(1, 2, 5)?;
    ///     matrix.clear_triplets();
    ///     Ok(matrix == CooMatrix::zeros(alloc, 2, 3))
    /// }
    /// ```
    pub fn clear_triplets(&mut self)
    where
        T: Drop,
        ensures { self.new ≡ coo_of self.old.nrows self.old.ncols [] }
    {
        self.row_indices.clear();
        self.col_indices.clear();
        self.values.clear();
    }

    /// Returns the number of rows.
    pub fn nrows(&self) -> usize
        ensures { result ≡ self.now.nrows }
    {
        self.nrows
    }

    /// Returns the number of columns.
    pub fn ncols(&self) -> usize
        ensures { result ≡ self.now.ncols }
    {
        self.ncols
    }

    /// Returns the number of triplets. Triplets with the same row and column are counted each time.
    pub fn nnz(&self) -> usize
        ensures { result ≡ length self.now.triplets }
    {
        self.values.len()
    }

    /// Returns the row of each triplet.
    pub fn row_indices(&self) -> &[usize]
        ensures rows { result.now ≡ map (λ t. t.0) self.now.triplets }
        ensures inside { IsInside self.now }
    {
        &self.row_indices
    }

    /// Returns the column of each triplet.
    pub fn col_indices(&self) -> &[usize]
        ensures cols { result.now ≡ map (λ t. t.1) self.now.triplets }
        ensures inside { IsInside self.now }
    {
        &self.col_indices
    }

    /// Returns the value of each triplet.
    pub fn values(&self) -> &[T]
        ensures { result.now ≡ map (λ t. t.2) self.now.triplets }
    {
        &self.values
    }

    /// Returns the rows, the columns and the values, and consumes the matrix.
    pub fn disassemble(self) -> (Vec<usize>, Vec<usize>, Vec<T>)
        ensures rows { result.0.items ≡ map (λ t. t.0) self.triplets }
        ensures cols { result.1.items ≡ map (λ t. t.1) self.triplets }
        ensures values { result.2.items ≡ map (λ t. t.2) self.triplets }
        ensures inside { IsInside self }
    {
        let CooMatrix {
            nrows: _,
            ncols: _,
            row_indices,
            col_indices,
            values,
        } = self;
        (row_indices, col_indices, values)
    }
}

impl<T: Copy> CooMatrix<T> {
    /// Returns a copy with the same triplets in the same order. Fails only if an allocation fails.
    pub fn clone(&self, alloc: Global) -> Result<Self, AllocError>
        ensures { IfOk result (λ m. m ≡ self.now) }
    {
        Ok(CooMatrix {
            nrows: self.nrows,
            ncols: self.ncols,
            row_indices: Vec::from_slice(alloc, &self.row_indices)?,
            col_indices: Vec::from_slice(alloc, &self.col_indices)?,
            values: Vec::from_slice(alloc, &self.values)?,
        })
    }
}

// Reserves memory for at least `additional` more elements in each of three lists. The elements are unchanged.
#[inline(always)]
fn reserve_each<T>(
    rows: &mut Vec<usize>,
    cols: &mut Vec<usize>,
    values: &mut Vec<T>,
    additional: usize,
) -> Result<(), AllocError>
    ensures rows { rows.new.items ≡ rows.old.items }
    ensures cols { cols.new.items ≡ cols.old.items }
    ensures values { values.new.items ≡ values.old.items }
    ensures row_room { OnOk result (vec_len rows.new + additional ≤ vec_capacity rows.new) }
    ensures col_room { OnOk result (vec_len cols.new + additional ≤ vec_capacity cols.new) }
    ensures room { OnOk result (vec_len values.new + additional ≤ vec_capacity values.new) }
{
    rows.reserve(additional)?;
    cols.reserve(additional)?;
    values.reserve(additional)
}
