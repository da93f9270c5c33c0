//! Appending triplets within the memory that a matrix has.

ghost use Rattle.std.specs.Prelude.{◌≡◌, ◌<◌, ◌+◌, [], ◌∷◌};
ghost use Rattle.sparse_coo_dense.specs.Coo.{appended};

use super::CooMatrix;
use std::marker::Model;

/// A matrix in coordinate format to which triplets are appended as long as it has memory for them.
///
/// It never allocates. A loop that appends to it keeps its pointers in registers, and one test of its room decides
/// whether all three lists have memory for a triplet.
#[derive(Drop)]
pub struct CooAppender<T> {
    nrows: usize,
    ncols: usize,
    row_indices: Vec<usize>,
    col_indices: Vec<usize>,
    values: Vec<T>,
    // The number of triplets that can still be appended: at most the spare capacity of each list.
    room: usize,
}

impl<T> Model for CooAppender<T> {
    ghost use Rattle.std.specs.Prelude.{vec_len, vec_capacity};
    ghost use Rattle.sparse_coo_dense.specs.Coo.{coo_of, zip_triplets, AreParts};
    ghost use Rattle.sparse_coo_dense.specs.Appender.{Appender, appender_code, appender_of};
    ghost use Rattle.sparse_coo_dense.specs.InnerAppender.{HasRoom};

    ghost Value = { Appender T };

    ghost coded = { appender_code T.code };

    ghost view = { λ m. appender_of
        (coo_of m.nrows m.ncols
        (zip_triplets m.row_indices.items m.col_indices.items m.values.items))
        m.room };

    ghost invariant = { λ m.
        AreParts m.nrows m.ncols m.row_indices.items m.col_indices.items m.values.items
        × HasRoom m.room (vec_len m.row_indices) (vec_capacity m.row_indices)
        (vec_len m.col_indices) (vec_capacity m.col_indices)
        (vec_len m.values) (vec_capacity m.values) };
}

impl<T> CooAppender<T> {
    /// Returns an appender for the matrix, with the memory that the matrix has.
    pub fn new(matrix: CooMatrix<T>) -> Self
        ensures matrix { result.matrix ≡ matrix }
    {
        let CooMatrix {
            nrows,
            ncols,
            row_indices,
            col_indices,
            values,
        } = matrix;
        let row_room = row_indices.capacity() - row_indices.len();
        let col_room = col_indices.capacity() - col_indices.len();
        let room = values.capacity() - values.len();
        CooAppender {
            nrows,
            ncols,
            row_indices,
            col_indices,
            values,
            room: row_room.min(col_room).min(room),
        }
    }

    /// Returns the matrix with all triplets.
    pub fn into_matrix(self) -> CooMatrix<T>
        ensures { result ≡ self.matrix }
    {
        let CooAppender {
            nrows,
            ncols,
            row_indices,
            col_indices,
            values,
            room: _,
        } = self;
        CooMatrix {
            nrows,
            ncols,
            row_indices,
            col_indices,
            values,
        }
    }

    /// Returns the number of rows.
    #[inline(always)]
    pub fn nrows(&self) -> usize
        ensures { result ≡ self.now.matrix.nrows }
    {
        self.nrows
    }

    /// Returns the number of columns.
    #[inline(always)]
    pub fn ncols(&self) -> usize
        ensures { result ≡ self.now.matrix.ncols }
    {
        self.ncols
    }

    /// Returns the number of triplets that can still be appended.
    #[inline(always)]
    pub fn room(&self) -> usize
        ensures { result ≡ self.now.room }
    {
        self.room
    }

    /// Appends a triplet. `i` must be less than `nrows()`, `j` less than `ncols()`, and `room()` must not be 0.
    ///
    /// Constant time. Allocates nothing.
    #[inline(always)]
    pub fn push(&mut self, i: usize, j: usize, v: T)
    where
        T: Drop,
        requires row { i < self.old.matrix.nrows }
        requires col { j < self.old.matrix.ncols }
        requires room { 0 < self.old.room }
        ensures pushed { self.new.matrix ≡ appended self.old.matrix ((i, j, v) ∷ []) }
        ensures room { self.old.room ≡ self.new.room + 1 }
    {
        self.row_indices.push_reserved(i);
        self.col_indices.push_reserved(j);
        self.values.push_reserved(v);
        self.room -= 1;
    }
}
