//! The rows and columns of an array's entries.

ghost use Rattle.std.specs.Prelude.{◌≡◌, ◌<◌, ◌==◌, Some, slice_get, drop, length};
ghost use Rattle.sparse_parser.specs.ArrayPlaces.{first_row, places_of};

use sparse_parser::header::{Format, Symmetry};

/// The rows and columns of the entries of an array that are left to read, column by column.
#[derive(Clone, Copy)]
pub struct Places {
    symmetry: Symmetry,
    rows: usize,
    cols: usize,
    row: usize,
    col: usize,
    // The first entry lies in the array, unless none is left.
    ghost in_array: { col < cols → row < rows },
}

impl Places {
    ghost use Rattle.sparse_io.specs.InnerPlaces.{places_left, left_from, columns_left};

    /// Returns the rows and columns of the entries of an array of this shape. In the coordinate format there are none,
    /// since each data line gives its own.
    pub fn new(format: Format, symmetry: Symmetry, rows: usize, cols: usize) -> Places
        ensures { places_left result ≡ places_of format symmetry rows cols }
    {
        let cols = match format {
            Format::Coordinate => 0,
            Format::Array => cols,
        };
        let (row, col) = Places::first_from(symmetry, rows, cols, 0);
        Places {
            symmetry,
            rows,
            cols,
            row,
            col,
        }
    }

    /// Returns whether no entry is left.
    #[inline(always)]
    pub fn is_empty(&self) -> bool
        ensures { result ≡ (length (places_left self.now) == 0) }
    {
        self.col >= self.cols
    }

    /// Returns the row and the column of the first entry. There must be one.
    #[inline(always)]
    pub fn first(&self) -> (usize, usize)
        requires { 0 < length (places_left self.now) }
        ensures { slice_get (places_left self.now) 0 ≡ Some result }
    {
        (self.row, self.col)
    }

    /// Removes the first entry, if there is one.
    #[inline(always)]
    pub fn remove_first(&mut self)
        ensures { places_left self.new ≡ drop 1 (places_left self.old) }
    {
        if self.is_empty() {
            return;
        }
        self.row += 1;
        if self.row >= self.rows {
            let next = self.col + 1;
            let (row, col) = Places::first_from(self.symmetry, self.rows, self.cols, next);
            self.row = row;
            self.col = col;
        }
    }

    /// Removes the first entry, and returns its row and its column. Returns `None` if there is none.
    #[inline(always)]
    pub fn take_first(&mut self) -> Option<(usize, usize)>
        ensures first { result ≡ slice_get (places_left self.old) 0 }
        ensures left { places_left self.new ≡ drop 1 (places_left self.old) }
    {
        if self.is_empty() {
            return None;
        }
        let place = self.first();
        self.remove_first();
        Some(place)
    }

    // The row and the column of the first entry from a column on, or `(0, cols)` if there is none. After a column
    // without entries there are none.
    #[inline(always)]
    fn first_from(symmetry: Symmetry, rows: usize, cols: usize, col: usize) -> (usize, usize)
        ensures places { left_from symmetry rows cols result.0 result.1
            ≡ columns_left symmetry rows cols col }
        ensures in_array { result.1 < cols → result.0 < rows }
    {
        if col < cols {
            let row = first_row(symmetry, col);
            if row < rows {
                return (row, col);
            }
        }
        (0, cols)
    }
}

// The row of the first entry of a column.
fn first_row(symmetry: Symmetry, col: usize) -> usize
    requires { col < usize.MAX }
    ensures { result ≡ first_row symmetry col }
{
    match symmetry {
        Symmetry::General => 0,
        Symmetry::Symmetric | Symmetry::Hermitian => col,
        Symmetry::SkewSymmetric => col + 1,
    }
}
