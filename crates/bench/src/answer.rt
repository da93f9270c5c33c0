//! The answers of tasks, and the checksum that all measured programs print, so that one can see that they agree.
//!
//! It is the wrapping sum of a number for each entry, which depends on its row, its column and its value.

use nalgebra_sparse::dense::DMatrix;
use nalgebra_sparse::factorization::CscSymbolicCholesky;
use nalgebra_sparse::ldl::Ldl;
use nalgebra_sparse::ordered::OrderedLdl;
use nalgebra_sparse::ordering::Permutation;
use nalgebra_sparse::scalar::W64;
use nalgebra_sparse::{CooMatrix, CsrMatrix};

/// The answer of a task.
pub trait Answer: Drop {
    /// Returns the checksum of its entries and values.
    fn checksum(&self) -> u64;

    /// Returns the number of entries.
    fn places(&self) -> usize;
}

impl Answer for CsrMatrix<W64> {
    fn checksum(&self) -> u64 {
        let mut sum: u64 = 0;
        for (row, col, value) in self.triplet_iter() {
            sum = sum.wrapping_add(mixed(row, col, *value));
        }
        sum
    }

    fn places(&self) -> usize {
        self.nnz()
    }
}

/// Zeros are included.
impl Answer for DMatrix<W64> {
    fn checksum(&self) -> u64 {
        let mut sum: u64 = 0;
        for col in 0..self.ncols() {
            sum = sum.wrapping_add(checksum_of_column(col, self.column(col)));
        }
        sum
    }

    fn places(&self) -> usize {
        self.as_slice().len()
    }
}

/// The value is one at each entry of the pattern.
impl Answer for CscSymbolicCholesky {
    fn checksum(&self) -> u64 {
        let mut sum: u64 = 0;
        for (col, row) in self.l_pattern().entries() {
            sum = sum.wrapping_add(mixed(row, col, W64::new(1)));
        }
        sum
    }

    fn places(&self) -> usize {
        self.l_pattern().nnz()
    }
}

/// The entries of D are a column after those of L.
impl Answer for Ldl<W64> {
    fn checksum(&self) -> u64 {
        let mut sum: u64 = checksum_of_column(self.d().len(), self.d());
        for (row, col, value) in self.l().triplet_iter() {
            sum = sum.wrapping_add(mixed(row, col, *value));
        }
        sum
    }

    fn places(&self) -> usize {
        self.l().nnz()
    }
}

/// Those of the factors of the permuted matrix.
impl Answer for OrderedLdl<W64> {
    fn checksum(&self) -> u64 {
        self.factors().checksum()
    }

    fn places(&self) -> usize {
        self.factors().places()
    }
}

/// The order is a column of values.
impl Answer for Permutation {
    fn checksum(&self) -> u64 {
        let mut sum: u64 = 0;
        for (row, index) in self.order().iter().enumerate() {
            sum = sum.wrapping_add(mixed(row, *index, W64::new(1)));
        }
        sum
    }

    fn places(&self) -> usize {
        self.len()
    }
}

impl Answer for CooMatrix<W64> {
    fn checksum(&self) -> u64 {
        let mut sum: u64 = 0;
        for (row, col, value) in self.triplet_iter() {
            sum = sum.wrapping_add(mixed(row, col, *value));
        }
        sum
    }

    fn places(&self) -> usize {
        self.nnz()
    }
}

/// The value is one at each entry.
impl Answer for CooMatrix<()> {
    fn checksum(&self) -> u64 {
        let mut sum: u64 = 0;
        for (row, col, _) in self.triplet_iter() {
            sum = sum.wrapping_add(mixed(row, col, W64::new(1)));
        }
        sum
    }

    fn places(&self) -> usize {
        self.nnz()
    }
}

fn checksum_of_column(col: usize, values: &[W64]) -> u64 {
    let mut sum: u64 = 0;
    for (row, value) in values.iter().enumerate() {
        sum = sum.wrapping_add(mixed(row, col, *value));
    }
    sum
}

// The number of one entry.
fn mixed(row: usize, col: usize, value: W64) -> u64 {
    let row_part = (row as u64)
        .wrapping_add(1)
        .wrapping_mul(0x9E37_79B9_7F4A_7C15);
    let col_part = (col as u64)
        .wrapping_add(1)
        .wrapping_mul(0xC2B2_AE3D_27D4_EB4F);
    let place = row_part ^ col_part;
    let spread = (place ^ (place >> 29)).wrapping_mul(0xBF58_476D_1CE4_E5B9);
    spread.wrapping_mul(value.get().cast_unsigned().wrapping_mul(2).wrapping_add(1))
}
