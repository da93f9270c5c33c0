//! A sparse and a dense vector: multiples added, and dot products; of rows and columns of matrices, and of slices.
//!
//! The loops over one lane that products, solves and factorisations share.

mod csc;
mod csr;
mod gather;
mod lane;
mod scatter;

pub use csc::{axpy_csc_col, dot_csc_col};
pub use csr::{axpy_csr_row, dot_csr_row};
pub use gather::{dot, dot_four, usdot};
pub use lane::lane_slices;
pub use scatter::{add_multiple_four, usaxpy};
