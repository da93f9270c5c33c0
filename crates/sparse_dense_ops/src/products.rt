//! Products of a sparse and a dense matrix.

mod gather;
mod operand;
mod product;
mod scatter;
mod update;

pub use product::{mul_csc_dense, mul_csr_dense, spmm_csc_dense, spmm_csr_dense};
