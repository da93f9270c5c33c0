//! Operations on a sparse and a dense operand: a row or a column and a dense vector, products with dense matrices, and
//! triangular solves; and division by a scalar, which needs an inverse as the solves do.
#![tactic(auto)]

mod blocks;
mod division;
mod kernels;
pub mod laws;
mod products;
mod solve;

pub use division::{div_scalar_csc, div_scalar_csr, div_scalar_mut_csc, div_scalar_mut_csr};
pub use kernels::{axpy_csc_col, axpy_csr_row, dot_csc_col, dot_csr_row, usaxpy, usdot};
pub use products::{mul_csc_dense, mul_csr_dense, spmm_csc_dense, spmm_csr_dense};
pub use solve::spsolve_csc_lower_triangular;
