//! Products of sparse matrices, patterns of products, and products that are added to a given matrix.
#![tactic(auto)]

pub mod serial;

pub use sparse_algebra::operand::Op;
pub use sparse_coo_dense::steps::Steps;

/// Transposes, with contracts that are equations of plain matrices.
pub mod transposes {
    pub use crate::serial::multiplicands::{transposed_csc, transposed_csr};
}
