//! Data structs: the shape and the arrays of patterns and matrices as public fields, which `serde` reads and writes.
#![tactic(auto)]

mod coo;
mod csc;
mod csr;

pub use coo::CooData;
pub use csc::CscData;
pub use csr::CsrData;
pub use sparse_serde_pattern::PatternData;
