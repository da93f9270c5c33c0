//! The compressed formats: CSR, whose lanes are rows, and CSC, whose lanes are columns.
#![tactic(auto)]

pub mod csc;
pub mod csr;
