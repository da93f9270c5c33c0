//! Sparsity patterns, counting sorts, and the entries and format errors shared by all sparse matrices.
#![tactic(auto)]

pub mod counting;
pub mod entry;
pub mod error;
pub mod pattern;
