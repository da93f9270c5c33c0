//! Calls on permutations, on permuted matrices and their factors, and on orders that reduce fill or bandwidth.
#![tactic(auto)]

pub mod ordered;
pub mod orders;
pub mod permuted;
pub mod reduced;
