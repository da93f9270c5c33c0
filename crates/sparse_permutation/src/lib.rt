//! Permutations, and matrices whose rows and columns are permuted.
#![tactic(auto)]

pub mod error;
pub mod laws;
pub mod permutation;
mod renumbering;
pub mod rows;
pub mod symmetric;
