//! Laws of sums, products and data structs, each the contract of a function that calls the public functions.
#![tactic(auto)]

pub mod data;
pub mod operations;
