//! Operations of rows: sums, products, products with dense matrices, solves, and factors.
#![tactic(auto)]

pub mod dense_products;
pub mod factors;
pub mod in_place;
pub mod numbers;
pub mod operations;
pub mod patterns;
pub mod products;
pub mod sums;
pub mod systems;
pub mod unchecked;
pub mod vectors;
