//! Tests of exact factorisations, through the public calls of the crates.

mod compared;
mod generated;
mod random;
mod symmetric;
