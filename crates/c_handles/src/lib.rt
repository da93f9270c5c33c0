//! Handles for C: opaque pointers to matrices and to exact factors that the library owns.
//!
//! A handle holds a matrix or factors, or is empty. Several handles may share what they hold.
#![tactic(auto)]

pub(crate) mod block;
pub mod dense;
pub mod factoring;
pub mod from_arrays;
pub mod handle;
pub mod held;
pub mod held_factors;
pub mod held_rings;
pub mod narrow;
pub mod operations;
pub mod ordering;
pub mod reading;
pub mod ring_matrix;
pub mod shared;
pub mod solving;
pub mod texts;
