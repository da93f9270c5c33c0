//! What the functions for C share: matrices and lists in arrays that C passes, statuses, results written into arrays of
//! C, and sums of matrices in such arrays.
#![tactic(auto)]

pub mod dense;
pub mod lanes;
pub mod lists;
pub mod number;
pub mod patterns;
pub mod refusal;
pub mod scalars;
pub mod sums;
pub mod texts;
pub mod triplets;
pub mod writing;
