//! Matrices of rows in both formats: how they are made, shown, converted, filtered and compared.
#![tactic(auto)]

pub mod arrays;
pub mod compressed;
pub mod conversions;
pub mod filters;
pub mod made;
