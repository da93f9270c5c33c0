//! Calls on the entries, the lanes, the triplets and the shape of a matrix, and on lists.
#![tactic(auto)]

pub mod entries;
pub mod lanes;
pub mod lists;
pub mod shapes;
pub mod triplets;
