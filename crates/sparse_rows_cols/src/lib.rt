//! Rows of CSR matrices, columns of CSC matrices, and the iterators over them and over triplets.
#![tactic(auto)]

pub mod col;
pub mod col_mut;
pub mod col_triplets;
pub mod row;
pub mod row_mut;
pub mod row_triplets;
