//! What rows of the tables of `cases` are written with: words, pictures of matrices, scalars, lines of texts, and why a
//! call fails.
#![tactic(auto)]

pub mod drawing;
pub mod failure;
pub mod lines;
pub mod picture;
pub mod scalar;
pub mod templates;
pub mod turn;
pub mod words;
