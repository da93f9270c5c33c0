//! Matrices whose arrays are borrowed: those of an owned matrix, or arrays of another program.

pub use sparse_views::{CooView, CscView, CsrView};
