//! Matrices whose arrays are borrowed: those of an owned matrix, or arrays of another program.
//!
//! The value of a view is that of an owned matrix with the same arrays, so contracts say of a view what they say of an
//! owned matrix. A view is made from an owned matrix in constant time, or from slices, which are checked without a
//! copy. Operations take owned matrices: a view is first copied to one, and the copy of a CSR or CSC view is not
//! checked again.
#![tactic(auto)]

mod coo;
mod csc;
mod csr;
pub mod laws;
mod reading;

pub use coo::CooView;
pub use csc::CscView;
pub use csr::CsrView;
