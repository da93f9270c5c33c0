//! Factorisations P A Q = L U of any matrix, and what they say of its rank, its kernel, and its systems of equations.
//! Each law is stated as the postcondition of an empty function.
#![tactic(auto)]

pub mod kernels;
pub mod ranks;
pub mod rings;
pub mod systems;
