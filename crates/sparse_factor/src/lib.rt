//! The pattern of the Cholesky factor of a sparse matrix, and the exact factorisation L D Lᵀ of a symmetric matrix over
//! a commutative ring, also in another order of its rows and columns.
#![tactic(auto)]

pub mod factorization;
pub mod laws;
pub mod ldl;
mod leading;
pub mod ordered;
