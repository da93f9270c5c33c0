//! Scalar types, the algebra of matrices over them, operands, and the errors of operations.
#![tactic(auto)]

pub mod error;
pub mod laws;
pub mod operand;
pub mod scalar;

/// Discards the result of a call. The call only tells the prover its postcondition.
///
/// In `recall(c.values())` the postcondition of `values` says that the arrays of `c` are sound. The result is a
/// reference that nobody reads, so the compiler removes both calls: they cost nothing when the program runs.
pub fn recall<T: Copy>(_result: T) {}
