//! Slow, plain programs that compute what a definition says, for comparison in tests.
//!
//! The contract of each is the definition. No library uses this crate.
#![tactic(auto)]

pub mod expressions;
pub mod fill;
pub mod ldl;
pub mod pattern_faults;
pub mod products;
pub mod sums;
pub mod texts;
