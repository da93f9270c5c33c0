//! Rings built from other rings: dual numbers, Gaussian numbers and pairs.
#![tactic(auto)]

mod closed;
mod combine;
mod dual;
mod gaussian;
pub mod laws;
mod pair;

pub use closed::Closed;
pub use dual::Dual;
pub use gaussian::Gaussian;
pub use pair::Pair;
