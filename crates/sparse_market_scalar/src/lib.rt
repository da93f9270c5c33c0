//! Scalar types of Matrix Market texts.
#![tactic(auto)]

mod scalar;

pub use scalar::MatrixMarketScalar;
