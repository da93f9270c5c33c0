//! Calls on dense matrices, patterns, views and data structs, and the constructors.
#![tactic(auto)]

pub mod constructors;
pub mod dense;
pub mod json;
pub mod pattern_calls;
pub mod views;
