//! Coordinate lists, dense matrices, and a step counter that exists only in contracts.
#![tactic(auto)]

pub mod coo;
pub mod dense;
pub mod steps;

pub use coo::append::CooAppender;
