//! Conversions between coordinate lists, CSR, CSC and dense matrices.
#![tactic(auto)]

mod borrowed;
mod coarse_passes;
mod counted;
mod in_order;
mod lanes;
mod merge;
mod passes;
pub mod serial;
mod sorted_by_minor;
