//! The parts of a Matrix Market text: lines, words, numbers, the header line, the size line and data lines.
#![tactic(auto)]

pub mod data_lines;
mod digit_runs;
pub mod error;
pub mod header;
pub mod integer_lines;
pub mod lines;
pub mod numbers;
pub mod size;
