//! The commands of the program `mtx`: its arguments, its files, its output and its exit status.
#![tactic(auto)]

mod arguments;
mod cli;
mod error_lines;
mod evaluate;
mod fill;
mod inputs;

pub use arguments::answer;
pub use cli::{Failure, command, command_over, finish};
