//! The arguments of the program `mtxkit`: from the words of the command line to a command.
#![tactic(auto)]

mod choices;
mod command_line;
mod commands;
mod given;
mod options;
mod parsing;
mod usage_words;
mod words;

pub use clap::ArgMatches;
pub use commands::Command;
pub use given::{ArgumentError, given_words};
pub use options::{FillOrder, Target, Values};
pub use parsing::{Explanation, parse};
pub use words::command_of;
