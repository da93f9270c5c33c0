//! The commands of the program `mtxkit`, from its arguments to its exit status.
#![tactic(auto)]

mod answers;
mod arguments;
mod cli;
mod command_error;
mod evaluated;
mod failure_lines;
mod fault_files;
mod inputs;
mod one_file;
mod orders;
mod outputs;
mod save_record;
mod scaled;
mod unread;

pub use answers::answer_of;
pub use arguments::answer;
pub use cli::{finish, run};
pub use command_error::CommandError;
pub use failure_lines::{failure_line, report};
pub use inputs::{Inputs, read_text};
pub use outputs::{Outputs, Saves};
