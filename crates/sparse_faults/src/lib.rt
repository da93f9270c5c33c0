//! The first line of a Matrix Market text that has a fault.
#![tactic(auto)]

mod bounds;
mod counted_lines;
mod fault;
mod line_faults;
mod lines;
mod locations;
mod quote;
mod value_type;

pub use fault::LineFault;
pub use lines::{after_end, is_comment};
pub use locations::{Location, text_fault};
pub use quote::Quote;
pub use value_type::ValueType;
