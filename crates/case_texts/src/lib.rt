//! Calls on texts and on expressions over texts.
#![tactic(auto)]

pub mod expressions;
pub mod text_scalars;
pub mod text_values;
pub mod texts;
pub mod written;
