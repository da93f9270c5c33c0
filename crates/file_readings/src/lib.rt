//! Reading files by their paths, with a record of what was read that only contracts see.
#![tactic(auto)]

mod record;
mod texts;

pub use record::Record;
pub use texts::Texts;
