//! What the program `mtxkit info` writes about one Matrix Market text, as lines or as an object in JSON; and the members of
//! objects in JSON.
#![tactic(auto)]

mod fact_json;
mod fact_lines;
mod facts;
mod json;

pub use fact_lines::info_text;
pub use facts::{ReportFormat, TextFacts, facts_of};
pub use json::{push_end, push_first, push_flag, push_member, push_number, quoted};
