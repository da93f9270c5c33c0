//! The commands `mtxkit solve` and `mtxkit check` on texts: systems over the integers modulo a number.
#![tactic(auto)]

mod lists;
mod systems;

pub use systems::{check_text, solve_text};
