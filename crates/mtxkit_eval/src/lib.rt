//! Expressions over matrices of integers, in exact arithmetic or modulo a number.
#![tactic(auto)]

mod elements;
mod error;
mod extents;
mod residues;
mod texts;
mod values;
mod wide;

pub use error::EvalError;
pub use residues::Residues;
pub use texts::eval_text;
pub use values::{evaluate_exact, evaluate_modulo};
