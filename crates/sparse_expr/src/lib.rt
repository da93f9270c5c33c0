//! Matrix expressions: parsed from words in postfix order, and evaluated over matrices or Matrix Market texts.
#![tactic(auto)]

mod calculator;
mod error;
mod evaluate;
mod expr;
pub mod laws;
mod sources;
mod words;

pub use calculator::{Form, run, run_owned};
pub use error::ExprError;
pub use evaluate::{evaluate_cols, evaluate_rows};
pub use expr::Expr;
