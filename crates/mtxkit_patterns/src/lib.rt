//! What the program `mtxkit` does with patterns: it orders the rows and columns of a square matrix, permutes a matrix
//! by an order, and counts the fill of its factor.
#![tactic(auto)]

mod columns;
mod counts;
mod fill;
mod fill_json;
mod fill_lines;
mod order_error;
mod order_lists;
mod order_reading;
mod order_texts;
mod orders;
mod permuted;
mod square;

pub use counts::{FillCounts, fill_counts};
pub use fill::{fill_text, fill_text_in_order};
pub use order_error::OrderError;
pub use order_reading::read_order;
pub use order_texts::write_order;
pub use orders::order_text;
pub use permuted::permute_text;
pub use square::Method;
