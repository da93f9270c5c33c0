//! Matrix Market texts of decimal numbers, read exactly, multiplied by a power of ten and written with integers.

mod entry;
mod error;
mod magnitude;
mod mantissa;
mod number;
mod search;
mod stage;
mod text;

pub use error::ScaleError;
pub use search::least_scale;
pub use text::scaled_text;
