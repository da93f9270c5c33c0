//! Pictures of patterns, as `mtxkit spy` writes them: their sizes, their cells and their texts.

mod picture;
mod scale;
mod svg;
mod text;

pub use picture::{Picture, draw};
pub use scale::scaled_sizes;
pub use svg::svg_text;
pub use text::{bitmap_text, block_text};
