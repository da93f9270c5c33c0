//! What the program `mtxkit` does with one Matrix Market text: it reads the matrix, draws its pattern, or writes it
//! again; and the progress of reading large files.
#![tactic(auto)]

mod any_field;
mod exact;
mod failure;
mod field;
mod headers;
mod lists;
mod loaded;
mod locations;
mod ones;
mod pattern_texts;
mod places;
mod progress;
mod spy;
mod sums;
mod symmetric;
mod values;
mod whole;

pub use any_field::{load_ones, load_places};
pub use failure::Failure;
pub use field::{copy_text, integer_text, places_text};
pub use headers::{field_name, format_name, header_of, names_pattern, symmetry_name};
pub use lists::with_values;
pub use loaded::{Loaded, load, read_integers};
pub use mtxkit_matrices::{Coordinates, Dimensions, Pivot};
pub use pattern_texts::{push_decimal, write_pattern};
pub use places::ones_of;
pub use progress::{Screen, Terminal, progress_line, read_shown};
pub use sparse_faults::{LineFault, Location};
pub use spy::{spy_bitmap, spy_blocks, spy_svg};
pub use sums::wide_sums;
pub use symmetric::symmetric_text;
pub use values::load_values;
pub use whole::load_exact;
