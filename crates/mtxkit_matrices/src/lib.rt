//! What the program `mtxkit` computes: facts about matrices, pictures of patterns, solutions of symmetric systems, and
//! texts of decimal numbers scaled to integers.
#![tactic(auto)]

mod coordinates;
mod decimals;
mod facts;
mod orders;
mod pictures;
mod pivots;
mod solutions;
mod systems;
mod values;

pub use coordinates::{Coordinates, Dimensions};
pub use decimals::{ScaleError, least_scale, scaled_text};
pub use facts::{
    Histogram, Info, answer, bandwidth, count_lanes, counted_lanes, info_of, is_symmetric,
    longest_lane, push_count, push_facts, push_histogram, push_line,
};
pub use orders::EliminationOrder;
pub use pictures::{Picture, bitmap_text, block_text, draw, scaled_sizes, svg_text};
pub use pivots::Pivot;
pub use solutions::{CheckError, check_solution};
pub use systems::{SystemError, solve, solve_listed};
pub use values::{count_zeros, first_asymmetry, first_difference};
