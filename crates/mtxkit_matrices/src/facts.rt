//! Facts about matrices and their patterns, and the lines of `mtxkit info` that say them.

mod info;
mod lanes;
mod lines;
mod shape;

pub use info::{Info, info_of};
pub use lanes::{Histogram, count_lanes, counted_lanes, longest_lane};
pub use lines::{answer, push_count, push_facts, push_histogram, push_line};
pub use shape::{bandwidth, is_symmetric};
