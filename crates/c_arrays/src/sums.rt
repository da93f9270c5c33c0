//! Sums of matrices in arrays that C passes, merged straight into the arrays for the result.

mod lane;
mod output;
mod rows;
mod sum;

pub use sum::{Multiples, write_sum};
