//! Sums, differences, multiples and negatives of sparse matrices, and sums of their patterns.
#![tactic(auto)]

mod add;
mod in_order;
mod merge;
mod pattern;
mod prealloc;
mod room;
mod scale;
mod scaled;

pub use add::{add_csc, add_csr, sub_csc, sub_csr};
pub use merge::{Operand, Output, merge_lanes};
pub use pattern::spadd_pattern;
pub use prealloc::{spadd_csc_prealloc, spadd_csr_prealloc};
pub use scale::{neg_csc, neg_csr, scale_csc, scale_csr};
pub use scaled::{add_scaled_csc, add_scaled_csr};
