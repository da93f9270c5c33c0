//! Products of sparse matrices, computed in one thread.

mod accumulate;
mod index_set;
pub(crate) mod multiplicands;
mod pattern;
mod prealloc;
mod product;
mod read_ahead;
mod rows;
mod scatter;
mod search;
mod unchecked;
mod update;

pub use pattern::{spmm_csc_pattern, spmm_csr_pattern};
pub use prealloc::{spmm_csc_prealloc, spmm_csr_prealloc};
pub use product::{mul_csc, mul_csr};
pub use sparse_algebra::error::{OperationError, OperationErrorKind};
pub use unchecked::{
    spmm_csc_prealloc_unchecked, spmm_csr_prealloc_unchecked, spmm_csr_prealloc_unchecked_counted,
};
