//! Exact sparse matrices: coordinate lists, compressed rows and columns, over any commutative ring.
//!
//! The crates below this one hold the code. This one gives each module its public path.
#![tactic(auto)]

pub mod io;
pub mod laws;
pub mod ops;
pub mod ordering;
pub mod scalar;
pub mod views;

pub use sparse_convert as convert;
pub use sparse_coo_dense::coo::CooMatrix;
pub use sparse_coo_dense::{coo, dense};
pub use sparse_csr_csc::csc::CscMatrix;
pub use sparse_csr_csc::csr::CsrMatrix;
pub use sparse_csr_csc::{csc, csr};
pub use sparse_expr as expr;
pub use sparse_factor::{factorization, ldl, ordered};
pub use sparse_pattern::entry::{SparseEntry, SparseEntryMut};
pub use sparse_pattern::error::{SparseFormatError, SparseFormatErrorKind};
pub use sparse_pattern::pattern;
pub use sparse_rings as rings;
pub use sparse_serde as data;
