//! Permutations, matrices whose rows and columns are permuted, and orders that reduce fill or bandwidth.

pub use sparse_ordering::minimum_degree::minimum_degree;
pub use sparse_ordering::reverse_cuthill_mckee::reverse_cuthill_mckee;
pub use sparse_permutation::error::{PermutationError, PermuteError};
pub use sparse_permutation::permutation::Permutation;
pub use sparse_permutation::rows::permute_rows;
pub use sparse_permutation::symmetric::{
    permute_symmetric_csc, permute_symmetric_csr, permute_symmetric_pattern,
};
