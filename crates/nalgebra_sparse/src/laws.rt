//! Laws of the definitions: each is the contract of a function with an empty body.

/// Conversions between lists, rows, columns and dense matrices preserve the plain matrix.
pub mod conversions {
    pub use sparse_convert::serial::{from_dense_law, one_matrix_law, order_law, to_dense_law};
}

/// The symbolic factor: two factorisations of a pattern that store the fill of the same base are `==`, and the fill is
/// the least closed set that contains the base.
pub mod factors {
    pub use sparse_factor::factorization::one_factor;
    pub use sparse_factor::laws::least_fill_law;
}

/// Patterns: the first fault of raw data is unique.
pub mod patterns {
    pub use sparse_pattern::pattern::one_first_fault;
}

/// The algebra of plain matrices.
pub mod plain {
    pub use sparse_algebra::laws::{
        identity_product_law, order_law, product_associative_law, product_distributes_law,
        proper_law, transpose_product_law, transpose_twice_law, within_law,
    };
}

/// Matrix Market texts: a text is at most one document, has exactly one meaning, and the text of a matrix means it.
pub mod texts {
    pub use sparse_io::{each_text_means, one_document, one_meaning, round_trip};
}

/// Wrapping integers of 32, 64 and 128 bits represent the whole numbers wherever these fit.
pub mod wrapping {
    pub use sparse_algebra::laws::whole::{
        read_back_law, whole_entry_law, wrapped_matrix_law, wrapping_law,
    };
    pub use sparse_algebra::laws::wide::{wide_read_back_law, wide_triplets_law};
}

/// Discards the result of a call whose only purpose is its contract.
pub use sparse_algebra::recall;
/// Compressed matrices: `==`, entries, transposes, filters, order by rows and by columns.
pub use sparse_compressed::laws as compressed;
/// Expressions: words in postfix order denote at most one tree.
pub use sparse_expr::laws as expressions;
/// Data structs: a value that is converted to its data struct and back is `==` to the original.
pub use sparse_laws::data;
/// Operations: the product distributes over sums, its transpose is the product of the transposes, the identity is
/// neutral.
pub use sparse_laws::operations;
/// Permutations: P A Pᵀ is symmetric exactly if A is, its systems are those of A, and the inverse undoes it.
pub use sparse_permutation::laws as ordering;
/// Rings over other rings: the product rule, norms, the Chinese remainder theorem.
pub use sparse_rings::laws as rings;
/// Triangular systems: a solution is unique.
pub use sparse_dense_ops::laws as systems;
/// Views: the copy of a view of a matrix is that matrix.
pub use sparse_views::laws as views;
