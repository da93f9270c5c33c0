//! Triplets in borrowed lists.

ghost use Rattle.sparse_coo_dense.specs.Coo.{AreParts};

/// Triplets (major index, minor index, value), as three borrowed lists.
#[derive(Drop)]
pub(crate) struct Triplets<'a, T> {
    pub(crate) major_dim: usize,
    pub(crate) minor_dim: usize,
    pub(crate) majors: &'a [usize],
    pub(crate) minors: &'a [usize],
    pub(crate) values: &'a [T],
    // The lists have the same length, and the indices are within bounds.
    ghost lists: { AreParts major_dim minor_dim majors.now minors.now values.now },
}
