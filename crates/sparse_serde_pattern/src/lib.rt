//! The data struct of a pattern. `sparse_pattern` needs it alone, so it has a crate of its own, below that of the data
//! structs of matrices.
#![tactic(auto)]

use serde::{Deserialize, Serialize};

/// The shape and the arrays of a `SparsityPattern`, unchecked.
#[derive(Debug, Drop, PartialEq, Eq, Serialize, Deserialize)]
#[serde(deny_unknown_fields)]
pub struct PatternData {
    /// The number of lanes.
    pub major_dim: usize,
    /// The number of possible minor indices.
    pub minor_dim: usize,
    /// The offset of the first index of each lane, followed by the number of indices.
    pub major_offsets: Vec<usize>,
    /// The minor indices of all lanes, lane by lane.
    pub minor_indices: Vec<usize>,
}
