//! Orders of the rows and columns of a symmetric matrix that reduce the fill or the bandwidth of its factors.
#![tactic(auto)]

mod adjacency;
mod breadth_first;
mod degree_lists;
pub mod minimum_degree;
mod postorder;
pub mod reverse_cuthill_mckee;
mod tested_order;
mod vertices;
pub mod words;
