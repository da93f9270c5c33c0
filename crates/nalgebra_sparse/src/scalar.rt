//! Scalars: commutative rings, and those whose inverses can be found.

pub use sparse_algebra::scalar::{Mod, Ring, Units, W32, W64, W128, Zero};
