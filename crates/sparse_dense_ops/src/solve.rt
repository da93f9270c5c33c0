//! The triangular solve.

mod backward;
mod column;
mod forward;
mod substitution;
mod triangular;

pub use triangular::spsolve_csc_lower_triangular;
