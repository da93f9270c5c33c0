//! Tests that cross crates, through the public paths of `nalgebra_sparse` alone.
#![tactic(auto)]

#[cfg(test)]
mod bit;
#[cfg(test)]
mod bits;
#[cfg(test)]
mod counting;
#[cfg(test)]
mod label;
mod residue7;
#[cfg(test)]
mod residues;
#[cfg(test)]
mod solving;
