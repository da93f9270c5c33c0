//! Tests of permuted patterns, and of the orders that reduce fill or bandwidth.
#![tactic(auto)]

#[cfg(test)]
mod counts;
#[cfg(test)]
mod narrow;
#[cfg(test)]
mod orders;
#[cfg(test)]
mod permuted_patterns;
#[cfg(test)]
mod shapes;
