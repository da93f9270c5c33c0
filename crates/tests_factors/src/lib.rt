//! Tests of the symbolic factor and of exact factorisations, and tests that compare the libraries with the slow
//! programs of `reference_models` on generated inputs.
#![tactic(auto)]

#[cfg(test)]
mod compared_factors;
#[cfg(test)]
mod counted_factors;
#[cfg(test)]
mod generated;
#[cfg(test)]
mod large_factors;
#[cfg(test)]
mod ldl;
#[cfg(test)]
mod patterns;
#[cfg(test)]
mod square_patterns;
#[cfg(test)]
mod sums_and_products;
