//! Tests of the commands of `mtx` and of `mtxkit`: what they write, and the status that they answer.
#![tactic(auto)]

#[cfg(test)]
mod decimals;
#[cfg(test)]
mod files;
#[cfg(test)]
mod mtx;
#[cfg(test)]
mod mtxkit;
