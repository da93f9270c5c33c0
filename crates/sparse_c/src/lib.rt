//! Exact sparse matrices for programs in C: the calls of the static library.
#![tactic(auto)]

mod arguments;
mod assembly;
mod handles;
mod moduli;
mod operations;
mod status;
mod systems;
mod texts;
