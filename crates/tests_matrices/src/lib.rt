//! Tests of lists and matrices that rows of `cases` can't hold: plain integers, values that are dropped, iterators,
//! growth within reserved memory, counting by keys, the text of an allocation failure, generated texts, sizes at which a
//! call could take too much time, and inverses by trial.
#![tactic(auto)]

#[cfg(test)]
mod allocation_error;
#[cfg(test)]
mod callers;
#[cfg(test)]
mod constructor_drops;
#[cfg(test)]
mod counting;
#[cfg(test)]
mod drops;
#[cfg(test)]
mod filter;
#[cfg(test)]
mod fixtures;
#[cfg(test)]
mod growth;
#[cfg(test)]
mod iterators;
#[cfg(test)]
mod json_texts;
#[cfg(test)]
mod plain_integers;
#[cfg(test)]
mod sizes;
#[cfg(test)]
mod steps;
#[cfg(test)]
mod units;
