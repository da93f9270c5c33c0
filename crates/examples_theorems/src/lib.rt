//! Theorems of users: functions over the library's calls, each with a contract of its own that follows from the
//! library's, and the functions of README.md and docs/TUTORIAL.md, whose contracts no run can test.
#![tactic(auto)]

#[cfg(test)]
mod assembly;
#[cfg(test)]
mod blocks;
#[cfg(test)]
mod converter;
#[cfg(test)]
mod determinant;
#[cfg(test)]
mod dual;
#[cfg(test)]
mod elements;
#[cfg(test)]
mod example;
mod parts;
#[cfg(test)]
mod programs;
#[cfg(test)]
mod reach;
#[cfg(test)]
mod rings;
#[cfg(test)]
mod solution;
#[cfg(test)]
mod symmetric;
#[cfg(test)]
mod tutorial;
