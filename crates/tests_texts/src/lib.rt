//! Tests of hostile and of long Matrix Market texts, of files, of byte sinks, of errors that no text leads to, and of
//! expressions beside slow programs.
#![tactic(auto)]

#[cfg(test)]
mod error_texts;
#[cfg(test)]
mod expressions;
#[cfg(test)]
mod failing_writers;
#[cfg(test)]
mod files;
#[cfg(test)]
mod hostile;
#[cfg(test)]
mod matrices;
#[cfg(test)]
mod sinks;
#[cfg(test)]
mod writing;
