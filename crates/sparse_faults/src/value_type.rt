//! The types that the values of a text are read as.

/// The type that the values of a text are read as.
#[derive(Clone, Copy)]
pub enum ValueType {
    /// Integers of 128 bits. The negative of the least one does not fit.
    Wide,
    /// Integers of 64 bits with arithmetic modulo 2^64, in which the least one is its own negative.
    Wrapping,
    /// No values: the entries of a pattern.
    Nothing,
}
