//! What a matrix has at a row and a column: a stored entry, or zero.

ghost use Rattle.std.specs.Prelude.{◌≡◌};
ghost use Rattle.sparse_pattern.specs.SparseEntries.{entry_value, entry_mut_value, entry_of_found};

use sparse_algebra::scalar::Zero;

/// What a matrix has at a row and a column: a stored entry, or zero.
#[derive(Debug, PartialEq, Eq, Drop)]
pub enum SparseEntry<'a, T> {
    /// An entry is stored. Its value may be zero.
    NonZero(&'a T),
    /// No entry is stored.
    Zero,
}

impl<'a, T: Zero + Copy> SparseEntry<'a, T> {
    /// Returns the stored value, or zero if no entry is stored.
    pub fn into_value(self) -> T
        ensures { result ≡ entry_value T.zero_value self.entry }
    {
        match self {
            SparseEntry::NonZero(value) => *value,
            SparseEntry::Zero => T::zero(),
        }
    }
}

/// What a matrix has at a row and a column: a stored entry, its value borrowed mutably, or zero.
#[derive(Drop)]
pub enum SparseEntryMut<'a, T> {
    /// An entry is stored. Its value may be zero.
    NonZero(&'a mut T),
    /// No entry is stored.
    Zero,
}

impl<'a, T: Zero + Copy> SparseEntryMut<'a, T> {
    /// Returns the stored value, or zero if no entry is stored.
    pub fn into_value(self) -> T
        ensures { result ≡ entry_mut_value T.zero_value self.entry }
    {
        match self {
            SparseEntryMut::NonZero(value) => *value,
            SparseEntryMut::Zero => T::zero(),
        }
    }
}

/// The result of looking up a pair of indices: the value, borrowed mutably, or the reason why there is none.
#[derive(Drop)]
pub enum Found<'a, T> {
    /// The stored value.
    Value(&'a mut T),
    /// No value is stored at the pair.
    Nothing(Missing),
}

/// The reason why there is no value at a pair of indices.
#[derive(Debug, Clone, Copy, PartialEq, Eq)]
pub enum Missing {
    /// The pair is out of bounds.
    OutOfBounds,
    /// The pair is within bounds but not stored.
    NotStored,
}

/// Returns the result of a look-up as a [`SparseEntryMut`], or `None` if the pair is out of bounds.
pub fn into_entry<'a, T>(found: Found<'a, T>) -> Option<SparseEntryMut<'a, T>>
    ensures { result ≡ entry_of_found found.entry }
{
    match found {
        Found::Value(value) => Some(SparseEntryMut::NonZero(value)),
        Found::Nothing(Missing::NotStored) => Some(SparseEntryMut::Zero),
        Found::Nothing(Missing::OutOfBounds) => None,
    }
}
