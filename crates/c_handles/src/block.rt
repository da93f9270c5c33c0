//! The memory that a handle owns: a heap block, or none.

ghost use Rattle.std.specs.Prelude.{◌≡◌, MatchOption, Option, None, Some};
ghost use Rattle.std.specs.Coded.{coded_option};
ghost use Rattle.c_handles.specs.Owned.{in_block, owns_at, value_of};

use std::alloc::Global;
use std::marker::Model;
use std::ptr;

/// An owned heap block: the address of its value, with the right to free the block.
pub(crate) struct Block<T> {
    at: *mut T,
    pub ghost value: { T },
}

impl<T> Model for Block<T> {
    ghost also_owns = { λ b. in_block T.row b.at b.value };
}

impl<T: Drop> Block<T> {
    /// Converts a box to the block that it owns.
    pub(crate) fn of(boxed: Box<T>) -> Block<T>
        ensures { result.value ≡ boxed.value }
    {
        let at = Box::into_raw(boxed);
        Block { at }
    }

    /// Converts the block back to a box.
    fn into_box(self, alloc: Global) -> Box<T>
        ensures { result.value ≡ self.value }
    {
        let Block { at } = self;
        unsafe { Box::from_raw(alloc, at) }
    }
}

/// The address of an owned heap block, or null.
pub struct Held<T> {
    pub(crate) at: *mut T,
    pub ghost value: { Option T } by { coded_option T.code },
}

impl<T> Model for Held<T> {
    ghost also_owns = { λ h. owns_at T.row h.at h.value };
}

impl<T> Held<T> {
    /// Returns null.
    pub(crate) fn empty() -> Held<T>
        ensures { result.value ≡ None }
    {
        Held {
            at: ptr::null_mut(),
        }
    }

    /// Returns the address of a block.
    pub(crate) fn of(block: Block<T>) -> Held<T>
        ensures { result.value ≡ Some block.value }
    {
        let Block { at } = block;
        Held { at }
    }

    // Returns the block, or `None` if there is none.
    fn into_block(self) -> Option<Block<T>>
        ensures { MatchOption result (self.value ≡ None) (λ b. self.value ≡ Some b.value) }
    {
        let Held { at } = self;
        if at.is_null() {
            return None;
        }
        Some(Block { at })
    }
}

impl<T: Drop> Held<T> {
    /// Returns a box with the value of the block, or `None` if there is no block.
    pub(crate) fn into_box(self, alloc: Global) -> Option<Box<T>>
        ensures { value_of result ≡ self.value }
    {
        match self.into_block() {
            None => None,
            Some(block) => Some(block.into_box(alloc)),
        }
    }

    /// Frees the block and drops its value, if there is one.
    pub(crate) fn discard(self, alloc: Global) {
        if let Some(boxed) = self.into_box(alloc) {
            drop(boxed);
        }
    }
}
