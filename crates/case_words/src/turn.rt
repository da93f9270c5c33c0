//! Idle requests for memory, before and after a call.

use std::alloc::{AllocError, Global};

/// The allocator of a call, and the numbers of idle requests that are made before and after the call.
///
/// Where a fixed request of the program is refused, these numbers decide which request of the call that is. A row is
/// read, and its operands are made, before [`Turn::begin`].
#[derive(Drop)]
pub struct Turn {
    alloc: Global,
    before: usize,
    after: usize,
    refused: Option<usize>,
}

impl Turn {
    /// Returns a turn with these numbers of idle requests.
    pub fn new(alloc: Global, before: usize, after: usize) -> Turn {
        Turn {
            alloc,
            before,
            after,
            refused: None,
        }
    }

    /// Returns the allocator.
    pub fn alloc(&self) -> Global {
        self.alloc
    }

    /// Makes the idle requests before the call. The operands are ready.
    pub fn begin(&mut self) {
        let refused = refused_request(self.alloc, self.before);
        self.refused = refused;
    }

    /// Makes the idle requests after the call, and returns its answer.
    pub fn end<A>(&mut self, answer: A) -> A {
        if self.refused.is_none() {
            let refused = refused_request(self.alloc, self.after);
            self.refused = refused;
        }
        answer
    }

    /// Returns which idle request was refused, counted from 0.
    pub fn refused(&self) -> Option<usize> {
        self.refused
    }
}

// Makes requests for one byte each, and frees it. Returns the number of the request that was refused.
fn refused_request(alloc: Global, count: usize) -> Option<usize> {
    for number in 0..count {
        let one: Result<Vec<u8>, AllocError> = Vec::with_capacity(alloc, 1);
        if one.is_err() {
            return Some(number);
        }
    }
    None
}
