//! Variables by the hash of their lists.

use crate::vertices::Vertices;
use crate::words::{Word, at, filled, set};
use std::alloc::{AllocError, Global};

// More buckets than a pivot has variables would only take more of the cache.
const MOST_BUCKETS: usize = 1 << 12;

// A linked list of variables for each hash. The number of vertices ends a list. A variable in a bucket is in no list of
// degrees, so it is linked by the same fields: `next` has the next variable, and `previous` the bucket.
#[derive(Drop)]
pub(super) struct HashBuckets<W: Word> {
    vertex_count: usize,
    // The first variable of each bucket. The number of buckets is a power of two.
    heads: Vec<W>,
}

impl<W: Word> HashBuckets<W> {
    // Returns empty buckets.
    pub(super) fn new(alloc: Global, vertex_count: usize) -> Result<HashBuckets<W>, AllocError> {
        let bucket_count = power_of_two(vertex_count.min(MOST_BUCKETS));
        Ok(HashBuckets {
            vertex_count,
            heads: filled(alloc, bucket_count, vertex_count)?,
        })
    }

    // Puts a variable into the bucket of a hash, in front of the others.
    pub(super) fn insert(&mut self, vertices: &mut Vertices<W>, variable: usize, hash: usize) {
        let bucket = hash & self.heads.len().wrapping_sub(1);
        vertices.set_next(variable, at(&self.heads, bucket));
        vertices.set_previous(variable, bucket);
        set(&mut self.heads, bucket, variable);
    }

    // Empties a bucket. Returns the variable that was its first one, or the number of vertices.
    pub(super) fn take(&mut self, bucket: usize) -> usize {
        let first = at(&self.heads, bucket);
        set(&mut self.heads, bucket, self.vertex_count);
        first
    }
}

// Returns the least power of two that is at least `number`, or 2^63 if there is none.
fn power_of_two(number: usize) -> usize {
    let mut power: usize = 1;
    for _ in 1..usize::BITS {
        if number <= power {
            break;
        }
        power = power.wrapping_mul(2);
    }
    power
}
