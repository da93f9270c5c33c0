//! Offsets and destinations of keys, with counts of both widths.

use crate::fixtures::are_equal;
use sparse_pattern::counting::{counts_to_offsets, key_offsets, next_destination};
use std::alloc::{AllocError, Global};

// The offsets of the keys 2, 0, 2 and 1.
const OFFSETS: &[usize] = &[0, 1, 2, 4, 4];

// Whether offsets and cursors were made, and are those of these keys.
fn are_counted<C: PartialEq + Drop>(
    made: Result<(Vec<usize>, Vec<C>), AllocError>,
    want: &[C],
) -> bool {
    match made {
        Ok((offsets, cursors)) => are_equal(&offsets, OFFSETS) && are_equal(&cursors, want),
        Err(_error) => false,
    }
}

fn counts_of_32_bits(alloc: Global) -> bool {
    are_counted(key_offsets::<u32>(alloc, &[2, 0, 2, 1], 4), &[0, 1, 2, 4])
}

fn counts_of_any_size(alloc: Global) -> bool {
    are_counted(key_offsets::<usize>(alloc, &[2, 0, 2, 1], 4), &[0, 1, 2, 4])
}

fn counts_become_offsets(alloc: Global) -> bool {
    match Vec::from_slice(alloc, &[1_u32, 1, 2, 0]) {
        Ok(counts) => are_counted(counts_to_offsets(alloc, counts), &[0, 1, 2, 4]),
        Err(_error) => false,
    }
}

fn equal_keys_keep_their_order(alloc: Global) -> bool {
    let keys = [1, 0, 1];
    match key_offsets::<u32>(alloc, &keys, 2) {
        Ok((_, mut cursors)) => {
            let first = next_destination(&keys, 0, &mut cursors);
            let second = next_destination(&keys, 1, &mut cursors);
            let third = next_destination(&keys, 2, &mut cursors);
            first == 1 && second == 0 && third == 2
        }
        Err(_error) => false,
    }
}

// Only a list of 2^32 triplets is counted by `usize`, which is too long for a test.
fn wide_counts_keep_the_order_of_equal_keys(alloc: Global) -> bool {
    let keys = [1, 0, 1];
    match key_offsets::<usize>(alloc, &keys, 2) {
        Ok((_, mut cursors)) => {
            let first = next_destination(&keys, 0, &mut cursors);
            let second = next_destination(&keys, 1, &mut cursors);
            let third = next_destination(&keys, 2, &mut cursors);
            first == 1 && second == 0 && third == 2
        }
        Err(_error) => false,
    }
}

#[test]
fn keys_are_counted_and_placed(rt: HostRuntime) {
    assert!(rt; counts_of_32_bits(rt.alloc()));
    assert!(rt; counts_of_any_size(rt.alloc()));
    assert!(rt; counts_become_offsets(rt.alloc()));
    assert!(rt; equal_keys_keep_their_order(rt.alloc()));
    assert!(rt; wide_counts_keep_the_order_of_equal_keys(rt.alloc()));
}
