//! A long text that is written and read.

use crate::matrices::antidiagonal;
use sparse_algebra::scalar::W64;
use sparse_coo_dense::coo::CooMatrix;
use sparse_io::{
    Out, load_coo_from_matrix_market_str, save_to_matrix_market, save_to_matrix_market_str,
};
use std::alloc::Global;

/// The bytes of the writer's buffer.
pub const CAPACITY: usize = 64 * 1024;

// Whether a writer is given this text of the list.
fn saves(alloc: Global, matrix: &CooMatrix<W64>, text: &str) -> bool {
    let mut out = Out::new(Vec::new(alloc));
    save_to_matrix_market(alloc, &mut out, matrix).is_ok()
        && out.into_inner().as_slice() == text.as_bytes()
}

// Whether a text means this list.
fn is_read(alloc: Global, text: &str, matrix: &CooMatrix<W64>) -> bool {
    match load_coo_from_matrix_market_str::<W64>(alloc, text) {
        Ok(again) => again == *matrix,
        Err(_) => false,
    }
}

// Whether a matrix is written as a long text, the same to a writer, and read from it again.
fn is_kept(alloc: Global, matrix: &CooMatrix<W64>) -> bool {
    let Ok(text) = save_to_matrix_market_str(alloc, matrix) else {
        return false;
    };
    text.len() > 3 * CAPACITY
        && saves(alloc, matrix, text.as_str())
        && is_read(alloc, text.as_str(), matrix)
}

#[test]
fn writes_and_reads_a_text_longer_than_the_buffer(rt: HostRuntime) {
    let matrix = antidiagonal(rt.alloc(), 20000);
    assert!(rt; matrix.is_ok_and(|matrix| is_kept(rt.alloc(), &matrix)));
}
