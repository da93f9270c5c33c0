//! The error of a matrix whose allocation failed. In rows it is the same word as other allocation failures.

use sparse_pattern::error::{SparseFormatError, SparseFormatErrorKind};
use std::alloc::{AllocError, Global};

fn is_shown(alloc: Global, error: &SparseFormatError) -> bool {
    match format!(in alloc; "{error}") {
        Ok(text) => text.as_str() == "Out of memory.",
        Err(_refused) => false,
    }
}

#[test]
fn the_text_of_a_failed_allocation(rt: HostRuntime) {
    let error = SparseFormatError::from(AllocError);
    assert!(rt; matches!(error.kind(), SparseFormatErrorKind::OutOfMemory));
    assert!(rt; error.message() == "Out of memory.");
    assert!(rt; is_shown(rt.alloc(), &error));
}
