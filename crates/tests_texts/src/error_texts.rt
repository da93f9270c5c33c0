//! Errors of texts, as users see them, that no text leads to: of a reader or a writer, and of an allocation.

use nalgebra_sparse::expr::ExprError;
use nalgebra_sparse::io::MatrixMarketError;
use nalgebra_sparse::ordered::error::OrderedFactorError;
use nalgebra_sparse::ordering::{PermutationError, PermuteError};
use std::alloc::{AllocError, Global};
use std::fmt::Display;
use std::io::{self, ErrorKind};

fn is_shown<E: Display + Drop>(alloc: Global, error: E, wanted: &str) -> bool {
    match format!(in alloc; "{error}") {
        Ok(text) => text.as_str() == wanted,
        Err(_refused) => false,
    }
}

const FAILED: &str = "Matrix Market error: IOError, message: The reader or writer failed.";

const NO_MEMORY: &str = "Matrix Market error: OutOfMemory, message: Out of memory.";

#[test]
fn errors_of_streams_and_of_memory(rt: HostRuntime) {
    let failed = MatrixMarketError::from(io::Error::from(ErrorKind::NotFound));
    assert!(rt; is_shown(rt.alloc(), failed, FAILED));
    assert!(rt; is_shown(rt.alloc(), MatrixMarketError::from(AllocError), NO_MEMORY));
}

#[test]
fn errors_of_an_allocation(rt: HostRuntime) {
    assert!(rt; is_shown(rt.alloc(), PermutationError::OutOfMemory, "Out of memory."));
    assert!(rt; is_shown(rt.alloc(), PermuteError::OutOfMemory, "Out of memory."));
    assert!(rt;
        is_shown(
            rt.alloc(),
            OrderedFactorError::OutOfMemory,
            "Out of memory."
        )
    );
    assert!(rt; is_shown(rt.alloc(), ExprError::OutOfMemory, "out of memory"));
}
