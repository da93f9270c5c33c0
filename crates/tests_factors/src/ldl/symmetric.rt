//! All symmetric matrices of three rows over rings with zero divisors.

use crate::ldl::compared::agree;
use sparse_algebra::scalar::Mod;
use sparse_coo_dense::dense::DMatrix;
use std::alloc::{AllocError, Global};

// The last digit of a number in base M, and the digits before it.
fn split<const M: u64>(number: u64) -> (Mod<M>, u64) {
    (Mod::new(number), number.checked_div(M).unwrap_or(0))
}

// The symmetric matrix whose entries on and above the diagonal are the last six digits of a number.
fn of_digits<const M: u64>(alloc: Global, number: u64) -> Result<DMatrix<Mod<M>>, AllocError> {
    let (a, rest) = split::<M>(number);
    let (b, rest) = split::<M>(rest);
    let (c, rest) = split::<M>(rest);
    let (d, rest) = split::<M>(rest);
    let (e, rest) = split::<M>(rest);
    let (f, _) = split::<M>(rest);
    DMatrix::from_column_slice(alloc, 3, 3, &[a, b, c, b, d, e, c, e, f])
}

// Whether the library and the slow program agree on the matrices of these numbers.
fn all_agree<const M: u64>(alloc: Global, first: u64, end: u64) -> bool {
    for number in first..end {
        if !agree(alloc, of_digits::<M>(alloc, number)) {
            return false;
        }
    }
    true
}

#[test]
fn all_modulo_four(rt: HostRuntime) {
    assert!(rt; all_agree::<4>(rt.alloc(), 0, 4096));
}

#[test]
fn first_half_modulo_six(rt: HostRuntime) {
    assert!(rt; all_agree::<6>(rt.alloc(), 0, 23328));
}

#[test]
fn second_half_modulo_six(rt: HostRuntime) {
    assert!(rt; all_agree::<6>(rt.alloc(), 23328, 46656));
}
