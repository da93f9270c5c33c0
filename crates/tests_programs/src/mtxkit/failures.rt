//! The texts of failures.

use mtxkit_texts::{Coordinates, Dimensions, Failure, LineFault, Location, Pivot};
use sparse_parser::error::MatrixMarketErrorKind;
use std::alloc::Global;
use std::io;

const TEXTS: &[(Failure, &str)] = &[
    (
        Failure::Input(
            2,
            MatrixMarketErrorKind::EntryMismatch,
            Location {
                line: 3,
                fault: LineFault::Count(4, 5),
                word: None,
            },
        ),
        "4 entries expected, 5 found",
    ),
    (
        Failure::NotSupported(1),
        "real and complex values are not carried, only their pattern",
    ),
    (
        Failure::Wide(3),
        "a value or a sum of repeated entries does not fit in 64 bits",
    ),
    (
        Failure::Overflow(1),
        "a sum of repeated entries does not fit in 128 bits",
    ),
    (
        Failure::NotSquare(Dimensions { rows: 3, cols: 2 }),
        "not square: 3 by 2",
    ),
    (
        Failure::NotSymmetric(Coordinates { row: 1, col: 4 }),
        "not symmetric; row by row, the first value that differs from its mirror image is in row 2, column 5",
    ),
    (
        Failure::Shapes(
            Dimensions { rows: 3, cols: 2 },
            Dimensions { rows: 4, cols: 1 },
        ),
        "shapes do not fit: A is 3 by 2, B is 4 by 1",
    ),
    (
        Failure::ProductShapes(
            Dimensions { rows: 3, cols: 2 },
            Dimensions { rows: 4, cols: 1 },
            Dimensions { rows: 5, cols: 6 },
        ),
        "shapes do not fit: A is 3 by 2, X is 4 by 1, B is 5 by 6",
    ),
    (
        Failure::NoFactors(None, Pivot { number: 2, row: 6 }),
        "pivot 3, in row 7, has no inverse modulo 2^64; another --mod or --order may have one",
    ),
    (
        Failure::NoFactors(
            Some(7),
            Pivot {
                number: 0,
                row: 18446744073709551615,
            },
        ),
        "pivot 1, in row 18446744073709551616, has no inverse modulo 7; another --mod or --order may have one",
    ),
    (
        Failure::NotSolution(Coordinates { row: 0, col: 2 }),
        "A X is not B; row by row, the first value that differs is in row 1, column 3",
    ),
    (Failure::Modulus, "no such modulus; see mtxkit solve --help"),
    (Failure::Usage, "no command; see mtxkit --help"),
    (
        Failure::Write(io::ErrorKind::Other),
        "write failed: other error",
    ),
    (Failure::OutOfMemory, "out of memory"),
];

// Whether the failure is displayed as this text.
fn says(alloc: Global, failure: Failure, text: &str) -> bool {
    match format!(in alloc; "{failure}") {
        Ok(shown) => shown.as_str() == text,
        Err(_) => false,
    }
}

#[test]
fn failures_say_why(rt: HostRuntime) {
    for &(failure, text) in TEXTS {
        assert!(rt; says(rt.alloc(), failure, text));
    }
}
