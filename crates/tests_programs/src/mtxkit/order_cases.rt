//! What `mtxkit order`, `permute` and `fill` answer.

use crate::mtxkit::system_cases::SystemCase;

// Row and column 1 have an entry everywhere, and the others on row and column 1 alone.
const ARROW: &str = "4 4 7\n1 1 1\n1 2 2\n1 3 3\n1 4 4\n2 1 2\n3 1 3\n4 1 4\n";

const OBLONG: &str = "2 3 1\n1 3 5\n";

// The orders 2 1 and 4 3 2 1.
const EXCHANGED: &str = "2 1 2\n1 1 2\n2 1 1\n";

const REVERSED: &str = "4 1 4\n1 1 4\n2 1 3\n3 1 2\n4 1 1\n";

/// What `mtxkit order` answers, below its heading.
pub const ORDER_CASES: &[SystemCase] = &[
    // The hub comes last.
    (&["order"], &[ARROW], Ok("4 1\n4\n3\n2\n1\n")),
    (&["order", "amd"], &[ARROW], Ok("4 1\n4\n3\n2\n1\n")),
    // The hub lies next to the vertex that the search begins with.
    (&["order", "rcm"], &[ARROW], Ok("4 1\n4\n2\n1\n3\n")),
    (&["order"], &["0 0 0\n"], Ok("0 1\n")),
    (&["order"], &[OBLONG], Err("mtxkit: 0.mtx: not square\n")),
];

/// What `mtxkit permute` answers, below the heading of integers.
pub const PERMUTE_CASES: &[SystemCase] = &[
    (
        &["permute"],
        &[EXCHANGED, "2 2 3\n1 1 5\n1 2 6\n2 1 0\n"],
        Ok("2 2 3\n1 2 0\n2 1 6\n2 2 5\n"),
    ),
    (
        &["permute"],
        &[EXCHANGED, OBLONG],
        Err("mtxkit: 1.mtx: not square\n"),
    ),
    (
        &["permute"],
        &[EXCHANGED, "3 3 0\n"],
        Err("mtxkit: 0.mtx: the order has another length than the matrix\n"),
    ),
    (
        &["permute"],
        &["2 1 2\n1 1 2\n2 1 3\n", "2 2 0\n"],
        Err("mtxkit: 0.mtx: number 2 of the order is not from 1 to its length\n"),
    ),
    (
        &["permute"],
        &["2 1 2\n1 1 2\n2 1 2\n", "2 2 0\n"],
        Err("mtxkit: 0.mtx: number 2 of the order occurs before\n"),
    ),
    (
        &["permute"],
        &[OBLONG, "2 2 0\n"],
        Err("mtxkit: 0.mtx: an order is an array of one column\n"),
    ),
    // Both files are at fault.
    (
        &["permute"],
        &[OBLONG, OBLONG],
        Err("mtxkit: 0.mtx: an order is an array of one column\n"),
    ),
    (
        &["permute"],
        &["2 1 2\n2 1 2\n1 1 1\n", "2 2 0\n"],
        Err("mtxkit: 0.mtx: an order is an array of one column\n"),
    ),
];

// Each column of the factor is full: it subtracts 6, 3 and 1 products.
const FULL: &str = "places: 7
places of the lower triangle: 4
places of the factor: 10
fill: 6
factor to lower triangle: 2.50
multiplications: 10
longest column: 4
height of the elimination tree: 4
";

// The columns but the last one have one place, in the last row.
const NO_FILL: &str = "places: 7
places of the lower triangle: 4
places of the factor: 4
fill: 0
factor to lower triangle: 1.00
multiplications: 3
longest column: 1
height of the elimination tree: 2
";

/// What `mtxkit fill` answers.
pub const FILL_CASES: &[SystemCase] = &[
    (&["fill"], &[ARROW], Ok(FULL)),
    (&["fill", "--order", "natural"], &[ARROW], Ok(FULL)),
    (&["fill", "--order", "amd"], &[ARROW], Ok(NO_FILL)),
    (&["fill", "--order"], &[REVERSED, ARROW], Ok(NO_FILL)),
    (&["fill"], &[OBLONG], Err("mtxkit: 0.mtx: not square\n")),
    (
        &["fill", "--order"],
        &[EXCHANGED, OBLONG],
        Err("mtxkit: 1.mtx: not square\n"),
    ),
    // Both files are at fault.
    (
        &["fill", "--order"],
        &["2 1 2\n1 1 2\n2 1 2\n", OBLONG],
        Err("mtxkit: 0.mtx: number 2 of the order occurs before\n"),
    ),
];
