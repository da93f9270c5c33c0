//! What `mtxkit eval` answers.

use crate::mtxkit::system_cases::SystemCase;

// The matrix 1 2 0 / 0 3 4.
const WIDER: &str = "2 3 4\n1 1 1\n1 2 2\n2 2 3\n2 3 4\n";

// The matrix 1 0 / 0 2^32.
const DIAGONAL: &str = "2 2 2\n1 1 1\n2 2 4294967296\n";

// The matrix 2^40.
const LARGE: &str = "1 1 1\n1 1 1099511627776\n";

// The matrix 2^64.
const LARGER: &str = "1 1 1\n1 1 18446744073709551616\n";

/// What `mtxkit eval` answers.
pub const EVAL_CASES: &[SystemCase] = &[
    (
        &["eval", "1 1 t *"],
        &[WIDER],
        Ok("2 2 4\n1 1 5\n1 2 6\n2 1 6\n2 2 25\n"),
    ),
    (
        &["eval", "--columns", "1 n"],
        &[WIDER],
        Ok("2 3 4\n1 1 -1\n1 2 -2\n2 2 -3\n2 3 -4\n"),
    ),
    (
        &["eval", "--columns", "1"],
        &["2 2 3\n1 1 1\n1 2 2\n2 1 3\n"],
        Ok("2 2 3\n1 1 1\n2 1 3\n1 2 2\n"),
    ),
    (
        &["eval", "--rows", "2 1 -"],
        &["1 1 2\n1 1 1\n1 1 1\n", "1 1 1\n1 1 7\n"],
        Ok("1 1 1\n1 1 5\n"),
    ),
    // 2^80 - 2^80: the intermediate values have more than 64 bits.
    (
        &["eval", "1 1 * 2 -"],
        &[LARGE, "1 1 1\n1 1 1208925819614629174706176\n"],
        Ok("1 1 1\n1 1 0\n"),
    ),
    (
        &["eval", "1 n 2 -"],
        &["1 1 1\n1 1 9223372036854775807\n", "1 1 1\n1 1 1\n"],
        Ok("1 1 1\n1 1 -9223372036854775808\n"),
    ),
    (
        &["eval", "1 2 +"],
        &["1 1 1\n1 1 9223372036854775807\n", "1 1 1\n1 1 1\n"],
        Err("mtxkit: row 1, column 1: the value does not fit in 64 bits\n"),
    ),
    // 2^64 is 0 modulo 2^64.
    (
        &["eval", "1 1 *"],
        &[DIAGONAL],
        Err("mtxkit: row 2, column 2: the value does not fit in 64 bits\n"),
    ),
    // 2^128 - 2^128: the bound of each product is too large.
    (
        &["eval", "1 1 * 1 1 * -"],
        &[LARGER],
        Err("mtxkit: a value may not fit in 128 bits\n"),
    ),
    // The product of a matrix without columns and one without rows has no entries, and the bound 0.
    (
        &["eval", "1 2 * 3 *"],
        &["1 0 0\n", "0 1 0\n", LARGER],
        Ok("1 1 0\n"),
    ),
    (
        &["eval", "--mod", "7", "1 1 * 2 n +"],
        &["1 1 1\n1 1 3\n", "1 1 1\n1 1 10\n"],
        Ok("1 1 1\n1 1 6\n"),
    ),
    // 2^128 modulo 1000000007.
    (
        &["eval", "--mod", "1000000007", "1 1 *"],
        &[LARGER],
        Ok("1 1 1\n1 1 279632277\n"),
    ),
    (
        &["eval", "1 +"],
        &[WIDER],
        Err("mtxkit: expression: operand missing\n"),
    ),
    (
        &["eval", "1 x"],
        &[WIDER],
        Err("mtxkit: expression: unknown word\n"),
    ),
    (
        &["eval", "1 2"],
        &[WIDER, WIDER],
        Err("mtxkit: expression: operands left over\n"),
    ),
    (
        &["eval", "2"],
        &[WIDER],
        Err("mtxkit: expression: no such input\n"),
    ),
    (
        &["eval", "--mod", "2", "1 1 *"],
        &[WIDER],
        Err("mtxkit: expression: shapes do not fit\n"),
    ),
];
