//! What `mtxkit solve` and `mtxkit check` answer.

/// The words before the files, the lines of the files below their headers, and the lines that are written below the
/// heading, or the line of an error.
pub type SystemCase = (
    &'static [&'static str],
    &'static [&'static str],
    Result<&'static str, &'static str>,
);

// The matrix 1 2 / 2 7.
const A: &str = "2 2 4\n1 1 1\n1 2 2\n2 1 2\n2 2 7\n";

// The matrix 2 1 / 1 1.
const TWICE: &str = "2 2 4\n1 1 2\n1 2 1\n2 1 1\n2 2 1\n";

// The matrix 3 1 0 / 1 4 0 / 0 0 0.
const LATE: &str = "3 3 4\n1 1 3\n1 2 1\n2 1 1\n2 2 4\n";

// The matrix 1 0 1 0 / 0 1 1 1 / 1 1 1 0 / 0 1 0 1, whose rows are on a path in the order 1, 3, 2, 4.
const PATH: &str = "4 4 10\n1 1 1\n2 2 1\n3 3 1\n4 4 1\n1 3 1\n3 1 1\n2 3 1\n3 2 1\n2 4 1\n4 2 1\n";

// The matrix 2 1 1 1 / 1 1 0 0 / 1 0 1 0 / 1 0 0 1.
const STAR: &str = "4 4 10\n1 1 2\n1 2 1\n1 3 1\n1 4 1\n2 1 1\n3 1 1\n4 1 1\n2 2 1\n3 3 1\n4 4 1\n";

/// What `mtxkit solve` answers.
pub const SOLVE_CASES: &[SystemCase] = &[
    (
        &["solve"],
        &[A, "2 1 2\n1 1 5\n2 1 16\n"],
        Ok("2 1 2\n1 1 1\n2 1 2\n"),
    ),
    // The pivot 2 has no inverse modulo 2^64.
    (
        &["solve", "--order", "natural"],
        &[TWICE, "2 1 1\n2 1 6\n"],
        Err(
            "mtxkit: 0.mtx: pivot 1, in row 1, has no inverse modulo 2^64; another --mod or --order may have one\n",
        ),
    ),
    // The second pivot is 4 - 1 / 3, which is -1 modulo 7, and the third one is 0.
    (
        &["solve", "--order", "natural", "--mod", "7"],
        &[LATE, "3 1 0\n"],
        Err(
            "mtxkit: 0.mtx: pivot 3, in row 3, has no inverse modulo 7; another --mod or --order may have one\n",
        ),
    ),
    // Reverse Cuthill-McKee takes row 3 after row 1.
    (
        &["solve", "--order", "rcm"],
        &[PATH, "4 1 0\n"],
        Err(
            "mtxkit: 0.mtx: pivot 2, in row 3, has no inverse modulo 2^64; another --mod or --order may have one\n",
        ),
    ),
    // The pivot of the centre of a star is 2 at first, and -1 after the others.
    (
        &["solve", "--order", "natural"],
        &[STAR, "4 1 1\n1 1 1\n"],
        Err(
            "mtxkit: 0.mtx: pivot 1, in row 1, has no inverse modulo 2^64; another --mod or --order may have one\n",
        ),
    ),
    (
        &["solve"],
        &[STAR, "4 1 1\n1 1 1\n"],
        Ok("4 1 4\n1 1 -1\n2 1 1\n3 1 1\n4 1 1\n"),
    ),
    (
        &["solve", "--order", "amd"],
        &[STAR, "4 1 1\n1 1 1\n"],
        Ok("4 1 4\n1 1 -1\n2 1 1\n3 1 1\n4 1 1\n"),
    ),
    (
        &["solve", "--mod", "7"],
        &[TWICE, "2 1 1\n2 1 6\n"],
        Ok("2 1 2\n1 1 1\n2 1 5\n"),
    ),
    // The same classes modulo 7.
    (
        &["solve", "--mod", "7"],
        &[TWICE, "2 1 2\n1 1 -7\n2 1 -1\n"],
        Ok("2 1 2\n1 1 1\n2 1 5\n"),
    ),
    // 2^64 is 79 modulo 101, and the sum of the two entries is 80.
    (
        &["solve", "--mod", "101"],
        &["1 1 1\n1 1 1\n", "1 1 2\n1 1 18446744073709551616\n1 1 1\n"],
        Ok("1 1 1\n1 1 80\n"),
    ),
    // The first pivot is zero.
    (
        &["solve", "--order", "natural", "--mod", "13"],
        &["2 2 2\n1 2 1\n2 1 1\n", "2 1 0\n"],
        Err(
            "mtxkit: 0.mtx: pivot 1, in row 1, has no inverse modulo 13; another --mod or --order may have one\n",
        ),
    ),
    // The values at (2, 3) and (3, 2) differ, and those at (1, 3) and (3, 1) are the same modulo 7.
    (
        &["solve", "--mod", "7"],
        &["3 3 4\n1 3 1\n3 1 8\n2 3 2\n3 2 3\n", "3 1 0\n"],
        Err(
            "mtxkit: 0.mtx: not symmetric; row by row, the first value that differs from its mirror image is in row 2, column 3\n",
        ),
    ),
    (
        &["solve"],
        &["3 3 4\n1 3 1\n3 1 8\n2 3 2\n3 2 3\n", "3 1 0\n"],
        Err(
            "mtxkit: 0.mtx: not symmetric; row by row, the first value that differs from its mirror image is in row 1, column 3\n",
        ),
    ),
    (
        &["solve"],
        &[A, "3 1 0\n"],
        Err("mtxkit: 0.mtx, 1.mtx: shapes do not fit: A is 2 by 2, B is 3 by 1\n"),
    ),
    (
        &["solve"],
        &["2 3 2\n1 1 1\n2 2 1\n", "2 1 0\n"],
        Err("mtxkit: 0.mtx, 1.mtx: shapes do not fit: A is 2 by 3, B is 2 by 1\n"),
    ),
    // Column by column, each from the top, without zeros.
    (
        &["solve"],
        &[
            "2 2 2\n1 1 1\n2 2 1\n",
            "2 3 5\n2 3 6\n1 3 5\n2 1 4\n1 1 1\n1 1 -1\n",
        ],
        Ok("2 3 3\n2 1 4\n1 3 5\n2 3 6\n"),
    ),
    (
        &["solve"],
        &[A, "2 1 1\n0 1 5\n"],
        Err("mtxkit: 1.mtx:3: row index 0; indices count from 1\n"),
    ),
];

/// What `mtxkit check` answers.
pub const CHECK_CASES: &[SystemCase] = &[
    (
        &["check"],
        &[A, "2 1 2\n1 1 1\n2 1 2\n", "2 1 2\n1 1 5\n2 1 16\n"],
        Ok("A X = B\n"),
    ),
    (
        &["check"],
        &[A, "2 1 2\n1 1 1\n2 1 2\n", "2 1 2\n1 1 5\n2 1 9\n"],
        Err(
            "mtxkit: 0.mtx, 1.mtx, 2.mtx: A X is not B; row by row, the first value that differs is in row 2, column 1\n",
        ),
    ),
    (
        &["check", "--mod", "7"],
        &[A, "2 1 2\n1 1 1\n2 1 2\n", "2 1 2\n1 1 5\n2 1 9\n"],
        Ok("A X = B\n"),
    ),
    (
        &["check"],
        &[A, "2 1 0\n", "1 1 0\n"],
        Err(
            "mtxkit: 0.mtx, 1.mtx, 2.mtx: shapes do not fit: A is 2 by 2, X is 2 by 1, B is 1 by 1\n",
        ),
    ),
    (
        &["check"],
        &[A, "2 1 x\n", "2 1 0\n"],
        Err(
            "mtxkit: 1.mtx:2: 'x' is no size; expected rows, columns and, in the format coordinate, entries\n",
        ),
    ),
    (
        &["check"],
        &[A, "2 1 0\n", "2 1 x\n"],
        Err(
            "mtxkit: 2.mtx:2: 'x' is no size; expected rows, columns and, in the format coordinate, entries\n",
        ),
    ),
];
