//! What `mtx rows` and `mtx cols` answer.

/// An expression, the lines of its files below their headers, and the lines that are written below the heading or the
/// line of a refusal.
pub type Case = (
    &'static str,
    &'static [&'static str],
    Result<&'static str, &'static str>,
);

const A: &str = "1 2 2\n1 1 2\n1 2 3\n";

const B: &str = "2 1 2\n1 1 3\n2 1 -2\n";

const F: &str = "2 2 3\n1 1 1\n1 2 2\n2 2 3\n";

/// What `mtx rows` answers.
pub const CASES: &[Case] = &[
    // One file by rows.
    (
        "1",
        &["2 3 4\n2 1 4\n1 3 5\n1 3 -5\n1 1 7\n"],
        Ok("2 3 3\n1 1 7\n1 3 0\n2 1 4\n"),
    ),
    ("1", &["0 0 0\n"], Ok("0 0 0\n")),
    (
        "1",
        &["2 2 3\n1 1 1\n1 2 2\n2 1 4\n"],
        Ok("2 2 3\n1 1 1\n1 2 2\n2 1 4\n"),
    ),
    (
        "1",
        &["% transposed about\n2 2 3\n2 1 4\n1 2 2\n1 1 1"],
        Ok("2 2 3\n1 1 1\n1 2 2\n2 1 4\n"),
    ),
    (
        "1",
        &["2 2 2\n2 2 -9223372036854775808\n1 1 9223372036854775807\n"],
        Ok("2 2 2\n1 1 9223372036854775807\n2 2 -9223372036854775808\n"),
    ),
    // Products.
    ("1 2 *", &[A, B], Ok("1 1 1\n1 1 0\n")),
    (
        "2 1 *",
        &[A, B],
        Ok("2 2 4\n1 1 6\n1 2 9\n2 1 -4\n2 2 -6\n"),
    ),
    ("1 1 *", &[F], Ok("2 2 3\n1 1 1\n1 2 8\n2 2 9\n")),
    (" 01  1 * ", &[F], Ok("2 2 3\n1 1 1\n1 2 8\n2 2 9\n")),
    (
        "1 1 *",
        &["1 1 1\n1 1 2147483648\n"],
        Ok("1 1 1\n1 1 4611686018427387904\n"),
    ),
    // Ten files.
    (
        "10 1 *",
        &[F, A, A, A, A, A, A, A, A, F],
        Ok("2 2 3\n1 1 1\n1 2 8\n2 2 9\n"),
    ),
    // Sums, differences, transposes and negations.
    ("1 t 1 -", &[F], Ok("2 2 4\n1 1 0\n1 2 -2\n2 1 2\n2 2 0\n")),
    ("1 2 t +", &[A, B], Ok("1 2 2\n1 1 5\n1 2 1\n")),
    ("1 t", &[A], Ok("2 1 2\n1 1 2\n2 1 3\n")),
    ("1 t t", &[A], Ok("1 2 2\n1 1 2\n1 2 3\n")),
    ("1 n", &[A], Ok("1 2 2\n1 1 -2\n1 2 -3\n")),
    (
        "1 2 * t n",
        &[B, A],
        Ok("2 2 4\n1 1 -6\n1 2 4\n2 1 -9\n2 2 6\n"),
    ),
    // Memory does not depend on the number of columns, and the offsets of 2^64 - 1 rows do not fit in memory.
    (
        "1",
        &["1 18446744073709551615 1\n1 18446744073709551615 3\n"],
        Ok("1 18446744073709551615 1\n1 18446744073709551615 3\n"),
    ),
    (
        "1",
        &["18446744073709551615 1 0\n"],
        Err("mtx: out of memory\n"),
    ),
    // Texts that are refused.
    ("1", &["1 1 1\n0 1 5"], Err("mtx: input 1: ZeroError\n")),
    (
        "1",
        &["2 2 2\n1 1 1\n"],
        Err("mtx: input 1: EntryMismatch\n"),
    ),
    (
        "1",
        &["1 1 1\n1 1 9223372036854775808"],
        Err("mtx: input 1: TypeMismatch\n"),
    ),
    (
        "1",
        &["1 1 1\n1 2 3"],
        Err("mtx: input 1: SparseFormatError\n"),
    ),
    (
        "1",
        &["1 1 1\n1 1 1.0"],
        Err("mtx: input 1: ParsingError\n"),
    ),
    ("1", &[""], Err("mtx: input 1: ParsingError\n")),
    (
        "1 2 *",
        &["1 1 0\n", "1 1 1\n"],
        Err("mtx: input 2: EntryMismatch\n"),
    ),
    // Expressions that are refused.
    ("1 1 *", &[A], Err("mtx: expression: shapes do not fit\n")),
    ("1 2 *", &[A], Err("mtx: expression: no such input\n")),
    ("2 1 1 * *", &[A], Err("mtx: expression: no such input\n")),
    (
        "1 1 * 2 *",
        &[A],
        Err("mtx: expression: shapes do not fit\n"),
    ),
    // The left operand comes first.
    (
        "1 1 * 2 +",
        &[A],
        Err("mtx: expression: shapes do not fit\n"),
    ),
    ("2 1 1 * +", &[A], Err("mtx: expression: no such input\n")),
    ("1 2 +", &[A], Err("mtx: expression: no such input\n")),
    ("1 +", &[A], Err("mtx: expression: operand missing\n")),
    ("0", &[A], Err("mtx: expression: unknown word\n")),
    ("1 x", &[A], Err("mtx: expression: unknown word\n")),
    ("+1", &[A], Err("mtx: expression: unknown word\n")),
    (
        "18446744073709551616",
        &[A],
        Err("mtx: expression: unknown word\n"),
    ),
    ("1 *", &[A], Err("mtx: expression: operand missing\n")),
    ("1 * x", &[A], Err("mtx: expression: operand missing\n")),
    ("", &[A], Err("mtx: expression: operand missing\n")),
    ("1 2", &[A], Err("mtx: expression: operands left over\n")),
];

/// What `mtx cols` answers.
pub const COLUMN_CASES: &[Case] = &[
    ("1 t 1 -", &[F], Ok("2 2 4\n1 1 0\n2 1 2\n1 2 -2\n2 2 0\n")),
    (
        "1",
        &["2 2 3\n1 1 1\n1 2 2\n2 1 4\n"],
        Ok("2 2 3\n1 1 1\n2 1 4\n1 2 2\n"),
    ),
    ("1 1 *", &[A], Err("mtx: expression: shapes do not fit\n")),
];
