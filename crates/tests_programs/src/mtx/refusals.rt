//! Refusals of commands over an output that takes nothing.

const ONE: &[u8] = b"%%MatrixMarket matrix coordinate integer general\n1 1 1\n1 1 5\n";

const WIDE: &[u8] = b"%%MatrixMarket matrix coordinate integer general\n1 2 0\n";

const TALL: &[u8] = b"%%MatrixMarket matrix coordinate integer general\n18446744073709551615 1 0\n";

const ZERO_BASED: &[u8] = b"%%MatrixMarket matrix coordinate integer general\n1 1 1\n0 1 5\n";

const PATTERN: &[u8] = b"%%MatrixMarket matrix coordinate pattern general\n1 1 1\n1 1\n";

const OBLONG: &[u8] = b"%%MatrixMarket matrix coordinate pattern general\n2 3 1\n1 2\n";

const ARRAY: &[u8] = b"%%MatrixMarket matrix array pattern general\n1 1\n5\n";

const NO_TEXT: &[u8] = &[0xff, 0xfe];

/// The line of wrong usage.
pub const USAGE: &str =
    "usage: mtx rows EXPR FILE.. | mtx cols EXPR FILE.. | mtx fill [upper|lower|both] FILE\n";

/// Words, the files after them, and the line and the status of a refusal.
pub type Refusal = (
    &'static [&'static str],
    &'static [&'static [u8]],
    &'static str,
    u8,
);

/// What commands answer over an output that takes nothing.
pub const REFUSALS: &[Refusal] = &[
    (
        &["rows", "1 x"],
        &[ONE],
        "mtx: expression: unknown word\n",
        1,
    ),
    (
        &["rows", "1 *"],
        &[ONE],
        "mtx: expression: operand missing\n",
        1,
    ),
    (
        &["rows", "1 1"],
        &[ONE],
        "mtx: expression: operands left over\n",
        1,
    ),
    (
        &["rows", "2"],
        &[ONE],
        "mtx: expression: no such input\n",
        1,
    ),
    (
        &["cols", "1 1 *"],
        &[WIDE],
        "mtx: expression: shapes do not fit\n",
        1,
    ),
    (
        &["rows", "2"],
        &[ONE, ZERO_BASED],
        "mtx: input 2: ZeroError\n",
        1,
    ),
    (&["rows", "1"], &[ARRAY], "mtx: input 1: InvalidHeader\n", 1),
    (
        &["rows", "1", "/no/such/file.mtx"],
        &[],
        "mtx: input 1: IOError\n",
        1,
    ),
    (
        &["cols", "1"],
        &[ONE, NO_TEXT],
        "mtx: input 2: IOError\n",
        1,
    ),
    // All files are read before a text is.
    (
        &["rows", "1"],
        &[ZERO_BASED, NO_TEXT],
        "mtx: input 2: IOError\n",
        1,
    ),
    (
        &["cols", "2"],
        &[ZERO_BASED, ONE, NO_TEXT],
        "mtx: input 3: IOError\n",
        1,
    ),
    // The expression is read before the files.
    (
        &["rows", "x"],
        &[NO_TEXT],
        "mtx: expression: unknown word\n",
        1,
    ),
    (&["cols", "1"], &[ONE], "mtx: write failed\n", 1),
    (&["fill"], &[PATTERN], "mtx: write failed\n", 1),
    (&["rows", "1"], &[TALL], "mtx: out of memory\n", 1),
    (&["fill"], &[OBLONG], "mtx: not square\n", 1),
    (&["fill"], &[NO_TEXT], "mtx: input 1: IOError\n", 1),
    (&[], &[], USAGE, 2),
    (&["rows"], &[], USAGE, 2),
    (&["cols"], &[], USAGE, 2),
    (&["rows", "1"], &[], USAGE, 2),
    (&["cols", "1"], &[], USAGE, 2),
    (&["lines", "1"], &[ONE], USAGE, 2),
    (&["fill"], &[], USAGE, 2),
    (&["fill"], &[PATTERN, PATTERN], USAGE, 2),
    (&["fill", "upper"], &[PATTERN], "mtx: write failed\n", 1),
    // One argument is the file, whatever its name.
    (&["fill", "lower"], &[], "mtx: input 1: IOError\n", 1),
    (&["fill", "Lower"], &[PATTERN], USAGE, 2),
    (&["fill", ""], &[PATTERN], USAGE, 2),
    (&["fill", "both"], &[PATTERN, PATTERN], USAGE, 2),
];
