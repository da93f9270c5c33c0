//! Refusals of commands over an output that takes nothing.

/// The words after the program's name, the bytes on standard input, the status, and the first line on standard error.
pub type Refusal = (&'static [&'static str], &'static [u8], u8, &'static str);

const ONE: &[u8] = b"%%MatrixMarket matrix coordinate integer general\n1 1 1\n1 1 5\n";

const REAL: &[u8] = b"%%MatrixMarket matrix coordinate real general\n1 1 1\n1 1 5.5\n";

const NOT_CARRIED: &str =
    "mtxkit: -: real and complex values are not carried, only their pattern\n";

// A program that writes to a pipe without a reader ends without a line, with the status that a shell shows for SIGPIPE.
const STOPPED: u8 = 141;

const NO_FILE: &str = "mtxkit: /no/such/file: No such file or directory (os error 2)\n";

const TOO_WIDE: &str = "mtxkit: -: a value or a sum of repeated entries does not fit in 64 bits\n";

// The integer 2^63.
const LARGE: &[u8] =
    b"%%MatrixMarket matrix coordinate integer general\n1 1 1\n1 1 9223372036854775808\n";

// Two integers whose sum is 2^63.
const LARGE_SUM: &[u8] = b"%%MatrixMarket matrix coordinate integer general
1 1 2
1 1 4611686018427387904
1 1 4611686018427387904
";

// The mirror image of -2^63 is 2^63.
const MIRRORED: &[u8] = b"%%MatrixMarket matrix coordinate integer skew-symmetric
2 2 1
2 1 -9223372036854775808
";

// Their sum is 2^127.
const BEYOND: &[u8] = b"%%MatrixMarket matrix coordinate integer general
1 1 2
1 1 85070591730234615865843651857942052864
1 1 85070591730234615865843651857942052864
";

// Their sum is -2^127.
const LEAST: &[u8] = b"%%MatrixMarket matrix coordinate integer general
1 1 2
1 1 -85070591730234615865843651857942052864
1 1 -85070591730234615865843651857942052864
";

// An integer of 65 bits at an entry that is named twice.
const REPEATED: &[u8] = b"%%MatrixMarket matrix coordinate integer general
1 1 2
1 1 9223372036854775808
1 1 1
";

const UNSYMMETRIC: &str =
    "mtxkit: -: not symmetric; row by row, the first value that differs from its mirror image is in row 1, column 2\n";

const COMPLEX: &[u8] = b"%%MatrixMarket matrix coordinate complex general\n1 1 1\n1 1 5.5 0\n";

// An entry is missing, and none is real.
const SHORT_REAL: &[u8] = b"%%MatrixMarket matrix coordinate real general\n1 1 1\n";

const NO_HEADER: &str =
    "mtxkit: -:1: no header; expected %%MatrixMarket matrix and a format, a field and a symmetry\n";

/// What commands answer over an output that takes nothing.
pub const REFUSALS: &[Refusal] = &[
    (&["info", "-"], ONE, STOPPED, ""),
    (&["spy", "-", "--text"], ONE, STOPPED, ""),
    (&["info", "-"], REAL, STOPPED, ""),
    (&["spy", "-"], REAL, STOPPED, ""),
    (&["field", "pattern", "-"], COMPLEX, STOPPED, ""),
    (&["fill", "-"], REAL, STOPPED, ""),
    (&["order", "-"], COMPLEX, STOPPED, ""),
    (&["copy", "-"], REAL, 1, NOT_CARRIED),
    (&["copy", "-"], COMPLEX, 1, NOT_CARRIED),
    (&["eval", "1", "-"], REAL, 1, NOT_CARRIED),
    (&["solve", "-", "-"], REAL, 1, NOT_CARRIED),
    (
        &["info", "-"],
        SHORT_REAL,
        1,
        "mtxkit: -:2: 1 entries expected, 0 found\n",
    ),
    (&["integer", "--scale", "1", "-"], REAL, STOPPED, ""),
    (
        &["integer", "-"],
        REAL,
        1,
        "mtxkit: -:3: the value times 10^K is not an integer; the least K for the file is 1\n",
    ),
    (
        &["integer", "--scale", "1", "-"],
        b"%%MatrixMarket matrix array real general\n1 3\n0.5\n0.25\n0.125\n",
        1,
        "mtxkit: -:4: the value times 10^K is not an integer; the least K for the file is 3\n",
    ),
    (
        &["integer", "-"],
        b"%%MatrixMarket matrix array real general\n1 2\n0.5\n1e38\n",
        1,
        "mtxkit: -:3: the value times 10^K is not an integer; the least K for this value is 1, and the file has none\n",
    ),
    (
        &["integer", "-"],
        b"%%MatrixMarket matrix array real general\n1 1\n1e-99999999999999999999\n",
        1,
        "mtxkit: -:3: the value times 10^K is not an integer for any K\n",
    ),
    (
        &["integer", "--scale", "38", "-"],
        REAL,
        1,
        "mtxkit: -:3: the value times 10^K does not fit in 128 bits\n",
    ),
    (
        &["integer", "-"],
        COMPLEX,
        1,
        "mtxkit: -:1: the values are not decimal numbers but complex ones or a pattern\n",
    ),
    (&["integer", "-"], b"1 1\n", 1, NO_HEADER),
    (
        &["integer", "-"],
        b"%%MatrixMarket matrix array real general\n1\n",
        1,
        "mtxkit: -:2: no size line; expected rows, columns and, in the format coordinate, entries\n",
    ),
    (
        &["integer", "-"],
        b"%%MatrixMarket matrix array real general\n1 1\n\n1 1\n",
        1,
        "mtxkit: -:4: no data line that fits the header\n",
    ),
    (&["info", "-"], b"1 1\n", 1, NO_HEADER),
    (
        &["info", "-"],
        b"%%MatrixMarket matrix array real general\n1\n",
        1,
        "mtxkit: -:2: no size line; expected rows, columns and, in the format coordinate, entries\n",
    ),
    (
        &["integer", "-"],
        &[],
        1,
        "mtxkit: -: the text ends before its size line\n",
    ),
    (&["integer", "/no/such/file"], ONE, 1, NO_FILE),
    (
        &["integer", "--scale", "-1", "-"],
        ONE,
        2,
        "error: invalid value '-1' for '--scale <K>': -1 is not in 0..=4294967295\n",
    ),
    (&["field", "integer", "-"], LARGE, 1, TOO_WIDE),
    (&["copy", "-"], LARGE, 1, TOO_WIDE),
    (&["symmetric", "-"], LARGE, 1, TOO_WIDE),
    (&["field", "integer", "-"], LARGE_SUM, 1, TOO_WIDE),
    (&["symmetric", "-"], MIRRORED, 1, TOO_WIDE),
    (&["info", "-"], REPEATED, STOPPED, ""),
    (
        &["info", "-"],
        BEYOND,
        1,
        "mtxkit: -: a sum of repeated entries does not fit in 128 bits\n",
    ),
    (&["info", "-"], LEAST, STOPPED, ""),
    (&["spy", "-"], REPEATED, STOPPED, ""),
    (&["info", "-"], LARGE, STOPPED, ""),
    (&["info", "-"], LARGE_SUM, STOPPED, ""),
    (&["field", "pattern", "-"], LARGE_SUM, STOPPED, ""),
    (
        &["symmetric", "-"],
        b"%%MatrixMarket matrix coordinate integer general\n2 2 1\n1 2 1\n",
        1,
        UNSYMMETRIC,
    ),
    // Rows that no memory has room for.
    (
        &["symmetric", "-"],
        b"%%MatrixMarket matrix coordinate integer general\n1000000000000000000 1 1\n1 1 1\n",
        1,
        "mtxkit: -: not square: 1000000000000000000 by 1\n",
    ),
    (
        &["symmetric", "-"],
        b"%%MatrixMarket matrix coordinate pattern general\n1000000000000000000 1 1\n1 1\n",
        1,
        "mtxkit: -: not square: 1000000000000000000 by 1\n",
    ),
    // A skew-symmetric matrix is not symmetric, and is expanded.
    (
        &["symmetric", "-"],
        b"%%MatrixMarket matrix coordinate integer skew-symmetric\n2 2 1\n2 1 1\n",
        STOPPED,
        "",
    ),
    // The whole of standard input is the first file, and the second is empty.
    (&["eval", "1", "-", "-"], ONE, 1, NO_HEADER),
    (&["solve", "-", "-"], ONE, 1, NO_HEADER),
    (
        &["info", "-"],
        &[0xff, 0xfe],
        1,
        "mtxkit: -: stream did not contain valid UTF-8\n",
    ),
    (&["info", "/no/such/file"], ONE, 1, NO_FILE),
    (&["symmetric", "/no/such/file"], ONE, 1, NO_FILE),
    (&["field", "pattern", "/no/such/file"], ONE, 1, NO_FILE),
    (
        &["check", "-", "/no/such/file", "/no/such/other"],
        ONE,
        1,
        NO_FILE,
    ),
    (
        &["spy", "-", "-o", "/no/such/folder/picture.pbm"],
        ONE,
        1,
        "mtxkit: /no/such/folder/picture.pbm: No such file or directory (os error 2)\n",
    ),
    (
        &["rank", "-"],
        ONE,
        2,
        "error: unrecognized subcommand 'rank'\n",
    ),
    (
        &["spy", "-", "--size", "0"],
        ONE,
        2,
        "error: invalid value '0' for '--size <N>': 0 is not in 1..",
    ),
    (
        &["solve", "--mod", "6", "-", "-"],
        ONE,
        2,
        "error: invalid value '6' for '--mod <P>'\n",
    ),
    (
        &["spy", "-", "--text", "-o", "picture.pbm"],
        ONE,
        2,
        "error: the argument '--text' cannot be used with '-o <OUT.pbm>'\n",
    ),
    (
        &["spy", "-", "--svg", "-o", "picture.pbm"],
        ONE,
        2,
        "error: the argument '--svg' cannot be used with '-o <OUT.pbm>'\n",
    ),
    (
        &[],
        ONE,
        2,
        "Describes, shows and rewrites Matrix Market files, and solves symmetric systems\n",
    ),
];
