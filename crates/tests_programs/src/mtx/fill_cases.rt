//! What `mtx fill` answers.

/// The words before a file, its text, and the lines that are written below the heading or the line of a refusal.
pub type FillCase = (
    &'static [&'static str],
    &'static str,
    Result<&'static str, &'static str>,
);

// An entry on each side of the diagonal.
const TWO_SIDES: &str = "%%MatrixMarket matrix coordinate pattern general\n3 3 2\n2 1\n1 3\n";

// One row and as many columns as can be, and the transpose.
const WIDE: &str = "%%MatrixMarket matrix coordinate pattern general\n1 18446744073709551615 0\n";

const TALL: &str = "%%MatrixMarket matrix coordinate pattern general\n18446744073709551615 1 0\n";

/// Words, a text, and what `mtx fill` answers.
pub const FILL_CASES: &[FillCase] = &[
    (
        &["fill"],
        "%%MatrixMarket matrix coordinate pattern symmetric\n3 3 2\n3 1\n3 2\n",
        Ok("3 3 3\n3 1 \n3 2 \n3 3 \n"),
    ),
    // A repeated entry counts once.
    (
        &["fill"],
        "%%MatrixMarket matrix coordinate pattern general\n1 1 2\n1 1\n1 1\n",
        Ok("1 1 1\n1 1 \n"),
    ),
    // Entries in no order, one of them repeated.
    (
        &["fill"],
        "%%MatrixMarket matrix coordinate pattern general\n3 3 4\n3 3\n1 3\n1 1\n1 3\n",
        Ok("3 3 3\n1 1 \n3 1 \n3 3 \n"),
    ),
    // Entries below the diagonal alone.
    (
        &["fill"],
        "%%MatrixMarket matrix coordinate pattern general\n2 2 1\n2 1\n",
        Ok("2 2 0\n"),
    ),
    (&["fill"], TWO_SIDES, Ok("3 3 2\n3 1 \n3 3 \n")),
    (&["fill", "upper"], TWO_SIDES, Ok("3 3 2\n3 1 \n3 3 \n")),
    (&["fill", "lower"], TWO_SIDES, Ok("3 3 2\n2 1 \n2 2 \n")),
    (
        &["fill", "both"],
        TWO_SIDES,
        Ok("3 3 5\n2 1 \n3 1 \n2 2 \n3 2 \n3 3 \n"),
    ),
    // Matrices that are not square, for whose columns or rows there is no memory.
    (&["fill"], WIDE, Err("mtx: not square\n")),
    (&["fill", "lower"], WIDE, Err("mtx: not square\n")),
    (&["fill", "both"], WIDE, Err("mtx: not square\n")),
    (&["fill"], TALL, Err("mtx: not square\n")),
    (&["fill", "lower"], TALL, Err("mtx: not square\n")),
    (&["fill", "both"], TALL, Err("mtx: not square\n")),
    // The text is read to its end first.
    (
        &["fill"],
        "%%MatrixMarket matrix coordinate pattern general\n2 3 1\n1 4\n",
        Err("mtx: input 1: SparseFormatError\n"),
    ),
    (
        &["fill"],
        "%%MatrixMarket matrix coordinate integer general\n1 1 1\n1 1 5\n",
        Err("mtx: input 1: TypeMismatch\n"),
    ),
    (&["fill"], "3 3 2\n", Err("mtx: input 1: ParsingError\n")),
    (
        &["fill", "both"],
        "3 3 2\n",
        Err("mtx: input 1: ParsingError\n"),
    ),
];
