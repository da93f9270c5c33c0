//! What a text of decimal numbers becomes, times a power of ten.

use mtxkit_matrices::{ScaleError, least_scale, scaled_text};
use std::alloc::{AllocError, Global};

// A number, a power of ten, and the integer that is written or the error; computed by Python's `fractions`.
const NUMBERS: &[(&str, u32, &str)] = &[
    ("0", 0, "0"),
    ("-0.0", 3, "0"),
    ("+7", 0, "7"),
    ("12", 2, "1200"),
    ("1.5", 1, "15"),
    ("-1.5", 1, "-15"),
    (
        "1.5",
        0,
        "line 3: the value times 10^K is not an integer; least 1",
    ),
    (".5", 1, "5"),
    ("5.", 0, "5"),
    ("-.25", 2, "-25"),
    ("1e3", 0, "1000"),
    ("1E+3", 0, "1000"),
    ("1e-3", 3, "1"),
    (
        "1e-3",
        2,
        "line 3: the value times 10^K is not an integer; least 3",
    ),
    ("1200e-2", 0, "12"),
    ("0012.3400", 2, "1234"),
    ("1.0000000000000000000000000000000000000000", 0, "1"),
    ("0.00000000000000000000000000000000000000001", 41, "1"),
    ("123456789.123456789", 9, "123456789123456789"),
    (
        "170141183460469231731687303715884105727",
        0,
        "170141183460469231731687303715884105727",
    ),
    (
        "170141183460469231731687303715884105728",
        0,
        "line 3: the value times 10^K does not fit in 128 bits",
    ),
    (
        "-170141183460469231731687303715884105728",
        0,
        "-170141183460469231731687303715884105728",
    ),
    (
        "-170141183460469231731687303715884105729",
        0,
        "line 3: the value times 10^K does not fit in 128 bits",
    ),
    (
        "1701411834604692317316873037158841057.27",
        2,
        "170141183460469231731687303715884105727",
    ),
    ("0e99999999999999999999", 0, "0"),
    ("0.000e-99999999999999999999", 0, "0"),
    (
        "1e99999999999999999999",
        0,
        "line 3: the value times 10^K does not fit in 128 bits",
    ),
    (
        "1e-99999999999999999999",
        0,
        "line 3: the value times 10^K is not an integer; least none",
    ),
    ("1e38", 0, "100000000000000000000000000000000000000"),
    (
        "1e39",
        0,
        "line 3: the value times 10^K does not fit in 128 bits",
    ),
    ("2.5e-38", 39, "25"),
    ("4000000000000000000000000000000000000000000e-42", 0, "4"),
    (
        "400000000000000000000000000000000000000000.5",
        0,
        "line 3: the value times 10^K is not an integer; least 1",
    ),
    (
        "3.0e0",
        4294967295,
        "line 3: the value times 10^K does not fit in 128 bits",
    ),
];

// A text, a power of ten, and the text that is written or the error.
const TEXTS: &[(&str, u32, &str)] = &[
    (
        "%%MatrixMarket matrix coordinate real general\n% a comment\n\n 2  3 2 \n1 1 0.5\n 2\t3  -1.25e1 \n",
        1,
        "%%MatrixMarket matrix coordinate integer general\n% a comment\n\n 2  3 2 \n1 1 5\n2 3 -125\n",
    ),
    (
        "%%MatrixMarket MATRIX Coordinate Real Symmetric\r\n2 2 2\r\n1 1 4\r\n2 1 1e-1",
        2,
        "%%MatrixMarket matrix coordinate integer symmetric\n2 2 2\n1 1 400\n2 1 10\n",
    ),
    (
        "\n%%MatrixMarket matrix array real skew-symmetric\r3 3\r.5\r% between\r-.25\r0\r",
        2,
        "\n%%MatrixMarket matrix array integer skew-symmetric\n3 3\n50\n% between\n-25\n0\n",
    ),
    (
        "%%MatrixMarket matrix coordinate integer skew-symmetric\n3 3 1\n03 1 +0070\n",
        0,
        "%%MatrixMarket matrix coordinate integer skew-symmetric\n3 3 1\n03 1 70\n",
    ),
    ("", 0, "the text ends before its size line"),
    (
        "%%MatrixMarket matrix array real general\n% 1 1\n",
        0,
        "the text ends before its size line",
    ),
    (
        "\n\n1 1 1\n",
        0,
        "line 3: no header; expected %%MatrixMarket matrix and a format, a field and a symmetry",
    ),
    (
        "%%MatrixMarket matrix coordinate integr general\n1 1 0\n",
        0,
        "line 1: no field is named 'integr'; expected real, complex, integer or pattern",
    ),
    (
        "%%MatrixMarket matrix array real hermitian\n1 1\n1\n",
        0,
        "line 1: only complex matrices are hermitian",
    ),
    (
        "%%MatrixMarket matrix coordinate complex general\n1 1 1\n1 1 1 0\n",
        0,
        "line 1: the values are not decimal numbers but complex ones or a pattern",
    ),
    (
        "\r\n%%MatrixMarket matrix coordinate pattern general\n1 1 1\n1 1\n",
        0,
        "line 2: the values are not decimal numbers but complex ones or a pattern",
    ),
    (
        "%%MatrixMarket matrix coordinate real general\n1 1\n",
        0,
        "line 2: expected rows, columns and entries; rows and columns in the format array",
    ),
    (
        "%%MatrixMarket matrix coordinate real general\n1 1 1 1\n",
        0,
        "line 2: no size line; expected rows, columns and, in the format coordinate, entries",
    ),
    (
        "%%MatrixMarket matrix coordinate real general\n1 x 1\n",
        0,
        "line 2: 'x' is no size; expected rows, columns and, in the format coordinate, entries",
    ),
    (
        "%%MatrixMarket matrix array real general\n1 18446744073709551616\n",
        0,
        "line 2: a size does not fit in 64 bits",
    ),
    (
        "%%MatrixMarket matrix coordinate real symmetric\n%\n1 2 0\n",
        0,
        "line 3: a matrix with a symmetry is square",
    ),
    (
        "%%MatrixMarket matrix coordinate real general\r\n1 1 1\r\n\r\n1 1\r\n",
        0,
        "line 4: no data line that fits the header",
    ),
    (
        "%%MatrixMarket matrix coordinate real general\n1 1 1\n1 1 1 1\n",
        0,
        "line 3: no data line that fits the header",
    ),
    (
        "%%MatrixMarket matrix array real general\r1 2\r1.0\r0x1\r",
        0,
        "line 4: no data line that fits the header",
    ),
    (
        "%%MatrixMarket matrix coordinate real general\n2 2 2\n%\n1 1 0.5\n2 2 0.25\n",
        1,
        "line 5: the value times 10^K is not an integer; least 2",
    ),
    (
        "%%MatrixMarket matrix coordinate real general\n2 2 2\n1 1 1e37\n2 2 -1e38\n",
        1,
        "line 4: the value times 10^K does not fit in 128 bits",
    ),
];

// The message of an error, after the line at fault, and the least power of ten that makes the value an integer.
fn message(alloc: Global, error: ScaleError) -> Result<String, AllocError> {
    match error {
        ScaleError::Fraction(line, Some(least)) => {
            return format!(in alloc; "line {line}: {error}; least {least}");
        }
        ScaleError::Fraction(line, None) => {
            return format!(in alloc; "line {line}: {error}; least none");
        }
        _ => {}
    }
    match error.line() {
        Some(line) => format!(in alloc; "line {line}: {error}"),
        None => format!(in alloc; "{error}"),
    }
}

// Whether this is the message of an error.
fn says(alloc: Global, error: ScaleError, wanted: &str) -> bool {
    match message(alloc, error) {
        Ok(text) => text.as_str() == wanted,
        Err(AllocError) => false,
    }
}

// Whether a text becomes this one, or this is the message of the error.
fn becomes(alloc: Global, text: &str, scale: u32, wanted: &str) -> bool {
    match scaled_text(alloc, scale, text.as_bytes()) {
        Ok(written) => written.as_slice() == wanted.as_bytes(),
        Err(error) => says(alloc, error, wanted),
    }
}

// The array of one number of a field.
fn array_of(alloc: Global, field: &str, number: &str) -> Result<String, AllocError> {
    format!(in alloc; "%%MatrixMarket matrix array {field} general\n1 1\n{number}\n")
}

// Whether a number becomes this integer, or this is the message of the error.
fn is_scaled(
    alloc: Global,
    &(number, scale, wanted): &(&str, u32, &str),
) -> Result<bool, AllocError> {
    let text = array_of(alloc, "real", number)?;
    let whole = array_of(alloc, "integer", wanted)?;
    Ok(
        becomes(alloc, text.as_str(), scale, whole.as_str())
            || becomes(alloc, text.as_str(), scale, wanted),
    )
}

#[test]
fn numbers_are_scaled(rt: HostRuntime) {
    for case in NUMBERS {
        let is_scaled = is_scaled(rt.alloc(), case);
        assert!(rt; matches!(is_scaled, Ok(true)), "{} {}", case.0, case.1);
    }
}

// A text, and the least power of ten that makes integers of its values, or none.
const LEAST: &[(&str, Option<u32>)] = &[
    (
        "%%MatrixMarket matrix coordinate real general\n2 2 1\n1 1 7e2\n",
        Some(0),
    ),
    (
        "%%MatrixMarket matrix array real general\n1 5\n.5\n-0.1250\n2\n1.25e-2\n0.000e-77\n",
        Some(4),
    ),
    (
        "%%MatrixMarket matrix array real general\n1 2\n0.5\n1e38\n",
        None,
    ),
    (
        "%%MatrixMarket matrix array real general\n1 2\n0.5\n1e-99999999999999999999\n",
        None,
    ),
    (
        "%%MatrixMarket matrix array real general\n1 2\n0.5\n0.25 1\n",
        None,
    ),
    (
        "%%MatrixMarket matrix array complex general\n1 1\n0.5 0\n",
        None,
    ),
];

#[test]
fn least_powers_of_ten_are_found(rt: HostRuntime) {
    for &(text, wanted) in LEAST {
        let found = least_scale(rt.alloc(), text.as_bytes());
        assert!(rt; matches!(found, Ok(least) if least == wanted), "{text}");
    }
}

#[test]
fn texts_are_scaled(rt: HostRuntime) {
    for &(text, scale, wanted) in TEXTS {
        assert!(rt; becomes(rt.alloc(), text, scale, wanted), "{text}");
    }
}
