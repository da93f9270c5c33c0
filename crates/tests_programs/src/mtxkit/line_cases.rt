//! What the lines of errors say of texts.

/// A text, and what the line on standard error says of it after the name of the file.
pub type LineCase = (&'static str, &'static str);

/// Texts that mean errors, and the first line of each that is at fault.
pub const LINE_CASES: &[LineCase] = &[
    // A text that ends too early is at fault in its last line.
    (
        "",
        "1: no header; expected %%MatrixMarket matrix and a format, a field and a symmetry",
    ),
    (
        "\n\n",
        "2: no header; expected %%MatrixMarket matrix and a format, a field and a symmetry",
    ),
    (
        "\r\n \t",
        "2: no header; expected %%MatrixMarket matrix and a format, a field and a symmetry",
    ),
    (
        "\n\n%%MatrixMarket matrix\n1 1 0\n",
        "3: no header; expected %%MatrixMarket matrix and a format, a field and a symmetry",
    ),
    // A word of a header that has another name is quoted, up to 24 bytes of it.
    (
        "%%matrixmarket vector coordinate integer general\n",
        "1: no object is named 'vector'; expected matrix",
    ),
    (
        "%%MatrixMarket matrix Coordinates integer general\n",
        "1: no format is named 'Coordinates'; expected coordinate or array",
    ),
    (
        "%%MatrixMarket MATRIX coordinate integr general\n",
        "1: no field is named 'integr'; expected real, complex, integer or pattern",
    ),
    (
        "%%MatrixMarket matrix array integer symmetric-or-unsymmetric-as-it-comes\n",
        "1: no symmetry is named 'symmetric-or-unsymmetric..'; expected general, symmetric, skew-symmetric or hermitian",
    ),
    (
        "%%MatrixMarket matrix array integer general \u{b5}\\\n",
        "1: the header has a sixth word, '\\xc2\\xb5\\'",
    ),
    (
        "%%MatrixMarket matrix coordinate integer hermitian\n1 1 0\n",
        "1: only complex matrices are hermitian",
    ),
    (
        "%%MatrixMarket matrix array pattern general\n1 1\n",
        "1: a pattern has the format coordinate and is general or symmetric",
    ),
    (
        "%%MatrixMarket matrix coordinate integer general\n% none\n",
        "2: no size line; expected rows, columns and, in the format coordinate, entries",
    ),
    (
        "%%MatrixMarket matrix coordinate integer general\n2 2 -1\n",
        "2: '-1' is no size; expected rows, columns and, in the format coordinate, entries",
    ),
    (
        "%%MatrixMarket matrix coordinate integer general\n2\n",
        "2: no size line; expected rows, columns and, in the format coordinate, entries",
    ),
    (
        "%%MatrixMarket matrix coordinate integer general\n% below\n2 2\n",
        "3: expected rows, columns and entries; rows and columns in the format array",
    ),
    (
        "%%MatrixMarket matrix coordinate integer general\n18446744073709551616 2 0\n",
        "2: a size does not fit in 64 bits",
    ),
    (
        "%%MatrixMarket matrix coordinate integer symmetric\n2 3 0\n",
        "2: a matrix with a symmetry is square",
    ),
    // The grammar of all lines comes first.
    (
        "%%MatrixMarket matrix coordinate integer symmetric\n2 3 1\n1 one 1\n",
        "3: 'one' is no number",
    ),
    (
        "%%MatrixMarket matrix coordinate integer general\n2 3 1\n1 1 1 1 1\n",
        "3: no entry; expected numbers",
    ),
    (
        "%%MatrixMarket matrix array integer general\n18446744073709551615 2\n",
        "2: the number of entries does not fit in 64 bits",
    ),
    (
        "%%MatrixMarket matrix coordinate integer general\n2 2 2\n0 1 1\n",
        "2: 2 entries expected, 1 found",
    ),
    (
        "%%MatrixMarket matrix coordinate pattern general\n2 2 2\n1 1\n1 2 3\n",
        "4: expected a row and a column",
    ),
    (
        "%%MatrixMarket matrix coordinate integer general\n2 2 1\n1 2\n",
        "3: expected a row, a column and a value of the header's field",
    ),
    (
        "%%MatrixMarket matrix array integer general\n1 1\n1 2\n",
        "3: expected one value of the header's field",
    ),
    // Lines end with CR LF, CR or LF, and blank lines and comments count.
    (
        "%%MatrixMarket matrix coordinate integer general\r\n2 2 2\r\n%\r\r1 1 1\r0 1 1\r",
        "6: row index 0; indices count from 1",
    ),
    (
        "%%MatrixMarket matrix coordinate pattern general\n2 2 1\n1 0\n",
        "3: column index 0; indices count from 1",
    ),
    (
        "%%MatrixMarket matrix coordinate integer general\n2 2 2\n1 1 1\n3 1 1\n",
        "4: row index 3; the matrix has 2 rows",
    ),
    (
        "%%MatrixMarket matrix coordinate integer general\n2 2 1\n1 3 1\n",
        "3: column index 3; the matrix has 2 columns",
    ),
    (
        "%%MatrixMarket matrix coordinate integer general\n2 2 1\n1 18446744073709551616 1\n",
        "3: the index '18446744073709551616' does not fit in 64 bits",
    ),
    (
        "%%MatrixMarket matrix coordinate integer general\n2 2 1\n1 1 1.5\n",
        "3: '1.5' is no integer of 128 bits",
    ),
    (
        "%%MatrixMarket matrix coordinate integer skew-symmetric\n2 2 1\n2 1 -170141183460469231731687303715884105728\n",
        "3: the negative of the value does not fit in 128 bits",
    ),
    (
        "%%MatrixMarket matrix coordinate integer symmetric\n2 2 2\n1 1 1\n1 2 1\n",
        "4: row 1 and column 2 lie above the diagonal; a symmetry takes the lower triangle",
    ),
    (
        "%%MatrixMarket matrix coordinate integer skew-symmetric\n2 2 1\n1 1 1\n",
        "3: a skew-symmetric matrix has no entries on the diagonal",
    ),
];
