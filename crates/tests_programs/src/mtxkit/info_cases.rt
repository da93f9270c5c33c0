//! What `mtxkit info` answers.

use crate::mtxkit::cases::{Case, EMPTY_REAL, LONG_ROW, PATTERN, SYMMETRIC, WIDE};

// The greatest integer of 128 bits twice, and its negation twice: their sum is zero.
const CANCELLED: &str = "%%MatrixMarket matrix coordinate integer general
1 1 4
1 1 170141183460469231731687303715884105727
1 1 170141183460469231731687303715884105727
1 1 -170141183460469231731687303715884105727
1 1 -170141183460469231731687303715884105727
";

/// What `mtxkit info` answers to a text on standard input.
pub const INFO_CASES: &[Case] = &[
    (
        &["info", "-"],
        SYMMETRIC,
        "format: coordinate
field: integer
symmetry: symmetric
rows: 3
columns: 3
entries: 6
places: 6
stored zeros: 1
empty rows: 0
empty columns: 0
bandwidth: 1
symmetric pattern: yes
symmetric values: yes
rows by their places:
  0 to 0: 0
  1 to 1: 1 #############
  2 to 2: 1 #############
  3 to 3: 1 #############
  4 to 4: 0
  5 to 5: 0
  6 to 6: 0
  7 to 7: 0
  8 to 8: 0
  9 to 9: 0
",
    ),
    (
        &["info", "-"],
        CANCELLED,
        "format: coordinate
field: integer
symmetry: general
rows: 1
columns: 1
entries: 4
places: 1
stored zeros: 1
empty rows: 0
empty columns: 0
bandwidth: 0
symmetric pattern: yes
symmetric values: yes
rows by their places:
  0 to 0: 0
  1 to 1: 1 ########################################
  2 to 2: 0
  3 to 3: 0
  4 to 4: 0
  5 to 5: 0
  6 to 6: 0
  7 to 7: 0
  8 to 8: 0
  9 to 9: 0
",
    ),
    (
        &["info", "-"],
        PATTERN,
        "format: coordinate
field: pattern
symmetry: general
rows: 2
columns: 3
entries: 3
places: 2
stored zeros: 0
empty rows: 1
empty columns: 1
bandwidth: 2
symmetric pattern: no
symmetric values: no
rows by their places:
  0 to 0: 1 ####################
  1 to 1: 0
  2 to 2: 1 ####################
  3 to 3: 0
  4 to 4: 0
  5 to 5: 0
  6 to 6: 0
  7 to 7: 0
  8 to 8: 0
  9 to 9: 0
",
    ),
    // One row of a hundred is less than a mark.
    (
        &["info", "-"],
        "%%MatrixMarket matrix coordinate integer general\n100 1 1\n1 1 5\n",
        "format: coordinate
field: integer
symmetry: general
rows: 100
columns: 1
entries: 1
places: 1
stored zeros: 0
empty rows: 99
empty columns: 0
bandwidth: 0
symmetric pattern: no
symmetric values: no
rows by their places:
  0 to 0: 99 #######################################
  1 to 1: 1
  2 to 2: 0
  3 to 3: 0
  4 to 4: 0
  5 to 5: 0
  6 to 6: 0
  7 to 7: 0
  8 to 8: 0
  9 to 9: 0
",
    ),
    (
        &["info", "-"],
        WIDE,
        "format: coordinate
field: integer
symmetry: symmetric
rows: 2
columns: 2
entries: 3
places: 3
stored zeros: 1
empty rows: 0
empty columns: 0
bandwidth: 1
symmetric pattern: yes
symmetric values: yes
rows by their places:
  0 to 0: 0
  1 to 1: 1 ####################
  2 to 2: 1 ####################
  3 to 3: 0
  4 to 4: 0
  5 to 5: 0
  6 to 6: 0
  7 to 7: 0
  8 to 8: 0
  9 to 9: 0
",
    ),
    (
        &["info", "-"],
        LONG_ROW,
        "format: coordinate
field: pattern
symmetry: general
rows: 1
columns: 10
entries: 10
places: 10
stored zeros: 0
empty rows: 0
empty columns: 0
bandwidth: 9
symmetric pattern: no
symmetric values: no
rows by their places:
  0 to 1: 0
  2 to 3: 0
  4 to 5: 0
  6 to 7: 0
  8 to 9: 0
  10 to 11: 1 ########################################
  12 to 13: 0
  14 to 15: 0
  16 to 17: 0
  18 to 19: 0
",
    ),
    (
        &["info", "-"],
        EMPTY_REAL,
        "format: coordinate
field: real
symmetry: general
rows: 1
columns: 1
entries: 0
places: 0
stored zeros: 0
empty rows: 1
empty columns: 1
bandwidth: 0
symmetric pattern: yes
symmetric values: yes
rows by their places:
  0 to 0: 1 ########################################
  1 to 1: 0
  2 to 2: 0
  3 to 3: 0
  4 to 4: 0
  5 to 5: 0
  6 to 6: 0
  7 to 7: 0
  8 to 8: 0
  9 to 9: 0
",
    ),
];
