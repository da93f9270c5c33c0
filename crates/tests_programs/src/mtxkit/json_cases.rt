//! The members of what `mtxkit` writes in JSON.

use crate::mtxkit::answered;
use crate::mtxkit::cases::{PATTERN, SYMMETRIC};
use crate::mtxkit::place_cases::HERMITIAN;
use serde_json::Value;
use std::alloc::AllocError;

// The words after the program's name, the text on standard input, the JSON pointer of a member, and its number.
type JsonCase = (&'static [&'static str], &'static str, &'static str, u64);

// Numbers in the objects that commands write.
const JSON_CASES: &[JsonCase] = &[
    (&["info", "--json", "-"], SYMMETRIC, "/entries", 6),
    (&["info", "--json", "-"], SYMMETRIC, "/stored_zeros", 1),
    (&["info", "--json", "-"], PATTERN, "/empty_columns", 1),
    (&["info", "--json", "-"], HERMITIAN, "/bandwidth", 1),
    (
        &["info", "--json", "-"],
        HERMITIAN,
        "/rows_by_their_places/2/rows",
        1,
    ),
    (&["fill", "--json", "-"], HERMITIAN, "/fill", 1),
    (
        &["fill", "--order", "amd", "--json", "-"],
        SYMMETRIC,
        "/height_of_the_elimination_tree",
        2,
    ),
];

// Whether the object that the program writes has this number.
fn has_member(
    rt: &HostRuntime,
    &(words, stdin, path, number): &JsonCase,
) -> Result<bool, AllocError> {
    let answer = answered(rt, words, &[], stdin.as_bytes())?;
    let Ok(text) = str::from_utf8(&answer.out) else {
        return Ok(false);
    };
    match Value::from_str(rt.alloc(), text) {
        Ok(value) => Ok(value.pointer(path).and_then(Value::as_u64) == Some(number)),
        Err(_) => Ok(false),
    }
}

#[test]
fn objects_are_json(rt: HostRuntime) {
    for (row, case) in JSON_CASES.iter().enumerate() {
        assert!(rt;
            matches!(has_member(&rt, case), Ok(true)),
            "row {row}: {}",
            case.2
        );
    }
}
