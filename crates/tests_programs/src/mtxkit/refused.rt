//! What commands answer where something is refused: words, files, arguments that cannot be read, and writes that fail.

use crate::mtxkit::place_cases::PLACE_REFUSALS;
use crate::mtxkit::refusals::{REFUSALS, Refusal};
use crate::mtxkit::{
    BAD_DESCRIPTOR, BROKEN_PIPE, Closed, FULL_DISK, answered, answered_to, arguments,
};
use std::alloc::AllocError;
use std::io::{self, ErrorKind};
use std::process::ExitCode;

// Whether a line on standard error starts so, and is no longer where the command itself failed: `clap` explains wrong
// usage in some lines.
fn is_line(err: &[u8], line: &str, status: u8) -> bool {
    err.starts_with(line.as_bytes()) && (status == 2 || err.len() == line.len())
}

// Whether the program answers an output that fails with this error of the system as it is wanted.
fn is_refused(
    rt: &HostRuntime,
    code: i32,
    &(words, stdin, wanted, line): &Refusal,
) -> Result<bool, AllocError> {
    let given = arguments(rt.alloc(), words, &[])?;
    let answer = answered_to(rt, Ok(given.into_iter()), stdin, Closed(code));
    Ok(answer.status == ExitCode::from(wanted) && is_line(&answer.err, line, wanted))
}

#[test]
fn each_refusal_has_its_line(rt: HostRuntime) {
    for refusals in [REFUSALS, PLACE_REFUSALS] {
        for (row, case) in refusals.iter().enumerate() {
            let is_refused = is_refused(&rt, BROKEN_PIPE, case);
            assert!(rt; matches!(is_refused, Ok(true)), "row {row}: {}", case.3);
        }
    }
}

// Whether a negative power of ten is refused, with this at the end.
fn is_not_divided(rt: &HostRuntime, end: &str) -> Result<bool, AllocError> {
    let answer = answered(rt, &["integer", "--scale", "-1", "-"], &[], &[])?;
    Ok(answer.status == ExitCode::from(2) && answer.err.ends_with(end.as_bytes()))
}

#[test]
fn negative_powers_of_ten_have_words_of_their_own(rt: HostRuntime) {
    let end =
        "\nK is 0 or more: mtxkit multiplies the numbers by 10^K, and does not divide them.\n";
    assert!(rt; matches!(is_not_divided(&rt, end), Ok(true)));
}

// The error of a write, and the status and the line of a command whose output fails so.
const UNWRITTEN: [(i32, u8, &str); 3] = [
    (
        BAD_DESCRIPTOR,
        1,
        "mtxkit: write failed: the output is closed or cannot be written to\n",
    ),
    (FULL_DISK, 1, "mtxkit: write failed: no storage space\n"),
    (BROKEN_PIPE, 141, ""),
];

#[test]
fn failed_writes_have_a_plain_reason(rt: HostRuntime) {
    for &(code, status, line) in &UNWRITTEN {
        let is_refused = is_refused(&rt, code, &(&["--help"], &[], status, line));
        assert!(rt; matches!(is_refused, Ok(true)), "{line}");
    }
}

// The status and the line of an error where the arguments cannot be read.
const UNREAD: [(ErrorKind, u8, &str); 2] = [
    (
        ErrorKind::InvalidData,
        2,
        "mtxkit: an argument is not UTF-8; see mtxkit --help\n",
    ),
    (ErrorKind::OutOfMemory, 1, "mtxkit: out of memory\n"),
];

// Whether arguments that cannot be read for this reason are answered with this status and this line.
fn is_unread(rt: &HostRuntime, &(kind, status, line): &(ErrorKind, u8, &str)) -> bool {
    let answer = answered_to(rt, Err(io::Error::from(kind)), &[], Vec::new(rt.alloc()));
    answer.status == ExitCode::from(status) && answer.err.as_slice() == line.as_bytes()
}

#[test]
fn arguments_that_are_no_text_or_fit_no_memory(rt: HostRuntime) {
    for case in &UNREAD {
        assert!(rt; is_unread(&rt, case), "{}", case.2);
    }
}
