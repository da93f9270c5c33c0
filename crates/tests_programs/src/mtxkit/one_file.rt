//! What commands of one file write, and the lines of their errors.

use crate::files::HEADER;
use crate::mtxkit::cases::{CASES, Case, OBLONG, Oblong};
use crate::mtxkit::info_cases::INFO_CASES;
use crate::mtxkit::line_cases::{LINE_CASES, LineCase};
use crate::mtxkit::place_cases::PLACE_CASES;
use crate::mtxkit::{answered, has_failed, has_written};
use std::alloc::{AllocError, Global};

// Whether the program answers a text on standard input as it is wanted.
fn is_answered_so(rt: &HostRuntime, &(words, stdin, text): &Case) -> Result<bool, AllocError> {
    let answer = answered(rt, words, &[], stdin.as_bytes())?;
    Ok(has_written(answer, text))
}

#[test]
fn commands_of_one_file(rt: HostRuntime) {
    for cases in [CASES, INFO_CASES, PLACE_CASES] {
        for case in cases {
            assert!(rt; matches!(is_answered_so(&rt, case), Ok(true)), "{}", case.1);
        }
    }
}

// The lines of a picture of an oblong matrix: a heading, a first line, some in the middle, and a last one.
fn oblong(alloc: Global, head: &str, count: usize, lines: [&str; 3]) -> Result<String, AllocError> {
    let mut text = String::from_str(alloc, head)?;
    text.push_str(lines[0])?;
    for _ in 0..count {
        text.push_str(lines[1])?;
    }
    text.push_str(lines[2])?;
    Ok(text)
}

// Whether the program answers the file of these lines on standard input with this text.
fn is_drawn(rt: &HostRuntime, words: &[&str], lines: &str, text: &str) -> Result<bool, AllocError> {
    let file = format!(in rt.alloc(); "{HEADER}{lines}")?;
    let answer = answered(rt, words, &[], file.as_bytes())?;
    Ok(has_written(answer, text))
}

// Whether the picture of an oblong matrix is as it is wanted.
fn is_scaled(
    rt: &HostRuntime,
    &(words, lines, head, count, picture): &Oblong,
) -> Result<bool, AllocError> {
    let text = oblong(rt.alloc(), head, count, picture)?;
    is_drawn(rt, words, lines, text.as_str())
}

// Four rows and four columns lie in each cell where the longer side is four times the default size.
#[test]
fn oblong_matrices_are_scaled(rt: HostRuntime) {
    for case in OBLONG {
        assert!(rt; matches!(is_scaled(&rt, case), Ok(true)), "{}", case.1);
    }
}

// Whether `info` says this of a text on standard input.
fn is_located(rt: &HostRuntime, &(text, wanted): &LineCase) -> Result<bool, AllocError> {
    let line = format!(in rt.alloc(); "mtxkit: -:{wanted}\n")?;
    let answer = answered(rt, &["info", "-"], &[], text.as_bytes())?;
    Ok(has_failed(answer, line.as_str()))
}

#[test]
fn errors_name_the_first_line_at_fault(rt: HostRuntime) {
    for case in LINE_CASES {
        assert!(rt; matches!(is_located(&rt, case), Ok(true)), "{}", case.0);
    }
}
