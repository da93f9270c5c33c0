//! Hostile texts, read by the library and by whole lines.

use crate::files;
use crate::matrices::is_listed;
use reference_models::texts::entries::Listed;
use reference_models::texts::meaning;
use sparse_coo_dense::coo::CooMatrix;
use sparse_io::{
    MatrixMarketError, MatrixMarketErrorKind, MatrixMarketScalar, load_coo_from_matrix_market_str,
};
use std::alloc::{AllocError, Global};
use std::fs;
use std::io::ErrorKind;
use std::test::Fail;

/// Texts with each format, field and symmetry, each line end and comments.
const TEXTS: [&str; 13] = [
    "%%MatrixMarket matrix coordinate integer general\n% two\n2 3 4\n2 1 4\n1 3 +5\n\n1 3 -5\n1 1 007\n",
    "%%MatrixMarket matrix coordinate integer symmetric\r\n2 2 2\r\n1 1 7\r\n%\r\n2 1 3",
    " %%matrixmarket\tMATRIX array integer skew-symmetric \r3 3\r1\r2\r\r3\r",
    "%%MatrixMarket matrix array integer general\n2 2\n1\n0\n-3\n2147483648\n",
    "%%MatrixMarket matrix coordinate real general\n1 1 1\n1 1 -2.5e+1\n",
    "%%MatrixMarket matrix coordinate complex hermitian\n2 2 1\n2 1 .5 1\n",
    "%%MatrixMarket matrix coordinate pattern symmetric\n2 2 2\n1 1\n2 1\n",
    "%%MatrixMarket matrix coordinate integer general\n2 2 3\n1 1 1\n1 2 2\n2 2 3\n",
    "%%MatrixMarket matrix coordinate integer symmetric\n2 2 2\n1 1 7\n2 1 -3\n",
    "%%MatrixMarket matrix coordinate integer skew-symmetric\n3 3 1\n3 1 4",
    "%%MatrixMarket matrix array integer general\r\n1 2\r\n9\n+0\n",
    "%%MatrixMarket matrix array integer symmetric\n% x\n2 2\n1\n2\n3\n",
    "%%MatrixMarket matrix coordinate pattern symmetric\n2 2 1\n2 1\n",
];

// Whether both readers give the same shape and triplets, or the same kind of refusal.
fn are_same<T: MatrixMarketScalar + PartialEq>(
    found: &Result<CooMatrix<T>, MatrixMarketError>,
    wanted: &Result<Listed<T>, MatrixMarketErrorKind>,
) -> bool {
    match (found, wanted) {
        (Ok(matrix), Ok(listed)) => {
            is_listed(matrix, (listed.nrows, listed.ncols), &listed.triplets)
        }
        (Err(error), Err(kind)) => error.kind() == *kind,
        (Ok(_), Err(_)) | (Err(_), Ok(_)) => false,
    }
}

// Whether both readers agree on the text.
fn agree<T: MatrixMarketScalar + PartialEq>(alloc: Global, text: &str) -> bool {
    match meaning::<T>(alloc, text) {
        Ok(wanted) => are_same(&load_coo_from_matrix_market_str(alloc, text), &wanted),
        Err(AllocError) => false,
    }
}

// The same for integers and patterns.
fn agree_on_both(alloc: Global, text: &str) -> bool {
    agree::<i32>(alloc, text) && agree::<()>(alloc, text)
}

// Whether both readers agree on the text of these bytes.
fn agree_on_bytes(alloc: Global, bytes: &[u8]) -> bool {
    match std::str::from_utf8(bytes) {
        Ok(text) => agree_on_both(alloc, text),
        Err(_) => false,
    }
}

#[test]
fn a_text_cut_at_each_byte(rt: HostRuntime) {
    for text in &TEXTS {
        for end in 0..=text.len() {
            let front = &text.as_bytes()[..end];
            assert!(rt; agree_on_bytes(rt.alloc(), front), "{end} bytes of {text}");
        }
    }
}

// The text with the character at a position replaced.
fn replaced(alloc: Global, text: &str, at: usize, by: char) -> Result<String, AllocError> {
    let mut copy = String::new(alloc);
    for (offset, character) in text.char_indices() {
        copy.push(if offset == at { by } else { character })?;
    }
    Ok(copy)
}

// Whether both readers agree on the text with the character at a position replaced.
fn agree_on_replaced(alloc: Global, text: &str, at: usize, by: char) -> bool {
    match replaced(alloc, text, at, by) {
        Ok(copy) => agree_on_both(alloc, copy.as_str()),
        Err(AllocError) => false,
    }
}

// The characters past ASCII take two bytes each; among them are a line end and a blank of Unicode.
#[test]
fn a_character_replaced_by_each_of_256(rt: HostRuntime) {
    for text in &[TEXTS[0], TEXTS[2]] {
        for at in 0..text.len() {
            for value in 0..=255_u8 {
                let agreed = agree_on_replaced(rt.alloc(), text, at, char::from(value));
                assert!(rt; agreed, "{value} at {at} in {text}");
            }
        }
    }
}

#[test]
fn a_character_replaced_by_each_of_ascii(rt: HostRuntime) {
    for text in &TEXTS[8..] {
        for at in 0..text.len() {
            for value in 0..128_u8 {
                let agreed = agree_on_replaced(rt.alloc(), text, at, char::from(value));
                assert!(rt; agreed, "{value} at {at} in {text}");
            }
        }
    }
}

// Whether a file with these bytes, which are not UTF-8, is refused as invalid.
fn is_invalid(rt: &HostRuntime, bytes: &[u8]) -> bool {
    let invalid = MatrixMarketErrorKind::IOError(ErrorKind::InvalidData);
    fs::write(rt, "replaced.mtx", bytes).is_ok()
        && files::refusal(rt, "replaced.mtx") == Some(invalid)
        && fs::remove_file(rt, "replaced.mtx").is_ok()
}

// Whether a file with the text in which the byte at a position is replaced is refused as invalid.
fn is_invalid_with(rt: &HostRuntime, text: &str, at: usize, value: u8) -> bool {
    let Ok(mut bytes) = text.as_bytes().to_vec(rt.alloc()) else {
        return false;
    };
    if let Some(byte) = bytes.get_mut(at) {
        *byte = value;
    }
    is_invalid(rt, &bytes)
}

#[test]
fn files_that_are_not_utf_8(rt: HostRuntime) {
    let text = TEXTS[0];
    for at in 0..text.len() {
        for value in 128..=255 {
            assert!(rt; is_invalid_with(&rt, text, at, value), "{value} at {at}");
        }
    }
}

/// Lines of a part that is repeated, between what stands before and after it.
const LONG_LINES: &[(&str, &str, &str)] = &[
    (
        "%%MatrixMarket matrix coordinate integer general\n%",
        "x",
        "\n1 1 1\n1 1 7\n",
    ),
    (
        "%%MatrixMarket matrix coordinate integer general\n",
        " \t",
        "1 1 1\n1 1 7\n",
    ),
    (
        "%%MatrixMarket matrix coordinate integer general\n1 1 1\n1 1 ",
        "0",
        "7\n",
    ),
    (
        "%%MatrixMarket matrix coordinate integer general\n1 1 1\n1 1 ",
        "12",
        "\n",
    ),
    (
        "%%MatrixMarket matrix coordinate integer general\n1 1 1\n",
        "1 ",
        "\n",
    ),
    ("%%", "MatrixMarket", " matrix"),
];

// A text whose middle is a part repeated to a million bytes.
fn long_text(
    alloc: Global,
    (before, part, after): (&str, &str, &str),
) -> Result<String, AllocError> {
    let mut text = String::from_str(alloc, before)?;
    for _ in 0..1_000_000 / part.len().max(1) {
        text.push_str(part)?;
    }
    text.push_str(after)?;
    Ok(text)
}

// Whether both readers agree on a text with this line.
fn agree_on_long(alloc: Global, line: (&str, &str, &str)) -> bool {
    match long_text(alloc, line) {
        Ok(text) => agree::<i32>(alloc, text.as_str()),
        Err(AllocError) => false,
    }
}

#[test]
fn lines_of_a_million_bytes(rt: HostRuntime) {
    for &line in LONG_LINES {
        assert!(rt;
            agree_on_long(rt.alloc(), line),
            "{}{}{}",
            line.0,
            line.1,
            line.2
        );
    }
}

// The greatest size in kilobytes that the memory of this process has had.
fn peak(rt: &HostRuntime) -> Option<usize> {
    let status = fs::read_to_string(rt, "/proc/self/status").ok()?;
    let (_, after) = status.as_str().split_once("VmPeak:")?;
    let (number, _) = after.split_once("kB")?;
    number.trim().parse().ok()
}

/// The headers of texts that promise too many entries.
const HEADS: &[&str] = &[
    "%%MatrixMarket matrix coordinate integer general\n",
    "%%MatrixMarket matrix coordinate integer symmetric\n",
    "%%MatrixMarket matrix coordinate integer skew-symmetric\n",
];

/// Shape lines that promise too many entries, each with one entry below.
const PROMISES: &[&str] = &[
    "9 9 1000000000\n2 1 5\n",
    "9 9 100000000000\n2 1 5\n",
    "9 9 18446744073709551615\n2 1 5\n",
];

// The kind of the error of a text of two parts, read as i32.
fn refusal(alloc: Global, head: &str, below: &str) -> Option<MatrixMarketErrorKind> {
    let text = format!(in alloc; "{head}{below}").ok()?;
    match load_coo_from_matrix_market_str::<i32>(alloc, text.as_str()) {
        Ok(_) => None,
        Err(error) => Some(error.kind()),
    }
}

// Whether a text with these lines is refused, with each header.
fn are_refused(alloc: Global, below: &str) -> bool {
    for head in HEADS {
        if refusal(alloc, head, below) != Some(MatrixMarketErrorKind::EntryMismatch) {
            return false;
        }
    }
    true
}

// Whether all these texts are refused.
fn all_are_refused(alloc: Global) -> bool {
    for below in PROMISES {
        if !are_refused(alloc, below) {
            return false;
        }
    }
    true
}

// By how many kilobytes the greatest size has grown after the refusals.
fn growth(rt: &HostRuntime) -> Option<usize> {
    let before = peak(rt)?;
    if !all_are_refused(rt.alloc()) {
        return None;
    }
    let after = peak(rt)?;
    Some(after.saturating_sub(before))
}

#[test]
fn promised_entries_take_no_memory(rt: HostRuntime) -> Result<(), Fail> {
    let growth = growth(&rt).ok_or("no peak, or a text that is not refused")?;
    assert!(rt; growth < 1024, "{growth}");
    Ok(())
}
