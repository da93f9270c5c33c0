//! The words at fault that messages quote.

use crate::fault::LineFault;
use sparse_parser::lines::next_word;
use sparse_parser::numbers::{index, is_index, is_number};
use std::fmt::{self, Debug, Display, Formatter, Write};

// How many bytes of a word are quoted.
const MOST: usize = 24;

// The names that a header may have, by the position of the word.
const BANNERS: [&str; 1] = ["%%MatrixMarket"];

const OBJECTS: [&str; 1] = ["matrix"];

const FORMATS: [&str; 2] = ["coordinate", "array"];

const FIELDS: [&str; 4] = ["real", "complex", "integer", "pattern"];

const SYMMETRIES: [&str; 4] = ["general", "symmetric", "skew-symmetric", "hermitian"];

/// A word of a line, as a message quotes it: its first 24 bytes. `Display` writes it between quotation marks, with dots
/// where it is cut, and other bytes than those of printable ASCII as hexadecimal numbers.
#[derive(Clone, Copy)]
pub struct Quote {
    // The number of words before it in the line.
    position: usize,
    bytes: [u8; MOST],
    length: usize,
    is_cut: bool,
}

impl Quote {
    // Returns the quote of a word.
    fn new(position: usize, word: &[u8]) -> Quote {
        let length = word.len().min(MOST);
        let mut bytes = [0; MOST];
        for i in 0..length {
            bytes[i] = word[i];
        }
        Quote {
            position,
            bytes,
            length,
            is_cut: word.len() > MOST,
        }
    }

    /// Returns the number of words before it in its line.
    pub fn position(self) -> usize {
        self.position
    }
}

impl Display for Quote {
    fn fmt<W: Write>(&self, f: &mut Formatter<W>) -> fmt::Result {
        f.write_char('\'')?;
        for byte in self.bytes.iter().take(self.length) {
            push_byte(f, *byte)?;
        }
        f.write_str(if self.is_cut { "..'" } else { "'" })
    }
}

// Writes a byte of a word.
fn push_byte<W: Write>(f: &mut Formatter<W>, byte: u8) -> fmt::Result {
    if byte.is_ascii_graphic() {
        f.write_char(char::from(byte))
    } else {
        write!(f, "\\x{byte:02x}")
    }
}

impl Debug for Quote {
    fn fmt<W: Write>(&self, f: &mut Formatter<W>) -> fmt::Result {
        Display::fmt(self, f)
    }
}

/// Returns the word of a line that has this fault, if it is one of the first six.
pub(crate) fn word_at_fault(fault: LineFault, line: &[u8]) -> Option<Quote> {
    let mut rest = line;
    for position in 0..6 {
        let (word, others) = next_word(rest)?;
        if is_at_fault(fault, position, word, next_word(others).is_none()) {
            return Some(Quote::new(position, word));
        }
        rest = others;
    }
    None
}

// Returns whether a word has this fault. The value is the last word of a line.
fn is_at_fault(fault: LineFault, position: usize, word: &[u8], is_last: bool) -> bool {
    match fault {
        LineFault::Header => !is_among(header_names(position), word),
        LineFault::Size => !is_index(word),
        LineFault::Entry => !is_number(word),
        LineFault::IndexTooLarge => is_index(word) && index(word).is_none(),
        LineFault::Value | LineFault::NarrowValue => is_last,
        _ => false,
    }
}

// Returns the names that the word at this position of a header may be; it has five words.
fn header_names(position: usize) -> &'static [&'static str] {
    match position {
        0 => BANNERS.as_slice(),
        1 => OBJECTS.as_slice(),
        2 => FORMATS.as_slice(),
        3 => FIELDS.as_slice(),
        4 => SYMMETRIES.as_slice(),
        _ => &[],
    }
}

// Returns whether a word is one of these names, in any ASCII case.
fn is_among(names: &[&str], word: &[u8]) -> bool {
    for name in names {
        if word.eq_ignore_ascii_case(name.as_bytes()) {
            return true;
        }
    }
    false
}
