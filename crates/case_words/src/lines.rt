//! Texts of several lines, written in one row.
//!
//! A `|` ends a line, and the blanks around it are not part of the line. The escapes `\s`, `\t`, `\f`, `\r` and `\n`
//! stand for a blank, a tab, a form feed, a carriage return and a line feed.

use crate::failure::Failure;
use std::alloc::{AllocError, Global};

// The letters after a backslash, and what they stand for.
const ESCAPES: [(&str, &str); 5] = [
    ("s", " "),
    ("t", "\t"),
    ("f", "\x0c"),
    ("r", "\r"),
    ("n", "\n"),
];

/// Returns the text that begins with `first` and goes on with the lines of a row.
pub fn text_of(alloc: Global, first: &str, lines: &str) -> Result<String, Failure> {
    let mut out = String::from_str(alloc, first)?;
    for (index, line) in lines.split('|').enumerate() {
        if 0 < index {
            out.push_str("\n")?;
        }
        push_escaped(&mut out, line.trim())?;
    }
    Ok(out)
}

/// Returns the text that words with escapes stand for.
pub fn unescaped(alloc: Global, words: &str) -> Result<String, Failure> {
    let mut out = String::new(alloc);
    push_escaped(&mut out, words)?;
    Ok(out)
}

// Appends what a line with escapes stands for.
fn push_escaped(out: &mut String, line: &str) -> Result<(), Failure> {
    for (index, part) in line.split('\\').enumerate() {
        let plain = if index == 0 {
            part
        } else {
            push_escape(out, part)?
        };
        out.push_str(plain)?;
    }
    Ok(())
}

// Appends what the first letter of a text stands for, and returns the rest.
fn push_escape<'a>(out: &mut String, text: &'a str) -> Result<&'a str, Failure> {
    for (letter, meant) in ESCAPES {
        if let Some(rest) = text.strip_prefix(letter) {
            out.push_str(meant)?;
            return Ok(rest);
        }
    }
    Err(Failure::Unreadable("no escape has this letter"))
}

/// Returns a text as the lines of a row. A blank at the end of a line is shown as `\s`.
pub fn lines_of(alloc: Global, text: &str) -> Result<String, AllocError> {
    let mut out = String::new(alloc);
    for (index, line) in text.split('\n').enumerate() {
        if 0 < index {
            out.push_str(" |")?;
        }
        if 0 < index && !line.is_empty() {
            out.push_str(" ")?;
        }
        draw_line(&mut out, line)?;
    }
    Ok(out)
}

fn draw_line(out: &mut String, line: &str) -> Result<(), AllocError> {
    match line.strip_suffix(" ") {
        Some(front) => {
            out.push_str(front)?;
            out.push_str("\\s")
        }
        None => out.push_str(line),
    }
}
