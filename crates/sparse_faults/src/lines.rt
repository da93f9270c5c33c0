//! The ends of the lines of a text, and comments.

ghost use Rattle.std.specs.Prelude.{◌≡◌, true, nat_eq, slice_index};
ghost use Rattle.sparse_parser.specs.InnerReading.{ends_line};
ghost use Rattle.sparse_faults.specs.InnerLines.{IsEnded};

use sparse_parser::lines::text_from;

/// Returns the text after the line end that it begins with, if it is not empty.
pub fn after_end(text: &[u8]) -> &[u8]
    requires { ends_line text.now ≡ true }
    ensures { IsEnded text.now result.now }
{
    if text.is_empty() {
        return text;
    }
    let rest = text_from(text, 1);
    if text[0] != b'\r' {
        return rest;
    }
    if begins_with_lf(rest) {
        text_from(rest, 1)
    } else {
        rest
    }
}

// Returns whether a text begins with LF.
fn begins_with_lf(text: &[u8]) -> bool
    ensures { result ≡ nat_eq (slice_index text.now 0) 10 }
{
    match text {
        [first, ..] => *first == b'\n',
        [] => false,
    }
}

/// Returns whether a word begins a comment.
pub fn is_comment(word: &[u8]) -> bool
    ensures { result ≡ nat_eq (slice_index word.now 0) 37 }
{
    match word {
        [first, ..] => *first == b'%',
        [] => false,
    }
}
