//! Lines of a text, and the words of a line.

ghost use Rattle.std.specs.Prelude.{◌≡◌, ◌≤◌, ◌-◌, ℕ, Bool, [], ◌∷◌, length, drop, MatchOption};
ghost use Rattle.sparse_parser.specs.Bytes.{is_blank, is_line_end, leading, after};
ghost use Rattle.sparse_parser.specs.InnerBytes.{is_space, is_within_line, is_within_word};
ghost use Rattle.sparse_parser.specs.InnerBytes.{is_solid, Decides, BeginsLine};
ghost use Rattle.sparse_parser.specs.InnerReading.{words_of, contents_of, ends_line};
ghost use Rattle.sparse_parser.specs.InnerLines.{ends_word};

/// Returns whether a byte is a space or a tab.
pub fn is_blank(byte: u8) -> bool
    ensures { result ≡ is_blank byte }
{
    byte == b' ' || byte == b'\t'
}

/// Returns whether a byte is a blank or a line end.
pub fn is_space(byte: u8) -> bool
    ensures { result ≡ is_space byte }
{
    is_blank(byte) || is_line_end(byte)
}

/// Returns whether a byte is LF or CR.
pub fn is_line_end(byte: u8) -> bool
    ensures { result ≡ is_line_end byte }
{
    byte == b'\n' || byte == b'\r'
}

/// Splits a text after its longest prefix whose bytes all pass a test.
#[inline(always)]
pub fn split_prefix<F: Fn(u8) -> bool>(text: &[u8], passes: F) -> (&[u8], &[u8])
    requires { F.IsAlwaysCallable passes }
    ensures leading { (p : ℕ → Bool) → Decides (F.post passes) p → result.0.now ≡ leading p text.now }
    ensures after { (p : ℕ → Bool) → Decides (F.post passes) p → result.1.now ≡ after p text.now }
{
    let mut at = 0;
    while at < text.len() && passes(text[at]) {
        at += 1;
    }
    text.split_at(at)
}

/// Returns the text from a byte offset on.
#[inline(always)]
pub fn text_from(text: &[u8], at: usize) -> &[u8]
    requires { at ≤ length text.now }
    ensures { result.now ≡ drop at text.now }
{
    let (_, rest) = text.split_at(at);
    rest
}

/// Returns whether a text is empty or starts with a line end.
#[inline(always)]
pub fn ends_line(text: &[u8]) -> bool
    ensures { result ≡ ends_line text.now }
{
    match text {
        [] => true,
        [byte, ..] => is_line_end(*byte),
    }
}

/// Returns whether a text is empty or starts with a blank or a line end.
#[inline(always)]
pub fn ends_word(text: &[u8]) -> bool
    ensures { result ≡ ends_word text.now }
{
    match text {
        [] => true,
        [byte, ..] => is_space(*byte),
    }
}

/// Returns the text without its leading blanks.
#[inline(always)]
pub fn after_blanks(text: &[u8]) -> &[u8]
    ensures { result.now ≡ after is_blank text.now }
{
    let (_, rest) = split_prefix(text, |byte| is_blank(byte));
    rest
}

/// Returns the text without its leading blanks and line ends.
pub fn after_space(text: &[u8]) -> &[u8]
    ensures { result.now ≡ after is_space text.now }
{
    let (_, rest) = split_prefix(text, |byte| is_space(byte));
    rest
}

/// Splits a text before its first line end.
pub fn split_line(text: &[u8]) -> (&[u8], &[u8])
    ensures line { result.0.now ≡ leading is_within_line text.now }
    ensures rest { result.1.now ≡ after is_within_line text.now }
{
    split_prefix(text, |byte| !is_line_end(byte))
}

/// Skips blank lines and comments. Returns the text from the first word of the next line on; it is empty if no line is
/// left.
pub fn next_line(text: &[u8]) -> &[u8]
    ensures begins { BeginsLine result.now }
    ensures same { contents_of result.now ≡ contents_of text.now }
    ensures len { length result.now ≤ length text.now }
{
    text_from(text, next_line_at(text, 0))
}

/// Skips blank lines and comments from an offset on. Returns the offset of the first word of the next line, or of the
/// text's end if no line is left.
#[inline(always)]
pub fn next_line_at(text: &[u8], from: usize) -> usize
    requires { from ≤ length text.now }
    ensures from { from ≤ result }
    ensures inside { result ≤ length text.now }
    ensures begins { BeginsLine (drop result text.now) }
    ensures same { contents_of (drop result text.now) ≡ contents_of (drop from text.now) }
{
    // Most often a single LF comes before a number.
    if text.len() - from > 1 && text[from] == b'\n' && text[from + 1] > b'%' {
        return from + 1;
    }
    sought_line_at(text, from)
}

// The same after any number of line ends and blanks.
#[cold]
fn sought_line_at(text: &[u8], from: usize) -> usize
    requires { from ≤ length text.now }
    ensures from { from ≤ result }
    ensures inside { result ≤ length text.now }
    ensures begins { BeginsLine (drop result text.now) }
    ensures same { contents_of (drop result text.now) ≡ contents_of (drop from text.now) }
{
    text.len() - sought_line(text_from(text, from)).len()
}

// The text from the first word of the next line on. Blank lines and comments are skipped.
fn sought_line(text: &[u8]) -> &[u8]
    ensures begins { BeginsLine result.now }
    ensures same { contents_of result.now ≡ contents_of text.now }
    ensures len { length result.now ≤ length text.now }
    ensures end { result.now ≡ drop (length text.now - length result.now) text.now }
{
    let mut rest = after_space(text);
    while let [b'%', ..] = rest {
        let (_, others) = split_line(rest);
        rest = after_space(others);
    }
    rest
}

// Splits a line before its first blank.
fn split_word(line: &[u8]) -> (&[u8], &[u8])
    ensures word { result.0.now ≡ leading is_within_word line.now }
    ensures rest { result.1.now ≡ after is_within_word line.now }
{
    split_prefix(line, |byte| !is_blank(byte))
}

/// Splits a text before its first blank or line end.
pub fn split_solid(text: &[u8]) -> (&[u8], &[u8])
    ensures word { result.0.now ≡ leading is_solid text.now }
    ensures rest { result.1.now ≡ after is_solid text.now }
{
    split_prefix(text, |byte| !is_space(byte))
}

/// Returns the first word of a line and the rest of the line, or `None` if the line is blank.
pub fn next_word(line: &[u8]) -> Option<(&[u8], &[u8])>
    ensures { MatchOption result (words_of line.now ≡ [])
        (λ found. words_of line.now ≡ found.0.now ∷ words_of found.1.now) }
{
    let line = after_blanks(line);
    if line.is_empty() {
        return None;
    }
    Some(split_word(line))
}
