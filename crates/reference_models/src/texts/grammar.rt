//! Size lines and data lines.

ghost use Rattle.std.specs.Prelude.{◌≡◌};
ghost use Rattle.std.specs.List.{list_all};
ghost use Rattle.sparse_parser.specs.Grammar.{is_size, is_entry};
ghost use Rattle.reference_models.specs.InnerTexts.{texts, lines_in};

use crate::texts::lines::{Line, first_word};
use crate::texts::numbers::{is_index, is_number};

/// Whether the words are those of a size line: two or three indices.
#[tactic(auto, unfolding(sparse_parser::specs::Grammar::is_size))]
pub fn is_size(words: &[&[u8]]) -> bool
    ensures { result ≡ is_size (texts words.now) }
{
    let Some((rows, others)) = first_word(words) else {
        return false;
    };
    let Some((cols, others)) = first_word(others) else {
        return false;
    };
    let Some((count, others)) = first_word(others) else {
        return is_index(rows) && is_index(cols);
    };
    others.is_empty() && is_index(rows) && is_index(cols) && is_index(count)
}

/// Whether all lines are data lines.
pub fn all_entries(lines: &[Line<'_>]) -> bool
    ensures { result ≡ list_all is_entry (lines_in lines.now) }
{
    for line in lines {
        if !is_entry(&line.words) {
            return false;
        }
    }
    true
}

// Whether the words are those of a data line: one or two numbers, or two indices and one or two numbers.
#[tactic(auto, unfolding(sparse_parser::specs::Grammar::is_entry))]
fn is_entry(words: &[&[u8]]) -> bool
    ensures { result ≡ is_entry (texts words.now) }
{
    match *words {
        [v] => is_number(v),
        [v, w] => is_number(v) && is_number(w),
        [row, col, v] => is_index(row) && is_index(col) && is_number(v),
        [row, col, v, w] => { is_index(row) && is_index(col) && is_number(v) && is_number(w) }
        _ => false,
    }
}
