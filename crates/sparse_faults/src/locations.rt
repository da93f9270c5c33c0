//! Finds the first line of a text that has a fault.

ghost use Rattle.std.specs.Prelude.{◌≡◌, ◌+◌, ◌<◌, ◌^◌, ℕ, List, true, None, Ok, IfOk, IfErr};
ghost use Rattle.std.specs.Prelude.{IfSome, length, if◌then◌else◌};
ghost use Rattle.sparse_parser.specs.Header.{is_allowed};
ghost use Rattle.sparse_faults.specs.declared.line_faults.Search.TheVariants.{Grammar};
ghost use Rattle.sparse_faults.specs.FirstFaults.{HasMatrix, IsFirstFault, IsGrammarFault};
ghost use Rattle.sparse_faults.specs.InnerFirstFaults.{AllPass, AreSizes, IsAllowed};
ghost use Rattle.sparse_faults.specs.InnerFirstFaults.{IsFailing, IsFirstFaultOrNone, IsHead};
ghost use Rattle.sparse_faults.specs.ValueTypes.{scalar_as};

use crate::counted_lines::{first_content, last_line};
use crate::fault::LineFault;
use crate::line_faults::{Search, line_fault};
use crate::quote::{Quote, word_at_fault};
use crate::value_type::ValueType;
use sparse_parser::error::Cause;
use sparse_parser::header::Header;
use sparse_parser::size::Size;
use std::fmt::{self, Display, Formatter, Write};

/// A line of a text and its fault. `Display` writes the message of the fault, without the number of the line.
#[derive(Clone, Copy, Debug)]
pub struct Location {
    /// The number of the line, counted from 1; that of the last line if the text ends too early.
    pub line: usize,
    /// The fault.
    pub fault: LineFault,
    /// The word that has the fault, if one has.
    pub word: Option<Quote>,
}

impl Location {
    /// Returns the location of a fault of a line, with the word of the line that has it.
    pub fn of_line(number: usize, fault: LineFault, line: &[u8]) -> Location
        ensures line { result.line ≡ number }
        ensures fault { result.fault ≡ fault }
    {
        Location {
            line: number,
            fault,
            word: word_at_fault(fault, line),
        }
    }
}

impl Display for Location {
    fn fmt<W: Write>(&self, f: &mut Formatter<W>) -> fmt::Result {
        match self.word {
            Some(word) => self.fault.quote(word, f),
            None => Display::fmt(&self.fault, f),
        }
    }
}

// The header of a text, the number of its line, and the text below it.
#[derive(Clone, Copy)]
pub(crate) struct Head<'a> {
    header: Header,
    number: usize,
    below: &'a [u8],
}

// The header of a text and its sizes or their error, the numbers of both lines, and the text below.
#[derive(Clone, Copy)]
pub(crate) struct Sizes<'a> {
    header: Header,
    header_line: usize,
    size: Result<Size, Cause>,
    size_line: usize,
    below: &'a [u8],
}

/// Returns the first line with a fault of a text whose values are read as this type, or `None` if the text has no error.
/// Allocates nothing. The text is read line by line, and the lines below its size line up to three times.
pub fn text_fault(text: &str, values: ValueType) -> Option<Location>
    ensures fault { IfSome result
        (λ location. IsFirstFault (scalar_as values) text.now location.line) }
    ensures counted { IfSome result (λ location. 0 < location.line) }
    ensures none { result ≡ None → HasMatrix (scalar_as values) text.now }
{
    let sizes = match sizes_of(text.as_bytes()) {
        Ok(sizes) => sizes,
        Err(location) => return Some(location),
    };
    let count = match first_fault(Search::Grammar, sizes.below, sizes.size_line + 1) {
        Ok(count) => count,
        Err(location) => return Some(location),
    };
    match sizes.size {
        Ok(size) => entries_fault(sizes, size, count, values),
        Err(cause) => Some(sizes_fault(sizes, cause)),
    }
}

// Returns the header and the sizes of a text, or the line that is no header or no size line.
fn sizes_of(text: &[u8]) -> Result<Sizes<'_>, Location>
    ensures sizes { IfOk result (λ s. AreSizes text.now s.header s.header_line s.size s.size_line
        s.below.now) }
    ensures fault { IfErr result (λ location. IsGrammarFault text.now location.line) }
{
    let head = match head_of(text) {
        Ok(head) => head,
        Err(location) => return Err(location),
    };
    let found = match first_content(head.below, head.number + 1, true) {
        Ok(found) => found,
        Err(end) => return Err(Location {
            line: last_line(end),
            fault: LineFault::Size,
            word: None,
        }),
    };
    match Size::from_line(head.header, found.line) {
        Some(size) => Ok(Sizes {
            header: head.header,
            header_line: head.number,
            size,
            size_line: found.number,
            below: found.below,
        }),
        None => Err(Location::of_line(found.number, LineFault::Size, found.line)),
    }
}

// Returns the header of a text, or the line that is none.
fn head_of(text: &[u8]) -> Result<Head<'_>, Location>
    ensures head { IfOk result (λ h. IsHead text.now h.header h.number h.below.now) }
    ensures fault { IfErr result (λ location. IsGrammarFault text.now location.line) }
{
    let found = match first_content(text, 1, false) {
        Ok(found) => found,
        Err(end) => return Err(Location {
            line: last_line(end),
            fault: LineFault::Header,
            word: None,
        }),
    };
    match Header::from_line(found.line) {
        Some(header) => Ok(Head {
            header,
            number: found.number,
            below: found.below,
        }),
        None => Err(Location::of_line(found.number, LineFault::Header, found.line)),
    }
}

// Returns the line that causes an error of the header or the size line.
fn sizes_fault(sizes: Sizes<'_>, cause: Cause) -> Location
    ensures { result.line ≡ (if is_allowed sizes.entry.header then sizes.entry.size_line
        else sizes.entry.header_line) }
{
    let line = match sizes.header.fault() {
        Some(_) => sizes.header_line,
        None => sizes.size_line,
    };
    Location {
        line,
        fault: LineFault::of_size(cause),
        word: None,
    }
}

// Returns the first fault of a text that matches the grammar, if it has one, given its number of data lines.
fn entries_fault(sizes: Sizes<'_>, size: Size, count: usize, values: ValueType) -> Option<Location>
    requires room { sizes.size_line + 1 + length sizes.below.now < 2 ^ 64 }
    requires allowed { is_allowed sizes.header ≡ true }
    ensures { (text : List ℕ)
        → AreSizes text sizes.entry.header sizes.entry.header_line (Ok size) sizes.entry.size_line
        sizes.entry.below.now → AllPass Grammar sizes.entry.below.now count
        → IsFirstFaultOrNone (scalar_as values) text result }
{
    let line = sizes.size_line;
    match size.count {
        Some(wanted) if wanted == count => {}
        Some(wanted) => return Some(Location {
            line,
            fault: LineFault::Count(wanted, count),
            word: None,
        }),
        None => return Some(Location {
            line,
            fault: LineFault::TooMany,
            word: None,
        }),
    }
    match first_fault(Search::Entries(sizes.header, values), sizes.below, line + 1) {
        Ok(_) => {}
        Err(location) => return Some(location),
    }
    match first_fault(Search::Bounds(size), sizes.below, line + 1) {
        Ok(_) => None,
        Err(location) => Some(location),
    }
}

// Returns the first line of a text below a size line in which the search finds a fault, or the number of data lines.
// `first` is the number of the text's first line.
fn first_fault(search: Search, text: &[u8], first: usize) -> Result<usize, Location>
    requires room { first + length text.now < 2 ^ 64 }
    requires allowed { IsAllowed search }
    ensures passed { IfOk result (AllPass search text.now) }
    ensures fault { IfErr result (λ location. IsFailing search text.now first location.line) }
{
    let mut rest = text;
    let mut number = first;
    let mut count = 0;
    loop {
        let found = match first_content(rest, number, true) {
            Ok(found) => found,
            Err(_) => return Ok(count),
        };
        if let Some(fault) = line_fault(search, found.line) {
            return Err(Location::of_line(found.number, fault, found.line));
        }
        rest = found.below;
        number = found.number + 1;
        count += 1;
    }
}
