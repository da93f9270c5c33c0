//! Tables: their lines, and whether each row holds.
//!
//! A line is empty, a comment after `#`, names after `over`, or a row `CALL -> ANSWER`, after which ` #` begins a
//! comment. A row holds if the call gives that answer over each scalar and in each format that the last line `over`
//! names. A line `calls` names the public calls that the rows below it make, for the script that refuses their
//! requests.

use crate::over::{Answer, answer_over, is_over};
use case_words::turn::Turn;
use std::alloc::{AllocError, Global};
use std::io;

/// How many rows passed, and how many failed.
#[derive(Drop)]
pub struct Count {
    pub passed: usize,
    pub failed: usize,
}

impl Count {
    pub fn new() -> Count {
        Count {
            passed: 0,
            failed: 0,
        }
    }

    fn add(&mut self, passes: bool) {
        if passes {
            self.passed = self.passed.saturating_add(1);
        } else {
            self.failed = self.failed.saturating_add(1);
        }
    }
}

// The scalars and the formats of the rows before the first line `over`.
const OVER: &str = "rows columns W32 W64 W128";

/// Runs the rows of a table, and prints those that fail.
pub fn run_table(rt: &HostRuntime, name: &str, text: &str, count: &mut Count) -> io::Result<()> {
    let mut over = String::from_str(rt.alloc(), OVER)?;
    for (index, line) in text.lines().enumerate() {
        let row = without_comment(line).trim();
        match row.strip_prefix("over ") {
            Some(words) => over = String::from_str(rt.alloc(), words)?,
            None if row.is_empty() || row.starts_with("calls ") => {}
            None => {
                let number = index.saturating_add(1);
                let passes = passes(rt, (name, number), over.as_str(), row)?;
                count.add(passes);
            }
        }
    }
    Ok(())
}

// The line before a `#` that begins it or follows a space.
fn without_comment(line: &str) -> &str {
    if line.starts_with("#") {
        return "";
    }
    match line.split_once(" #") {
        Some((row, _)) => row,
        None => line,
    }
}

// Whether a row holds. Prints its first fault.
fn passes(
    rt: &HostRuntime,
    (name, number): (&str, usize),
    over: &str,
    row: &str,
) -> io::Result<bool> {
    match fault(rt.alloc(), over, row)? {
        Some(fault) => {
            println!(rt; "{name}:{number}: {row}\n  {fault}")?;
            Ok(false)
        }
        None => Ok(true),
    }
}

// The first fault of a row.
fn fault(alloc: Global, over: &str, row: &str) -> Result<Option<String>, AllocError> {
    let Some((call, wanted)) = row.split_once(" -> ") else {
        return Ok(Some(String::from_str(alloc, "has no arrow")?));
    };
    if !is_over(over) {
        return Ok(Some(format!(in alloc; "is over something unknown: {over}")?));
    }
    for form in over.split_whitespace() {
        if let Some(fault) = fault_in(alloc, (form, over), call, wanted.trim())? {
            return Ok(Some(fault));
        }
    }
    Ok(None)
}

// The first fault in a format, over all scalars.
fn fault_in(
    alloc: Global,
    (form, over): (&str, &str),
    call: &str,
    wanted: &str,
) -> Result<Option<String>, AllocError> {
    for scalar in over.split_whitespace() {
        let answer = answer_over(&mut Turn::new(alloc, 0, 0), (scalar, form), call, wanted)?;
        if let Some(got) = unfit(&answer) {
            return Ok(Some(format!(in alloc;
                "expected {wanted}\n  got      {got} ({scalar} by {form})"
            )?));
        }
    }
    Ok(None)
}

// The text of an answer that is not the wanted one.
fn unfit(answer: &Option<Answer>) -> Option<&str> {
    match answer {
        Some(answer) if !answer.fits => Some(answer.text.as_str()),
        _ => None,
    }
}

/// Runs the rows of a table with these numbers of idle requests. Prints whether the answer is that of the row, or it,
/// and which idle request was refused.
pub fn refuse_table(rt: &HostRuntime, text: &str, before: usize, after: usize) -> io::Result<()> {
    let mut over = String::from_str(rt.alloc(), OVER)?;
    for line in text.lines() {
        let row = without_comment(line).trim();
        match (row.strip_prefix("over "), row.split_once(" -> ")) {
            (Some(words), _) => over = String::from_str(rt.alloc(), words)?,
            (None, Some((call, wanted))) => {
                let mut turn = Turn::new(rt.alloc(), before, after);
                let answer = first_answer(&mut turn, over.as_str(), call, wanted)?;
                print_refused(rt, answer, turn.refused())?;
            }
            (None, None) => {}
        }
    }
    Ok(())
}

// The answer over the first scalar and in the first format: `over rows W64` or `over columns W64`.
fn first_answer(
    turn: &mut Turn,
    over: &str,
    call: &str,
    wanted: &str,
) -> Result<Option<Answer>, AllocError> {
    match over.split_once(' ') {
        Some((form, scalar)) => answer_over(turn, (scalar.trim(), form), call, wanted),
        None => Ok(None),
    }
}

fn print_refused(
    rt: &HostRuntime,
    answer: Option<Answer>,
    refused: Option<usize>,
) -> io::Result<()> {
    let shown = match &answer {
        Some(answer) if answer.fits => "passed",
        Some(answer) => answer.text.as_str(),
        None => "is over something unknown",
    };
    println!(rt; "{shown}")?;
    match refused {
        Some(number) => println!(rt; "idle {number}"),
        None => Ok(()),
    }
}
