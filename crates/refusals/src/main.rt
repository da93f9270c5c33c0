//! The program `refusals`: calls whose requests for memory are refused in turn by `.ci/refusals`, and that are no rows
//! of
//! `cases`: calls on files and sinks, the commands of both programs, and lists whose values or memory are counted.
//!
//! Each line of standard input names a scenario: its group, its call and perhaps a case after a comma. Before the name
//! there may be two numbers of idle requests for memory, made before the call and after it: with these a fixed request
//! of the program is any one of the call. The program prints what came of each scenario.
#![tactic(auto)]

mod files;
mod lists;
mod outcome;
mod page;
mod runs;
mod sinks;
mod toolkit;

use crate::outcome::Outcome;
use case_words::turn::Turn;
use std::io::{self, Read};
use std::str;

// The most bytes of standard input that are read.
const MOST: usize = 16384;

fn main(rt: HostRuntime) -> io::Result<()> {
    let mut bytes = [0; MOST];
    let count = read_input(&mut rt.stdin(), &mut bytes)?;
    match str::from_utf8(&bytes[..count.min(MOST)]) {
        Ok(text) => run_all(&rt, text),
        Err(_) => println!(rt; "no text"),
    }
}

// Reads until the input or the room ends. Returns the number of bytes.
fn read_input<R: Read>(input: &mut R, bytes: &mut [u8; MOST]) -> io::Result<usize> {
    let mut count = 0;
    for _ in 0..MOST {
        let start = count.min(MOST);
        match input.read(&mut bytes[start..])? {
            0 => break,
            more => count = start.saturating_add(more),
        }
    }
    Ok(count)
}

// Runs the scenario of each line.
fn run_all(rt: &HostRuntime, text: &str) -> io::Result<()> {
    for line in text.lines() {
        run_line(rt, line)?;
    }
    Ok(())
}

// Runs the scenario of a line and prints what came of it: with idle requests also the checksum of an answer and which
// request was refused.
fn run_line(rt: &HostRuntime, line: &str) -> io::Result<()> {
    let Some((before, after, name)) = parts(line) else {
        let outcome = scenario(rt, &mut Turn::new(rt.alloc(), 0, 0), line);
        return println!(rt; "{line}: {}", outcome.text());
    };
    let mut turn = Turn::new(rt.alloc(), before, after);
    let outcome = scenario(rt, &mut turn, name);
    print_numbered(rt, outcome, turn.refused())
}

// Prints an outcome with the checksum of an answer, and the number of the idle request that was refused.
fn print_numbered(rt: &HostRuntime, outcome: Outcome, refused: Option<usize>) -> io::Result<()> {
    match outcome {
        Outcome::Answered(sum) => println!(rt; "answered {sum:016x}")?,
        other => println!(rt; "{}", other.text())?,
    }
    match refused {
        Some(number) => println!(rt; "idle {number}"),
        None => Ok(()),
    }
}

// The numbers of idle requests before and after the call, and the name of the scenario, if the line begins with two
// numbers.
fn parts(line: &str) -> Option<(usize, usize, &str)> {
    let (before, rest) = line.split_once(' ')?;
    let (after, name) = rest.split_once(' ')?;
    let before = before.parse::<usize>().ok()?;
    let after = after.parse::<usize>().ok()?;
    Some((before, after, name))
}

// Runs the scenario of this name.
fn scenario(rt: &HostRuntime, turn: &mut Turn, name: &str) -> Outcome {
    let Some((group, rest)) = name.split_once(' ') else {
        return Outcome::Unknown;
    };
    let (call, case) = rest.split_once(", ").unwrap_or((rest, ""));
    match group {
        "files" => files::run(rt, turn, call, case),
        "toolkit" => toolkit::run(rt, turn, case),
        "sinks" => sinks::run(turn, case),
        "expressions" => runs::run(turn, call, case),
        "lists" => lists::run(turn, call),
        _ => Outcome::Unknown,
    }
}
