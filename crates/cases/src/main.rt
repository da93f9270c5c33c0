//! The program `cases`: rows of tables, each a call of the library and its answer.
//!
//! `cases FILE..` runs the rows of the files, prints those that fail, and last `N passed, M failed`. `cases refuse
//! BEFORE AFTER FILE` runs the rows with idle requests for memory before and after each call, and prints which of them
//! was refused: where a fixed request of the program is refused, these numbers decide which request of a call that is.
#![tactic(auto)]

mod calls;
mod over;
mod table;

use crate::table::{Count, refuse_table, run_table};
use std::process::ExitCode;
use std::{env, fs, io};

fn main(rt: HostRuntime) -> ExitCode {
    match run(&rt) {
        Ok(true) => ExitCode::SUCCESS,
        Ok(false) => ExitCode::FAILURE,
        Err(_error) => ExitCode::from(2),
    }
}

// Runs what the arguments ask for. Returns whether each row passed.
fn run(rt: &HostRuntime) -> io::Result<bool> {
    let mut words = Vec::new(rt.alloc());
    for word in env::args(rt)?.skip(1) {
        words.push(word)?;
    }
    match words.as_slice() {
        [first, before, after, file] if first.as_str() == "refuse" => {
            refuse(rt, before.as_str(), after.as_str(), file.as_str())
        }
        files => run_files(rt, files),
    }
}

// Runs the rows of files.
fn run_files(rt: &HostRuntime, files: &[String]) -> io::Result<bool> {
    let mut count = Count::new();
    for file in files {
        let text = fs::read_to_string(rt, file.as_str())?;
        run_table(rt, file.as_str(), text.as_str(), &mut count)?;
    }
    println!(rt; "{} passed, {} failed", count.passed, count.failed)?;
    Ok(count.failed == 0)
}

// Runs the rows of a file with these numbers of idle requests.
fn refuse(rt: &HostRuntime, before: &str, after: &str, file: &str) -> io::Result<bool> {
    match (before.parse::<usize>(), after.parse::<usize>()) {
        (Ok(before), Ok(after)) => {
            let text = fs::read_to_string(rt, file)?;
            refuse_table(rt, text.as_str(), before, after)?;
            Ok(true)
        }
        (_, _) => Ok(false),
    }
}
