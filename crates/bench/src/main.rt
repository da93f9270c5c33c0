//! The program `bench`: times the library's kernels on a Matrix Market file.
#![tactic(auto)]

mod answer;
mod dense;
mod input;
mod measure;
mod symmetric;
mod task;

use input::{is_pattern, list_in};
use measure::Best;
use std::alloc::{AllocError, Global};
use std::test::Fail;
use std::{env, fs};

const USAGE: &str =
    "usage: bench coo2csr|transpose|spgemm|spadd|spmmd|solve|fill|ldl|order|ldlo|read FILE REPS";

// glibc takes the memory of a large block from the system, and gives it back when the block is freed. What is large
// grows to the largest block that was given back, but never past 32 MiB; up to twice as much is then kept for the next
// allocations. This is the largest block that counts.
const LARGEST_BLOCK: usize = (32 << 20) - (1 << 16);

fn main(rt: HostRuntime) -> Result<(), Fail> {
    let mut words = Vec::new(rt.alloc());
    for word in env::args(&rt)?.skip(1) {
        words.push(word)?;
    }
    run_args(&rt, &words)
}

// Does what the words after the program's name say.
fn run_args(rt: &HostRuntime, words: &[String]) -> Result<(), Fail> {
    match words {
        [task, path, reps] => print_best(rt, task.as_str(), path.as_str(), reps.as_str()),
        _ => Ok(println!(rt; "{USAGE}")?),
    }
}

// Prints the least time of the runs of a task, and the checksum and the number of entries of its answer.
fn print_best(rt: &HostRuntime, task: &str, path: &str, reps: &str) -> Result<(), Fail> {
    keep_freed_memory(rt.alloc())?;
    let best = best_run(rt, task, path, reps.parse::<usize>()?)?;
    let name = path.rsplit('/').next().unwrap_or(path);
    let (time, sum, places) = (best.nanoseconds, best.checksum, best.places);
    println!(rt; "ours {task} {name} {time} {sum:016x} {places}")?;
    Ok(())
}

// Frees one block of the largest size that counts, so that a run finds the memory of the one before, as in programs
// that have freed lists of that size. Without it, the memory that a run gets anew from the system depends on what was
// read before.
fn keep_freed_memory(alloc: Global) -> Result<(), AllocError> {
    let mut block: Vec<u8> = Vec::with_capacity(alloc, LARGEST_BLOCK)?;
    block.push(0)?;
    Ok(())
}

// Reads the file, and runs the task of this name on it as often as asked for, at least once. Neither the reading nor
// what the task works on is timed.
fn best_run(rt: &HostRuntime, task: &str, path: &str, reps: usize) -> Result<Best, Fail> {
    if task == "read" {
        let text = fs::read_to_string(rt, path)?;
        return best_reading(rt, text.as_str(), reps);
    }
    let list = list_in(rt, path)?;
    match task {
        "coo2csr" => task::compress(rt, list, reps),
        "transpose" => task::transpose(rt, list, reps),
        "spgemm" => task::square(rt, list, reps),
        "spadd" => task::add(rt, list, reps),
        "spmmd" => task::multiply(rt, list, reps),
        "solve" => task::solve(rt, list, reps),
        "fill" => task::fill(rt, list, reps),
        "ldl" => task::factor(rt, list, reps),
        "order" => task::order(rt, list, reps),
        "ldlo" => task::factor_ordered(rt, list, reps),
        _ => Err(Fail::from("no such task")),
    }
}

// The best reading of a text: of integers, or of a pattern.
fn best_reading(rt: &HostRuntime, text: &str, reps: usize) -> Result<Best, Fail> {
    if is_pattern(text) {
        task::read_pattern(rt, text, reps)
    } else {
        task::read_integers(rt, text, reps)
    }
}
