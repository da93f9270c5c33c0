//! The best of several runs of a task.

use crate::answer::Answer;
use std::alloc::Global;
use std::test::Fail;
use std::time::Instant;

/// The best run of a task: its time, and the checksum and the number of entries of the answer.
#[derive(Clone, Copy)]
pub struct Best {
    pub nanoseconds: u128,
    pub checksum: u64,
    pub places: usize,
}

/// Returns the best of `reps` runs, at least one. Each answer is dropped before the next run.
pub fn best_of<A: Answer, F: Fn(Global) -> Result<A, Fail>>(
    rt: &HostRuntime,
    reps: usize,
    run: F,
) -> Result<Best, Fail>
    requires { F.IsAlwaysCallable run }
{
    best_of_copies(rt, reps, |_alloc| Ok(()), |alloc, ()| run(alloc))
}

/// Returns the best of `reps` runs, at least one. What a run uses up is copied before it is timed, and each answer is
/// dropped before the next run.
pub fn best_of_copies<
    C: Drop,
    A: Answer,
    G: Fn(Global) -> Result<C, Fail>,
    F: Fn(Global, C) -> Result<A, Fail>,
>(rt: &HostRuntime, reps: usize, copy: G, run: F) -> Result<Best, Fail>
    requires copies { G.IsAlwaysCallable copy }
    requires runs { F.IsAlwaysCallable run }
{
    let (nanoseconds, answer) = timed(rt, &copy, &run)?;
    let mut best = Best {
        nanoseconds,
        checksum: answer.checksum(),
        places: answer.places(),
    };
    drop(answer);
    for _ in 1..reps {
        let (run, _) = timed(rt, &copy, &run)?;
        best.nanoseconds = best.nanoseconds.min(run);
    }
    Ok(best)
}

// One run: its nanoseconds, and the answer.
fn timed<C: Drop, A: Answer, G: Fn(Global) -> Result<C, Fail>, F: Fn(Global, C) -> Result<A, Fail>>(
    rt: &HostRuntime,
    copy: &G,
    run: &F,
) -> Result<(u128, A), Fail>
    requires copies { G.IsAlwaysCallable copy.now }
    requires runs { F.IsAlwaysCallable run.now }
{
    let copied = copy(rt.alloc())?;
    let start = Instant::now(rt)?;
    let answer = run(rt.alloc(), copied)?;
    let time = start.elapsed(rt)?;
    Ok((time.as_nanos(), answer))
}
