//! The program `mtxkit`: facts about Matrix Market files, pictures of them, and symmetric systems.
#![tactic(auto)]

use mtxkit_commands::answer;
use mtxkit_texts::Screen;
use sparse_io::Out;
use std::env;
use std::process::ExitCode;

fn main(rt: HostRuntime) -> ExitCode {
    let screen = Screen::of(rt.stderr());
    let mut out = Out::new(rt.stdout());
    let mut err = Out::new(rt.stderr());
    answer(&rt, env::args(&rt), rt.stdin(), &mut out, &mut err, screen)
}
