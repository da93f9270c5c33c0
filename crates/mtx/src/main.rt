//! The program `mtx`: a calculator of Matrix Market files.
#![tactic(auto)]

use mtx_commands::answer;
use nalgebra_sparse::io::Out;
use std::env;
use std::process::ExitCode;

fn main(rt: HostRuntime) -> ExitCode {
    let mut out = Out::new(rt.stdout());
    let mut err = Out::new(rt.stderr());
    answer(&rt, env::args(&rt), &mut out, &mut err)
}
