//! clsynth: reads a repository and queries on standard input, and writes the replies on standard output.
#![tactic(auto)]

use cls_process::run_process;
use std::process::ExitCode;

fn main(rt: HostRuntime) -> ExitCode {
    run_process(&rt, rt.stdin(), rt.stdout())
}
