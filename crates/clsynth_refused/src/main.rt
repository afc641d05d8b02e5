//! The program `clsynth` once more, run on a repository that is refused: the process ends with the status of the run.
#![tactic(auto)]

use cls_process::run_process;
use std::process::ExitCode;

fn main(rt: HostRuntime) -> ExitCode {
    run_process(&rt, rt.stdin(), rt.stdout())
}
