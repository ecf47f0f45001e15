//! The program `side_by_side` on two spans that differ.
#![tactic(auto)]

use std::process::ExitCode;

fn main(rt: HostRuntime) -> ExitCode {
    side_report::run::run(&rt)
}
