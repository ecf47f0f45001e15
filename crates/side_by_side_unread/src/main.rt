//! The program `side_by_side` on a block that is refused.
#![tactic(auto)]

use std::process::ExitCode;

fn main(rt: HostRuntime) -> ExitCode {
    side_report::run::run(&rt)
}
