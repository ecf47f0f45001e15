//! Compares two spans as Datadog gets them: prints them beside each other, value by value.
#![tactic(auto)]

use std::process::ExitCode;

fn main(rt: HostRuntime) -> ExitCode {
    side_report::run::run(&rt)
}
