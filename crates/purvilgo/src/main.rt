//! The program: a copyright society's registry of musical works. All that it does stands in the library `purvilgo_command`.
#![tactic(auto)]

use std::process::ExitCode;

fn main(rt: HostRuntime) -> ExitCode {
    purvilgo_command::run_program(&rt)
}
