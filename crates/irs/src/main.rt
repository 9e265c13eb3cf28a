//! The program `irs`: it prints what its words ask for.
#![tactic(auto)]

use irs_main::status_of;
use std::process::ExitCode;

fn main(rt: HostRuntime) -> ExitCode {
    ExitCode::from(status_of(&rt))
}
