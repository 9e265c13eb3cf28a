//! The program `irs` once more, for a stored run whose status isn't 0: a `main` that drops the status
//! fails here.
#![tactic(auto)]

use irs_main::status_of;
use std::process::ExitCode;

fn main(rt: HostRuntime) -> ExitCode {
    ExitCode::from(status_of(&rt))
}
