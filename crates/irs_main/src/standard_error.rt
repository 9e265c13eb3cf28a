//! The standard error of the system: a trusted edge.
ghost use Rattle.std.specs.Prelude.{None};

use irs_cli::{PutFailed, Sink};
use std::io::{Stderr, Write};

/// The standard error. What was written to it is unknown to the clauses.
#[derive(Drop)]
pub(crate) struct StandardError {
    to: Stderr,
    faults: u64,
}

impl StandardError {
    /// Nothing was written yet.
    pub(crate) fn new(rt: &HostRuntime) -> StandardError {
        StandardError {
            to: rt.stderr(),
            faults: 0,
        }
    }
}

impl Sink for StandardError {
    ghost written = { λ s. None };

    ghost faults = { λ s. s.faults };

    fn put(&mut self, bytes: &[u8]) -> Result<(), PutFailed> {
        match self.to.write_all(bytes) {
            Ok(()) => Ok(()),
            Err(_) => {
                self.faults = self.faults.saturating_add(1);
                Err(PutFailed)
            }
        }
    }
}
