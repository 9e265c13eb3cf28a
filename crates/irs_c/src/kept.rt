//! A sink that keeps the text.
ghost use Rattle.std.specs.Prelude.{◌≡◌, [], Some};

use irs_cli::{PutFailed, Sink};
use std::alloc::Global;

/// What was written, and how often a write failed as memory ran out.
#[derive(Drop)]
pub(crate) struct Kept {
    /// All bytes that were written, in order.
    pub(crate) text: Vec<u8>,
    /// How many writes failed; the count stops at 2^64 - 1.
    pub(crate) faults: u64,
}

impl Kept {
    /// A sink to which nothing was written.
    pub(crate) fn new(alloc: Global) -> Kept
        ensures { result.text.items ≡ [] }
    {
        Kept {
            text: Vec::new(alloc),
            faults: 0,
        }
    }
}

impl Sink for Kept {
    ghost written = { λ s. Some s.text.items };

    ghost faults = { λ s. s.faults };

    fn put(&mut self, bytes: &[u8]) -> Result<(), PutFailed> {
        match self.text.extend_from_slice(bytes) {
            Ok(()) => Ok(()),
            Err(_) => {
                self.faults = self.faults.saturating_add(1);
                Err(PutFailed)
            }
        }
    }
}
