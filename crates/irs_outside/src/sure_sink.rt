//! A sink that never fails: it counts the bytes and keeps none of them.
ghost use Rattle.std.specs.Prelude.{◌≡◌, ◌+◌, length, None, IsOk, min};
ghost use Rattle.irs_outside.specs.Outside.{bytes_counted, last_count};

use crate::{PutFailed, Sink};

/// How many bytes were written.
#[derive(Clone, Copy, PartialEq, Eq)]
pub struct SureSink {
    count: u64,
}

impl SureSink {
    /// Nothing is written.
    pub fn new() -> SureSink
        ensures { bytes_counted result ≡ 0 }
    {
        SureSink { count: 0 }
    }
}

impl Sink for SureSink {
    ghost use Rattle.std.specs.Prelude.{None};

    ghost written = { λ s. None };

    ghost faults = { λ s. 0 };

    /// It answers Ok. The count stays at the last value of 64 bits.
    fn put(&mut self, bytes: &[u8]) -> Result<(), PutFailed>
        ensures sure { IsOk result }
        ensures count { bytes_counted self.new ≡ min (bytes_counted self.old + length bytes.now) last_count }
    {
        self.count = self.count.saturating_add(bytes.len() as u64);
        Ok(())
    }
}
