//! How many rows were run, and for how many of them the line was reported.
use std::io;

/// How many rows were run since the last remark, and for how many the line was reported.
#[derive(Clone, Copy)]
pub struct Tally {
    rows: u32,
    told: u32,
}

impl Tally {
    /// No rows.
    pub const NONE: Tally = Tally { rows: 0, told: 0 };

    /// One more row.
    pub fn with(self, is_told: bool) -> Tally {
        Tally {
            rows: self.rows.saturating_add(1),
            told: self.told.saturating_add(u32::from(is_told)),
        }
    }

    /// Prints the numbers, where there were rows.
    pub fn print(self, rt: &HostRuntime) -> io::Result<()> {
        if self.rows > 0 {
            println!(rt; "{} of {} rows", self.told, self.rows)?;
        }
        Ok(())
    }
}
